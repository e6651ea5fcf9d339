//! LitmusTest runs of the machine, and its refusals.
use rv_chunk::pack;
use rv_event::{Deps, Event, Id, Op};
use rv_slotcore::{Act, Answer, Core, SeatState, Step};
use std::alloc::Global;
use std::process::Abort;

/// The words of a chunk of one store.
fn content(rt: &impl Abort, alloc: Global) -> [u64; 58] {
    let event = Event {
        id: Id { hart: 1, seq: 2 },
        op: Op::Store,
        word: 3,
        read: 0,
        wrote: 4,
        acquire: false,
        release: true,
        deps: Deps::from_vec(Vec::new(alloc)),
    };
    let events = vec![in alloc; event].expect(rt, "memory");
    let Ok(chunk) = pack(events.as_slice(), 5, 6) else {
        return [0; 58];
    };
    *chunk.words()
}

/// Steps, and the answer that each is to have.
#[derive(Drop)]
struct Script {
    steps: Vec<Step>,
    answers: Vec<Answer>,
}

impl Script {
    fn new(alloc: Global) -> Script {
        Script {
            steps: Vec::new(alloc),
            answers: Vec::new(alloc),
        }
    }

    fn add(&mut self, rt: &impl Abort, seat: u8, act: Act, answer: Answer) {
        self.steps.push(Step { seat, act }).expect(rt, "memory");
        self.answers.push(answer).expect(rt, "memory");
    }

    /// Runs the steps on the core and compares the answers.
    fn run(&self, rt: &impl Abort, alloc: Global, core: &mut Core) {
        let answers = core.run(alloc, self.steps.as_slice()).expect(rt, "memory");
        assert_eq!(rt; answers.as_slice(), self.answers.as_slice());
    }
}

fn word_of(core: &Core, slot: usize) -> Option<u64> {
    core.slot(slot).map(|state| state.word)
}

#[test]
fn a_slot_is_filled_read_by_two_and_freed_by_the_last(rt: HostRuntime) {
    let alloc = rt.alloc();
    let words = content(&rt, alloc);
    let mut script = Script::new(alloc);
    script.add(&rt, 0, Act::Claim(0), Answer::Filling);
    for place in 0..58usize {
        script.add(&rt, 0, Act::Put(place, words[place]), Answer::Stored);
    }
    script.add(&rt, 0, Act::Publish, Answer::Published);
    script.add(&rt, 1, Act::Pin(0), Answer::Pinned);
    script.add(&rt, 2, Act::Pin(0), Answer::Pinned);
    script.add(&rt, 1, Act::Done, Answer::Finished);
    script.add(&rt, 1, Act::Unpin, Answer::Unpinned(0x7_0000_0004));
    script.add(&rt, 1, Act::Free(0, 0x7_0000_0004), Answer::Held);
    for place in 0..58usize {
        script.add(&rt, 2, Act::Get(place), Answer::Word(words[place]));
    }
    script.add(&rt, 2, Act::Unpin, Answer::Unpinned(0x7_0000_0000));
    script.add(&rt, 2, Act::Free(0, 0x7_0000_0000), Answer::Freed);
    script.add(&rt, 0, Act::Claim(0), Answer::Filling);

    let mut core = Core::new(alloc, 2, 3).expect(&rt, "memory");
    script.run(&rt, alloc, &mut core);
    assert_eq!(rt; word_of(&core, 0), Some(0x9_0000_0000));
    assert_eq!(rt; word_of(&core, 1), Some(0));
    assert_eq!(rt; word_of(&core, 2), None);
    assert_eq!(rt; core.slot(0).map(|slot| slot.content), Some(words));
    drop(core);
    drop(script);
}

#[test]
fn a_new_core_refuses_gets_and_frees(rt: HostRuntime) {
    let alloc = rt.alloc();
    let mut script = Script::new(alloc);
    script.add(&rt, 0, Act::Get(0), Answer::Unfit);
    script.add(&rt, 0, Act::Free(0, 0x3_0000_0000), Answer::Held);
    script.add(&rt, 0, Act::Free(0, 0xffff_ffff_0000_0000), Answer::Worn);
    let mut core = Core::new(alloc, 16, 32).expect(&rt, "memory");
    script.run(&rt, alloc, &mut core);
    assert_eq!(rt; word_of(&core, 0), Some(0));
    drop(core);
    drop(script);
}

#[test]
fn a_stray_seat_may_not_get(rt: HostRuntime) {
    let alloc = rt.alloc();
    let mut core = Core::new(alloc, 16, 32).expect(&rt, "memory");
    let pin = Step {
        seat: 3,
        act: Act::Pin(0),
    };
    assert_eq!(rt; core.step(pin).expect(&rt, "memory"), Answer::Stray);
    assert_eq!(rt; word_of(&core, 0), Some(0x8));
    assert_eq!(rt; core.seat(3).copied(), Some(SeatState::Stray(0)));
    assert_eq!(rt; core.seat(32).copied(), None);
    let get = Step {
        seat: 3,
        act: Act::Get(0),
    };
    assert_eq!(rt; core.step(get).expect(&rt, "memory"), Answer::Unfit);
    drop(core);
}

#[test]
fn what_is_not_admitted_is_unfit(rt: HostRuntime) {
    let alloc = rt.alloc();
    let mut script = Script::new(alloc);
    script.add(&rt, 1, Act::Claim(0), Answer::Unfit);
    script.add(&rt, 0, Act::Claim(2), Answer::Unfit);
    script.add(&rt, 0, Act::Put(0, 1), Answer::Unfit);
    script.add(&rt, 0, Act::Unpin, Answer::Unfit);
    script.add(&rt, 0, Act::Done, Answer::Unfit);
    script.add(&rt, 0, Act::Publish, Answer::Unfit);
    script.add(&rt, 0, Act::Claim(1), Answer::Filling);
    script.add(&rt, 0, Act::Put(58, 1), Answer::Unfit);
    script.add(&rt, 0, Act::Publish, Answer::Unfit);
    for place in 0..58usize {
        script.add(&rt, 0, Act::Put(place, 0), Answer::Stored);
    }
    script.add(&rt, 0, Act::Publish, Answer::Unfit);
    let mut core = Core::new(alloc, 2, 1).expect(&rt, "memory");
    script.run(&rt, alloc, &mut core);
    assert_eq!(rt; word_of(&core, 1), Some(0x1_0000_0000));
    drop(core);
    drop(script);
}
