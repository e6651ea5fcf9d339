//! Chunk texts as the format has them, printed texts, and copies.
use rv_chunk::{Chunk, PackFault, pack, unpack};
use rv_event::{Dep, DepKind, Deps, Entry, Event, Fault, Id, NoMemory, Op, Reason, Set, is_same};
use std::alloc::{AllocError, Global};
use std::process::Abort;

/// An address dependency on the event with this number.
fn address(seq: u32) -> Dep {
    Dep {
        kind: DepKind::Addr,
        seq,
    }
}

/// A load of version 0 of word 0.
fn load(alloc: Global, hart: u8, seq: u32, deps: &[Dep]) -> Result<Event, AllocError> {
    Ok(Event {
        id: Id { hart, seq },
        op: Op::Load,
        word: 0,
        read: 0,
        wrote: 0,
        acquire: false,
        release: false,
        deps: Deps::from_vec(Vec::from_slice(alloc, deps)?),
    })
}

/// Two events: a store of version 1 of word 0, and a load that depends on it.
fn example_events(alloc: Global) -> Result<Vec<Event>, AllocError> {
    let store = Event {
        op: Op::Store,
        wrote: 1,
        ..load(alloc, 0, 0, &[])?
    };
    let next = load(alloc, 1, 1, &[address(0)])?;
    let mut events = Vec::new(alloc);
    events.push(store)?;
    events.push(next)?;
    Ok(events)
}

/// Their chunk text, for source 0 and number 0.
fn example_words() -> [u64; 58] {
    let mut words = [0; 58];
    words[1] = 2;
    words[2] = 0x200;
    words[4] = 0x1_0000_0000;
    words[9] = 0x101;
    words[10] = 1;
    words[12] = 0x4000_0000;
    words
}

/// Their chunk.
fn example_chunk(rt: &impl Abort, alloc: Global) -> Chunk {
    let events = example_events(alloc).expect(rt, "memory");
    pack(events.as_slice(), 0, 0).expect(rt, "a chunk")
}

#[test]
fn example_is_packed(rt: HostRuntime) {
    let chunk = example_chunk(&rt, rt.alloc());
    assert!(rt; *chunk.words() == example_words());
    assert_eq!(rt; chunk.source(), 0);
    assert_eq!(rt; chunk.number(), 0);
    assert_eq!(rt; chunk.count(), 2);
}

#[test]
fn example_is_unpacked(rt: HostRuntime) {
    let chunk = Chunk::of_words(&example_words()).expect(&rt, "a chunk text");
    let events = unpack(rt.alloc(), &chunk).expect(&rt, "memory");
    let expected = example_events(rt.alloc()).expect(&rt, "memory");
    assert!(rt; events.as_slice() == expected.as_slice());
}

#[test]
fn other_words_are_no_chunk(rt: HostRuntime) {
    assert!(rt; Chunk::of_words(&[0; 58]).is_none());
    let mut words = example_words();
    words[57] = 1;
    assert!(rt; Chunk::of_words(&words).is_none());
}

#[test]
fn a_fence_has_its_word(rt: HostRuntime) {
    let event = load(rt.alloc(), 2, 0, &[]).expect(&rt, "memory");
    let op = Op::Fence {
        pred: Set::Rw,
        succ: Set::W,
    };
    let chunk = pack(&[Event { op, ..event }], 0, 0).expect(&rt, "a chunk");
    assert_eq!(rt; chunk.words()[2], 0xb702);
}

/// One load more than a chunk takes.
fn nine_loads(rt: &impl Abort, alloc: Global) -> Vec<Event> {
    let mut nine = Vec::new(alloc);
    for seq in 0..9 {
        let event = load(alloc, 0, seq, &[]).expect(rt, "memory");
        nine.push(event).expect(rt, "memory");
    }
    nine
}

#[test]
fn refusals_to_pack_come_in_order(rt: HostRuntime) {
    assert!(rt; matches!(pack(&[], 9, 0), Err(PackFault::Empty)));
    let nine = nine_loads(&rt, rt.alloc());
    assert!(rt; matches!(pack(nine.as_slice(), 0, 0), Err(PackFault::TooMany)));
    assert!(rt; matches!(pack(nine.as_slice(), 9, 0), Err(PackFault::TooMany)));
    let far = load(rt.alloc(), 0, 0, &[address(1_073_741_824)]).expect(&rt, "memory");
    assert!(rt; matches!(pack(&[far], 0, 0), Err(PackFault::Range)));
}

#[test]
fn the_last_number_of_a_dependency_is_packed(rt: HostRuntime) {
    let last = load(rt.alloc(), 0, 0, &[address(1_073_741_823)]).expect(&rt, "memory");
    assert!(rt; pack(&[last], 7, 4_294_967_295).is_ok());
    let last = load(rt.alloc(), 0, 0, &[]).expect(&rt, "memory");
    assert!(rt; matches!(pack(&[last], 8, 0), Err(PackFault::Range)));
}

#[test]
fn copies_are_equal(rt: HostRuntime) {
    let event = load(rt.alloc(), 3, 5, &[address(4), address(1)]).expect(&rt, "memory");
    let again = event.copy(rt.alloc()).expect(&rt, "memory");
    assert!(rt; is_same(&event, &again));
    let entry = Entry { source: 2, event };
    let again = entry.copy(rt.alloc()).expect(&rt, "memory");
    assert!(rt; entry == again);
}

/// Reasons, each with its text.
const REASONS: [(Reason, &str); 7] = [
    (Reason::Preserved(1), "rule 1"),
    (Reason::Preserved(13), "rule 13"),
    (Reason::Coherence, "coherence"),
    (Reason::ReadsFrom, "reads-from"),
    (Reason::FromRead, "from-read"),
    (Reason::AtomicIn, "atomic-in"),
    (Reason::AtomicOut, "atomic-out"),
];

/// The reasons.
fn reasons() -> &'static [(Reason, &'static str)] {
    &REASONS
}

#[test]
fn reasons_have_their_texts(rt: HostRuntime) -> Result<(), AllocError> {
    for (reason, text) in reasons() {
        let printed = format!(in rt.alloc(); "{reason}")?;
        assert_eq!(rt; printed.as_str(), *text);
    }
    Ok(())
}

/// The last event of the last hart.
const LAST: Id = Id {
    hart: 15,
    seq: 4095,
};

/// The faults, each with its number and its text.
const FAULTS: [(Fault, u8, &str); 9] = [
    (Fault::Hart, 1, "hart"),
    (Fault::Sequence(10), 2, "sequence, expected 10"),
    (Fault::Dependency, 3, "dependency"),
    (Fault::VersionZero, 4, "version zero"),
    (Fault::VersionTaken(LAST), 5, "version taken by h15:4095"),
    (Fault::NoReservation, 6, "no reservation"),
    (Fault::Full, 7, "hart full"),
    (Fault::OtherSource, 8, "other source"),
    (Fault::TooManyDeps, 9, "too many dependencies"),
];

/// The faults.
fn faults() -> &'static [(Fault, u8, &'static str)] {
    &FAULTS
}

#[test]
fn faults_have_their_numbers_and_texts(rt: HostRuntime) -> Result<(), AllocError> {
    for (fault, number, text) in faults() {
        let printed = format!(in rt.alloc(); "{fault}")?;
        assert_eq!(rt; printed.as_str(), *text);
        assert_eq!(rt; fault.number(), *number);
    }
    Ok(())
}

#[test]
fn want_of_memory_is_one_error(rt: HostRuntime) {
    let failed: NoMemory = AllocError.into();
    assert_eq!(rt; failed, NoMemory);
}
