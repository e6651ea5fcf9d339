//! What no clause says of a cell: that an empty one is set, and that a new note finds what was set.
ghost use Rattle.std.specs.Prelude.{◌≡◌};

use rv_cert::{Certificate, Evidence, Forbidden, Malformed, Verdict, check};
use rv_event::{Deps, Entry, Event, Id, MemoryModel, Op, find_fault, is_well_formed};
use rv_verdict::{Raise, VerdictCell, VerdictNote};
use std::alloc::Global;
use std::process::Abort;
use std::thread;

/// What a test tells verdicts apart by.
#[derive(Clone, Copy, PartialEq, Eq, Debug)]
struct Shape {
    is_forbidden: bool,
    entries: usize,
}

fn shape_of(verdict: &Verdict) -> Shape {
    Shape {
        is_forbidden: matches!(verdict, Verdict::Forbidden(_)),
        entries: verdict.evidence().len(),
    }
}

const MALFORMED: Shape = Shape {
    is_forbidden: false,
    entries: 1,
};

const FORBIDDEN: Shape = Shape {
    is_forbidden: true,
    entries: 2,
};

/// An event of hart 0 and word 0, without dependencies and annotations.
fn entry_of(alloc: Global, seq: u32, op: Op, wrote: u32) -> Entry {
    let event = Event {
        id: Id { hart: 0, seq },
        op,
        word: 0,
        read: 0,
        wrote,
        acquire: false,
        release: false,
        deps: Deps::from_vec(Vec::new(alloc)),
    };
    Entry { source: 0, event }
}

/// The verdict on a log of one store, which writes the initial version.
fn malformed(rt: &impl Abort, alloc: Global) -> Verdict {
    let store = entry_of(alloc, 0, Op::Store, 0);
    let mut log: Vec<Entry> = Vec::new(alloc);
    assert!(rt; is_well_formed(log.as_slice()));
    let fault = find_fault(log.as_slice(), &store).expect(rt, "a fault");
    log.push(store).expect(rt, "memory");
    Verdict::Malformed(Malformed::new(MemoryModel::Rvwmo, Evidence::from_vec(log), fault))
}

/// The verdict on a store and a later load of its hart that returns the initial version.
fn forbidden(rt: &impl Abort, alloc: Global) -> Verdict {
    let store = entry_of(alloc, 0, Op::Store, 1);
    let load = entry_of(alloc, 1, Op::Load, 0);
    let log = vec![in alloc; store, load].expect(rt, "memory");
    let stale = Certificate::Stale {
        load: Id { hart: 0, seq: 1 },
        store: Id { hart: 0, seq: 0 },
    };
    assert!(rt; is_well_formed(log.as_slice()));
    assert!(rt; check(MemoryModel::Rvwmo, log.as_slice(), &stale));
    Verdict::Forbidden(Forbidden::new(MemoryModel::Rvwmo, Evidence::from_vec(log), stale))
}

/// What became of a verdict, with the shape of the one that was handed back.
#[derive(Clone, Copy, PartialEq, Eq, Debug)]
enum Answer {
    Raised,
    Kept(Shape),
    NoMemory(Shape),
}

/// Raises the verdict through the note.
fn raise_by(cell: &VerdictCell, alloc: Global, note: &mut VerdictNote, verdict: Verdict) -> Answer
    requires { note.old.cell ≡ cell.now }
    ensures { note.new.cell ≡ note.old.cell }
{
    match cell.raise(alloc, note, verdict) {
        Raise::Raised => Answer::Raised,
        Raise::Kept(back) => Answer::Kept(shape_of(&back)),
        Raise::NoMemory(back) => Answer::NoMemory(shape_of(&back)),
    }
}

/// Raises the verdict through a new note, and gives the note with what became of it.
fn raise_newly(cell: &VerdictCell, alloc: Global, verdict: Verdict) -> (VerdictNote, Answer)
    ensures { result.0.cell ≡ cell.now }
{
    let mut note = cell.note();
    let answer = raise_by(cell, alloc, &mut note, verdict);
    (note, answer)
}

#[test]
fn an_empty_cell_is_set_and_a_new_note_reads_it(rt: HostRuntime) {
    let alloc = rt.alloc();
    let cell = VerdictCell::new(alloc);
    let mut early = cell.note();
    assert!(rt; cell.read(&mut early).is_none());

    let (mut note, answer) = raise_newly(&cell, alloc, malformed(&rt, alloc));
    assert!(rt; answer == Answer::Raised);
    assert!(rt; cell.read(&mut note).map(shape_of) == Some(MALFORMED));
    assert!(rt; cell.read(&mut cell.note()).map(shape_of) == Some(MALFORMED));
    assert!(rt; cell.read(&mut early).map(shape_of) == Some(MALFORMED));
}

#[test]
fn a_second_verdict_is_handed_back(rt: HostRuntime) {
    let alloc = rt.alloc();
    let cell = VerdictCell::new(alloc);
    let (mut first, answer) = raise_newly(&cell, alloc, forbidden(&rt, alloc));
    assert!(rt; answer == Answer::Raised);

    let (mut second, answer) = raise_newly(&cell, alloc, malformed(&rt, alloc));
    assert!(rt; answer == Answer::Kept(MALFORMED));
    let answer = raise_by(&cell, alloc, &mut first, malformed(&rt, alloc));
    assert!(rt; answer == Answer::Kept(MALFORMED));

    assert!(rt; cell.read(&mut first).map(shape_of) == Some(FORBIDDEN));
    assert!(rt; cell.read(&mut second).map(shape_of) == Some(FORBIDDEN));
}

#[test]
fn two_threads_raise_and_agree(rt: HostRuntime) {
    let alloc = rt.alloc();
    for _round in 0..100u32 {
        let cell = VerdictCell::new(alloc);
        let shared = &cell;
        let (one, two) = (malformed(&rt, alloc), forbidden(&rt, alloc));
        let ((mut first, of_first), (mut second, of_second)) = thread::join(
            &rt,
            move || -> (VerdictNote, Answer)
                ensures { result.0.cell ≡ shared.entry.now }
            { raise_newly(shared, alloc, one) },
            move || -> (VerdictNote, Answer)
                ensures { result.0.cell ≡ shared.entry.now }
            { raise_newly(shared, alloc, two) },
        );
        cell.agree(&first, &second);
        let kept = match (of_first, of_second) {
            (Answer::Raised, Answer::Kept(FORBIDDEN)) => Some(MALFORMED),
            (Answer::Kept(MALFORMED), Answer::Raised) => Some(FORBIDDEN),
            _ => None,
        };
        assert!(rt; kept.is_some(), "{of_first:?} {of_second:?}");
        assert!(rt; cell.read(&mut first).map(shape_of) == kept);
        assert!(rt; cell.read(&mut second).map(shape_of) == kept);
        assert!(rt; cell.read(&mut cell.note()).map(shape_of) == kept);
    }
}
