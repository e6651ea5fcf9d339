//! Verdicts over the litmus tests: what they name, and that a copy is equal.
use crate::circles::{ForbiddenTest, circles, total_store_circles};
use crate::rows::{Bits, Row, X, event_of, id, log_of, row, store};
use rv_cert::{Certificate, Circle, Evidence, Forbidden, Malformed, Verdict, check};
use rv_event::{Entry, Fault, Id, MemoryModel, NoMemory, Op, find_fault, is_well_formed};
use std::alloc::Global;
use std::process::Abort;

/// The verdict on a test circle.
fn forbidden(rt: &impl Abort, alloc: Global, circle: &ForbiddenTest) -> Forbidden {
    let log = log_of(alloc, circle.rows).expect(rt, "memory");
    let steps = Vec::from_slice(alloc, circle.edges).expect(rt, "memory");
    let certificate = Certificate::Circle(Circle::from_vec(steps));
    assert!(rt; is_well_formed(log.as_slice()), "{}", circle.name);
    assert!(rt;
        check(circle.model, log.as_slice(), &certificate),
        "{}",
        circle.name
    );
    Forbidden::new(circle.model, Evidence::from_vec(log), certificate)
}

/// The id of the last entry.
fn last_id(log: &[Entry]) -> Option<Id> {
    log.last().map(|entry| entry.event.id)
}

/// Holds a copy of the verdict beside it.
fn assert_copied(rt: &impl Abort, alloc: Global, verdict: &Verdict) {
    let copy = verdict.copy(alloc).expect(rt, "memory");
    assert!(rt; copy.evidence() == verdict.evidence());
    assert_eq!(rt; copy.model(), verdict.model());
    assert_eq!(rt; copy.refused(), verdict.refused());
    assert_eq!(rt; Some(verdict.refused()), last_id(verdict.evidence()));
}

#[test]
fn forbidden_verdicts_name_the_last_entry(rt: HostRuntime) {
    for circle in circles() {
        let verdict = Verdict::Forbidden(forbidden(&rt, rt.alloc(), circle));
        assert_copied(&rt, rt.alloc(), &verdict);
        assert_eq!(rt; verdict.model(), MemoryModel::Rvwmo);
    }
    for circle in total_store_circles() {
        let verdict = Verdict::Forbidden(forbidden(&rt, rt.alloc(), circle));
        assert_copied(&rt, rt.alloc(), &verdict);
        assert_eq!(rt; verdict.model(), MemoryModel::Ztso);
    }
}

/// The verdict on an entry that has a fault over no entries.
fn malformed(alloc: Global, entry: Entry) -> Result<Option<Malformed>, NoMemory> {
    let Some(fault) = find_fault(&[], &entry) else {
        return Ok(None);
    };
    let mut log = Vec::new(alloc);
    log.push(entry)?;
    Ok(Some(Malformed::new(MemoryModel::Rvwmo, Evidence::from_vec(log), fault)))
}

#[test]
fn a_malformed_verdict_names_its_fault(rt: HostRuntime) {
    let event = event_of(rt.alloc(), &store!(3: 0, X = 0)).expect(&rt, "memory");
    let found = malformed(rt.alloc(), Entry { source: 1, event }).expect(&rt, "memory");
    let malformed = found.expect(&rt, "a fault");
    assert_eq!(rt; malformed.fault(), Fault::VersionZero);
    let verdict = Verdict::Malformed(malformed);
    assert_copied(&rt, rt.alloc(), &verdict);
    assert_eq!(rt; verdict.refused(), id!(3: 0));
}
