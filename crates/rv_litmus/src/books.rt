//! The book over the litmus tests: what it accepts, what it refuses, and with which certificate.
//!
//! Here as in other tests books and histories are let go by a call: where a scope ends, the proof
//! would take them apart, field by field.
use crate::allowed::{AllowedTest, allowed};
use crate::carriers::{carrier_allowed, carrier_circles};
use crate::circles::{ForbiddenTest, circles, total_store_circles};
use crate::refused::{STALE, TAKEN};
use crate::rows::{Row, event_of, id};
use rv_book::{Book, Offer};
use rv_cert::{Certificate, Forbidden, confirm};
use rv_event::{Entry, Fault, Id, MemoryModel, Reason};
use std::alloc::Global;
use std::process::Abort;

/// The row as an entry of source 0.
fn entry_of(rt: &impl Abort, alloc: Global, row: &Row) -> Entry {
    let event = event_of(alloc, row).expect(rt, "memory");
    Entry { source: 0, event }
}

/// A book that has accepted the rows.
pub fn book_of(rt: &impl Abort, alloc: Global, model: MemoryModel, rows: &[Row]) -> Book {
    let mut book = Book::new(alloc, model);
    for row in rows {
        let entry = entry_of(rt, alloc, row);
        assert!(rt; matches!(book.offer(&entry), Offer::Accepted));
    }
    book
}

/// A book that has taken the execution goes on, and counts what the test says.
fn assert_counted(rt: &impl Abort, test: &AllowedTest, book: &Book) {
    assert_eq!(rt; book.accepted(), test.rows.len(), "{}", test.name);
    assert_eq!(rt; book.operations(), test.operations, "{}", test.name);
    assert_eq!(rt; book.waiting(), test.waiting, "{}", test.name);
    assert!(rt;
        !book.stopped() && book.model() == test.model,
        "{}",
        test.name
    );
    let order = book.order().expect(rt, "memory");
    assert_eq!(rt; order.len(), test.operations, "{}", test.name);
}

#[test]
fn allowed_executions_are_accepted_and_counted(rt: HostRuntime) {
    for test in allowed() {
        let book = book_of(&rt, rt.alloc(), test.model, test.rows);
        assert_counted(&rt, test, &book);
        drop(book);
    }
}

/// The rows with those of the highest hart first.
fn from_the_last_hart(rt: &impl Abort, alloc: Global, rows: &[Row]) -> Vec<Row> {
    let mut sorted = Vec::new(alloc);
    for hart in (0..16).rev() {
        for row in rows.iter().filter(|row| row.hart == hart) {
            sorted.push(*row).expect(rt, "memory");
        }
    }
    sorted
}

/// The rows by their numbers in their harts: the first row of each hart, then the second of each,
/// and so on.
fn in_turn(rt: &impl Abort, alloc: Global, rows: &[Row]) -> Vec<Row> {
    let mut sorted = Vec::new(alloc);
    for seq in 0..8 {
        for row in rows.iter().filter(|row| row.seq == seq) {
            sorted.push(*row).expect(rt, "memory");
        }
    }
    sorted
}

/// The rows of the execution are accepted in this order.
fn assert_accepted(rt: &impl Abort, alloc: Global, test: &AllowedTest, rows: &[Row]) {
    let book = book_of(rt, alloc, test.model, rows);
    assert!(rt; book.accepted() == test.rows.len(), "{}", test.name);
    assert!(rt; book.waiting() == test.waiting, "{}", test.name);
    drop(book);
}

#[test]
fn allowed_executions_are_accepted_in_other_orders_too(rt: HostRuntime) {
    for test in allowed() {
        let rows = from_the_last_hart(&rt, rt.alloc(), test.rows);
        assert_accepted(&rt, rt.alloc(), test, rows.as_slice());
        let rows = in_turn(&rt, rt.alloc(), test.rows);
        assert_accepted(&rt, rt.alloc(), test, rows.as_slice());
    }
}

/// How an entry is refused.
#[derive(Clone, Copy)]
enum Refusal {
    /// As forbidden, by a circle of just these steps.
    Circle(&'static [(Id, Reason)]),
    /// As forbidden, as the load read below the store.
    Stale { load: Id, store: Id },
    /// As malformed, with this fault.
    Malformed(Fault),
}

/// Whether the verdict is about a circle of just these steps, and the checker confirms it.
fn is_by_circle(forbidden: &Forbidden, steps: &[(Id, Reason)]) -> bool {
    let Certificate::Circle(circle) = forbidden.certificate() else {
        return false;
    };
    circle.as_slice() == steps
        && confirm(
            forbidden.model(),
            forbidden.evidence(),
            forbidden.certificate(),
        )
}

/// Whether the verdict is that the load read below the store.
fn is_stale(forbidden: &Forbidden, above: Id, below: Id) -> bool {
    let Certificate::Stale { load, store } = forbidden.certificate() else {
        return false;
    };
    *load == above && *store == below && forbidden.refused() == above
}

/// Whether the offer refuses its entry so.
fn is_refused_as(offer: &Offer, refusal: Refusal) -> bool {
    match (offer, refusal) {
        (Offer::Forbidden(forbidden), Refusal::Circle(steps)) => is_by_circle(forbidden, steps),
        (Offer::Forbidden(forbidden), Refusal::Stale { load, store }) => {
            is_stale(forbidden, load, store)
        }
        (Offer::Malformed(malformed), Refusal::Malformed(fault)) => malformed.fault() == fault,
        _ => false,
    }
}

/// Whether the book refuses the entry so, and is stopped from then on.
fn refuses(book: &mut Book, entry: &Entry, refusal: Refusal) -> bool {
    let offer = book.offer(entry);
    let again = book.offer(entry);
    is_refused_as(&offer, refusal) && book.stopped() && matches!(again, Offer::Stopped)
}

/// The book accepts all rows but the last, refuses that one so, and is stopped from then on.
fn assert_refused(
    rt: &impl Abort,
    alloc: Global,
    name: &str,
    (model, rows): (MemoryModel, &[Row]),
    refusal: Refusal,
) {
    let (last, before) = rows.split_last().expect(rt, "a row");
    let mut book = book_of(rt, alloc, model, before);
    let entry = entry_of(rt, alloc, last);
    assert!(rt; refuses(&mut book, &entry, refusal), "{name}");
    assert!(rt; book.accepted() == before.len(), "{name}");
    drop(book);
}

/// The last row of the execution is refused by its circle.
fn assert_circle(rt: &impl Abort, alloc: Global, circle: &ForbiddenTest) {
    let refusal = Refusal::Circle(circle.edges);
    assert_refused(rt, alloc, circle.name, (circle.model, circle.rows), refusal);
}

#[test]
fn forbidden_executions_are_refused_with_their_circle(rt: HostRuntime) {
    for circle in circles() {
        if circle.name != "no forwarding from an AMO, by the higher rule" {
            assert_circle(&rt, rt.alloc(), circle);
        }
    }
    for circle in total_store_circles() {
        assert_circle(&rt, rt.alloc(), circle);
    }
}

#[test]
fn executions_with_carriers_are_accepted_and_refused(rt: HostRuntime) {
    for test in carrier_allowed() {
        let book = book_of(&rt, rt.alloc(), test.model, test.rows);
        assert_counted(&rt, test, &book);
        drop(book);
    }
    for circle in carrier_circles() {
        assert_circle(&rt, rt.alloc(), circle);
    }
}

#[test]
fn a_stale_load_is_refused_with_its_store(rt: HostRuntime) {
    let refusal = Refusal::Stale {
        load: id!(0: 1),
        store: id!(0: 0),
    };
    let rows = (MemoryModel::Rvwmo, STALE.as_slice());
    assert_refused(&rt, rt.alloc(), "a stale load", rows, refusal);
}

#[test]
fn a_malformed_entry_is_refused_with_its_fault(rt: HostRuntime) {
    let refusal = Refusal::Malformed(Fault::VersionTaken(id!(0: 0)));
    let rows = (MemoryModel::Rvwmo, TAKEN.as_slice());
    assert_refused(&rt, rt.alloc(), "a version that is taken", rows, refusal);
}
