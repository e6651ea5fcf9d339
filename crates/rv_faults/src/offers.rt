//! Out of memory in offers: log and order stay as they were, and the same entry has its answer when
//! it comes again.
use crate::traces::{Class, LitmusTest, entries_of, litmus_tests};
use rv_book::{Book, Offer};
use rv_cert::check;
use rv_event::{Entry, Id, NoMemory};
use std::alloc::Global;
use std::process::Abort;

/// The order of the book, also where one allocation is refused.
pub fn order_of(rt: &impl Abort, book: &Book) -> Vec<Id> {
    match book.order() {
        Ok(order) => order,
        Err(NoMemory) => book.order().expect(rt, "memory"),
    }
}

/// Offers the entry to a book of these entries, and offers it again where memory is refused. A
/// refusal leaves log and order as they were, and the book going.
fn offer_twice(rt: &impl Abort, book: &mut Book, before: &[Entry], entry: &Entry) -> Offer {
    let order = order_of(rt, book);
    match book.offer(entry) {
        Offer::NoMemory => {
            assert!(rt; !book.stopped());
            assert!(rt; book.log() == before);
            assert!(rt; order_of(rt, book) == order);
            book.offer(entry)
        }
        offer => offer,
    }
}

/// Wants the last entry to be accepted or refused, as the execution is. A refusal leaves the log as
/// it was, has all entries as its evidence and, where it is forbidden, a certificate that the
/// checker takes.
fn assert_answer(
    rt: &impl Abort,
    one: &LitmusTest,
    book: &Book,
    entries: &[Entry],
    answer: &Offer,
) {
    let class = match answer {
        Offer::Accepted => Class::Allowed,
        Offer::Forbidden(_) => Class::Forbidden,
        Offer::Malformed(_) => Class::Malformed,
        Offer::Stopped | Offer::NoMemory => panic!(rt; "{}: no answer", one.name),
    };
    assert_eq!(rt; class, one.class, "{}", one.name);
    match answer {
        Offer::Malformed(malformed) => {
            assert_refused(rt, one, book, entries, malformed.evidence());
        }
        Offer::Forbidden(forbidden) => {
            assert_refused(rt, one, book, entries, forbidden.evidence());
            assert!(rt;
                check(one.model, entries, forbidden.certificate()),
                "{}",
                one.name
            );
        }
        _ => assert!(rt; !book.stopped() && book.log() == entries),
    }
}

/// Wants all entries as the evidence, and a book that has stopped with all but the last.
fn assert_refused(
    rt: &impl Abort,
    one: &LitmusTest,
    book: &Book,
    entries: &[Entry],
    evidence: &[Entry],
) {
    assert!(rt; evidence == entries, "{}", one.name);
    assert!(rt; book.stopped() && book.accepted() < entries.len());
    assert!(rt; book.log() == &entries[..book.accepted()]);
}

/// Offers the entries one by one: all but the last are accepted.
fn offer_each(rt: &impl Abort, book: &mut Book, one: &LitmusTest, entries: &[Entry]) {
    for count in 0..entries.len() {
        let answer = offer_twice(rt, book, &entries[..count], &entries[count]);
        if count + 1 == entries.len() {
            assert_answer(rt, one, book, entries, &answer);
        } else {
            assert!(rt; matches!(answer, Offer::Accepted), "{}", one.name);
        }
        drop(answer);
    }
}

/// Offers the entries of the execution to a new book.
fn assert_offers(rt: &impl Abort, alloc: Global, one: &LitmusTest) {
    let entries = entries_of(rt, alloc, one.rows);
    let mut book = Book::new(alloc, one.model);
    offer_each(rt, &mut book, one, entries.as_slice());
    let order = order_of(rt, &book);
    assert_eq!(rt; order.len(), book.operations());
    drop(order);
    drop(book);
    drop(entries);
}

#[test]
fn an_offer_leaves_the_book_as_it_was_if_memory_ran_out(rt: HostRuntime) {
    for one in &litmus_tests(&rt, rt.alloc()) {
        assert_offers(&rt, rt.alloc(), one);
    }
}
