//! Where loads read from.
ghost use Rattle.std.specs.Prelude.{◌≡◌, ◌&&◌, IfOk, count_by};
ghost use Rattle.rv_event.specs.Log.{events};
ghost use Rattle.rv_event.specs.Operations.{is_load};
ghost use Rattle.rv_coverage.specs.Counts.{origin_of, origins, read_counts, same_origin};

use crate::feature::{Count, Feature, Origin};
use rv_book::Book;
use rv_event::{Event, NoMemory};
use std::alloc::Global;

/// Where a load got what it returned.
fn origin_of(book: &Book, load: &Event) -> Origin
    ensures { result ≡ origin_of (events book.now.log) load.now }
{
    if load.read == 0 {
        return Origin::Initial;
    }
    match book.writer(load.word, load.read) {
        None => Origin::Waiting,
        Some(store) if store.hart == load.id.hart => Origin::Own,
        Some(_) => Origin::Other,
    }
}

/// How many loads read from there.
fn count_reads(book: &Book, origin: Origin) -> usize
    ensures { result ≡ count_by
        (λ x. is_load x.event.op && same_origin origin (origin_of (events book.now.log) x.event)) book.now.log }
{
    book.log()
        .iter()
        .filter(|x| x.event.op.is_load() && origin_of(book, &x.event) == origin)
        .count()
}

/// Where loads may read from.
fn origins() -> [Origin; 4]
    ensures { result ≡ origins }
{
    [Origin::Initial, Origin::Own, Origin::Other, Origin::Waiting]
}

/// How many loads read from where. It costs four look-ups for each load.
///
/// # Errors
/// `NoMemory` where the list could not be had.
pub fn read_counts(alloc: Global, book: &Book) -> Result<Vec<Count>, NoMemory>
    ensures { IfOk result (λ counts. counts.items ≡ read_counts book.now.log) }
{
    let mut counts = Vec::new(alloc);
    'origins: for origin in origins() {
        let feature = Feature::Read(origin);
        let count = count_reads(book, origin);
        counts.push(Count { feature, count })?;
    }
    Ok(counts)
}
