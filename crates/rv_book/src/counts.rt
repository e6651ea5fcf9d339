//! What a book counts in its log.
ghost use Rattle.std.specs.Prelude.{◌≡◌};
ghost use Rattle.rv_book.specs.Counts.{operations_of};

use rv_event::Entry;

/// How many entries are memory operations.
pub fn count_operations(log: &[Entry]) -> usize
    ensures { result ≡ operations_of log.now }
{
    log.iter().filter(|x| x.event.op.is_memory()).count()
}
