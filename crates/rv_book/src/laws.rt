//! Laws over the definitions alone. Each function does nothing: its contract is the law.
ghost use Rattle.rv_book.specs.Chunked.{ChunksContinue};

/// Where a log's entries of a source are the beginning of a list, and an offered chunk holds the
/// list's events from its place on, they are its beginning afterwards too, longer by exactly the
/// events that were applied.
pub fn chunks_continue()
    ensures { ChunksContinue }
{}
