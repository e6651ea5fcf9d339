//! Laws over the grammar of rows. Each function does nothing: its contract is the law.
ghost use Rattle.rv_trace.specs.Written.{TextsTellEvents, WrittenTracesAreRead};

/// A trace that is written from events, a header and the row that each is printed as, is read as
/// just these events. They are events that some row of one dialect says, and at most 65,536.
pub fn written_traces_are_read()
    ensures { WrittenTracesAreRead }
{}

/// Two events that some rows of one dialect say, and that are printed as the same row, are equal.
pub fn texts_tell_events()
    ensures { TextsTellEvents }
{}
