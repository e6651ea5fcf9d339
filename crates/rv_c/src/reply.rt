//! What each call says.
ghost use Rattle.std.specs.Prelude.{◌≡◌};
ghost use Rattle.rv_c.specs.Replies.{code_of, reply_of};

use rv_monitor::Answer;

/// What a call says. C sees the number of it.
#[derive(Clone, Copy, PartialEq, Eq, Debug)]
pub enum Reply {
    /// The call did what it is for; of an event, some order is lawful for all so far.
    Accepted,
    /// The event has a fault over those before it. The monitor has stopped.
    Malformed,
    /// No order is lawful for the events so far and this one. The monitor has stopped.
    Forbidden,
    /// The monitor had stopped.
    Stopped,
    /// Memory was refused. The call may be made again.
    NoMemory,
    /// No monitor is open.
    NotOpen,
    /// A monitor is open already.
    AlreadyOpen,
    /// The number names no memory model.
    UnknownModel,
    /// The number names no operation, or one of the two sets of a fence.
    UnknownOperation,
    /// There are more than eight dependencies.
    TooManyDependencies,
    /// The number names no kind of dependency.
    UnknownDependency,
    /// The number names no form of a text.
    UnknownForm,
    /// The buffer has no room for the text.
    TooShort,
}

impl Reply {
    /// Its number for C.
    pub fn code(self) -> u8
        ensures { result ≡ code_of self }
    {
        match self {
            Reply::Accepted => 0,
            Reply::Malformed => 1,
            Reply::Forbidden => 2,
            Reply::Stopped => 3,
            Reply::NoMemory => 4,
            Reply::NotOpen => 5,
            Reply::AlreadyOpen => 6,
            Reply::UnknownModel => 7,
            Reply::UnknownOperation => 8,
            Reply::TooManyDependencies => 9,
            Reply::UnknownDependency => 10,
            Reply::UnknownForm => 11,
            Reply::TooShort => 12,
        }
    }
}

/// The reply of an answer.
pub fn reply_of(answer: Answer) -> Reply
    ensures { result ≡ reply_of answer }
{
    match answer {
        Answer::Accepted => Reply::Accepted,
        Answer::Malformed => Reply::Malformed,
        Answer::Forbidden => Reply::Forbidden,
        Answer::Stopped => Reply::Stopped,
        Answer::NoMemory => Reply::NoMemory,
    }
}
