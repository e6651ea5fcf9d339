//! The forms of a text.
ghost use Rattle.std.specs.Prelude.{◌≡◌};
ghost use Rattle.rv_c.specs.Replies.{form_of};

/// A form of a text.
#[derive(Clone, Copy, PartialEq, Eq, Debug)]
pub enum Form {
    /// The report.
    Report,
    /// The report as a line of JSON.
    Json,
    /// The report, and behind it why an event was refused.
    Explained,
}

/// The form of a number.
pub fn form_of(code: u8) -> Option<Form>
    ensures { result ≡ form_of code }
{
    match code {
        0 => Some(Form::Report),
        1 => Some(Form::Json),
        2 => Some(Form::Explained),
        _ => None,
    }
}
