//! What the program is to do.
use crate::ending::Ending;
use crate::form::Form;
use rv_cli::Asked;

/// What the program is to do.
#[derive(Drop)]
pub enum Work {
    /// It has come to its end, which is printed in this form.
    Ended(Ending, Form),
    /// The traces of a list are to be judged, with these settings.
    Many(Asked),
}
