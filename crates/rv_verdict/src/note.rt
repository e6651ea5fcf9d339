//! Notes of what was seen in a cell.
ghost use Rattle.std.specs.Prelude.{◌≡◌, IfSome};
ghost use Rattle.once_cell.specs.Once.{Agrees};

use once_cell::race::Note;
use rv_cert::Verdict;
use std::marker::Model;

/// What its owner has learned of one cell.
///
/// Contracts see it as the cell's name, and the verdict once it was seen there. What a note knows
/// it never forgets, since a cell is set once for ever. It takes no bytes when the program runs.
/// [`VerdictCell::note`](crate::VerdictCell::note) makes one; each thread has its own.
#[derive(Drop)]
pub struct VerdictNote {
    pub(crate) inner: Note<Verdict>,
}

impl Model for VerdictNote {
    ghost use Rattle.rv_verdict.specs.Known.{Known};

    ghost Value = { Known };

    ghost view = { λ n. record { cell = n.inner.cell; verdict = n.inner.known } };
}

/// Holds two notes of one cell against each other: where both know a verdict, it is the same one.
///
/// No step is taken when the program runs. That the notes agree follows from what they own, by the
/// proof alone.
pub(crate) fn compare(one: &Note<Verdict>, other: &Note<Verdict>)
    requires { other.now.cell ≡ one.now.cell }
    ensures { IfSome other.now.known (Agrees one.now.known) }
{}
