//! The cell that holds the first verdict, and what became of a verdict that was raised.
ghost use Rattle.std.specs.Prelude.{◌≡◌, IfNone, IfSome, None, Some};
ghost use Rattle.once_cell.specs.Once.{Agrees};
ghost use Rattle.rv_verdict.specs.Known.{StillKnows};
ghost use Rattle.rv_verdict.specs.Raising.{AfterRaise};

use crate::note::{VerdictNote, compare};
use once_cell::race::OnceBox;
use rv_cert::Verdict;
use std::alloc::Global;
use std::marker::Model;

/// A verdict that is set at most once, and then stays for ever.
///
/// Contracts see a cell as its name, a number that tells cells apart and does not change. What it
/// holds no clause can say, since other threads may set it at any time; a [`VerdictNote`] says what
/// its owner has learned of it.
#[derive(Drop)]
pub struct VerdictCell {
    inner: OnceBox<Verdict>,
}

impl Model for VerdictCell {
    ghost use Rattle.std.specs.Prelude.{ℕ};
    ghost use Rattle.once_cell.specs.Once.{cell_name};

    ghost Value = { ℕ };

    ghost view = { λ c. cell_name c.inner };
}

/// What became of a verdict that was raised.
#[derive(Drop, Debug)]
pub enum Raise {
    /// The cell was empty and holds the verdict now, for ever. The note knows it.
    Raised,
    /// The cell holds another, which stays. The note knows that one. Here is the one that was
    /// passed.
    Kept(Verdict),
    /// There was no memory for it: neither the cell nor the note has changed. Here is the one that
    /// was passed.
    NoMemory(Verdict),
}

impl VerdictCell {
    /// An empty cell, with a name of its own.
    ///
    /// It takes no memory; the cell keeps the allocator. No clause says that it is empty or that no
    /// other cell has its name: a `raise` or `read` that finds it empty is tested.
    pub fn new(alloc: Global) -> VerdictCell {
        VerdictCell {
            inner: OnceBox::new(alloc),
        }
    }

    /// A note of this cell that knows nothing yet. It takes no memory.
    pub fn note(&self) -> VerdictNote
        ensures cell { result.cell ≡ self.now }
        ensures verdict { result.verdict ≡ None }
    {
        VerdictNote {
            inner: self.inner.note(),
        }
    }

    /// Puts the verdict into the cell, unless it holds one already. The note is to be of this cell.
    ///
    /// - `Raised` comes only where the note knew no verdict, and leaves it knowing the one passed.
    /// - `Kept` hands back the one passed, and leaves the note knowing the cell's own, which is the
    ///   one that it knew before if it knew any.
    /// - `NoMemory` hands back the one passed, and leaves the cell and the note as they were.
    ///
    /// After each answer the note is of the same cell and knows what it knew. That an empty cell is
    /// set where there is memory, and that `Kept` comes from a full one alone, is not promised but
    /// tested.
    pub fn raise(&self, alloc: Global, note: &mut VerdictNote, verdict: Verdict) -> Raise
        requires { note.old.cell ≡ self.now }
        ensures keeps { StillKnows note.old note.new }
        ensures raise { AfterRaise verdict note.old.verdict note.new.verdict result }
    {
        match Box::new(alloc, verdict) {
            Ok(boxed) => match self.inner.set_as(boxed, &mut note.inner) {
                Ok(()) => Raise::Raised,
                Err(back) => Raise::Kept(Box::into_inner(back)),
            },
            Err(refused) => Raise::NoMemory(refused.value),
        }
    }

    /// The cell's verdict, if it was found to hold one. The note is to be of this cell. It takes no
    /// memory.
    ///
    /// A verdict that it gives is known to the note afterwards, and is the one that the note knew
    /// before if it knew any. `None` comes only where the note knew none, and leaves it so. Since a
    /// cell is set once for ever, a note that knows a verdict gets that one each time. That a new
    /// note finds what another thread has set is not promised but tested.
    pub fn read<'a>(&'a self, note: &mut VerdictNote) -> Option<&'a Verdict>
        requires { note.old.cell ≡ self.now }
        ensures keeps { StillKnows note.old note.new }
        ensures nothing { IfNone result ((note.old.verdict ≡ None) × (note.new.verdict ≡ None)) }
        ensures known { IfSome result (λ v. note.new.verdict ≡ Some v.now) }
        ensures agrees { IfSome result (λ v. Agrees note.old.verdict v.now) }
    {
        self.inner.get_as(&mut note.inner)
    }

    /// Two notes of this cell that know a verdict know the same one, whichever threads made them.
    ///
    /// Both notes are to be of this cell. The call changes nothing and takes no memory; it is made
    /// for its promise.
    pub fn agree(&self, one: &VerdictNote, other: &VerdictNote)
        requires one { one.now.cell ≡ self.now }
        requires other { other.now.cell ≡ self.now }
        ensures { IfSome one.now.verdict (λ v. IfSome other.now.verdict (λ w. v ≡ w)) }
    {
        compare(&one.inner, &other.inner);
    }
}
