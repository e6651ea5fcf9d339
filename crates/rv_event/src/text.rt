//! Events as text: the row of a trace that says an event.
ghost use Rattle.std.specs.Prelude.{Some};
ghost use Rattle.rv_event.specs.Rows.{dep_text, deps_text, event_text, marks_text, number_text};
ghost use Rattle.rv_event.specs.Rows.{op_text, set_text};

use crate::event::{Dep, DepKind, Deps, Event, Op, Set};
use std::fmt;

/// A field that is a number where the operation has it, and else blank.
#[derive(Clone, Copy)]
struct Field {
    has: bool,
    number: u32,
}

/// The field of an operation's annotations.
#[derive(Clone, Copy)]
struct Marks {
    op: Op,
    acquire: bool,
    release: bool,
}

impl fmt::Display for Set {
    ghost output = { λ s. Some (set_text s) };

    fn fmt<W: fmt::Write>(&self, f: &mut fmt::Formatter<W>) -> fmt::Result {
        match self {
            Set::R => write!(f, "r"),
            Set::W => write!(f, "w"),
            Set::Rw => write!(f, "rw"),
        }
    }
}

/// It is printed as the mnemonic of a trace: `L`, `S`, `LR`, `SC`, `SF`, `AMO`, `F`, `FT`, `BR` or
/// `I`.
impl fmt::Display for Op {
    ghost output = { λ o. Some (op_text o) };

    fn fmt<W: fmt::Write>(&self, f: &mut fmt::Formatter<W>) -> fmt::Result {
        match self {
            Op::Load => write!(f, "L"),
            Op::Store => write!(f, "S"),
            Op::Lr => write!(f, "LR"),
            Op::Sc => write!(f, "SC"),
            Op::ScFailed => write!(f, "SF"),
            Op::Amo => write!(f, "AMO"),
            Op::Fence { .. } => write!(f, "F"),
            Op::FenceTso => write!(f, "FT"),
            Op::Branch => write!(f, "BR"),
            Op::Carrier => write!(f, "I"),
        }
    }
}

/// It is printed as a part of a trace's `deps`: a letter and the number of the other event.
impl fmt::Display for Dep {
    ghost output = { λ d. Some (dep_text d) };

    fn fmt<W: fmt::Write>(&self, f: &mut fmt::Formatter<W>) -> fmt::Result {
        let Dep { kind, seq } = *self;
        match kind {
            DepKind::Addr => write!(f, "a{seq}"),
            DepKind::DataOf => write!(f, "d{seq}"),
            DepKind::Ctrl => write!(f, "c{seq}"),
        }
    }
}

/// They are printed as a trace's `deps`, with one space between two.
impl fmt::Display for Deps {
    ghost output = { λ ds. Some (deps_text ds) };

    fn fmt<W: fmt::Write>(&self, f: &mut fmt::Formatter<W>) -> fmt::Result {
        let Some((first, rest)) = self.as_slice().split_first() else {
            return Ok(());
        };
        write!(f, "{first}")?;
        for dep in rest {
            write!(f, " {dep}")?;
        }
        Ok(())
    }
}

impl fmt::Display for Field {
    ghost output = { λ n. Some (number_text n.has n.number) };

    fn fmt<W: fmt::Write>(&self, f: &mut fmt::Formatter<W>) -> fmt::Result {
        if self.has {
            let number = self.number;
            write!(f, "{number}")
        } else {
            Ok(())
        }
    }
}

impl fmt::Display for Marks {
    ghost output = { λ m. Some (marks_text m.op m.acquire m.release) };

    fn fmt<W: fmt::Write>(&self, f: &mut fmt::Formatter<W>) -> fmt::Result {
        match (self.op, self.acquire, self.release) {
            (Op::Fence { pred, succ }, _, _) => write!(f, "{pred}-{succ}"),
            (_, true, true) => write!(f, "AR"),
            (_, true, false) => write!(f, "A"),
            (_, false, true) => write!(f, "R"),
            (_, false, false) => Ok(()),
        }
    }
}

/// It is printed as a row of a trace, with no end of line: eight fields with commas between them.
///
/// A field that the operation does not have is blank. `rv_trace` has the law that a row which says
/// an event is printed as a row that says it too.
impl fmt::Display for Event {
    ghost output = { λ e. Some (event_text e) };

    fn fmt<W: fmt::Write>(&self, f: &mut fmt::Formatter<W>) -> fmt::Result {
        let op = self.op;
        let hart = self.id.hart;
        let seq = self.id.seq;
        let word = Field {
            has: op.has_word(),
            number: self.word,
        };
        let read = Field {
            has: op.is_load(),
            number: self.read,
        };
        let wrote = Field {
            has: op.is_store(),
            number: self.wrote,
        };
        let marks = Marks {
            op,
            acquire: self.acquire,
            release: self.release,
        };
        let deps = &self.deps;
        write!(f, "{hart},{seq},{op},")?;
        write!(f, "{word},{read},{wrote},")?;
        write!(f, "{marks},{deps}")
    }
}
