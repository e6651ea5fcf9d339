//! By what events are told apart: the operation, its annotation, the sets of a fence.
ghost use Rattle.std.specs.Prelude.{◌≡◌, Some, length};
ghost use Rattle.rv_event.specs.declared.event.Op.TheVariants as fence_op;
ghost use Rattle.rv_coverage.specs.Kinds.{annotated, bare, bits_text, has_bits, is_of, kind_of, kind_text, kinds};

use rv_event::{Event, Op, Set};
use std::fmt;

/// What an event does: its operation, with the bits that it may have.
///
/// It is printed in the words of explanations: `load`, `LR.aq`, `fence rw,w`.
#[derive(Clone, Copy, PartialEq, Eq, Debug)]
pub struct Kind {
    /// The operation.
    pub op: Op,
    /// The `aq` bit of an LR, an SC, a failed SC or an AMO; of another operation false.
    pub acquire: bool,
    /// The `rl` bit, alike.
    pub release: bool,
}

impl fmt::Display for Kind {
    ghost output = { λ k. Some (kind_text k) };

    fn fmt<W: fmt::Write>(&self, f: &mut fmt::Formatter<W>) -> fmt::Result {
        let bits = bits_of(self.acquire, self.release);
        match self.op {
            Op::Load => write!(f, "load"),
            Op::Store => write!(f, "store"),
            Op::Lr => write!(f, "LR{bits}"),
            Op::Sc => write!(f, "SC{bits}"),
            Op::ScFailed => write!(f, "failed SC{bits}"),
            Op::Amo => write!(f, "AMO{bits}"),
            Op::Fence { pred, succ } => write!(f, "fence {pred},{succ}"),
            Op::FenceTso => write!(f, "fence.tso"),
            Op::Branch => write!(f, "branch"),
            Op::Carrier => write!(f, "instruction"),
        }
    }
}

/// The acquire and release bits, as the assembler writes them.
fn bits_of(acquire: bool, release: bool) -> &'static str
    ensures { result.now ≡ bits_text acquire release }
{
    match (acquire, release) {
        (true, true) => ".aqrl",
        (true, false) => ".aq",
        (false, true) => ".rl",
        (false, false) => "",
    }
}

/// An operation without bits.
fn bare(op: Op) -> Kind
    ensures { result ≡ bare op }
{
    Kind {
        op,
        acquire: false,
        release: false,
    }
}

/// An operation that acquires, releases, or does both.
fn annotated(op: Op, acquire: bool, release: bool) -> Kind
    ensures { result ≡ annotated op acquire release }
{
    Kind {
        op,
        acquire,
        release,
    }
}

/// A fence between these sets.
fn fence(pred: Set, succ: Set) -> Kind
    ensures { result ≡ bare (fence_op.Fence pred succ) }
{
    bare(Op::Fence { pred, succ })
}

/// Each kind that a trace can have.
pub fn kinds() -> [Kind; 27]
    ensures { result ≡ kinds }
{
    [
        bare(Op::Load),
        bare(Op::Store),
        bare(Op::Lr),
        annotated(Op::Lr, true, false),
        annotated(Op::Lr, true, true),
        bare(Op::Sc),
        annotated(Op::Sc, false, true),
        annotated(Op::Sc, true, true),
        bare(Op::ScFailed),
        annotated(Op::ScFailed, false, true),
        annotated(Op::ScFailed, true, true),
        bare(Op::Amo),
        annotated(Op::Amo, true, false),
        annotated(Op::Amo, false, true),
        annotated(Op::Amo, true, true),
        fence(Set::R, Set::R),
        fence(Set::R, Set::W),
        fence(Set::R, Set::Rw),
        fence(Set::W, Set::R),
        fence(Set::W, Set::W),
        fence(Set::W, Set::Rw),
        fence(Set::Rw, Set::R),
        fence(Set::Rw, Set::W),
        fence(Set::Rw, Set::Rw),
        bare(Op::FenceTso),
        bare(Op::Branch),
        bare(Op::Carrier),
    ]
}

/// Whether an operation may have bits: an LR, an SC, a failed SC or an AMO.
fn has_bits(op: Op) -> bool
    ensures { result ≡ has_bits op }
{
    matches!(op, Op::Lr | Op::Sc | Op::ScFailed | Op::Amo)
}

/// The kind of an event.
pub fn kind_of(event: &Event) -> Kind
    ensures { result ≡ kind_of event.now }
{
    let bits = has_bits(event.op);
    Kind {
        op: event.op,
        acquire: bits && event.acquire,
        release: bits && event.release,
    }
}

/// Whether an event is of a kind.
pub fn is_of(kind: Kind, event: &Event) -> bool
    ensures { result ≡ is_of kind event.now }
{
    kind == kind_of(event)
}
