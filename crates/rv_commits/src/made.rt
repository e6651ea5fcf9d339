//! The operations that instructions make.
ghost use Rattle.std.specs.Prelude.{◌≡◌};
ghost use Rattle.rv_commits.specs.Made.{by_access, by_operation, fence, has_stored, made, set_of};

use rv_event::{Op, Set};
use rv_insn::{Insn, Operation, is_branch};
use rv_log::{AccessKind, Retired};

/// What an instruction makes in a trace.
#[derive(Clone, Copy, PartialEq, Eq, Debug)]
pub struct Made {
    /// The operation.
    pub op: Op,
    /// Whether it has an acquire annotation.
    pub acquire: bool,
    /// Whether it has a release annotation.
    pub release: bool,
}

/// What a set of a FENCE has of memory: bit 0 writes, bit 1 reads (manual, 2.7).
fn set_of(bits: u8) -> Option<Set>
    ensures { result ≡ set_of bits }
{
    match bits % 4 {
        1 => Some(Set::W),
        2 => Some(Set::R),
        3 => Some(Set::Rw),
        _ => None,
    }
}

/// Whether a store-conditional stored: by its success code, which is 0 (manual, 8.2), or where
/// nothing shows that, by whether the log tells what it stored.
pub fn has_stored(instruction: &Retired) -> bool
    ensures { result ≡ has_stored instruction.now }
{
    match instruction.rdata {
        Some(code) => code == 0,
        None => instruction.wdata.is_some(),
    }
}

/// What an access makes. Bits of an LR or an SC that give it no stronger order than both bits clear
/// (manual, 8.2) are left out.
fn by_access(kind: AccessKind, instruction: &Retired) -> Made
    ensures { result ≡ by_access kind instruction.now }
{
    let Insn {
        acquire,
        release,
        ..
    } = instruction.insn;
    match kind {
        AccessKind::Load => Made {
            op: Op::Load,
            acquire: false,
            release: false,
        },
        AccessKind::Store => Made {
            op: Op::Store,
            acquire: false,
            release: false,
        },
        AccessKind::LoadReserved => Made {
            op: Op::Lr,
            acquire,
            release: acquire && release,
        },
        AccessKind::StoreConditional => Made {
            op: if has_stored(instruction) {
                Op::Sc
            } else {
                Op::ScFailed
            },
            acquire: acquire && release,
            release,
        },
        AccessKind::Amo => Made {
            op: Op::Amo,
            acquire,
            release,
        },
    }
}

/// What a FENCE makes: nothing where it orders no accesses to memory.
fn fence(predecessors: u8, successors: u8) -> Option<Op>
    ensures { result ≡ fence predecessors successors }
{
    let pred = set_of(predecessors)?;
    let succ = set_of(successors)?;
    Some(Op::Fence { pred, succ })
}

/// What an instruction makes that makes no access.
fn by_operation(insn: Insn) -> Option<Op>
    ensures { result ≡ by_operation insn.operation insn }
{
    match insn.operation {
        Operation::Fence => fence(insn.predecessors, insn.successors),
        Operation::FenceTso => Some(Op::FenceTso),
        _ => is_branch(insn).then_some(Op::Branch),
    }
}

/// What an instruction makes in a trace: an access to memory, a fence or a branch; most make
/// nothing.
#[tactic(auto, unfolding(crate::specs::Made::made))]
pub fn made_by(instruction: &Retired) -> Option<Made>
    ensures { result ≡ made instruction.now }
{
    if let Some(access) = instruction.access {
        return Some(by_access(access.kind, instruction));
    }
    let op = by_operation(instruction.insn)?;
    Some(Made {
        op,
        acquire: false,
        release: false,
    })
}
