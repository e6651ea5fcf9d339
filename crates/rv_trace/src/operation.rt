//! The operations of a trace: their texts, their columns and their annotations.
ghost use Rattle.std.specs.Prelude.{◌≡◌, true, IfErr};
ghost use Rattle.rv_trace.specs.Faults.{is_of_text};
ghost use Rattle.rv_trace.specs.Operations.{annotated, bare, fence_sets, mnemonic, ordered};
ghost use Rattle.rv_trace.specs.Steps.{Gives};

use crate::dialect::Dialect;
use crate::fault::FaultKind;
use rv_event::{Op, Set};

/// Which numbers an operation has, and which letters its dependencies may have.
#[derive(Clone, Copy, PartialEq, Eq, Debug)]
pub struct Columns {
    /// A word.
    pub word: bool,
    /// A version that it read.
    pub read: bool,
    /// A version that it wrote.
    pub wrote: bool,
    /// Dependencies of its address.
    pub addr: bool,
    /// Dependencies of the value that it stores.
    pub data_of: bool,
    /// Dependencies of a branch.
    pub ctrl: bool,
}

/// The operation of a row, by its text.
#[derive(Clone, Copy, PartialEq, Eq, Debug)]
pub enum Mnemonic {
    /// `L`.
    Load,
    /// `S`.
    Store,
    /// `LR`.
    Lr,
    /// `SC`.
    Sc,
    /// `SF`.
    ScFailed,
    /// `AMO`.
    Amo,
    /// `F`.
    Fence,
    /// `FT`.
    FenceTso,
    /// `BR`.
    Branch,
    /// `I`.
    Carrier,
}

impl Mnemonic {
    ghost use Rattle.rv_trace.specs.Operations.{columns_of};

    /// What the other fields of its row may be.
    #[inline(always)]
    pub fn columns(self) -> Columns
        ensures { result ≡ columns_of self }
    {
        let none = Columns {
            word: false,
            read: false,
            wrote: false,
            addr: false,
            data_of: false,
            ctrl: false,
        };
        let load = Columns {
            word: true,
            read: true,
            addr: true,
            ..none
        };
        let store = Columns {
            word: true,
            wrote: true,
            addr: true,
            data_of: true,
            ..none
        };
        match self {
            Mnemonic::Load | Mnemonic::Lr => load,
            Mnemonic::Store | Mnemonic::Sc => store,
            Mnemonic::ScFailed => Columns {
                wrote: false,
                ..store
            },
            Mnemonic::Amo => Columns {
                read: true,
                ..store
            },
            Mnemonic::Fence | Mnemonic::FenceTso => none,
            Mnemonic::Branch => Columns { ctrl: true, ..none },
            Mnemonic::Carrier => Columns {
                data_of: true,
                ..none
            },
        }
    }
}

/// The operation that a text names in this dialect.
#[inline(always)]
#[tactic(auto, unfolding(crate::specs::Operations::mnemonic))]
pub fn mnemonic_of(dialect: Dialect, text: &[u8]) -> Result<Mnemonic, FaultKind>
    ensures value { Gives result (mnemonic dialect text.now) }
    ensures kind { IfErr result (λ k. is_of_text k ≡ true) }
{
    match text {
        b"L" => Ok(Mnemonic::Load),
        b"S" => Ok(Mnemonic::Store),
        b"LR" => Ok(Mnemonic::Lr),
        b"SC" => Ok(Mnemonic::Sc),
        b"SF" => Ok(Mnemonic::ScFailed),
        b"AMO" => Ok(Mnemonic::Amo),
        b"F" => Ok(Mnemonic::Fence),
        b"FT" => Ok(Mnemonic::FenceTso),
        b"BR" => Ok(Mnemonic::Branch),
        b"I" if dialect.carriers => Ok(Mnemonic::Carrier),
        _ => Err(FaultKind::Op),
    }
}

/// The two sets of a fence.
#[inline(always)]
#[tactic(auto, unfolding(crate::specs::Operations::fence_sets))]
fn sets_named(text: &[u8]) -> Option<(Set, Set)>
    ensures { result ≡ fence_sets text.now }
{
    match text {
        b"r-r" => Some((Set::R, Set::R)),
        b"r-w" => Some((Set::R, Set::W)),
        b"r-rw" => Some((Set::R, Set::Rw)),
        b"w-r" => Some((Set::W, Set::R)),
        b"w-w" => Some((Set::W, Set::W)),
        b"w-rw" => Some((Set::W, Set::Rw)),
        b"rw-r" => Some((Set::Rw, Set::R)),
        b"rw-w" => Some((Set::Rw, Set::W)),
        b"rw-rw" => Some((Set::Rw, Set::Rw)),
        _ => None,
    }
}

/// An operation that takes no annotation.
#[inline(always)]
fn bare_of(op: Op, text: &[u8]) -> Result<(Op, bool, bool), FaultKind>
    ensures value { Gives result (bare op text.now) }
    ensures kind { IfErr result (λ k. is_of_text k ≡ true) }
{
    if text.is_empty() {
        Ok((op, false, false))
    } else {
        Err(FaultKind::Annotation)
    }
}

/// An operation that may acquire or release.
#[inline(always)]
#[tactic(auto, unfolding(crate::specs::Operations::ordered))]
fn ordered_of(
    op: Op,
    acquires: bool,
    releases: bool,
    text: &[u8],
) -> Result<(Op, bool, bool), FaultKind>
    ensures value { Gives result (ordered op acquires releases text.now) }
    ensures kind { IfErr result (λ k. is_of_text k ≡ true) }
{
    match text {
        b"" => Ok((op, false, false)),
        b"A" if acquires => Ok((op, true, false)),
        b"R" if releases => Ok((op, false, true)),
        b"AR" => Ok((op, true, true)),
        _ => Err(FaultKind::Annotation),
    }
}

/// The operation with its annotation: what it is, whether it acquires and whether it releases.
#[inline(always)]
pub fn annotated_of(name: Mnemonic, text: &[u8]) -> Result<(Op, bool, bool), FaultKind>
    ensures value { Gives result (annotated name text.now) }
    ensures kind { IfErr result (λ k. is_of_text k ≡ true) }
{
    match name {
        Mnemonic::Load => bare_of(Op::Load, text),
        Mnemonic::Store => bare_of(Op::Store, text),
        Mnemonic::Lr => ordered_of(Op::Lr, true, false, text),
        Mnemonic::Sc => ordered_of(Op::Sc, false, true, text),
        Mnemonic::ScFailed => ordered_of(Op::ScFailed, false, true, text),
        Mnemonic::Amo => ordered_of(Op::Amo, true, true, text),
        Mnemonic::Fence => match sets_named(text) {
            Some((pred, succ)) => Ok((Op::Fence { pred, succ }, false, false)),
            None => Err(FaultKind::Annotation),
        },
        Mnemonic::FenceTso => bare_of(Op::FenceTso, text),
        Mnemonic::Branch => bare_of(Op::Branch, text),
        Mnemonic::Carrier => bare_of(Op::Carrier, text),
    }
}
