//! The accesses to memory that operations make.
ghost use Rattle.std.specs.Prelude.{◌≡◌};
ghost use Rattle.rv_log.specs.Accesses.{access};

use rv_insn::Operation;
use rv_insn::Operation::*;

/// What an access does.
#[derive(Clone, Copy, PartialEq, Eq, Debug)]
pub enum AccessKind {
    /// It loads.
    Load,
    /// It stores.
    Store,
    /// It loads, and reserves.
    LoadReserved,
    /// It stores, if the reservation holds.
    StoreConditional,
    /// It loads and stores at once.
    Amo,
}

impl AccessKind {
    ghost use Rattle.std.specs.Prelude.{◌≡◌};
    ghost use Rattle.rv_log.specs.Accesses.{has_rdata, has_wdata};

    /// Whether its record may tell what memory or, of a store-conditional, the register returned.
    pub fn has_rdata(self) -> bool
        ensures { result ≡ has_rdata self }
    {
        self != AccessKind::Store
    }

    /// Whether its record may tell what memory holds after it.
    pub fn has_wdata(self) -> bool
        ensures { result ≡ has_wdata self }
    {
        !matches!(self, AccessKind::Load | AccessKind::LoadReserved)
    }
}

/// An access to memory.
#[derive(Clone, Copy, PartialEq, Eq, Debug)]
pub struct Access {
    /// What it does.
    pub kind: AccessKind,
    /// How many bytes it is of: 1, 2, 4 or 8.
    pub size: u8,
}

/// The access that an operation makes (manual, 2.6, 5.3, 8.2, 8.4, 11.5 and 12.3), if it makes one.
pub fn access_of(operation: Operation) -> Option<Access>
    ensures { result ≡ access operation }
{
    let (kind, size) = match operation {
        Lb | Lbu => (AccessKind::Load, 1),
        Lh | Lhu => (AccessKind::Load, 2),
        Lw | Lwu | Flw => (AccessKind::Load, 4),
        Ld | Fld => (AccessKind::Load, 8),
        Sb => (AccessKind::Store, 1),
        Sh => (AccessKind::Store, 2),
        Sw | Fsw => (AccessKind::Store, 4),
        Sd | Fsd => (AccessKind::Store, 8),
        LrW => (AccessKind::LoadReserved, 4),
        LrD => (AccessKind::LoadReserved, 8),
        ScW => (AccessKind::StoreConditional, 4),
        ScD => (AccessKind::StoreConditional, 8),
        AmoswapW | AmoaddW | AmoxorW | AmoandW | AmoorW | AmominW | AmomaxW | AmominuW | AmomaxuW =>
            (AccessKind::Amo, 4),
        AmoswapD | AmoaddD | AmoxorD | AmoandD | AmoorD | AmominD | AmomaxD | AmominuD | AmomaxuD =>
            (AccessKind::Amo, 8),
        _ => return None,
    };
    Some(Access { kind, size })
}
