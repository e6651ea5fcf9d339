//! What each operation reads and writes: the listing of the manual's chapter on syntactic
//! dependencies (section 14.3).
ghost use Rattle.std.specs.Prelude.{◌≡◌};
ghost use Rattle.rv_insn.specs.Listing.{listing};
ghost use Rattle.rv_insn.specs.declared.operation.Operation.TheVariants.{Jalr, ScW};

use crate::operation::Operation;
use crate::operation::Operation::*;
use crate::usage::CsrUse::{Change, NoCsr, Swap};
use crate::usage::Operand::{AddressX, DataF, DataX, F, Unused, X};
use crate::usage::Target::{Nowhere, ToF, ToX};
use crate::usage::{Flags, Usage};

/// No flag.
const QUIET: Flags = Flags {
    nx: false,
    uf: false,
    of: false,
    dz: false,
    nv: false,
};

/// Those of a sum.
const ADDS: Flags = Flags {
    nx: true,
    uf: false,
    of: true,
    dz: false,
    nv: true,
};

/// Those of a product.
const MULTIPLIES: Flags = Flags {
    nx: true,
    uf: true,
    of: true,
    dz: false,
    nv: true,
};

/// Those of a quotient.
const DIVIDES: Flags = Flags {
    nx: true,
    uf: true,
    of: true,
    dz: true,
    nv: true,
};

/// Those of a square root or a conversion to an integer.
const CONVERTS: Flags = Flags {
    nx: true,
    uf: false,
    of: false,
    dz: false,
    nv: true,
};

/// That of a comparison.
const COMPARES: Flags = Flags {
    nx: false,
    uf: false,
    of: false,
    dz: false,
    nv: true,
};

/// That of a conversion from an integer.
const ROUNDS: Flags = Flags {
    nx: true,
    uf: false,
    of: false,
    dz: false,
    nv: false,
};

/// Nothing read and nothing written.
const NOTHING: Usage = Usage {
    first: Unused,
    second: Unused,
    third: Unused,
    to: Nowhere,
    carries: true,
    raises: QUIET,
    csr: NoCsr,
};

/// Something new in an x register.
const LINKS: Usage = Usage {
    to: ToX,
    carries: false,
    ..NOTHING
};

/// Of an indirect jump: rd has the address of what follows, and nothing that is read goes on to it.
fn indirect_jump() -> Usage
    ensures { result ≡ listing Jalr }
{
    Usage { first: X, ..LINKS }
}

/// Of an SC or an AMO: rd has the success code, or the value that memory had.
fn conditional_store() -> Usage
    ensures { result ≡ listing ScW }
{
    let answer = ToX;
    Usage {
        first: AddressX,
        second: DataX,
        to: answer,
        carries: false,
        ..NOTHING
    }
}

/// What the operation reads and writes.
pub fn usage_of(operation: Operation) -> Usage
    ensures { result ≡ listing operation }
{
    match operation {
        Beq | Bne | Blt | Bge | Bltu | Bgeu => Usage {
            first: X,
            second: X,
            ..NOTHING
        },
        Jalr => indirect_jump(),
        Jal | Lui | Auipc => Usage { to: ToX, ..NOTHING },
        Lb | Lh | Lw | Ld | Lbu | Lhu | Lwu | LrW | LrD => Usage {
            first: AddressX,
            to: ToX,
            carries: false,
            ..NOTHING
        },
        Sb | Sh | Sw | Sd => Usage {
            first: AddressX,
            second: DataX,
            ..NOTHING
        },
        Addi
        | Slti
        | Sltiu
        | Xori
        | Ori
        | Andi
        | Slli
        | Srli
        | Srai
        | Addiw
        | Slliw
        | Srliw
        | Sraiw => Usage {
            first: X,
            to: ToX,
            ..NOTHING
        },
        Add
        | Sub
        | Sll
        | Slt
        | Sltu
        | Xor
        | Srl
        | Sra
        | Or
        | And
        | Addw
        | Subw
        | Sllw
        | Srlw
        | Sraw => Usage {
            first: X,
            second: X,
            to: ToX,
            ..NOTHING
        },
        Mul
        | Mulh
        | Mulhsu
        | Mulhu
        | Div
        | Divu
        | Rem
        | Remu
        | Mulw
        | Divw
        | Divuw
        | Remw
        | Remuw => Usage {
            first: X,
            second: X,
            to: ToX,
            ..NOTHING
        },
        FenceTso | Fence | FenceI | Ecall | Ebreak | Uret | Sret | Mret | Dret | Wfi | SfenceVma =>
            NOTHING,
        Csrrw => Usage {
            first: X,
            to: ToX,
            csr: Swap,
            ..NOTHING
        },
        Csrrs | Csrrc => Usage {
            first: X,
            to: ToX,
            csr: Change,
            ..NOTHING
        },
        Csrrwi => Usage {
            to: ToX,
            csr: Swap,
            ..NOTHING
        },
        Csrrsi | Csrrci => Usage {
            to: ToX,
            csr: Change,
            ..NOTHING
        },
        ScW
        | AmoswapW
        | AmoaddW
        | AmoxorW
        | AmoandW
        | AmoorW
        | AmominW
        | AmomaxW
        | AmominuW
        | AmomaxuW
        | ScD
        | AmoswapD
        | AmoaddD
        | AmoxorD
        | AmoandD
        | AmoorD
        | AmominD
        | AmomaxD
        | AmominuD
        | AmomaxuD => conditional_store(),
        Flw | Fld => Usage {
            first: AddressX,
            to: ToF,
            carries: false,
            ..NOTHING
        },
        Fsw | Fsd => Usage {
            first: AddressX,
            second: DataF,
            ..NOTHING
        },
        FmaddS | FmsubS | FnmsubS | FnmaddS | FmaddD | FmsubD | FnmsubD | FnmaddD => Usage {
            first: F,
            second: F,
            third: F,
            to: ToF,
            raises: MULTIPLIES,
            ..NOTHING
        },
        FaddS | FsubS | FaddD | FsubD => Usage {
            first: F,
            second: F,
            to: ToF,
            raises: ADDS,
            ..NOTHING
        },
        FmulS | FmulD => Usage {
            first: F,
            second: F,
            to: ToF,
            raises: MULTIPLIES,
            ..NOTHING
        },
        FdivS | FdivD => Usage {
            first: F,
            second: F,
            to: ToF,
            raises: DIVIDES,
            ..NOTHING
        },
        FsqrtS | FsqrtD => Usage {
            first: F,
            to: ToF,
            raises: CONVERTS,
            ..NOTHING
        },
        FsgnjS | FsgnjnS | FsgnjxS | FsgnjD | FsgnjnD | FsgnjxD => Usage {
            first: F,
            second: F,
            to: ToF,
            ..NOTHING
        },
        FminS | FmaxS | FminD | FmaxD => Usage {
            first: F,
            second: F,
            to: ToF,
            raises: COMPARES,
            ..NOTHING
        },
        FleS | FltS | FeqS | FleD | FltD | FeqD => Usage {
            first: F,
            second: F,
            to: ToX,
            raises: COMPARES,
            ..NOTHING
        },
        FclassS | FmvXW | FclassD | FmvXD => Usage {
            first: F,
            to: ToX,
            ..NOTHING
        },
        FmvWX | FmvDX | FcvtDW | FcvtDWu => Usage {
            first: X,
            to: ToF,
            ..NOTHING
        },
        FcvtWS | FcvtWuS | FcvtLS | FcvtLuS | FcvtWD | FcvtWuD | FcvtLD | FcvtLuD => Usage {
            first: F,
            to: ToX,
            raises: CONVERTS,
            ..NOTHING
        },
        FcvtSW | FcvtSWu | FcvtSL | FcvtSLu | FcvtDL | FcvtDLu => Usage {
            first: X,
            to: ToF,
            raises: ROUNDS,
            ..NOTHING
        },
        FcvtSD => Usage {
            first: F,
            to: ToF,
            raises: MULTIPLIES,
            ..NOTHING
        },
        FcvtDS => Usage {
            first: F,
            to: ToF,
            raises: COMPARES,
            ..NOTHING
        },
    }
}
