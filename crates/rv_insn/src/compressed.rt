//! The compressed encodings, of 16 bits, as a table like that of the others.

use crate::format::Format::{
    Bare, Ca, CbBranch, CbImmediate, CbShift, Ci, CiDouble, CiLoad, CiShift, CiStack, CiUpper,
    CiWord, Ciw, Cj, CjLink, ClDouble, ClWord, CrAdd, CrJump, CrLink, CrMove, CsDouble, CsWord,
    CssDouble, CssWord,
};
use crate::line::Meaning::{Is, Refused};
use crate::line::Widths::{Both, Only32, Only64};
use crate::line::{Exception, Line};
use crate::operation::Operation::{
    Add, Addi, Addiw, Addw, And, Andi, Beq, Bne, Ebreak, Fld, Flw, Fsd, Fsw, Jal, Jalr, Ld, Lui,
    Lw, Or, Sd, Slli, Srai, Srli, Sub, Subw, Sw, Xor,
};
use crate::undecoded::Undecoded::{Illegal, Reserved};

/// None.
const ANY: Exception = (0, 1);

/// But for 16 zeros.
const NOT_ZERO: Exception = (0x001c, 0x0000);

/// The immediate of C.ADDI4SPN is not 0.
const WIDE_IMMEDIATE: Exception = (0x1fe0, 0x0000);

/// The register is not x0.
const NOT_X0: Exception = (0x0f80, 0x0000);

/// The immediate is not 0.
const IMMEDIATE: Exception = (0x107c, 0x0000);

/// The register is not x2.
const NOT_X2: Exception = (0x0f80, 0x0100);

/// The second register is not x0.
const SECOND: Exception = (0x007c, 0x0000);

/// The encodings of 16 bits, and the operation of 32 bits that each stands for.
#[rattlefmt::skip]
pub(crate) static COMPRESSED: [Line; 57] = [
    Line(0xffff, 0x0000, Both, Refused(Illegal), ANY, ANY),
    Line(0xffe3, 0x0000, Both, Refused(Reserved), NOT_ZERO, ANY),
    Line(0xe003, 0x0000, Both, Is(Addi, Ciw), WIDE_IMMEDIATE, ANY),
    Line(0xe003, 0x2000, Both, Is(Fld, ClDouble), ANY, ANY),
    Line(0xe003, 0x4000, Both, Is(Lw, ClWord), ANY, ANY),
    Line(0xe003, 0x6000, Only32, Is(Flw, ClWord), ANY, ANY),
    Line(0xe003, 0x6000, Only64, Is(Ld, ClDouble), ANY, ANY),
    Line(0xe003, 0x8000, Both, Refused(Reserved), ANY, ANY),
    Line(0xe003, 0xa000, Both, Is(Fsd, CsDouble), ANY, ANY),
    Line(0xe003, 0xc000, Both, Is(Sw, CsWord), ANY, ANY),
    Line(0xe003, 0xe000, Only32, Is(Fsw, CsWord), ANY, ANY),
    Line(0xe003, 0xe000, Only64, Is(Sd, CsDouble), ANY, ANY),
    Line(0xe003, 0x0001, Both, Is(Addi, Ci), ANY, ANY),
    Line(0xe003, 0x2001, Only32, Is(Jal, CjLink), ANY, ANY),
    Line(0xef83, 0x2001, Only64, Refused(Reserved), ANY, ANY),
    Line(0xe003, 0x2001, Only64, Is(Addiw, Ci), NOT_X0, ANY),
    Line(0xe003, 0x4001, Both, Is(Addi, CiLoad), ANY, ANY),
    Line(0xf07f, 0x6001, Both, Refused(Reserved), ANY, ANY),
    Line(0xef83, 0x6101, Both, Is(Addi, CiStack), IMMEDIATE, ANY),
    Line(0xe003, 0x6001, Both, Is(Lui, CiUpper), NOT_X2, IMMEDIATE),
    Line(0xfc03, 0x8001, Only32, Is(Srli, CbShift), ANY, ANY),
    Line(0xfc03, 0x9001, Only32, Refused(Reserved), ANY, ANY),
    Line(0xec03, 0x8001, Only64, Is(Srli, CbShift), ANY, ANY),
    Line(0xfc03, 0x8401, Only32, Is(Srai, CbShift), ANY, ANY),
    Line(0xfc03, 0x9401, Only32, Refused(Reserved), ANY, ANY),
    Line(0xec03, 0x8401, Only64, Is(Srai, CbShift), ANY, ANY),
    Line(0xec03, 0x8801, Both, Is(Andi, CbImmediate), ANY, ANY),
    Line(0xfc63, 0x8c01, Both, Is(Sub, Ca), ANY, ANY),
    Line(0xfc63, 0x8c21, Both, Is(Xor, Ca), ANY, ANY),
    Line(0xfc63, 0x8c41, Both, Is(Or, Ca), ANY, ANY),
    Line(0xfc63, 0x8c61, Both, Is(And, Ca), ANY, ANY),
    Line(0xfc03, 0x9c01, Only32, Refused(Reserved), ANY, ANY),
    Line(0xfc63, 0x9c01, Only64, Is(Subw, Ca), ANY, ANY),
    Line(0xfc63, 0x9c21, Only64, Is(Addw, Ca), ANY, ANY),
    Line(0xfc43, 0x9c41, Only64, Refused(Reserved), ANY, ANY),
    Line(0xe003, 0xa001, Both, Is(Jal, Cj), ANY, ANY),
    Line(0xe003, 0xc001, Both, Is(Beq, CbBranch), ANY, ANY),
    Line(0xe003, 0xe001, Both, Is(Bne, CbBranch), ANY, ANY),
    Line(0xf003, 0x0002, Only32, Is(Slli, CiShift), ANY, ANY),
    Line(0xf003, 0x1002, Only32, Refused(Reserved), ANY, ANY),
    Line(0xe003, 0x0002, Only64, Is(Slli, CiShift), ANY, ANY),
    Line(0xe003, 0x2002, Both, Is(Fld, CiDouble), ANY, ANY),
    Line(0xef83, 0x4002, Both, Refused(Reserved), ANY, ANY),
    Line(0xe003, 0x4002, Both, Is(Lw, CiWord), NOT_X0, ANY),
    Line(0xe003, 0x6002, Only32, Is(Flw, CiWord), ANY, ANY),
    Line(0xef83, 0x6002, Only64, Refused(Reserved), ANY, ANY),
    Line(0xe003, 0x6002, Only64, Is(Ld, CiDouble), NOT_X0, ANY),
    Line(0xffff, 0x8002, Both, Refused(Reserved), ANY, ANY),
    Line(0xf07f, 0x8002, Both, Is(Jalr, CrJump), NOT_X0, ANY),
    Line(0xf003, 0x8002, Both, Is(Add, CrMove), SECOND, ANY),
    Line(0xffff, 0x9002, Both, Is(Ebreak, Bare), ANY, ANY),
    Line(0xf07f, 0x9002, Both, Is(Jalr, CrLink), NOT_X0, ANY),
    Line(0xf003, 0x9002, Both, Is(Add, CrAdd), SECOND, ANY),
    Line(0xe003, 0xa002, Both, Is(Fsd, CssDouble), ANY, ANY),
    Line(0xe003, 0xc002, Both, Is(Sw, CssWord), ANY, ANY),
    Line(0xe003, 0xe002, Only32, Is(Fsw, CssWord), ANY, ANY),
    Line(0xe003, 0xe002, Only64, Is(Sd, CssDouble), ANY, ANY),
];
