//! The operations.

/// What an instruction does: the manual's mnemonics, of the forms with 32 bits.
#[derive(Clone, Copy, PartialEq, Eq, Debug)]
pub enum Operation {
    /// `beq`
    Beq,
    /// `bne`
    Bne,
    /// `blt`
    Blt,
    /// `bge`
    Bge,
    /// `bltu`
    Bltu,
    /// `bgeu`
    Bgeu,
    /// `jalr`
    Jalr,
    /// `jal`
    Jal,
    /// `lui`
    Lui,
    /// `auipc`
    Auipc,
    /// `lb`
    Lb,
    /// `lh`
    Lh,
    /// `lw`
    Lw,
    /// `ld`
    Ld,
    /// `lbu`
    Lbu,
    /// `lhu`
    Lhu,
    /// `lwu`
    Lwu,
    /// `sb`
    Sb,
    /// `sh`
    Sh,
    /// `sw`
    Sw,
    /// `sd`
    Sd,
    /// `addi`
    Addi,
    /// `slti`
    Slti,
    /// `sltiu`
    Sltiu,
    /// `xori`
    Xori,
    /// `ori`
    Ori,
    /// `andi`
    Andi,
    /// `slli`
    Slli,
    /// `srli`
    Srli,
    /// `srai`
    Srai,
    /// `add`
    Add,
    /// `sub`
    Sub,
    /// `sll`
    Sll,
    /// `slt`
    Slt,
    /// `sltu`
    Sltu,
    /// `xor`
    Xor,
    /// `srl`
    Srl,
    /// `sra`
    Sra,
    /// `or`
    Or,
    /// `and`
    And,
    /// `addiw`
    Addiw,
    /// `slliw`
    Slliw,
    /// `srliw`
    Srliw,
    /// `sraiw`
    Sraiw,
    /// `addw`
    Addw,
    /// `subw`
    Subw,
    /// `sllw`
    Sllw,
    /// `srlw`
    Srlw,
    /// `sraw`
    Sraw,
    /// `fence.tso`
    FenceTso,
    /// `fence`
    Fence,
    /// `fence.i`
    FenceI,
    /// `ecall`
    Ecall,
    /// `ebreak`
    Ebreak,
    /// `uret`
    Uret,
    /// `sret`
    Sret,
    /// `mret`
    Mret,
    /// `dret`
    Dret,
    /// `wfi`
    Wfi,
    /// `sfence.vma`
    SfenceVma,
    /// `csrrw`
    Csrrw,
    /// `csrrs`
    Csrrs,
    /// `csrrc`
    Csrrc,
    /// `csrrwi`
    Csrrwi,
    /// `csrrsi`
    Csrrsi,
    /// `csrrci`
    Csrrci,
    /// `mul`
    Mul,
    /// `mulh`
    Mulh,
    /// `mulhsu`
    Mulhsu,
    /// `mulhu`
    Mulhu,
    /// `div`
    Div,
    /// `divu`
    Divu,
    /// `rem`
    Rem,
    /// `remu`
    Remu,
    /// `mulw`
    Mulw,
    /// `divw`
    Divw,
    /// `divuw`
    Divuw,
    /// `remw`
    Remw,
    /// `remuw`
    Remuw,
    /// `lr.w`
    LrW,
    /// `sc.w`
    ScW,
    /// `amoswap.w`
    AmoswapW,
    /// `amoadd.w`
    AmoaddW,
    /// `amoxor.w`
    AmoxorW,
    /// `amoand.w`
    AmoandW,
    /// `amoor.w`
    AmoorW,
    /// `amomin.w`
    AmominW,
    /// `amomax.w`
    AmomaxW,
    /// `amominu.w`
    AmominuW,
    /// `amomaxu.w`
    AmomaxuW,
    /// `lr.d`
    LrD,
    /// `sc.d`
    ScD,
    /// `amoswap.d`
    AmoswapD,
    /// `amoadd.d`
    AmoaddD,
    /// `amoxor.d`
    AmoxorD,
    /// `amoand.d`
    AmoandD,
    /// `amoor.d`
    AmoorD,
    /// `amomin.d`
    AmominD,
    /// `amomax.d`
    AmomaxD,
    /// `amominu.d`
    AmominuD,
    /// `amomaxu.d`
    AmomaxuD,
    /// `flw`
    Flw,
    /// `fsw`
    Fsw,
    /// `fmadd.s`
    FmaddS,
    /// `fmsub.s`
    FmsubS,
    /// `fnmsub.s`
    FnmsubS,
    /// `fnmadd.s`
    FnmaddS,
    /// `fadd.s`
    FaddS,
    /// `fsub.s`
    FsubS,
    /// `fmul.s`
    FmulS,
    /// `fdiv.s`
    FdivS,
    /// `fsqrt.s`
    FsqrtS,
    /// `fsgnj.s`
    FsgnjS,
    /// `fsgnjn.s`
    FsgnjnS,
    /// `fsgnjx.s`
    FsgnjxS,
    /// `fmin.s`
    FminS,
    /// `fmax.s`
    FmaxS,
    /// `fle.s`
    FleS,
    /// `flt.s`
    FltS,
    /// `feq.s`
    FeqS,
    /// `fclass.s`
    FclassS,
    /// `fmv.x.w`
    FmvXW,
    /// `fmv.w.x`
    FmvWX,
    /// `fcvt.w.s`
    FcvtWS,
    /// `fcvt.s.w`
    FcvtSW,
    /// `fcvt.wu.s`
    FcvtWuS,
    /// `fcvt.s.wu`
    FcvtSWu,
    /// `fcvt.l.s`
    FcvtLS,
    /// `fcvt.s.l`
    FcvtSL,
    /// `fcvt.lu.s`
    FcvtLuS,
    /// `fcvt.s.lu`
    FcvtSLu,
    /// `fld`
    Fld,
    /// `fsd`
    Fsd,
    /// `fmadd.d`
    FmaddD,
    /// `fmsub.d`
    FmsubD,
    /// `fnmsub.d`
    FnmsubD,
    /// `fnmadd.d`
    FnmaddD,
    /// `fadd.d`
    FaddD,
    /// `fsub.d`
    FsubD,
    /// `fmul.d`
    FmulD,
    /// `fdiv.d`
    FdivD,
    /// `fsqrt.d`
    FsqrtD,
    /// `fsgnj.d`
    FsgnjD,
    /// `fsgnjn.d`
    FsgnjnD,
    /// `fsgnjx.d`
    FsgnjxD,
    /// `fmin.d`
    FminD,
    /// `fmax.d`
    FmaxD,
    /// `fle.d`
    FleD,
    /// `flt.d`
    FltD,
    /// `feq.d`
    FeqD,
    /// `fclass.d`
    FclassD,
    /// `fmv.x.d`
    FmvXD,
    /// `fmv.d.x`
    FmvDX,
    /// `fcvt.w.d`
    FcvtWD,
    /// `fcvt.d.w`
    FcvtDW,
    /// `fcvt.wu.d`
    FcvtWuD,
    /// `fcvt.d.wu`
    FcvtDWu,
    /// `fcvt.l.d`
    FcvtLD,
    /// `fcvt.d.l`
    FcvtDL,
    /// `fcvt.lu.d`
    FcvtLuD,
    /// `fcvt.d.lu`
    FcvtDLu,
    /// `fcvt.s.d`
    FcvtSD,
    /// `fcvt.d.s`
    FcvtDS,
}
