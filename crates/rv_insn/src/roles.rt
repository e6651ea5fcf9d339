//! What an instruction reads and writes, and what goes on from where to where.
ghost use Rattle.std.specs.Prelude.{◌≡◌, ◌↔◌, IsTrue, Contains, Some, None, if◌then◌else◌};
ghost use Rattle.rv_insn.specs.Units.{names};
ghost use Rattle.rv_insn.specs.declared.unit.Unit.{Unit};
ghost use Rattle.rv_insn.specs.Listing.{listing};
ghost use Rattle.rv_insn.specs.Roles.{Carries, CarriesCsr, CarriesOver, IsOperand, IsRaised};
ghost use Rattle.rv_insn.specs.Roles.{address, csr_destination, csr_source, destinations};
ghost use Rattle.rv_insn.specs.Roles.{flag_destination};
ghost use Rattle.rv_insn.specs.Roles.{address_source, data_source, flag_source, frm_destination};
ghost use Rattle.rv_insn.specs.Roles.{frm_source, is_branch};
ghost use Rattle.rv_insn.specs.Roles.{read, reads_csr, sources, value, writes_csr, written};
ghost use Rattle.rv_insn.specs.Roles.{x_register};

use crate::insn::Insn;
use crate::listing::usage_of;
use crate::operation::Operation;
use crate::unit::{Flag, Unit, flag_of, is_other_csr, names, names_flags, names_frm};
use crate::usage::{CsrUse, Operand, Target, Usage};

/// An `x` register; x0 is none.
fn x_register(number: u8) -> Option<Unit>
    ensures { result ≡ x_register number }
{
    if number == 0 {
        None
    } else {
        Some(Unit::X(number))
    }
}

/// The register that an operand reads.
fn read(operand: Operand, number: u8) -> Option<Unit>
    ensures { result ≡ read operand number }
{
    match operand {
        Operand::Unused => None,
        Operand::X | Operand::AddressX | Operand::DataX => x_register(number),
        Operand::F | Operand::DataF => Some(Unit::F(number)),
    }
}

/// The register that is written.
fn written(target: Target, number: u8) -> Option<Unit>
    ensures { result ≡ written target number }
{
    match target {
        Target::Nowhere => None,
        Target::ToX => x_register(number),
        Target::ToF => Some(Unit::F(number)),
    }
}

/// Whether the instruction reads its CSR.
fn reads_csr(csr: CsrUse, insn: Insn) -> bool
    ensures { result ≡ reads_csr csr insn }
{
    match csr {
        CsrUse::NoCsr => false,
        CsrUse::Swap => insn.rd != 0,
        CsrUse::Change => true,
    }
}

/// Whether the instruction writes its CSR.
fn writes_csr(csr: CsrUse, insn: Insn) -> bool
    ensures { result ≡ writes_csr csr insn }
{
    match csr {
        CsrUse::NoCsr => false,
        CsrUse::Swap => true,
        CsrUse::Change => !(insn.rs1 == 0 && insn.immediate == 0),
    }
}

/// The flag, where it is a source.
fn flag_source(usage: Usage, insn: Insn, flag: Flag) -> Option<Unit>
    requires { usage ≡ listing insn.operation }
    ensures { result ≡ flag_source insn flag }
{
    let is_read = reads_csr(usage.csr, insn) && names_flags(insn.csr);
    if flag_of(usage.raises, flag) || is_read {
        Some(Unit::Accrued(flag))
    } else {
        None
    }
}

/// The flag, where it is a destination.
fn flag_destination(usage: Usage, insn: Insn, flag: Flag) -> Option<Unit>
    requires { usage ≡ listing insn.operation }
    ensures { result ≡ flag_destination insn flag }
{
    let is_written = writes_csr(usage.csr, insn) && names_flags(insn.csr);
    if flag_of(usage.raises, flag) || is_written {
        Some(Unit::Accrued(flag))
    } else {
        None
    }
}

/// The rounding mode, where it is a source.
fn frm_source(usage: Usage, insn: Insn) -> Option<Unit>
    requires { usage ≡ listing insn.operation }
    ensures { result ≡ frm_source insn }
{
    let is_read = reads_csr(usage.csr, insn) && names_frm(insn.csr);
    if insn.rounding == 7 || is_read {
        Some(Unit::Frm)
    } else {
        None
    }
}

/// The rounding mode, where it is a destination.
fn frm_destination(usage: Usage, insn: Insn) -> Option<Unit>
    requires { usage ≡ listing insn.operation }
    ensures { result ≡ frm_destination insn }
{
    if writes_csr(usage.csr, insn) && names_frm(insn.csr) {
        Some(Unit::Frm)
    } else {
        None
    }
}

/// A CSR that is tracked as a whole, where it is a source.
fn csr_source(usage: Usage, insn: Insn) -> Option<Unit>
    requires { usage ≡ listing insn.operation }
    ensures { result ≡ csr_source insn }
{
    if reads_csr(usage.csr, insn) && is_other_csr(insn.csr) {
        Some(Unit::Csr(insn.csr))
    } else {
        None
    }
}

/// A CSR that is tracked as a whole, where it is a destination.
fn csr_destination(usage: Usage, insn: Insn) -> Option<Unit>
    requires { usage ≡ listing insn.operation }
    ensures { result ≡ csr_destination insn }
{
    if writes_csr(usage.csr, insn) && is_other_csr(insn.csr) {
        Some(Unit::Csr(insn.csr))
    } else {
        None
    }
}

/// The sources of the instruction, each in a place of its own: rs1, rs2, rs3, the rounding mode, the
/// CSR, and the flags from inexact to invalid operation. x0 is none (manual, section 14.3).
pub fn sources(insn: Insn) -> [Option<Unit>; 10]
    ensures { result ≡ sources insn }
{
    let usage = usage_of(insn.operation);
    [
        read(usage.first, insn.rs1),
        read(usage.second, insn.rs2),
        read(usage.third, insn.rs3),
        frm_source(usage, insn),
        csr_source(usage, insn),
        flag_source(usage, insn, Flag::Nx),
        flag_source(usage, insn, Flag::Uf),
        flag_source(usage, insn, Flag::Of),
        flag_source(usage, insn, Flag::Dz),
        flag_source(usage, insn, Flag::Nv),
    ]
}

/// The destinations of the instruction, each in a place of its own: rd, the rounding mode, the CSR,
/// and the flags from inexact to invalid operation. x0 is none (manual, section 14.3).
pub fn destinations(insn: Insn) -> [Option<Unit>; 8]
    ensures { result ≡ destinations insn }
{
    let usage = usage_of(insn.operation);
    [
        written(usage.to, insn.rd),
        frm_destination(usage, insn),
        csr_destination(usage, insn),
        flag_destination(usage, insn, Flag::Nx),
        flag_destination(usage, insn, Flag::Uf),
        flag_destination(usage, insn, Flag::Of),
        flag_destination(usage, insn, Flag::Dz),
        flag_destination(usage, insn, Flag::Nv),
    ]
}

/// The source from which the address of an access is taken.
pub fn address_source(insn: Insn) -> Option<Unit>
    ensures { result ≡ address_source insn }
{
    match usage_of(insn.operation).first {
        Operand::AddressX => x_register(insn.rs1),
        _ => None,
    }
}

/// The source from which the value is taken that is stored.
pub fn data_source(insn: Insn) -> Option<Unit>
    ensures { result ≡ data_source insn }
{
    match usage_of(insn.operation).second {
        Operand::DataX => x_register(insn.rs2),
        Operand::DataF => Some(Unit::F(insn.rs2)),
        _ => None,
    }
}

/// Whether the unit is a register that the instruction reads, or `frm` where it takes the rounding
/// mode from there.
fn is_operand(usage: Usage, insn: Insn, unit: Unit) -> bool
    requires { usage ≡ listing insn.operation }
    ensures { IsTrue result ↔ IsOperand insn unit }
{
    is_unit(read(usage.first, insn.rs1), unit)
        || is_unit(read(usage.second, insn.rs2), unit)
        || is_unit(read(usage.third, insn.rs3), unit)
        || (insn.rounding == 7 && unit == Unit::Frm)
}

/// Whether the place has the unit.
fn is_unit(place: Option<Unit>, unit: Unit) -> bool
    ensures { IsTrue result ↔ (place ≡ Some unit) }
{
    match place {
        Some(other) => other == unit,
        None => false,
    }
}

/// Whether the unit is a flag that the operation may raise.
fn is_raised(usage: Usage, insn: Insn, unit: Unit) -> bool
    requires { usage ≡ listing insn.operation }
    ensures { IsTrue result ↔ IsRaised insn unit }
{
    // Its contract alone speaks of the instruction.
    let _ = insn;
    match unit {
        Unit::Accrued(flag) => flag_of(usage.raises, flag),
        _ => false,
    }
}

/// Whether the instruction, which has no CSR, carries from the one unit to the other.
fn carries_over(usage: Usage, insn: Insn, from: Unit, to: Unit) -> bool
    requires { usage ≡ listing insn.operation }
    ensures { IsTrue result ↔ CarriesOver insn from to }
{
    let is_from = is_operand(usage, insn, from);
    (is_from && is_carried_rd(usage, insn, to))
        || (is_raised(usage, insn, to) && (is_from || from == to))
}

/// Whether the instruction carries from the one unit to the other, by its CSR.
fn carries_csr(usage: Usage, insn: Insn, from: Unit, to: Unit) -> bool
    requires { usage ≡ listing insn.operation }
    ensures { IsTrue result ↔ CarriesCsr insn from to }
{
    (writes_csr(usage.csr, insn)
        && is_unit(read(usage.first, insn.rs1), from)
        && names(insn.csr, to))
        || (reads_csr(usage.csr, insn)
            && names(insn.csr, from)
            && is_unit(written(usage.to, insn.rd), to))
}

/// Whether the instruction carries a dependency from the one unit to the other (manual, section
/// 14.1, "Syntactic Dependencies").
pub fn carries(insn: Insn, from: Unit, to: Unit) -> bool
    ensures { IsTrue result ↔ Carries insn from to }
{
    let usage = usage_of(insn.operation);
    match usage.csr {
        CsrUse::NoCsr => carries_over(usage, insn, from, to),
        CsrUse::Swap | CsrUse::Change => carries_csr(usage, insn, from, to),
    }
}

/// The unit, where the test passes.
fn unit_if(test: bool, unit: Unit) -> Option<Unit>
    ensures { result ≡ (if test then Some unit else None) }
{
    if test { Some(unit) } else { None }
}

/// Whether the unit is an rd to which the operation carries.
fn is_carried_rd(usage: Usage, insn: Insn, unit: Unit) -> bool
    ensures { IsTrue result ↔ (IsTrue usage.carries × (written usage.to insn.rd ≡ Some unit)) }
{
    usage.carries && is_unit(written(usage.to, insn.rd), unit)
}

/// Whether the unit is an rd that is read from the CSR.
fn is_csr_rd(usage: Usage, insn: Insn, unit: Unit) -> bool
    ensures { IsTrue result ↔ (IsTrue (reads_csr usage.csr insn) × (written usage.to insn.rd ≡ Some unit)) }
{
    reads_csr(usage.csr, insn) && is_unit(written(usage.to, insn.rd), unit)
}

/// Whether the unit is a part of the CSR that is written.
fn is_csr_part(usage: Usage, insn: Insn, unit: Unit) -> bool
    ensures { IsTrue result ↔ (IsTrue (writes_csr usage.csr insn) × IsTrue (names insn.csr unit)) }
{
    writes_csr(usage.csr, insn) && names(insn.csr, unit)
}

/// The register that the operand reads, where the test passes.
fn read_if(test: bool, operand: Operand, number: u8) -> Option<Unit>
    ensures { result ≡ (if test then read operand number else None) }
{
    if test { read(operand, number) } else { None }
}

/// From where the instruction, which has no CSR, carries to the unit.
fn carried_over(usage: Usage, insn: Insn, to: Unit) -> [Option<Unit>; 8]
    requires { usage ≡ listing insn.operation }
    ensures { (p : Unit) → Contains result (Some p) ↔ CarriesOver insn p to }
{
    let is_flag = is_raised(usage, insn, to);
    let any = is_flag | is_carried_rd(usage, insn, to);
    let first = read_if(any, usage.first, insn.rs1);
    let second = read_if(any, usage.second, insn.rs2);
    let third = read_if(any, usage.third, insn.rs3);
    let mode = unit_if(any & (insn.rounding == 7), Unit::Frm);
    let own = unit_if(is_flag, to);
    [first, second, third, mode, own, None, None, None]
}

/// From where the instruction carries to the unit, by its CSR.
fn carried_csr(usage: Usage, insn: Insn, to: Unit) -> [Option<Unit>; 8]
    requires { usage ≡ listing insn.operation }
    ensures { (p : Unit) → Contains result (Some p) ↔ CarriesCsr insn p to }
{
    let is_rd = is_csr_rd(usage, insn, to);
    let has_flags = is_rd & names_flags(insn.csr);
    let given = read_if(is_csr_part(usage, insn, to), usage.first, insn.rs1);
    let mode = unit_if(is_rd & names_frm(insn.csr), Unit::Frm);
    let whole = unit_if(is_rd & is_other_csr(insn.csr), Unit::Csr(insn.csr));
    let inexact = unit_if(has_flags, Unit::Accrued(Flag::Nx));
    let underflow = unit_if(has_flags, Unit::Accrued(Flag::Uf));
    let overflow = unit_if(has_flags, Unit::Accrued(Flag::Of));
    let by_zero = unit_if(has_flags, Unit::Accrued(Flag::Dz));
    let invalid = unit_if(has_flags, Unit::Accrued(Flag::Nv));
    [
        given, mode, whole, inexact, underflow, overflow, by_zero, invalid,
    ]
}

/// The sources from which the instruction carries a dependency to the unit, each in a place of its
/// own (manual, section 14.1, "Syntactic Dependencies").
pub fn carried_to(insn: Insn, to: Unit) -> [Option<Unit>; 8]
    ensures { (p : Unit) → Contains result (Some p) ↔ Carries insn p to }
{
    let usage = usage_of(insn.operation);
    match usage.csr {
        CsrUse::NoCsr => carried_over(usage, insn, to),
        CsrUse::Swap | CsrUse::Change => carried_csr(usage, insn, to),
    }
}

/// Whether the instruction is a conditional branch or an indirect jump (manual, section 14.1,
/// "Syntactic Dependencies").
pub fn is_branch(insn: Insn) -> bool
    ensures { result ≡ is_branch insn.operation }
{
    matches!(
        insn.operation,
        Operation::Beq
            | Operation::Bne
            | Operation::Blt
            | Operation::Bge
            | Operation::Bltu
            | Operation::Bgeu
            | Operation::Jalr
    )
}
