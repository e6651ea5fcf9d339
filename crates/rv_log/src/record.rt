//! What a record says.
ghost use Rattle.std.specs.Prelude.{◌≡◌, ◌≤◌, IfOk};
ghost use Rattle.csv.specs.Records.{fields_of};
ghost use Rattle.rv_log.specs.Records.{bits_said, ended, field, hart_said, may_have_rdata, may_have_wdata};
ghost use Rattle.rv_log.specs.Records.{order_said, performed, record_said, retired};

use crate::access::{Access, access_of};
use crate::fault::{Field, RecordFault};
use crate::number::{Form, blank_of, needed_of, number_of, optional_of};
use csv::ByteRecord;
use rv_insn::{Insn, Width, decode};

/// What came before a record.
#[derive(Clone, Copy, PartialEq, Eq, Debug)]
pub struct Before {
    /// How many instructions each hart has retired.
    pub retired: [u64; 16],
    /// How many records there are, the header not among them.
    pub records: u64,
}

/// An instruction that retired.
#[derive(Clone, Copy, PartialEq, Eq, Debug)]
pub struct Retired {
    /// The hart, 0 to 15.
    pub hart: u8,
    /// How many of the hart's instructions retired before it.
    pub order: u64,
    /// Its program counter.
    pub pc: u64,
    /// The word as it was fetched.
    pub bits: u32,
    /// What it is.
    pub insn: Insn,
    /// The access to memory that it makes, if it makes one.
    pub access: Option<Access>,
    /// The address of the access; 0 where there is none.
    pub address: u64,
    /// What memory returned, of a store-conditional the success code, where something shows it.
    pub rdata: Option<u64>,
    /// What memory holds after it, where something shows it.
    pub wdata: Option<u64>,
    /// When a load took its value, at most 2^63, where the design knows it.
    pub time: Option<u64>,
}

/// A store that took effect.
#[derive(Clone, Copy, PartialEq, Eq, Debug)]
pub struct Performed {
    /// The hart, 0 to 15.
    pub hart: u8,
    /// The order of the store's instruction.
    pub order: u64,
    /// Its address.
    pub address: u64,
    /// What memory holds after it, where something shows it.
    pub wdata: Option<u64>,
    /// When it took effect, at most 2^63.
    pub time: u64,
}

/// A record of a commit log.
#[derive(Clone, Copy, PartialEq, Eq, Debug)]
pub enum Record {
    /// An instruction retired.
    Retired(Retired),
    /// A store took effect.
    Performed(Performed),
    /// The log ends here.
    End,
}

/// The numbers of harts, far above the greatest there is.
const HART: Form = Form {
    radix: 10,
    most: 20,
    max: 4_294_967_295,
};

const ORDER: Form = Form {
    radix: 10,
    most: 20,
    max: u64::MAX,
};

const TIME: Form = Form {
    radix: 10,
    most: 20,
    max: 9_223_372_036_854_775_808,
};

const ADDRESS: Form = Form {
    radix: 16,
    most: 16,
    max: u64::MAX,
};

const BITS: Form = Form {
    radix: 16,
    most: 8,
    max: 4_294_967_295,
};

/// The field at a place, blank where there is none.
fn field_of(row: &ByteRecord, i: usize) -> &[u8]
    ensures { result.now ≡ field (fields_of row.now) i }
{
    match row.get(i) {
        Some(text) => text,
        None => &[],
    }
}

/// The hart that a field says.
fn hart_of(text: &[u8]) -> Result<u8, RecordFault>
    ensures value { result ≡ hart_said text.now }
    ensures bound { IfOk result (λ hart. hart ≤ 15) }
{
    let hart = number_of(HART, Field::Hart, text)?;
    if hart > 15 {
        return Err(RecordFault::Hart);
    }
    Ok(hart as u8)
}

/// The order that a field says.
fn order_of(text: &[u8]) -> Result<u64, RecordFault>
    ensures { result ≡ order_said text.now }
{
    number_of(ORDER, Field::Order, text)
}

/// Whether the record of an access, if there is one, may tell what it returned.
fn may_have_rdata(access: Option<Access>) -> bool
    ensures { result ≡ may_have_rdata access }
{
    match access {
        Some(access) => access.kind.has_rdata(),
        None => false,
    }
}

/// Whether the record of an access, if there is one, may tell what it wrote.
fn may_have_wdata(access: Option<Access>) -> bool
    ensures { result ≡ may_have_wdata access }
{
    match access {
        Some(access) => access.kind.has_wdata(),
        None => false,
    }
}

/// The instruction that the bits are.
#[tactic(auto, unfolding(crate::specs::Records::bits_said))]
fn insn_of(bits: u32, width: Width) -> Result<Insn, RecordFault>
    ensures { result ≡ bits_said width bits }
{
    match decode(bits, width) {
        Ok(insn) => Ok(insn),
        Err(why) => Err(RecordFault::Instruction(why)),
    }
}

/// An instruction that retired.
#[tactic(auto, unfolding(crate::specs::Records::retired))]
fn retired_of(width: Width, before: &Before, row: &ByteRecord) -> Result<Record, RecordFault>
    ensures { result ≡ retired width before.now (fields_of row.now) }
{
    let hart = hart_of(field_of(row, 1))?;
    let order = order_of(field_of(row, 2))?;
    let so_far = before.retired[hart as usize];
    if order != so_far {
        return Err(RecordFault::Order(so_far));
    }
    let pc = number_of(ADDRESS, Field::Pc, field_of(row, 3))?;
    let bits = number_of(BITS, Field::Insn, field_of(row, 4))? as u32;
    let insn = insn_of(bits, width)?;
    let access = access_of(insn.operation);
    let address = needed_of(access.is_some(), ADDRESS, Field::Addr, field_of(row, 5))?;
    let rdata = optional_of(
        may_have_rdata(access),
        ADDRESS,
        Field::Rdata,
        field_of(row, 6),
    )?;
    let wdata = optional_of(
        may_have_wdata(access),
        ADDRESS,
        Field::Wdata,
        field_of(row, 7),
    )?;
    let time = optional_of(true, TIME, Field::Time, field_of(row, 8))?;
    Ok(Record::Retired(Retired {
        hart,
        order,
        pc,
        bits,
        insn,
        access,
        address,
        rdata,
        wdata,
        time,
    }))
}

/// A store that took effect.
#[tactic(auto, unfolding(crate::specs::Records::performed))]
fn performed_of(row: &ByteRecord) -> Result<Record, RecordFault>
    ensures { result ≡ performed (fields_of row.now) }
{
    let hart = hart_of(field_of(row, 1))?;
    let order = order_of(field_of(row, 2))?;
    blank_of(Field::Pc, field_of(row, 3))?;
    blank_of(Field::Insn, field_of(row, 4))?;
    let address = number_of(ADDRESS, Field::Addr, field_of(row, 5))?;
    blank_of(Field::Rdata, field_of(row, 6))?;
    let wdata = optional_of(true, ADDRESS, Field::Wdata, field_of(row, 7))?;
    let time = number_of(TIME, Field::Time, field_of(row, 8))?;
    Ok(Record::Performed(Performed {
        hart,
        order,
        address,
        wdata,
        time,
    }))
}

/// The end of the log.
#[tactic(auto, unfolding(crate::specs::Records::ended))]
fn end_of(before: &Before, row: &ByteRecord) -> Result<Record, RecordFault>
    ensures { result ≡ ended before.now (fields_of row.now) }
{
    blank_of(Field::Hart, field_of(row, 1))?;
    if order_of(field_of(row, 2))? != before.records {
        return Err(RecordFault::End);
    }
    blank_of(Field::Pc, field_of(row, 3))?;
    blank_of(Field::Insn, field_of(row, 4))?;
    blank_of(Field::Addr, field_of(row, 5))?;
    blank_of(Field::Rdata, field_of(row, 6))?;
    blank_of(Field::Wdata, field_of(row, 7))?;
    blank_of(Field::Time, field_of(row, 8))?;
    Ok(Record::End)
}

/// What a record says at this width of the integer registers, behind those that came before.
///
/// # Errors
/// The first check that fails, in the order: the number of fields, the kind, then field by field
/// from the left. Of an instruction that retired, its order is the number of its hart's before it,
/// and its word is decoded where it stands.
#[tactic(auto, unfolding(crate::specs::Records::record_said))]
pub fn record_of(width: Width, before: &Before, row: &ByteRecord) -> Result<Record, RecordFault>
    ensures { result ≡ record_said width before.now (fields_of row.now) }
{
    if row.len() != 9 {
        return Err(RecordFault::Fields);
    }
    match field_of(row, 0) {
        b"C" => retired_of(width, before, row),
        b"P" => performed_of(row),
        b"E" => end_of(before, row),
        _ => Err(RecordFault::Kind),
    }
}
