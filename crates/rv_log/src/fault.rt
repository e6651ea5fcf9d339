//! What is wrong with a record.

use rv_insn::Undecoded;

/// A field of a record, by its name in the header.
#[derive(Clone, Copy, PartialEq, Eq, Debug)]
pub enum Field {
    /// `hart`.
    Hart,
    /// `order`.
    Order,
    /// `pc`.
    Pc,
    /// `insn`.
    Insn,
    /// `addr`.
    Addr,
    /// `rdata`.
    Rdata,
    /// `wdata`.
    Wdata,
    /// `time`.
    Time,
}

/// What is wrong with a record.
#[derive(Clone, Copy, PartialEq, Eq, Debug)]
pub enum RecordFault {
    /// It does not have nine fields.
    Fields,
    /// The field is no number of its kind, or a number that is too large.
    Number(Field),
    /// Its kind is none of `C`, `P` and `E`.
    Kind,
    /// It needs the field.
    Missing(Field),
    /// It does not have the field.
    NotBlank(Field),
    /// Its order is not the number of its hart's instructions so far, which is this.
    Order(u64),
    /// Its instruction is none that is known.
    Instruction(Undecoded),
    /// Its hart is above 15.
    Hart,
    /// It says that the log has another number of records before it than it has.
    End,
}
