//! Which records a trace may have.
ghost use Rattle.std.specs.Prelude.{◌≡◌};
ghost use Rattle.rv_trace.specs.Dialects.{plain};

/// Which records a trace may have beside its header and the rows of the nine operations that every
/// trace may have.
#[derive(Clone, Copy, PartialEq, Eq, Debug)]
pub struct Dialect {
    /// Rows `I`, which are carriers.
    pub carriers: bool,
    /// An end record, which stands last: `end,N`, and N is the number of the rows below the header.
    pub end_record: bool,
}

impl Dialect {
    /// No others. A row `I` is of no operation, and each record has eight fields.
    pub fn plain() -> Dialect
        ensures { result ≡ plain }
    {
        Dialect {
            carriers: false,
            end_record: false,
        }
    }
}
