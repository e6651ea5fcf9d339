//! What holds of the tables.
ghost use Rattle.rv_insn.specs.Apart.{AreApart};
ghost use Rattle.rv_insn.specs.Compressed.{compressed};
ghost use Rattle.rv_insn.specs.Encodings.{encodings};

/// No bits fit two lines of a table, so the order of the lines does not matter.
pub fn no_bits_fit_two_lines()
    ensures long { AreApart encodings }
    ensures short { AreApart compressed }
{}
