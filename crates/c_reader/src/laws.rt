//! The laws of the text relation.

ghost use Rattle.c_reader.specs.Laws.{OneProgram, OneText};

/// A text is that of one program at most.
pub fn one_program()
    ensures { OneProgram }
{}

/// A program has one text at most.
pub fn one_text()
    ensures { OneText }
{}
