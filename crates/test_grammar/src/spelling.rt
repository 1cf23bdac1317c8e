//! What a program is spelled as is read as that program: the law, from ranges up.

ghost use Rattle.test_grammar.specs.ArraySpellings.{ArraysAreReadAgain};
ghost use Rattle.test_grammar.specs.ActSpellings.{ActIsReadAgain, StatementIsReadAgain};
ghost use Rattle.test_grammar.specs.ExpressionSpellings.{ExpressionIsReadAgain};
ghost use Rattle.test_grammar.specs.LoopSpellings.{LoopIsReadAgain};
ghost use Rattle.test_grammar.specs.RangeSpellings.{RangeIsReadAgain};
ghost use Rattle.test_grammar.specs.ScriptSpellings.{ProgramIsReadAgain};

/// A range that is spelled as `NAME[LO:LEN]` is read as that range, whatever follows.
pub fn range_is_read_again()
    ensures { RangeIsReadAgain }
{}

/// An expression that a loop can have, spelled with all its parentheses, is read as that expression.
pub fn expression_is_read_again()
    ensures { ExpressionIsReadAgain }
{}

/// A loop that has no fault, spelled in one line, is read as that loop, whatever follows.
pub fn loop_is_read_again()
    ensures { LoopIsReadAgain }
{}

/// Arrays that can be declared, spelled in the plainest way with all their values, are read as those arrays, before a
/// token that isn't `long`.
pub fn arrays_are_read_again()
    ensures { ArraysAreReadAgain }
{}

/// An act that is spelled in the plainest way is read as that act, whatever follows.
pub fn act_is_read_again()
    ensures { ActIsReadAgain }
{}

/// As a statement of a host it is read so too, with the line that it begins in.
pub fn statement_is_read_again()
    ensures { StatementIsReadAgain }
{}

/// A program that can be written, spelled in the plainest way, is read as that program.
pub fn program_is_read_again()
    ensures { ProgramIsReadAgain }
{}
