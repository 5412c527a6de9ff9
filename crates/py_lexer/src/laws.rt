//! What follows from the definition of a script's tokens.

ghost use Rattle.std.specs.Prelude.{ℕ, List, ◌≡◌};
ghost use Rattle.py_lexer.specs.Laws.{OneAnswer, EveryCharacterStands, Fits};
ghost use Rattle.py_lexer.specs.Pieces.{piece_at};

/// A text has at most one token list, or one refusal and no token list.
pub fn one_answer()
    ensures { (bytes : List ℕ) → OneAnswer bytes }
{}

/// Every character of a text stands in exactly one piece, and where there are tokens, only blanks,
/// comments, line ends and joints give none.
pub fn every_character_stands()
    ensures { (bytes : List ℕ) → EveryCharacterStands bytes }
{}

/// The piece at a place is the longest of its class: a run of blanks, a comment, a word or a numeral
/// ends where the next character isn't of its class, and no longer sign stands where a sign stands.
pub fn longest_piece()
    ensures { (text : List ℕ) → Fits (piece_at text) text }
{}
