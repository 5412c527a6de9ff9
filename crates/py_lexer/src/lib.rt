//! Tokens of a script, by the lexical analysis of the Python reference (chapter 2).
//!
//! [`lex`] cuts a text into pieces, each the longest of its class at its place, and lays the pieces
//! out in logical lines, with a stack of indentations and one of brackets.
//!
//! The text is decoded once, into a list of characters, and then read once from its front: what a
//! piece stands for, its length and its line ends come out of the same pass over its characters. The
//! look ahead is of three characters at most, for a sign and for quotes. What was read isn't looked up
//! in the text again, but for an indentation, a slice of it, which is compared with the levels.
//!
//! Numbers are integers below 2^127, strings have the prefixes `r` and `R` alone, and an escape that
//! the reference doesn't list, or one by name, is refused. So is an indentation that mixes blanks in
//! another way than the levels before it, since indentations are compared as strings.
//!
//! The definition that `lex` meets stands in `specs/`, a file for each part of the chapter: `Pieces`
//! says what stands at a place, `LogicalLines` and `Indentation` what becomes of the pieces, and
//! `Script` what the tokens of a text are. `Machine` and `Seen` say how the code goes about it; no
//! public contract rests on them.
#![tactic(auto)]

mod brackets;
mod laws;
mod layout;
mod levels;
mod numerals;
mod pieces;
mod refusals;
mod runs;
mod script;
mod signs;
mod strings;
mod words;

pub use laws::{every_character_stands, longest_piece, one_answer};
pub use refusals::LexEnd;
pub use script::lex;
