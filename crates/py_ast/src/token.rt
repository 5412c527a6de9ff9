//! Tokens (reference, chapter 2).

use crate::spelled::{Sign, Word};
use nu_text::RcStr;

/// What a token is, with what it stands for.
#[derive(Drop)]
pub enum TokenKind {
    /// An identifier in NFKC.
    Name(RcStr),
    Keyword(Word),
    /// The value of an integer literal.
    Number(i128),
    /// The characters that a string literal stands for.
    Text(RcStr),
    Sign(Sign),
    Newline,
    Indent,
    Dedent,
}

/// A token, on the line of its first character, counted from 1.
///
/// A NEWLINE has the line of the token before it. An INDENT or DEDENT has that of the next token of
/// another kind, or at the end of the text that of the token before it.
#[derive(Drop)]
pub struct Token {
    pub line: u32,
    pub kind: TokenKind,
}
