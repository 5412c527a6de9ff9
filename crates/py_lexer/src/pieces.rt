//! The longest piece at the front of a text.

ghost use Rattle.std.specs.Prelude.{◌≡◌, ◌<◌, ◌≤◌, ◌+◌, ◌-◌, take, length, slice_index, IsTrue, IfOk, IfErr};
ghost use Rattle.py_lexer.specs.declared.runs.Class.TheVariants as class;
ghost use Rattle.py_lexer.specs.Characters.{run_length};
ghost use Rattle.py_lexer.specs.PhysicalLines.{line_ends};
ghost use Rattle.py_lexer.specs.Signs.{sign_at};
ghost use Rattle.py_lexer.specs.Strings as strings;
ghost use Rattle.py_lexer.specs.Pieces as spec;
ghost use Rattle.py_lexer.specs.Seen.{Finds, IsNear};

use crate::numerals::{begins_numeral, numeral};
use crate::refusals::{Fault, Stop};
use crate::runs::{Class, line_end, run};
use crate::signs::sign;
use crate::strings::{is_quote, is_raw, read_literal};
use crate::words::{begins_word, take_word, word_token};
use nu_text::RcStr;
use py_ast::TokenKind;
use std::alloc::Global;

#[derive(Drop)]
pub enum Piece<'a> {
    /// Spaces and tabs.
    Blank(&'a [char]),
    Comment,
    LineEnd,
    /// A backslash and the line end that it takes away.
    Joint,
    Token(TokenKind),
}

/// What stands at the front of a text.
#[derive(Drop)]
pub struct Found<'a> {
    pub piece: Piece<'a>,
    pub length: usize,
    /// How many line ends it has.
    pub lines: u32,
}

const NO_TOKEN: Stop = Stop::Fault {
    fault: Fault::Token,
    below: 0,
};

/// A backslash joins lines, from behind it.
#[tactic(auto, unfolding(crate::specs::Pieces::joint_at))]
fn joint_at<'a>(text: &'a [char]) -> Result<Found<'a>, Stop>
    ensures value { Finds result (spec.joint_at text.now) }
    ensures within { IfOk result (λ x. (0 < x.length) × (x.length ≤ length text.now + 1)) }
    ensures lines { IfOk result (λ x. x.lines ≡ line_ends (take (x.length - 1) text.now)) }
    ensures near { IfErr result IsNear }
{
    let end = line_end(text);
    if end == 0 {
        return Err(NO_TOKEN);
    }
    Ok(Found {
        piece: Piece::Joint,
        length: end + 1,
        lines: 1,
    })
}

#[tactic(auto, unfolding(crate::specs::Pieces::numeral_at))]
fn numeral_at<'a>(text: &'a [char]) -> Result<Found<'a>, Stop>
    requires { 0 < run_length class.Numeral text.now }
    ensures value { Finds result (spec.numeral_at text.now) }
    ensures within { IfOk result (λ x. (0 < x.length) × (x.length ≤ length text.now)) }
    ensures lines { IfOk result (λ x. x.lines ≡ line_ends (take x.length text.now)) }
    ensures near { IfErr result IsNear }
{
    match numeral(text) {
        Some((value, length)) => Ok(Found {
            piece: Piece::Token(TokenKind::Number(value as i128)),
            length,
            lines: 0,
        }),
        None => Err(Stop::Fault {
            fault: Fault::Number,
            below: 0,
        }),
    }
}

fn sign_at<'a>(text: &'a [char]) -> Result<Found<'a>, Stop>
    ensures value { Finds result (spec.sign_by (sign_at text.now)) }
    ensures within { IfOk result (λ x. (0 < x.length) × (x.length ≤ length text.now)) }
    ensures lines { IfOk result (λ x. x.lines ≡ line_ends (take x.length text.now)) }
    ensures near { IfErr result IsNear }
{
    match sign(text) {
        Some(sign) => Ok(Found {
            piece: Piece::Token(TokenKind::Sign(sign)),
            length: sign.spelling().len(),
            lines: 0,
        }),
        None => Err(NO_TOKEN),
    }
}

/// The literal behind a prefix of this length.
fn literal_at<'a>(
    alloc: Global,
    prefix: usize,
    raw: bool,
    text: &'a [char],
) -> Result<Found<'a>, Stop>
    requires small { prefix ≤ 1 }
    requires there { 0 < length text.now }
    requires quote { IsTrue (strings.is_quote (slice_index text.now 0)) }
    requires short { length text.now ≤ 262144 }
    ensures value { Finds result (spec.literal_found prefix (strings.literal raw text.now) text.now) }
    ensures within { IfOk result (λ x. (prefix < x.length) × (x.length ≤ prefix + length text.now)) }
    ensures lines { IfOk result (λ x. x.lines ≡ line_ends (take (x.length - prefix) text.now)) }
    ensures near { IfErr result IsNear }
{
    let Some(read) = read_literal(alloc, raw, text)? else {
        return Err(NO_TOKEN);
    };
    match read.refused {
        Some(below) => Err(Stop::Fault {
            fault: Fault::Token,
            below,
        }),
        None => Ok(Found {
            piece: Piece::Token(TokenKind::Text(RcStr::from_str(alloc, &read.text)?)),
            length: prefix + read.length,
            lines: read.lines,
        }),
    }
}

#[tactic(auto, unfolding(crate::specs::Pieces::word_at))]
fn word_at<'a>(alloc: Global, text: &'a [char]) -> Result<Found<'a>, Stop>
    requires front { 0 < run_length class.Word text.now }
    requires short { length text.now ≤ 262144 }
    ensures value { Finds result (spec.word_at text.now) }
    ensures within { IfOk result (λ x. (0 < x.length) × (x.length ≤ length text.now)) }
    ensures lines { IfOk result (λ x. x.lines ≡ line_ends (take x.length text.now)) }
    ensures near { IfErr result IsNear }
{
    let word = take_word(alloc, text)?;
    let n = word.len();
    let (_, rest) = text.split_at(n);
    if is_raw(&word, rest) {
        return literal_at(alloc, n, true, rest);
    }
    match word_token(alloc, &word)? {
        Some(token) => Ok(Found {
            piece: Piece::Token(token),
            length: n,
            lines: 0,
        }),
        None => Err(NO_TOKEN),
    }
}

/// The piece at the front of a text that is not empty.
#[tactic(auto, unfolding(crate::specs::Pieces::piece_at, crate::specs::PhysicalLines::line_end))]
pub fn piece_at<'a>(alloc: Global, text: &'a [char]) -> Result<Found<'a>, Stop>
    requires there { 0 < length text.now }
    requires short { length text.now ≤ 262144 }
    ensures value { Finds result (spec.piece_at text.now) }
    ensures within { IfOk result (λ x. (0 < x.length) × (x.length ≤ length text.now)) }
    ensures lines { IfOk result (λ x. x.lines ≡ line_ends (take x.length text.now)) }
    ensures near { IfErr result IsNear }
{
    let [c, rest @ ..] = text else {
        return Err(NO_TOKEN);
    };
    match *c {
        ' ' | '\t' => {
            let n = run(Class::Blank, text);
            Ok(Found {
                piece: Piece::Blank(&text[..n]),
                length: n,
                lines: 0,
            })
        }
        '#' => Ok(Found {
            piece: Piece::Comment,
            length: run(Class::Comment, text),
            lines: 0,
        }),
        '\n' | '\r' => Ok(Found {
            piece: Piece::LineEnd,
            length: line_end(text),
            lines: 1,
        }),
        '\\' => joint_at(rest),
        first if begins_word(first) => word_at(alloc, text),
        first if begins_numeral(first, rest) => numeral_at(text),
        '\'' | '"' => literal_at(alloc, 0, false, text),
        _ => sign_at(text),
    }
}
