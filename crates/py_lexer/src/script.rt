//! Scripts.

ghost use Rattle.std.specs.Prelude.{◌≡◌, ◌≤◌, length, IfOk, MatchResult};
ghost use Rattle.std.specs.Str.{chars};
ghost use Rattle.py_lexer.specs.LogicalLines.{listed};
ghost use Rattle.py_lexer.specs.Pieces as spec;
ghost use Rattle.py_lexer.specs.Script.{Tokens, Refuses};
ghost use Rattle.py_lexer.specs.Seen.{Gives};

use crate::layout::Layout;
use crate::pieces::{Found, piece_at};
use crate::refusals::{LexEnd, Stop};
use py_ast::Token;
use std::alloc::{AllocError, Global};

/// The characters of the text. Beside the reading of the pieces this is all that goes over them.
fn chars_of(alloc: Global, text: &str) -> Result<Vec<char>, AllocError>
    ensures value { IfOk result (λ v. v.items ≡ chars text.now) }
    ensures within { IfOk result (λ v. length v.items ≤ length text.now) }
{
    text.chars().collect(alloc)
}

/// The text behind a byte order mark.
fn past_mark(text: &[char]) -> &[char]
    ensures { result.now ≡ spec.past_mark text.now }
{
    match text {
        ['\u{feff}', rest @ ..] => rest,
        _ => text,
    }
}

fn tokens_of(alloc: Global, text: &[char]) -> Result<Vec<Token>, LexEnd>
    requires { length text.now ≤ 262144 }
    ensures { Gives (λ v. v.items) result (listed (spec.pieces 1 0 text.now)) }
{
    let mut layout = Layout::new(alloc);
    let mut line = 1;
    let mut rest = text;
    'cut: while !rest.is_empty() {
        match piece_at(alloc, rest) {
            Ok(found) => {
                let Found {
                    piece,
                    length,
                    lines,
                } = found;
                let (_, after) = rest.split_at(length);
                layout.accept(line, piece)?;
                line += lines;
                rest = after;
            }
            Err(Stop::Fault { fault, below }) => {
                layout.begin(line)?;
                return Err(fault.at(line + below));
            }
            Err(Stop::Memory) => return Err(LexEnd::Memory),
        }
    }
    layout.finish(line)
}

/// The tokens of a script of at most 262,144 bytes, as chapter 2 of the reference cuts it.
///
/// # Errors
///
/// What comes first in the text, apart from UTF-8, which is asked of the whole text:
/// [`LexEnd::Utf8`], [`LexEnd::Token`], [`LexEnd::Indent`] or [`LexEnd::Number`]. A bracket that is
/// open at the end counts at the end of the text. [`LexEnd::Memory`] comes for want of memory alone.
pub fn lex(alloc: Global, text: &[u8]) -> Result<Vec<Token>, LexEnd>
    requires { length text.now ≤ 262144 }
    ensures { MatchResult result (λ tokens. Tokens text.now tokens.items) (λ end. Refuses text.now end) }
{
    let Ok(script) = str::from_utf8(text) else {
        return Err(LexEnd::Utf8);
    };
    let chars = chars_of(alloc, script)?;
    tokens_of(alloc, past_mark(&chars))
}
