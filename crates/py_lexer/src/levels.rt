//! Levels of indentation (reference, section 2.1.8).

ghost use Rattle.std.specs.Prelude.{◌≡◌, ◌++◌, ◌<◌, ◌≤◌, length, map, replicate, position, OnOk, IfSome};
ghost use Rattle.std.specs.Str.{bytes_eq};
ghost use Rattle.py_ast.specs.declared.token.TokenKind.TheVariants as kind;
ghost use Rattle.py_lexer.specs.Indentation as spec;
ghost use Rattle.py_lexer.specs.Machine.{start_at};
ghost use Rattle.py_lexer.specs.Seen.{Leaves, lay};

use crate::refusals::LexEnd;
use py_ast::{Token, TokenKind};
use std::alloc::AllocError;

/// Where a logical line starts, and its leading blanks.
#[derive(Clone, Copy)]
pub struct Start<'a> {
    pub line: u32,
    pub blank: &'a [char],
}

/// Writes so many DEDENTs.
pub fn dedent(tokens: &mut Vec<Token>, count: usize, line: u32) -> Result<(), AllocError>
    ensures { OnOk result (tokens.new.items ≡ tokens.old.items ++ replicate count (spec.at line kind.Dedent)) }
{
    for _ in 0..count {
        tokens.push(Token {
            line,
            kind: TokenKind::Dedent,
        })?;
    }
    Ok(())
}

fn top<'a>(levels: &[&'a [char]]) -> &'a [char]
    ensures { result.now ≡ spec.top (map (λ l. l.now) levels.now) }
{
    match levels {
        [.., top] => top,
        [] => &[],
    }
}

fn level_at(levels: &[&[char]], blank: &[char]) -> Option<usize>
    ensures value { result ≡ position (λ l. bytes_eq l.now blank.now) levels.now }
    ensures within { IfSome result (λ n. n < length levels.now) }
{
    levels.iter().position(|level| *level == blank)
}

/// How many levels an indentation leaves that goes back to one.
fn kept(levels: &[&[char]], blank: &[char]) -> Option<usize>
    ensures value { result ≡ spec.kept (map (λ l. l.now) levels.now) blank.now }
    ensures within { IfSome result (λ n. n ≤ length levels.now) }
{
    if blank.is_empty() {
        return Some(0);
    }
    match level_at(levels, blank) {
        Some(at) => Some(at + 1),
        None => None,
    }
}

/// Compares a line's indentation with the levels. The line's first token stands on the line
/// `first`.
#[tactic(auto, unfolding(crate::specs::Indentation::enter))]
pub fn enter<'a>(
    levels: &mut Vec<&'a [char]>,
    tokens: &mut Vec<Token>,
    start: Start<'a>,
    first: u32,
) -> Result<(), LexEnd>
    ensures { Leaves (map (λ l. l.now) levels.new.items, tokens.new.items) result
        (lay (map (λ l. l.now) levels.old.items) tokens.old.items (start_at start.entry.line start.entry.blank.now) first) }
{
    let Start { line, blank } = start;
    let top = top(levels);
    if blank == top {
        return Ok(());
    }
    if blank.starts_with(top) {
        levels.push(blank)?;
        tokens.push(Token {
            line: first,
            kind: TokenKind::Indent,
        })?;
        return Ok(());
    }
    let Some(keep) = kept(levels, blank) else {
        return Err(LexEnd::Indent { line });
    };
    dedent(tokens, levels.len() - keep, first)?;
    levels.truncate(keep);
    Ok(())
}
