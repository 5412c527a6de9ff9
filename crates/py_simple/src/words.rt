//! Words and signs of statements.

ghost use Rattle.std.specs.Prelude.{◌≡◌, ◌<◌, ◌≤◌, ◌+◌};
ghost use Rattle.py_statements.specs.Words as spec;

use py_ast::{Binary, Expr, Sign, Token, TokenKind, Word};
use py_grammar::Mark;

/// The operator of an augmented assignment (reference, section 7.2.1).
pub fn augmented(mark: Mark) -> Option<Binary>
    ensures { result ≡ spec.augmented mark }
{
    match mark {
        Mark::Sign(Sign::PlusEqual) => Some(Binary::Add),
        Mark::Sign(Sign::MinusEqual) => Some(Binary::Subtract),
        Mark::Sign(Sign::StarEqual) => Some(Binary::Multiply),
        Mark::Sign(Sign::DoubleSlashEqual) => Some(Binary::FloorDivide),
        Mark::Sign(Sign::PercentEqual) => Some(Binary::Remainder),
        Mark::Sign(Sign::DoubleStarEqual) => Some(Binary::Power),
        Mark::Sign(Sign::LeftShiftEqual) => Some(Binary::LeftShift),
        Mark::Sign(Sign::RightShiftEqual) => Some(Binary::RightShift),
        Mark::Sign(Sign::AmpersandEqual) => Some(Binary::BitAnd),
        Mark::Sign(Sign::BarEqual) => Some(Binary::BitOr),
        Mark::Sign(Sign::CaretEqual) => Some(Binary::BitXor),
        _ => None,
    }
}

/// Whether a token begins a compound statement (reference, chapter 8).
pub fn begins_compound(mark: Mark) -> bool
    ensures { result ≡ spec.begins_compound mark }
{
    match mark {
        Mark::Keyword(
            Word::If | Word::While | Word::For | Word::Try | Word::With | Word::Def | Word::Class,
        ) => true,
        Mark::Sign(Sign::At) => true,
        _ => false,
    }
}

pub fn is_newline(mark: Mark) -> bool
    ensures { result ≡ spec.is_newline mark }
{
    match mark {
        Mark::Newline => true,
        _ => false,
    }
}

pub fn is_indent(mark: Mark) -> bool
    ensures { result ≡ spec.is_indent mark }
{
    match mark {
        Mark::Indent => true,
        _ => false,
    }
}

/// Whether a token ends the statements of a block, where they stand in one, or else of the script.
pub fn closes(inner: bool, mark: Mark) -> bool
    ensures { result ≡ spec.closes inner mark }
{
    match mark {
        Mark::Dedent => inner,
        Mark::End => !inner,
        _ => false,
    }
}

/// How many brackets and indentation levels are open behind a token, where so many were open before it.
pub fn opened(before: usize, kind: &TokenKind) -> usize
    requires { before < usize.MAX }
    ensures value { result ≡ spec.opened before kind.now }
    ensures small { result ≤ before + 1 }
{
    match kind {
        TokenKind::Sign(Sign::LeftParen | Sign::LeftBracket | Sign::LeftBrace)
        | TokenKind::Indent => before + 1,
        TokenKind::Sign(Sign::RightParen | Sign::RightBracket | Sign::RightBrace)
        | TokenKind::Dedent => before.saturating_sub(1),
        _ => before,
    }
}

fn is_comma(kind: &TokenKind) -> bool
    ensures { result ≡ spec.is_comma kind.now }
{
    match kind {
        TokenKind::Sign(Sign::Comma) => true,
        _ => false,
    }
}

/// Whether a comma stands in exactly one bracket.
fn comma_in_one(tokens: &[Token]) -> bool
    ensures { result ≡ spec.comma_in_one 0 tokens.now }
{
    let mut open = 0;
    for token in tokens {
        if is_comma(&token.kind) && open == 1 {
            return true;
        }
        open = opened(open, &token.kind);
    }
    false
}

/// Whether the expression, which these tokens spell, is brackets round a tuple with items, whose commas stand directly inside
/// (reference, section 6.2.3).
#[tactic(auto, unfolding(py_statements::specs::Words::is_form))]
pub fn is_form(x: &Expr, tokens: &[Token]) -> bool
    ensures { result ≡ spec.is_form x.now tokens.now }
{
    match x {
        Expr::Tuple(_, items) => items.len() > 0 && comma_in_one(tokens),
        _ => false,
    }
}
