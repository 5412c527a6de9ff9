//! The levels, and what tokens do in expressions.

ghost use Rattle.std.specs.Prelude.{◌≡◌, ◌≤◌};
ghost use Rattle.py_grammar.specs.Levels as spec;
ghost use Rattle.py_grammar.specs.Parse as parse;

use py_ast::{Binary, Junction, Sign, Word};
use py_grammar::{Chain, Mark, Operator, Role, Row};

pub const EXPRESSION: u32 = 1;

pub const DISJUNCTION: u32 = 2;

pub const CONJUNCTION: u32 = 3;

pub const NEGATION: u32 = 4;

pub const COMPARISON: u32 = 5;

pub const BITOR: u32 = 6;

pub const BITXOR: u32 = 7;

pub const BITAND: u32 = 8;

pub const SHIFT: u32 = 9;

pub const SUM: u32 = 10;

pub const TERM: u32 = 11;

pub const SIGNED: u32 = 12;

pub const POWER: u32 = 13;

pub const PRIMARY: u32 = 14;

/// The greatest height of a script's tree.
pub const MAX_DEPTH: u32 = 400;

pub fn level_of(chain: Chain) -> u32
    ensures value { result ≡ spec.level_of chain }
    ensures small { result ≤ 20 }
{
    match chain {
        Chain::Or => DISJUNCTION,
        Chain::And => CONJUNCTION,
        Chain::BitOr => BITOR,
        Chain::BitXor => BITXOR,
        Chain::BitAnd => BITAND,
        Chain::Shift => SHIFT,
        Chain::Sum => SUM,
        Chain::Term => TERM,
    }
}

pub fn plain_level(row: Row) -> u32
    ensures { result ≡ spec.plain_level row }
{
    match row {
        Row::Expressions => EXPRESSION,
        Row::Targets => PRIMARY,
    }
}

pub fn star_level(row: Row) -> u32
    ensures { result ≡ spec.star_level row }
{
    match row {
        Row::Expressions => BITOR,
        Row::Targets => PRIMARY,
    }
}

fn sign_role(sign: Sign) -> Role
    ensures { result ≡ spec.sign_role sign }
{
    match sign {
        Sign::Bar => Role::Infix(Chain::BitOr, Operator::Binary(Binary::BitOr)),
        Sign::Caret => Role::Infix(Chain::BitXor, Operator::Binary(Binary::BitXor)),
        Sign::Ampersand => Role::Infix(Chain::BitAnd, Operator::Binary(Binary::BitAnd)),
        Sign::LeftShift => Role::Infix(Chain::Shift, Operator::Binary(Binary::LeftShift)),
        Sign::RightShift => Role::Infix(Chain::Shift, Operator::Binary(Binary::RightShift)),
        Sign::Plus => Role::Infix(Chain::Sum, Operator::Binary(Binary::Add)),
        Sign::Minus => Role::Infix(Chain::Sum, Operator::Binary(Binary::Subtract)),
        Sign::Star => Role::Infix(Chain::Term, Operator::Binary(Binary::Multiply)),
        Sign::DoubleSlash => Role::Infix(Chain::Term, Operator::Binary(Binary::FloorDivide)),
        Sign::Percent => Role::Infix(Chain::Term, Operator::Binary(Binary::Remainder)),
        Sign::DoubleStar => Role::Power,
        Sign::Less
        | Sign::Greater
        | Sign::LessEqual
        | Sign::GreaterEqual
        | Sign::EqualEqual
        | Sign::NotEqual => Role::Compares,
        Sign::LeftParen => Role::Call,
        Sign::LeftBracket => Role::Index,
        Sign::Dot => Role::Attribute,
        _ => Role::Ends,
    }
}

fn word_role(word: Word) -> Role
    ensures { result ≡ spec.word_role word }
{
    match word {
        Word::If => Role::Condition,
        Word::Or => Role::Infix(Chain::Or, Operator::Junction(Junction::Or)),
        Word::And => Role::Infix(Chain::And, Operator::Junction(Junction::And)),
        Word::In | Word::Is | Word::Not => Role::Compares,
        _ => Role::Ends,
    }
}

/// What a token does behind an expression.
pub fn role_of(mark: Mark) -> Role
    ensures { result ≡ spec.role mark }
{
    match mark {
        Mark::Sign(sign) => sign_role(sign),
        Mark::Keyword(word) => word_role(word),
        Mark::Text => Role::Literal,
        _ => Role::Ends,
    }
}

/// The level of what a token makes of the expression before it.
pub fn makes(role: Role) -> u32
    ensures { result ≡ spec.makes role }
{
    match role {
        Role::Ends | Role::Literal => 0,
        Role::Condition => EXPRESSION,
        Role::Compares => COMPARISON,
        Role::Infix(chain, _) => level_of(chain),
        Role::Power => POWER,
        Role::Call | Role::Index | Role::Attribute => PRIMARY,
    }
}

pub fn is_comparison(role: Role) -> bool
    ensures { result ≡ parse.is_comparison role }
{
    match role {
        Role::Compares => true,
        _ => false,
    }
}

/// Whether a token begins expressions of a level.
pub fn can_begin(level: u32, mark: Mark) -> bool
    ensures { result ≡ spec.can_begin level mark }
{
    match mark {
        Mark::Name
        | Mark::Number
        | Mark::Text
        | Mark::Keyword(Word::None | Word::True | Word::False)
        | Mark::Sign(Sign::LeftParen | Sign::LeftBracket | Sign::LeftBrace) => true,
        Mark::Keyword(Word::Lambda) => level <= EXPRESSION,
        Mark::Keyword(Word::Not) => level <= NEGATION,
        Mark::Sign(Sign::Plus | Sign::Minus | Sign::Tilde) => level <= SIGNED,
        _ => false,
    }
}

/// Whether a token begins items of a list.
pub fn begins_item(row: Row, mark: Mark) -> bool
    ensures { result ≡ parse.begins_item row mark }
{
    match mark {
        Mark::Sign(Sign::Star) => true,
        _ => can_begin(plain_level(row), mark),
    }
}

pub fn begins_argument(mark: Mark) -> bool
    ensures { result ≡ parse.begins_argument mark }
{
    match mark {
        Mark::Sign(Sign::Star | Sign::DoubleStar) => true,
        _ => can_begin(EXPRESSION, mark),
    }
}

pub fn begins_entry(mark: Mark) -> bool
    ensures { result ≡ parse.begins_entry mark }
{
    match mark {
        Mark::Sign(Sign::DoubleStar) => true,
        _ => can_begin(EXPRESSION, mark),
    }
}

pub fn begins_param(mark: Mark) -> bool
    ensures { result ≡ parse.begins_param mark }
{
    match mark {
        Mark::Name | Mark::Sign(Sign::Slash | Sign::Star | Sign::DoubleStar) => true,
        _ => false,
    }
}

pub fn begins_clause(mark: Mark) -> bool
    ensures { result ≡ parse.begins_clause mark }
{
    match mark {
        Mark::Keyword(Word::For | Word::If) => true,
        _ => false,
    }
}

/// Whether a token may follow an expression.
pub fn follows_expression(mark: Mark) -> bool
    ensures { result ≡ spec.follows_expression mark }
{
    match mark {
        Mark::Sign(
            Sign::RightParen
            | Sign::RightBracket
            | Sign::RightBrace
            | Sign::Comma
            | Sign::Colon
            | Sign::Semicolon
            | Sign::Equal
            | Sign::PlusEqual
            | Sign::MinusEqual
            | Sign::StarEqual
            | Sign::DoubleSlashEqual
            | Sign::PercentEqual
            | Sign::DoubleStarEqual
            | Sign::LeftShiftEqual
            | Sign::RightShiftEqual
            | Sign::AmpersandEqual
            | Sign::BarEqual
            | Sign::CaretEqual,
        ) => true,
        Mark::Newline => true,
        Mark::Keyword(Word::As | Word::For | Word::From) => true,
        _ => false,
    }
}

/// Whether a token may follow a list of expressions.
pub fn follows_exprs(mark: Mark) -> bool
    ensures { result ≡ spec.follows_exprs mark }
{
    match mark {
        Mark::Sign(Sign::Comma) => false,
        _ => follows_expression(mark),
    }
}

/// Whether a token may follow the targets of a loop.
pub fn follows_targets(mark: Mark) -> bool
    ensures { result ≡ spec.follows_targets mark }
{
    match mark {
        Mark::Keyword(Word::In) => true,
        _ => false,
    }
}

/// Whether a token may follow the target of an item of `with`.
pub fn follows_target(mark: Mark) -> bool
    ensures { result ≡ spec.follows_target mark }
{
    match mark {
        Mark::Sign(Sign::Comma | Sign::Colon) => true,
        _ => false,
    }
}

/// Whether a token may follow parameters.
pub fn follows_params(mark: Mark) -> bool
    ensures { result ≡ spec.follows_params mark }
{
    match mark {
        Mark::Sign(Sign::RightParen | Sign::Colon) => true,
        _ => false,
    }
}
