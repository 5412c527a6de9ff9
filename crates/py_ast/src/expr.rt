//! Expressions (reference, chapter 6).

ghost use Rattle.std.specs.Prelude.{◌≡◌};
ghost use Rattle.py_ast.specs.Lines.{line_of};

use nu_text::RcStr;
use sqlite_items::{Boxed, Items};

/// A sign before its operand (reference, section 6.6).
#[derive(Clone, Copy)]
pub enum Unary {
    Plus,
    Minus,
    Invert,
}

/// An operator between its operands (reference, sections 6.5, 6.7 to 6.9), also as `op=`.
#[derive(Clone, Copy)]
pub enum Binary {
    BitOr,
    BitXor,
    BitAnd,
    LeftShift,
    RightShift,
    Add,
    Subtract,
    Multiply,
    FloorDivide,
    Remainder,
    Power,
}

/// `and` and `or` (reference, section 6.11).
#[derive(Clone, Copy)]
pub enum Junction {
    And,
    Or,
}

/// A comparison (reference, section 6.10).
#[derive(Clone, Copy)]
pub enum Comparison {
    Less,
    Greater,
    LessEqual,
    GreaterEqual,
    Equal,
    NotEqual,
    In,
    NotIn,
    Is,
    IsNot,
}

/// An item of a tuple or list display: an expression, or `*` and one, with the line of the star.
#[derive(Drop)]
pub enum Item<E> {
    One(E),
    Star(u32, E),
}

/// An entry of a dict display: a key and its value, or `**` and a mapping (reference, section 6.2.7).
#[derive(Drop)]
pub enum Entry<E> {
    Pair(E, E),
    Merge(E),
}

/// An argument of a call (reference, section 6.3.4).
#[derive(Drop)]
pub enum Argument<E> {
    Plain(E),
    Star(E),
    /// Its line, name and value.
    Keyword(u32, RcStr, E),
    Merge(E),
}

/// A comparison of a chain, and the operand on its right.
#[derive(Drop)]
pub struct Link<E> {
    pub comparison: Comparison,
    pub right: E,
}

/// A parameter (reference, section 8.7), with the line of its name or sign.
#[derive(Drop)]
pub enum Param<E> {
    Named(u32, RcStr, Option<E>),
    Slash(u32),
    Star(u32, Option<RcStr>),
    DoubleStar(u32, RcStr),
}

/// What stands between the brackets of an index: an expression, or several with a comma.
#[derive(Drop)]
pub enum Subscript<E> {
    One(E),
    Several(Items<E>),
    /// The lower bound, the upper bound and the step of a slice, where they are written.
    Slice(Option<E>, Option<E>, Option<E>),
}

/// A further clause of a comprehension (reference, section 6.2.4), on the line of its first word.
#[derive(Drop)]
pub enum Clause<E> {
    /// The targets, and what they range over.
    For(u32, E, E),
    If(u32, E),
}

/// The clauses of a comprehension: the first `for`, whose iterable belongs to the enclosing scope, and the others.
#[derive(Drop)]
pub struct Clauses<E> {
    pub target: E,
    pub iterable: E,
    pub more: Items<Clause<E>>,
}

/// An expression, with the line of its first token. Brackets that only group leave no trace but that line.
#[cycle(expression)]
#[derive(Drop)]
pub enum Expr {
    None(u32),
    True(u32),
    False(u32),
    Number(u32, i128),
    /// Adjacent literals are joined.
    Text(u32, RcStr),
    Name(u32, RcStr),
    Tuple(u32, Items<Item<Expr>>),
    List(u32, Items<Item<Expr>>),
    Dict(u32, Items<Entry<Expr>>),
    /// The element and the clauses.
    ListComprehension(u32, Boxed<Expr>, Boxed<Clauses<Expr>>),
    /// The key, the value and the clauses.
    DictComprehension(u32, Boxed<Expr>, Boxed<Expr>, Boxed<Clauses<Expr>>),
    /// The element and the clauses.
    Generator(u32, Boxed<Expr>, Boxed<Clauses<Expr>>),
    Attribute(u32, Boxed<Expr>, RcStr),
    Index(u32, Boxed<Expr>, Boxed<Subscript<Expr>>),
    Call(u32, Boxed<Expr>, Items<Argument<Expr>>),
    Unary(u32, Unary, Boxed<Expr>),
    Binary(u32, Binary, Boxed<Expr>, Boxed<Expr>),
    Compare(u32, Boxed<Expr>, Items<Link<Expr>>),
    Not(u32, Boxed<Expr>),
    Junction(u32, Junction, Boxed<Expr>, Boxed<Expr>),
    /// The test, and what it gives where it holds and where it does not.
    Conditional(u32, Boxed<Expr>, Boxed<Expr>, Boxed<Expr>),
    Lambda(u32, Items<Param<Expr>>, Boxed<Expr>),
    Yield(u32, Option<Boxed<Expr>>),
    YieldFrom(u32, Boxed<Expr>),
    /// A star outside a list, a tuple and a call, which the static rules refuse.
    Star(u32, Boxed<Expr>),
}

impl Expr {
    /// The line of the first token.
    pub fn line(&self) -> u32
        ensures { result ≡ line_of self.now }
    {
        match self {
            Expr::None(line)
            | Expr::True(line)
            | Expr::False(line)
            | Expr::Number(line, _)
            | Expr::Text(line, _)
            | Expr::Name(line, _)
            | Expr::Tuple(line, _)
            | Expr::List(line, _)
            | Expr::Dict(line, _)
            | Expr::ListComprehension(line, _, _)
            | Expr::DictComprehension(line, _, _, _)
            | Expr::Generator(line, _, _)
            | Expr::Attribute(line, _, _)
            | Expr::Index(line, _, _)
            | Expr::Call(line, _, _)
            | Expr::Unary(line, _, _)
            | Expr::Binary(line, _, _, _)
            | Expr::Compare(line, _, _)
            | Expr::Not(line, _)
            | Expr::Junction(line, _, _, _)
            | Expr::Conditional(line, _, _, _)
            | Expr::Lambda(line, _, _)
            | Expr::Yield(line, _)
            | Expr::YieldFrom(line, _)
            | Expr::Star(line, _) => *line,
        }
    }
}
