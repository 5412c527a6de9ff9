//! What tokens do in expressions.

use py_ast::{Binary, Junction, Sign, Word};

/// What the next token is, without what it stands for.
#[derive(Clone, Copy)]
pub enum Mark {
    Name,
    Keyword(Word),
    Number,
    Text,
    Sign(Sign),
    Newline,
    Indent,
    Dedent,
    /// The end of the list.
    End,
}

/// The levels with two operands that group from the left, from the loosest on.
#[derive(Clone, Copy)]
pub enum Chain {
    Or,
    And,
    BitOr,
    BitXor,
    BitAnd,
    Shift,
    Sum,
    Term,
}

/// An operator of such a level.
#[derive(Clone, Copy)]
pub enum Operator {
    Junction(Junction),
    Binary(Binary),
}

/// What a token does behind an expression.
#[derive(Clone, Copy)]
pub enum Role {
    Ends,
    /// A string literal, which nothing but a string literal takes.
    Literal,
    Condition,
    Compares,
    Infix(Chain, Operator),
    Power,
    Call,
    Index,
    Attribute,
}

/// The two lists whose items are expressions or stand behind a star: of expressions (reference, section 6.15), and of
/// targets (reference, section 7.2).
#[derive(Clone, Copy)]
pub enum Row {
    Expressions,
    Targets,
}

/// A kind of bracket.
#[derive(Clone, Copy)]
pub enum Bracket {
    Round,
    Square,
    Curly,
}

/// What a list of arguments has had (reference, section 6.3.4).
#[derive(Clone, Copy)]
pub enum Arrangement {
    /// Positional arguments alone.
    Positional,
    /// Keyword arguments too.
    Named,
    /// A positional argument behind a keyword argument.
    Wrong,
}

/// What a list of parameters has had (reference, section 8.7).
#[derive(Clone, Copy)]
pub enum Stage {
    /// Nothing.
    Start,
    /// Parameters without default.
    Plain,
    /// The last one had a default.
    Optional,
    /// `/` behind parameters without default, and perhaps further ones.
    SlashPlain,
    /// `/`, and the last parameter had a default.
    SlashOptional,
    /// `*`, which needs a named parameter next.
    Bare,
    /// `*` with a name, or with a parameter behind it.
    Starred,
    /// `**`.
    Double,
    /// What breaks the rules.
    Wrong,
}
