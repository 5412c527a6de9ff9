//! Statements (reference, chapters 7 and 8).

use crate::expr::{Binary, Expr, Param};
use nu_text::RcStr;
use sqlite_items::{Boxed, Items};

/// A target of an assignment, a loop, `with`, `del` or a comprehension: an expression, of which the static rules say
/// whether it is a target.
pub type Target = Expr;

/// The parameters of a function.
pub type Params = Items<Param<Expr>>;

/// A name of a `global` or `nonlocal` statement, with its line.
#[derive(Drop)]
pub struct Declared {
    pub line: u32,
    pub name: RcStr,
}

/// A test and the statements that it guards, on the line of `if` or `elif`.
#[derive(Drop)]
pub struct Branch<S> {
    pub line: u32,
    pub test: Expr,
    pub body: Items<S>,
}

/// An `except` clause, on the line of this word.
#[derive(Drop)]
pub struct Handler<S> {
    pub line: u32,
    pub class: Option<Expr>,
    pub name: Option<RcStr>,
    pub body: Items<S>,
}

/// An item of a `with` statement.
#[derive(Drop)]
pub struct Manager {
    pub value: Expr,
    pub target: Option<Target>,
}

/// A statement, with the line of its first token; that of a `def` or `class` is the line of this word.
/// A block that isn't written is empty.
#[cycle(statement)]
#[derive(Drop)]
pub enum Stmt {
    Expr(u32, Expr),
    /// The targets, from left to right, and the value.
    Assign(u32, Items<Target>, Expr),
    Augment(u32, Target, Binary, Expr),
    Pass(u32),
    Break(u32),
    Continue(u32),
    Return(u32, Option<Expr>),
    Raise(u32, Option<Expr>),
    Del(u32, Target),
    /// The test and the text.
    Assert(u32, Expr, Option<Expr>),
    Global(u32, Items<Declared>),
    Nonlocal(u32, Items<Declared>),
    /// The branches, and `else`.
    If(u32, Items<Branch<Stmt>>, Items<Stmt>),
    /// The test, the body, and `else`.
    While(u32, Expr, Items<Stmt>, Items<Stmt>),
    /// The targets, what they range over, the body, and `else`.
    For(u32, Target, Expr, Items<Stmt>, Items<Stmt>),
    /// The body, the `except` clauses, `else` and `finally`.
    Try(u32, Items<Stmt>, Items<Handler<Stmt>>, Items<Stmt>, Items<Stmt>),
    With(u32, Items<Manager>, Items<Stmt>),
    /// The decorators, the name, the parameters and the body.
    Def(u32, Items<Expr>, RcStr, Params, Items<Stmt>),
    /// The decorators, the name, the base and the body.
    Class(u32, Items<Expr>, RcStr, Option<Expr>, Items<Stmt>),
}

/// A script: its statements.
#[derive(Drop)]
pub struct Script {
    pub statements: Items<Stmt>,
}

impl Script {
    /// Lets the tree go. That is proved here, once, and not again by each crate that has a tree in hand.
    pub fn let_go(self) {}
}
