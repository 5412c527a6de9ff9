//! Tokens of a script, and its tree.
#![tactic(auto)]

mod expr;
mod scoped;
mod spelled;
mod stmt;
mod token;

pub use expr::{
    Argument, Binary, Clause, Clauses, Comparison, Entry, Expr, Item, Junction, Link, Param,
    Subscript, Unary,
};
pub use scoped::{NameHome, Scope, ScopeKind, Scoped};
pub use spelled::{SIGNS, Sign, WORDS, Word};
pub use stmt::{Branch, Declared, Handler, Manager, Params, Script, Stmt, Target};
pub use token::{Token, TokenKind};
