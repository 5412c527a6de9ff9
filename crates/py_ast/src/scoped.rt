//! A script with its scopes and the homes of its names (reference, section 4.2).

use crate::stmt::Script;
use nu_text::RcStr;
use sqlite_items::Items;

/// What a scope is of. A comprehension and a generator expression run in scopes of their own.
#[derive(Clone, Copy, Debug, PartialEq, Eq)]
pub enum ScopeKind {
    Module,
    Function,
    Lambda,
    Class,
    ListComprehension,
    DictComprehension,
    Generator,
}

/// A name that stands in a scope, mangled where it stands in a class, and its home: the number of the scope that
/// holds it. Home 0 is the module, behind which are the built-in names.
#[derive(Drop)]
pub struct NameHome {
    pub name: RcStr,
    pub home: usize,
}

/// A scope of a script.
#[derive(Drop)]
pub struct Scope {
    pub kind: ScopeKind,
    /// The name of the function or class as it is written, or `<module>`, `<lambda>`, `<listcomp>`, `<dictcomp>` or
    /// `<genexpr>`.
    pub name: RcStr,
    /// The line of `def`, `lambda`, `class` or the comprehension's first token. The module's is 1.
    pub line: u32,
    /// The number of the scope directly around this one. The module's is its own, 0.
    pub enclosing: usize,
    /// Whether its call makes a generator: it is a generator expression, or a `yield` stands in it.
    pub is_generator: bool,
    /// The names that stand in it, each once, in the order in which they first stand there.
    pub names: Items<NameHome>,
}

/// A script that keeps the static rules, with its scopes in the order of the text.
///
/// The module is scope 0. A function or class stands at its word `def`, `lambda` or `class`, a comprehension at its
/// first token. Of two at one token the outer comes first.
#[derive(Drop)]
pub struct Scoped {
    pub script: Script,
    pub scopes: Items<Scope>,
}

impl Scoped {
    /// Lets the tree and its scopes go, as `Script::let_go` does.
    pub fn let_go(self) {}
}
