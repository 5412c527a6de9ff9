//! What stands where in a script: one pass over the tree.

ghost use Rattle.std.specs.Prelude.{◌≡◌, option_map};
ghost use Rattle.py_scopes.specs.Rules as rules;

use nu_text::RcStr;
use py_ast::Scope;
use sqlite_items::Items;

/// What an expression stands for where it stands.
#[derive(Clone, Copy)]
pub enum Role {
    /// Its value is taken.
    Value,
    /// Something is assigned to it.
    Target,
    /// It is the target of `op=`.
    Augmented,
    /// It is deleted.
    Deleted,
}

/// The place where something stands.
#[derive(Clone, Copy)]
pub struct Place {
    /// The number of its scope.
    pub scope: usize,
    /// The number of the innermost class around it, whose name mangles.
    pub class: Option<usize>,
    /// Whether it stands in the body of a loop of its scope.
    pub in_loop: bool,
    /// Whether the innermost `except` or `finally` clause of its scope around it is an `except` clause.
    pub in_except: bool,
}

/// What stands at a place. Names are mangled.
#[derive(Drop)]
pub enum What {
    /// A name that is bound: assigned, deleted, or named by `for`, `with`, `except`, `def` or `class`.
    Binds(RcStr),
    /// A name that is read.
    Uses(RcStr),
    Parameter(RcStr),
    /// A name that a `global` statement declares.
    Global(RcStr),
    /// A name that a `nonlocal` statement declares.
    Nonlocal(RcStr),
    /// The name of an attribute.
    Attribute(RcStr),
    /// The begin of a call's arguments.
    Arguments,
    /// The name of a keyword argument, with the number of the site at which these arguments begin.
    Keyword(usize, RcStr),
    /// `break` or `continue`.
    Break,
    Return,
    Yield,
    /// A `raise` without an exception.
    Reraise,
    /// No target, where a target has to stand, or a star that no rule allows.
    Misplaced,
}

impl What {
    /// The name of a variable, in a declaration or not.
    pub fn variable(&self) -> Option<&RcStr>
        ensures { option_map (λ name. name.now) result ≡ rules.variable self.now }
    {
        match self {
            What::Binds(name)
            | What::Uses(name)
            | What::Parameter(name)
            | What::Global(name)
            | What::Nonlocal(name) => Some(name),
            _ => None,
        }
    }

    /// An identifier: the name of a variable, of an attribute or of a keyword argument.
    pub fn identifier(&self) -> Option<&RcStr>
        ensures { option_map (λ name. name.now) result ≡ rules.identifier self.now }
    {
        match self {
            What::Attribute(name) | What::Keyword(_, name) => Some(name),
            _ => self.variable(),
        }
    }
}

/// Something that stands in a script.
#[derive(Drop)]
pub struct Site {
    pub place: Place,
    pub line: u32,
    pub what: What,
}

/// The scopes of a script without their names, and what stands in the script, both in the order of the text.
#[derive(Drop)]
pub struct Survey {
    /// Whether it is of the built-in text.
    pub built_in: bool,
    pub scopes: Items<Scope>,
    pub sites: Items<Site>,
}
