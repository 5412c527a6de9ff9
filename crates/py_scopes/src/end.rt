//! What keeps a script from being resolved.

use thiserror::Error;

/// The first kind of the table, in the order of this list, whose rule the script breaks, on the line of the first
/// place that breaks it; or want of memory.
#[derive(Debug, Drop, Error)]
pub enum ScopeEnd {
    /// Something that is no target stands where one has to, or a star stands where none may (reference, sections 7.2,
    /// 7.2.1, 7.5 and 8.3).
    #[error("no target in line {line}")]
    Target { line: u32 },
    /// `break` or `continue` stands in the body of no loop of its scope (sections 7.9 and 7.10).
    #[error("outside of a loop in line {line}")]
    Loop { line: u32 },
    /// `return` stands in the module or in a class block, or `yield` in a scope other than that of a `def` (sections
    /// 7.6 and 6.2.9).
    #[error("outside of a function in line {line}")]
    Function { line: u32 },
    /// A name is declared after it stands in the scope, or both global and nonlocal, or nonlocal without an enclosing
    /// function that binds it (sections 7.12 and 7.13).
    #[error("wrong declaration in line {line}")]
    Declare { line: u32 },
    /// A name whose home is the module is bound nowhere, or an identifier between double underscores is not in the
    /// written list (sections 4.2.2 and 3.3).
    #[error("unknown name in line {line}")]
    Name { line: u32 },
    /// A `raise` without an exception has no `except` clause as the innermost clause around it (section 7.8).
    #[error("nothing to raise in line {line}")]
    Raise { line: u32 },
    /// A parameter or a keyword argument stands twice in one list (sections 8.7 and 6.3.4).
    #[error("repeated name in line {line}")]
    Repeat { line: u32 },
    /// There was no memory; this says nothing of the script.
    #[error("out of memory")]
    Memory,
}
