//! The laws of the grammar.

ghost use Rattle.py_statements.specs.Script.{OneTree, OneAnswer};

/// A list of tokens has at most one tree.
pub fn one_tree()
    ensures { OneTree }
{}

/// A list of tokens has at most one answer, but for the line of `Grammar` and want of memory.
pub fn one_answer()
    ensures { OneAnswer }
{}
