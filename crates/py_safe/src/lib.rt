//! No run of a lawful script ends Undefined.
//!
//! A construct is lawful where each operation takes what its operands give, each name has its place, each function gets its cells, and
//! `break`, `continue`, `yield` and a bare `raise` stand where they mean something (specs/Constructs). Under rules of operations that
//! keep law (specs/Rules) what is lawful stays lawful, pauses of generators included, and a run goes
//! on to an end that means something, or forever.
#![tactic(auto)]

ghost use Rattle.py_safe.specs.Laws.{RunsNeverEndUndefined};

/// No run of lawful codes ends Undefined.
pub fn runs_never_end_undefined()
    ensures { RunsNeverEndUndefined }
{}
