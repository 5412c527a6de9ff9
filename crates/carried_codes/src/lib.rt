//! The primitive statements of every construct of a script, and that they carry it.
//!
//! Each construct has one function of its parts and the next temporary (specs/Expressions, Places, Clauses, Statements); one function over
//! the meaning's syntax threads the numbers of temporaries through a whole code (specs/Nodes).
#![tactic(auto)]

mod laws;

pub use laws::{
    blocks_are_carried, codes_are_carried, expressions_are_carried, scripts_are_carried,
};
