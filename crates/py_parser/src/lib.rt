//! The parser of scripts (reference, chapters 7 to 9).
//!
//! It is linear in the tokens. It calls itself once for each block that is open and, for expressions, at most 400 deep and once
//! more for each bracket that is open; of blocks and brackets together no more than 100 are open at once.
#![tactic(auto)]

mod block;
mod compound;
mod parser;

pub use parser::parse;
pub use py_grammar::ParseEnd;
