//! The grammar of statements (reference, chapters 7 and 8), as a relation and as a function, and the laws between them.
#![tactic(auto)]

mod laws;

pub use laws::{one_answer, one_tree};
