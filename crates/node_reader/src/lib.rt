//! Reads the node text: the node tree of a given text, or that none has it.
#![tactic(auto)]

mod code;
mod end;
mod laws;
mod line;
mod node;
mod operand;
mod operation;
mod reader;

pub use end::NodeEnd;
pub use laws::{one_text, one_tree};
pub use reader::read;
