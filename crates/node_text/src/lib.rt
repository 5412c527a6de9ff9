//! Writes the node text: node trees as lines, nested by their indentation.
#![tactic(auto)]

mod lines;
mod operands;
mod printer;

pub use printer::print;
