//! Reads the C text: the program that stands for given bytes, or that none does. The node text has the reading of its strings,
//! numbers and parameters from here.
#![tactic(auto)]

mod argument;
mod declaration;
mod end;
mod function;
mod labels;
mod laws;
pub mod number;
mod operand;
mod operation;
pub mod params;
mod reader;
pub mod spelling;
mod statement;
mod stored;

pub use end::ReadEnd;
pub use laws::{one_program, one_text};
pub use reader::read;
