//! Writes the C text of programs. The node text has its strings and parameters from here.
#![tactic(auto)]

mod params;
mod pieces;
mod program;
mod statements;

pub use params::push_params;
pub use pieces::{push_form, push_string};
pub use program::emit;
