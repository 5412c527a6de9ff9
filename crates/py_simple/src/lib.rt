//! The parser of simple statements (reference, chapter 7), and what compound statements take from the same tokens: words,
//! decorators, the items of `with`, a base class, and how deep a script nests.
#![tactic(auto)]

mod names;
mod nesting;
mod nodes;
mod parts;
mod simple;
mod words;

pub use names::as_name;
pub use nesting::too_deep;
pub use nodes::{dedent, indent, made, newline, nothing};
pub use parts::{base_class, decorators, managers};
pub use simple::line;
pub use words::{begins_compound, closes, is_newline};
