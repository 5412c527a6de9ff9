//! What the codes of nodes, flat code and C programs share: operands and arguments, and copies of them and of headers.
#![tactic(auto)]

mod constant;
mod header;
mod operand;

pub use constant::{share_constant, share_text};
pub use header::share_header;
pub use operand::{Argument, Operand, share_arguments};
