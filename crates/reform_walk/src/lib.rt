//! The walk over the tree of a script that makes its primitive statements, by the functions of single constructs.
#![tactic(auto)]

mod comprehensions;
mod constructs;
mod expressions;
mod functions;
mod here;
mod lists;
mod parts;
mod scopes;
mod shapes;
mod state;
mod targets;

pub use constructs::{binary_op, constant};
pub use functions::Function;
pub use here::Here;
pub use parts::{Aim, Defaults, Turn};
pub use shapes::{handed, shape};
pub use state::Walk;
