//! Statements and blocks of them, by what they are as blocks; and blocks rewritten, so that their returns and outward leaves lead to the
//! nearest loop around them.
#![tactic(auto)]

mod rewriting;
mod shapes;
mod stores;

pub use rewriting::redirected;
pub use shapes::{
    append, branches, catches, flag, followed, loops, named_operation, native, operation, puts,
    single,
};
