//! Names as primitive statements, by where they live (reference, section 4.2).
#![tactic(auto)]

mod home;
mod statements;

pub use home::Home;
pub use statements::{read, store, unbind};
