//! Where the names of a script's scopes lie among the temporaries of their codes (reference, section 4.2.2).
#![tactic(auto)]

mod begun;
mod captured;
mod frees;
mod here;
mod layout;
mod lists;
mod locals;
mod names;
mod place;
mod seats;
mod words;

pub use here::module;
pub use layout::Layout;
pub use place::Place;
