//! Targets as primitive statements: what is assigned to them, deletions, and augmented assignments (reference, sections 7.2 and 7.5).
//!
//! Each function takes a target whose parts are evaluated expressions, and answers the block that carries the whole where the parts
//! carry theirs.
#![tactic(auto)]

mod assigned;
mod augments;
mod deletions;
mod place;
mod stores;
mod unpacking;

pub use assigned::{assign, assign_all};
pub use augments::augment;
pub use deletions::{delete, delete_all};
pub use place::Place;
