//! The rows of the table on dicts and their views: making and filling, items, iteration, operators and methods.
#![tactic(auto)]

mod apply;
mod changes;
mod filling;
mod keys;
mod laws;
mod methods;
mod operators;
mod quick;
mod views;

pub use apply::apply_dict;
pub use laws::{copies_are_the_same, keys_keep_their_places, members_are_keys};
pub use methods::call_dict;
pub use quick::{quick_index, quick_set_index};
