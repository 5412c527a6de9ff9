//! The rows of the table on lists, tuples, ranges and iterators.
#![tactic(auto)]

mod apply;
mod asking;
mod edits;
mod errors;
mod items;
mod laws;
mod lists;
mod methods;
mod operators;
mod order;
mod ordering;
mod quick;
mod search;
mod slices;
mod steps;

pub use apply::{apply_seq, call_seq};
pub use laws::{slices_are_items, sorting_is_stable, writes_are_read};
pub use quick::{quick_index, quick_next, quick_set_index};
