//! The table of operations: which arguments fit one, what it does to a world, and what becomes of an asked function's value.
#![tactic(auto)]

mod arguments;
mod asking;
mod calling;
mod finishing;
mod named;
mod names;
mod quick;
mod quick_calls;
mod quick_changes;
mod quick_names;
mod routes;
mod table;

pub use arguments::fits;
pub use asking::bind;
pub use finishing::finish;
pub use op_forms::World;
pub use quick::{quick_one, quick_two};
pub use quick_calls::quick_call;
pub use quick_changes::{quick_next, quick_set_cell, quick_set_index};
pub use quick_names::{
    quick_attr, quick_cell, quick_global, quick_local, quick_native, quick_set_attr,
    quick_set_global,
};
pub use table::apply;
