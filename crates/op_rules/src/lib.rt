//! The table of operations: what each of them does.
#![tactic(auto)]

mod arithmetic;
mod asking;
mod attribute_names;
mod binding;
mod callees;
mod changes;
mod family;
mod first_objects;
mod folding;
mod kinds;
mod laws;
mod special;

pub use arithmetic::{Computed, compute, compute_one};
pub use asking::{ask, asks_in, asks_iterator, built_in};
pub use attribute_names::{
    DICT_METHODS, GENERATOR_METHODS, LIST_METHODS, SPECIAL_NAMES, TEXT_METHODS, TUPLE_METHODS,
    is_dict_method, is_generator_method, is_list_method, is_text_method, is_tuple_method,
    is_unwritten,
};
pub use binding::{Bound, Named};
pub use callees::{Method, Route};
pub use changes::{bind_in, unbind_in};
pub use family::Family;
pub use first_objects::{CLASS_NAMES, NATIVE_FUNCTIONS, first_heap};
pub use folding::fold;
pub use kinds::{
    class_name, kind_name, no_item_changes, no_iterator, no_operand, no_operands, no_order,
    not_subscriptable, raised,
};
pub use laws::{finishing_keeps_sound, rows_keep_sound, the_start_is_sound};
pub use special::{Init, Special};
