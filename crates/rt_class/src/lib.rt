//! The rows of the table on classes, instances and exceptions, and those of attributes.
#![tactic(auto)]

mod apply;
mod attributes;
mod calls;
mod changes;
mod exceptions;
mod items;
mod laws;
mod lookups;
mod making;
mod operators;
mod outcome;
mod quick;
mod specials;

pub use apply::{apply_attribute, apply_class};
pub use calls::call_class;
pub use laws::{classes_are_ordered, found_is_nearest};
pub use lookups::{class_of, found_in, is_under};
pub use quick::quick_attr;
