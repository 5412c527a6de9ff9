//! Calls: functions and how they are bound, methods, classes and natives.
#![tactic(auto)]

mod apply;
mod binding;
mod calls;
mod classes;
mod collecting;
mod construction;
mod definitions;
mod functions;
mod given;
mod keywords;
mod laws;
mod native_classes;
mod natives;
mod objects;
mod params;

pub use apply::apply_call;
pub use calls::call_value;
pub use collecting::copied;
pub use functions::bind;
pub use given::{items_of, names_of};
pub use laws::each_argument_has_its_parameter;
pub use op_rules::Bound;
