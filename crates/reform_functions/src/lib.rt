//! Functions, classes and comprehensions as primitive statements, of parts that are made already (reference, sections 6.2.4, 6.14, 8.7
//! and 8.8).
//!
//! Each function takes the parts of a construct, from left to right, and the next temporary, as those of expressions do.
#![tactic(auto)]

mod classes;
mod comprehensions;
mod decorators;
mod functions;
mod turns;

pub use classes::make_class;
pub use comprehensions::comprehension;
pub use decorators::{Decorator, decorate, defined};
pub use functions::{Named, function};
pub use turns::{Made, begun, emit, filter, gather, over, push, put, turn};
