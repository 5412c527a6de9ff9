//! What a call comes to.

use crate::family::Family;
use op_forms::Op;

/// What does the work of a call.
#[derive(Clone, Copy)]
pub enum Route {
    /// The operation, on the arguments of the call.
    Operation(Op),
    /// The built-ins of a family.
    BuiltIn(Family),
    /// The call itself.
    Itself,
}

/// What a class has under the name of a method that a call asks for (reference, sections 3.3.1 and 3.3.6).
#[derive(Clone, Copy)]
pub enum Method {
    /// Neither the class nor one outward has the name.
    Absent,
    /// The function of this number.
    Function(u64),
    /// The `__init__` of exceptions that no script made.
    Native,
    /// Another value, which is no function.
    Other,
}
