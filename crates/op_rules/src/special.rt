//! Special methods, and the `__init__` of exceptions.

/// What a class has under the name of a special method (reference, section 3.3).
#[derive(Clone, Copy)]
pub enum Special {
    /// Neither the class nor one outward has the name.
    Absent,
    /// The function of this number.
    Function(u64),
    /// A value that is no function.
    Other,
}

/// The `__init__` of an exception class.
#[derive(Clone, Copy)]
pub enum Init {
    /// That which no script made.
    Plain,
    /// The function of this number.
    Function(u64),
    /// Another value.
    Other,
}
