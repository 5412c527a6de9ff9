//! Families of rows, by the kinds of the arguments.

/// The part of the table that an operation on values goes to.
#[derive(Clone, Copy)]
pub enum Family {
    /// Instances, classes and exceptions.
    Classes,
    /// Dicts and their views.
    Dicts,
    /// Lists, tuples, ranges and iterators.
    Sequences,
    Texts,
    /// Integers, and what has no operations of its own.
    Integers,
}
