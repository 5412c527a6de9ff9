//! Which parameter a keyword names, and how a binding ends.

use nu_run::StopKind;
use nu_value::Items;

/// Which parameter a keyword names.
#[derive(Clone, Copy)]
pub enum Named {
    /// An ordinary one, at this place among those that have one.
    AtPlace(usize),
    /// A keyword-only one, with this number among all.
    ByKey(usize),
    NoName,
}

/// How a binding ends.
#[derive(Drop)]
pub enum Bound {
    /// A value for each parameter, in their order.
    Ready(Items),
    /// A new exception of the class of this number, with these arguments.
    Raise(u64, Items),
    Stop(StopKind),
}
