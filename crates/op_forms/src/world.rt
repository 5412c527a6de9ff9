//! What operations work on.

use nu_value::{Codes, Heap};

/// The world of operations: the objects, the names that are looked up, and the functions of the program.
#[derive(Drop)]
pub struct World {
    pub heap: Heap,
    /// The names of the module of the running function.
    pub module: u64,
    /// The built-in names.
    pub builtins: u64,
    pub codes: Codes,
}
