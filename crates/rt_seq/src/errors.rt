//! The exceptions that the rows raise.

ghost use Rattle.std.specs.Prelude.{◌≡◌, IfOk};
ghost use Rattle.op_rules.specs.Items as items;

use nu_value::{Heap, Value};
use op_forms::OpEnd;
use op_rules::{kind_name, raised};
use std::alloc::{AllocError, Global};

pub const INDEX_ERROR: u64 = 28;

pub const RUNTIME_ERROR: u64 = 32;

pub const STOP_ITERATION: u64 = 34;

pub const TYPE_ERROR: u64 = 35;

pub const VALUE_ERROR: u64 = 36;

/// The error of an index behind the last item.
pub fn out_of_range(alloc: Global, kind: &str) -> Result<OpEnd, AllocError>
    ensures { IfOk result (λ e. e ≡ items.out_of_range kind.now) }
{
    let mut text = String::from_str(alloc, kind)?;
    text.push_str(" index out of range")?;
    raised(alloc, INDEX_ERROR, text.as_str())
}

/// The error of an index that is no number.
pub fn no_index(alloc: Global, kind: &str) -> Result<OpEnd, AllocError>
    ensures { IfOk result (λ e. e ≡ items.no_index kind.now) }
{
    let mut text = String::from_str(alloc, kind)?;
    text.push_str(" indices must be integers")?;
    raised(alloc, TYPE_ERROR, text.as_str())
}

/// The error of a value that has no length.
pub fn no_len(alloc: Global, heap: &Heap, value: &Value) -> Result<OpEnd, AllocError>
    ensures { IfOk result (λ e. e ≡ items.no_len heap.now value.now) }
{
    let mut text = String::from_str(alloc, "object of type '")?;
    text.push_str(kind_name(heap, value))?;
    text.push_str("' has no len()")?;
    raised(alloc, TYPE_ERROR, text.as_str())
}
