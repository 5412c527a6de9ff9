//! Calls as operations.

ghost use Rattle.std.specs.Prelude.{◌≡◌, IfOk, ◌∷◌, map};
ghost use Rattle.code_forms.specs.declared.operand.Argument.TheVariants as argument;

use code_forms::{Argument, Operand};
use sqlite_items::Items;
use std::alloc::{AllocError, Global};

/// What the operation of a call takes: the function first.
pub fn call_arguments(
    alloc: Global,
    function: &Operand,
    arguments: &[Operand],
) -> Result<Items<Argument>, AllocError>
    ensures { IfOk result (λ list. list ≡ argument.Value function.now ∷ map argument.Value arguments.now) }
{
    let mut list = Vec::new(alloc);
    list.push(Argument::Value(function.share()?))?;
    for operand in arguments {
        list.push(Argument::Value(operand.share()?))?;
    }
    Ok(Items::from_vec(list))
}
