//! The table's way to the calls.

ghost use Rattle.std.specs.Prelude.{◌≡◌, IfOk};
ghost use Rattle.op_forms.specs.Doing.{Did};
ghost use Rattle.op_rules.specs.Calls as spec;

use crate::calls::call_value;
use crate::collecting::copied;
use crate::definitions::func_row;
use crate::given::{items_of, names_of};
use crate::objects::unbuilt;
use nu_value::{Codes, Heap, Names, Value};
use op_forms::{Op, OpEnd};
use std::alloc::{AllocError, Global};

fn callx_row(
    alloc: Global,
    heap: &mut Heap,
    function: &Value,
    list: &Value,
    dict: &Value,
) -> Result<OpEnd, AllocError>
    ensures { IfOk result (λ e. Did (spec.callx_row heap.old function.now list.now dict.now) heap.old heap.new e) }
{
    let items = items_of(alloc, heap, list)?;
    let names = names_of(alloc, heap, dict)?;
    call_value(alloc, heap, function, items, names)
}

/// Calls, and functions that are made. A function that is asked isn't bound yet. What a family of values does itself, as the
/// methods of lists, isn't done here.
pub fn apply_call(
    alloc: Global,
    op: Op,
    heap: &mut Heap,
    codes: &Codes,
    args: &[Value],
) -> Result<OpEnd, AllocError>
    ensures { IfOk result (λ e. Did (spec.call_row op codes.now heap.old args.now) heap.old heap.new e) }
{
    match (op, args) {
        (Op::Func, _) => func_row(alloc, heap, codes, args),
        (Op::Call, [function, args @ ..]) => {
            let items = copied(alloc, args)?;
            call_value(alloc, heap, function, items, Names::new(alloc))
        }
        (Op::CallX, [function, list, dict]) => callx_row(alloc, heap, function, list, dict),
        _ => unbuilt(),
    }
}
