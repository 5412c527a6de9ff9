//! Functions that are made (reference, section 8.7).

ghost use Rattle.std.specs.Prelude.{◌≡◌, IfOk, if◌then◌else◌};
ghost use Rattle.nu_value.specs.Same as same;
ghost use Rattle.nu_value.specs.declared.object.Object.TheVariants as object;
ghost use Rattle.op_forms.specs.Fits as fits;
ghost use Rattle.op_forms.specs.Doing.{Did, makes, nothing};
ghost use Rattle.op_rules.specs.Calls as spec;

use crate::collecting::copied;
use crate::given::keywords_of;
use crate::objects::unbuilt;
use nu_value::{Codes, Heap, Items, Names, Object, Value, object_of};
use op_forms::OpEnd;
use std::alloc::{AllocError, Global};

fn is_cell(heap: &Heap, value: &Value) -> bool
    ensures { result ≡ fits.is_cell (same.object_of heap.now value.now) }
{
    matches!(object_of(heap, value), Some(Object::Cell(_)))
}

fn are_cells(heap: &Heap, values: &[Value]) -> bool
    ensures { result ≡ spec.are_cells heap.now values.now }
{
    for value in values {
        if !is_cell(heap, value) {
            return false;
        }
    }
    true
}

// No program has as many functions as a number of 32 bits can tell.
fn make_function(
    alloc: Global,
    heap: &mut Heap,
    code: u64,
    defaults: Items,
    keywords: Names,
    cells: &[Value],
) -> Result<OpEnd, AllocError>
    ensures { IfOk result (λ e. Did (makes heap.old (object.Function code defaults keywords cells.now)) heap.old heap.new e) }
{
    let Ok(code) = u32::try_from(code) else {
        return Err(AllocError);
    };
    let cells = copied(alloc, cells)?;
    let function = Object::function(alloc, code, defaults, keywords, cells)?;
    Ok(OpEnd::Give(Value::Obj(heap.make(function)?)))
}

fn code_of(codes: &Codes, number: i128) -> Option<u64>
    ensures { result ≡ spec.code_of codes.now number }
{
    if 0 <= number && number < codes.len() as i128 {
        Some(number as u64)
    } else {
        None
    }
}

fn func_made(
    alloc: Global,
    heap: &mut Heap,
    code: u64,
    items: Items,
    names: Names,
    cells: &[Value],
) -> Result<OpEnd, AllocError>
    ensures { IfOk result (λ e. Did (if spec.are_cells heap.old cells.now then makes heap.old (object.Function code items names cells.now) else nothing) heap.old heap.new e) }
{
    if are_cells(heap, cells) {
        make_function(alloc, heap, code, items, names, cells)
    } else {
        unbuilt()
    }
}

fn func_by(
    alloc: Global,
    heap: &mut Heap,
    codes: &Codes,
    number: Option<i128>,
    defaults: &Value,
    keywords: &Value,
    cells: &[Value],
) -> Result<OpEnd, AllocError>
    ensures { IfOk result (λ e. Did (spec.func_by codes.now heap.old number (same.object_of heap.old defaults.now) (same.object_of heap.old keywords.now) cells.now) heap.old heap.new e) }
{
    let Some(number) = number else {
        return unbuilt();
    };
    let Some(Object::Tuple(items)) = object_of(heap, defaults) else {
        return unbuilt();
    };
    let Some(Object::Dict(pairs)) = object_of(heap, keywords) else {
        return unbuilt();
    };
    let Some(code) = code_of(codes, number) else {
        return unbuilt();
    };
    let items = copied(alloc, items.as_slice())?;
    let names = keywords_of(alloc, pairs)?;
    func_made(alloc, heap, code, items, names, cells)
}

/// A function of the code with a number, its defaults and its cells.
pub fn func_row(
    alloc: Global,
    heap: &mut Heap,
    codes: &Codes,
    args: &[Value],
) -> Result<OpEnd, AllocError>
    ensures { IfOk result (λ e. Did (spec.func_row codes.now heap.old args.now) heap.old heap.new e) }
{
    match args {
        [code, defaults, keywords, cells @ ..] => {
            func_by(alloc, heap, codes, code.number(), defaults, keywords, cells)
        }
        _ => unbuilt(),
    }
}
