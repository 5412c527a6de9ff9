//! What the classes make that no script made, other than those of exceptions (library reference, "Built-in Functions").

ghost use Rattle.std.specs.Prelude.{◌≡◌, IfOk};
ghost use Rattle.op_forms.specs.Doing.{Did};
ghost use Rattle.op_rules.specs.Construction as spec;

use crate::construction::{make, not_callable};
use crate::objects::unbuilt;
use nu_value::{Heap, Integer, Items, Names, Object, Value};
use op_forms::{After, OpEnd};
use op_rules::{ask, raised};
use std::alloc::{AllocError, Global};

const OBJECT: u64 = 0;

const BOOL: u64 = 2;

const INT: u64 = 3;

const STR: u64 = 4;

const TUPLE: u64 = 5;

const LIST: u64 = 6;

const DICT: u64 = 7;

const RANGE: u64 = 8;

const TYPE: u64 = 11;

const TYPE_ERROR: u64 = 35;

const VALUE_ERROR: u64 = 36;

fn object_row(
    alloc: Global,
    heap: &mut Heap,
    args: &[Value],
    names: &Names,
) -> Result<OpEnd, AllocError>
    ensures { IfOk result (λ e. Did (spec.object_row heap.old args.now names.now) heap.old heap.new e) }
{
    if !args.is_empty() || !names.as_slice().is_empty() {
        return unbuilt();
    }
    make(
        heap,
        Object::Instance {
            class: OBJECT,
            fields: Names::new(alloc),
        },
    )
}

fn range_by(
    alloc: Global,
    heap: &mut Heap,
    start: Option<i128>,
    stop: Option<i128>,
    step: Option<i128>,
) -> Result<OpEnd, AllocError>
    ensures { IfOk result (λ e. Did (spec.range_by heap.old start stop step) heap.old heap.new e) }
{
    let (Some(start), Some(stop), Some(step)) = (start, stop, step) else {
        return raised(alloc, TYPE_ERROR, "range() argument must be an int");
    };
    if step == 0 {
        return raised(alloc, VALUE_ERROR, "range() arg 3 must not be zero");
    }
    let start = Integer::new(start);
    let range = Object::range(alloc, start, Integer::new(stop), Integer::new(step))?;
    make(heap, range)
}

fn range_row(
    alloc: Global,
    heap: &mut Heap,
    args: &[Value],
    names: &Names,
) -> Result<OpEnd, AllocError>
    ensures { IfOk result (λ e. Did (spec.range_row heap.old args.now names.now) heap.old heap.new e) }
{
    if !names.as_slice().is_empty() {
        return unbuilt();
    }
    match args {
        [stop] => range_by(alloc, heap, Some(0), stop.number(), Some(1)),
        [start, stop] => range_by(alloc, heap, start.number(), stop.number(), Some(1)),
        [start, stop, step] => range_by(alloc, heap, start.number(), stop.number(), step.number()),
        _ => unbuilt(),
    }
}

fn is_left_out(class: u64) -> bool
    ensures { result ≡ spec.is_left_out class }
{
    class == BOOL || class == INT || class == TYPE
}

/// A class that no script made, other than one of exceptions, is called.
pub fn native_class(
    alloc: Global,
    heap: &mut Heap,
    class: u64,
    args: Items,
    names: Names,
) -> Result<OpEnd, AllocError>
    ensures { IfOk result (λ e. Did (spec.native_class heap.old class args names) heap.old heap.new e) }
{
    if class == OBJECT {
        object_row(alloc, heap, args.as_slice(), &names)
    } else if class == STR {
        Ok(ask(heap, "_nu_str", args, names, After::Plain))
    } else if class == TUPLE {
        Ok(ask(heap, "_nu_listof", args, names, After::Tuple))
    } else if class == LIST {
        Ok(ask(heap, "_nu_listof", args, names, After::Plain))
    } else if class == DICT {
        Ok(ask(heap, "_nu_dictof", args, names, After::Plain))
    } else if class == RANGE {
        range_row(alloc, heap, args.as_slice(), &names)
    } else if is_left_out(class) {
        unbuilt()
    } else {
        not_callable(alloc, heap, &Value::Obj(class))
    }
}
