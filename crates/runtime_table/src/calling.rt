//! Calls: what does their work.

ghost use Rattle.std.specs.Prelude.{◌≡◌, ◌∷◌, [], IfOk, option_copied};
ghost use Rattle.nu_value.specs.Same as same;
ghost use Rattle.op_forms.specs.declared.op.Op.TheVariants as op;
ghost use Rattle.op_forms.specs.Doing.{Did, DidIn};
ghost use Rattle.op_rules.specs.Routes as routes;
ghost use Rattle.op_rules.specs.Table as spec;
ghost use Rattle.op_rules.specs.TextCalls as texts;

use crate::routes::{is_empty_dict, value_route};
use crate::table::{row_of, unbuilt};
use nu_text::RcStr;
use nu_value::{Codes, Heap, Names, Object, Value, object_of};
use op_forms::{OpEnd, World};
use op_rules::{Family, Route};
use rt_call::{call_value, copied, items_of, names_of};
use rt_class::call_class;
use rt_dict::call_dict;
use rt_seq::call_seq;
use rt_text::{call_text, show_call};
use std::alloc::{AllocError, Global};

// The name of a built-in; a class is one by its own name.
fn builtin_name(alloc: Global, object: Option<&Object>) -> Result<RcStr, AllocError>
    ensures { IfOk result (λ name. name ≡ routes.builtin_name (option_copied object.entry)) }
{
    match object {
        Some(Object::Builtin { name, .. }) => name.share(),
        Some(Object::Class { name, .. }) => name.share(),
        _ => RcStr::from_str(alloc, ""),
    }
}

fn builtin_receiver(object: Option<&Object>) -> Result<Value, AllocError>
    ensures { IfOk result (λ v. v ≡ routes.builtin_receiver (option_copied object.entry)) }
{
    match object {
        Some(Object::Builtin { receiver, .. }) => receiver.copy(),
        _ => Ok(Value::Unset),
    }
}

// The native that shows values needs the names of the program's functions.
fn text_builtin(
    alloc: Global,
    heap: &mut Heap,
    codes: &Codes,
    name: &str,
    receiver: &Value,
    args: &[Value],
    names: &Names,
) -> Result<OpEnd, AllocError>
    ensures { IfOk result (λ e. Did (texts.text_builtin codes.now heap.old name.now receiver.now args.now names.now) heap.old heap.new e) }
{
    match (receiver, names.as_slice()) {
        (Value::Unset, []) if name == "_nu_text" => show_call(alloc, codes, heap, args),
        _ => call_text(alloc, heap, name, receiver, args, names),
    }
}

// A built-in of a family is called.
fn builtin_call(
    alloc: Global,
    family: Family,
    heap: &mut Heap,
    codes: &Codes,
    name: &str,
    receiver: &Value,
    args: &[Value],
    names: Names,
) -> Result<OpEnd, AllocError>
    ensures { IfOk result (λ e. Did (spec.builtin_call family codes.now heap.old name.now receiver.now args.now names) heap.old heap.new e) }
{
    match family {
        Family::Classes => call_class(alloc, heap, name, receiver, args, &names),
        Family::Dicts => call_dict(alloc, heap, name, receiver, args, names),
        Family::Sequences => call_seq(alloc, heap, name, receiver, args, names),
        Family::Texts => text_builtin(alloc, heap, codes, name, receiver, args, &names),
        Family::Integers => unbuilt(),
    }
}

fn builtin_called(
    alloc: Global,
    family: Family,
    world: &mut World,
    function: &Value,
    args: &[Value],
    names: Names,
) -> Result<OpEnd, AllocError>
    ensures { IfOk result (λ e. DidIn (spec.builtin_called family world.old.codes world.old.heap (same.object_of world.old.heap function.now) args.now names) world.old world.new e) }
{
    let object = object_of(&world.heap, function);
    let name = builtin_name(alloc, object)?;
    let receiver = builtin_receiver(object)?;
    builtin_call(
        alloc,
        family,
        &mut world.heap,
        &world.codes,
        name.as_str(),
        &receiver,
        args,
        names,
    )
}

// A value is called with arguments.
fn call_with(
    alloc: Global,
    world: &mut World,
    function: &Value,
    args: &[Value],
) -> Result<OpEnd, AllocError>
    ensures { IfOk result (λ e. DidIn (spec.calling op.Call world.old (function.now ∷ args.now)) world.old world.new e) }
{
    match value_route(&world.heap, function, true, args) {
        Route::Operation(op) => row_of(alloc, op, world, args),
        Route::BuiltIn(family) => {
            builtin_called(alloc, family, world, function, args, Names::new(alloc))
        }
        Route::Itself => {
            let args = copied(alloc, args)?;
            call_value(alloc, &mut world.heap, function, args, Names::new(alloc))
        }
    }
}

// A value is called with a list of arguments and a dict of keywords.
fn callx_with(
    alloc: Global,
    world: &mut World,
    function: &Value,
    list: &Value,
    dict: &Value,
) -> Result<OpEnd, AllocError>
    ensures { IfOk result (λ e. DidIn (spec.calling op.CallX world.old (function.now ∷ list.now ∷ dict.now ∷ [])) world.old world.new e) }
{
    let args = items_of(alloc, &world.heap, list)?;
    let names = names_of(alloc, &world.heap, dict)?;
    let plain = is_empty_dict(&world.heap, dict);
    match value_route(&world.heap, function, plain, args.as_slice()) {
        Route::Operation(op) => row_of(alloc, op, world, args.as_slice()),
        Route::BuiltIn(family) => builtin_called(
            alloc,
            family,
            world,
            function,
            args.as_slice(),
            names,
        ),
        Route::Itself => call_value(alloc, &mut world.heap, function, args, names),
    }
}

/// A call with arguments.
pub fn call(alloc: Global, world: &mut World, args: &[Value]) -> Result<OpEnd, AllocError>
    ensures { IfOk result (λ e. DidIn (spec.calling op.Call world.old args.now) world.old world.new e) }
{
    match args {
        [function, args @ ..] => call_with(alloc, world, function, args),
        [] => unbuilt(),
    }
}

/// A call with a list of arguments and a dict of keywords.
pub fn callx(alloc: Global, world: &mut World, args: &[Value]) -> Result<OpEnd, AllocError>
    ensures { IfOk result (λ e. DidIn (spec.calling op.CallX world.old args.now) world.old world.new e) }
{
    match args {
        [function, list, dict] => callx_with(alloc, world, function, list, dict),
        _ => unbuilt(),
    }
}
