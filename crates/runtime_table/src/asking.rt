//! Functions that are asked: they are bound, and begin.

ghost use Rattle.std.specs.Prelude.{◌≡◌, ◌++◌, ◌∷◌, [], IfOk, OnOk, length, slice_get};
ghost use Rattle.nu_value.specs.declared.object.GenState.TheVariants as gen;
ghost use Rattle.nu_value.specs.declared.object.Object.TheVariants as object;
ghost use Rattle.nu_value.specs.declared.value.Value.TheVariants as value;
ghost use Rattle.op_forms.specs.Answers as answers;
ghost use Rattle.op_forms.specs.Doing.{DidIn};
ghost use Rattle.op_rules.specs.Binding as spec;
ghost use Rattle.op_rules.specs.Finish as finishing;
ghost use Rattle.op_rules.specs.TableRules.{table_rules};
ghost use Rattle.runtime_table.specs.Begun.{Begun};

use crate::finishing::value_after;
use nu_value::{Heap, Items, Names, Object, Value};
use op_forms::{After, OpEnd, World};
use rt_call::{Bound, bind as bind_values, copied};
use std::alloc::{AllocError, Global};

// The code and the cells of the generator that a function makes, if it is a generator's.
fn generator_of(
    alloc: Global,
    world: &World,
    function: u64,
) -> Result<Option<(u32, Items)>, AllocError>
    ensures { IfOk result (λ g. g ≡ spec.generator_of world.now.codes (slice_get world.now.heap function)) }
{
    let Some(Object::Function { code, cells, .. }) = world.heap.get(function) else {
        return Ok(None);
    };
    match world.codes.get(*code) {
        Some(header) if header.generator => Ok(Some((*code, copied(alloc, cells.as_slice())?))),
        _ => Ok(None),
    }
}

// A new generator is the value of a call.
fn make_generator(
    alloc: Global,
    heap: &mut Heap,
    after: After,
    code: u32,
    cells: Items,
    values: Items,
) -> Result<OpEnd, AllocError>
    ensures end { IfOk result (λ e. e ≡ finishing.value_after after (value.Obj (length heap.old))) }
    ensures heap { OnOk result (heap.new ≡ heap.old ++ object.Generator code gen.Fresh values cells ∷ []) }
{
    let generator = Object::generator(alloc, code, values, cells)?;
    let number = heap.make(generator)?;
    value_after(alloc, after, Value::Obj(number))
}

// Once it is bound a function begins, or a generator is made.
fn begin(
    alloc: Global,
    heap: &mut Heap,
    function: u64,
    after: After,
    generator: Option<(u32, Items)>,
    bound: Bound,
) -> Result<OpEnd, AllocError>
    ensures { IfOk result (λ e. Begun function after generator bound heap.old e heap.new) }
{
    match bound {
        Bound::Raise(number, args) => Ok(OpEnd::Raise(number, args)),
        Bound::Stop(kind) => Ok(OpEnd::Stop(kind)),
        Bound::Ready(values) => match generator {
            Some((code, cells)) => make_generator(alloc, heap, after, code, cells, values),
            None => Ok(OpEnd::Ask(function, values, Names::new(alloc), after)),
        },
    }
}

// A function is asked.
#[tactic(auto, using(crate::proofs::Begun::begun_did))]
fn ask(
    alloc: Global,
    world: &mut World,
    function: u64,
    args: &[Value],
    names: &Names,
    after: After,
) -> Result<OpEnd, AllocError>
    ensures { IfOk result (λ e. DidIn (spec.bind world.old function args.now names.now after) world.old world.new e) }
{
    let generator = generator_of(alloc, world, function)?;
    let bound = bind_values(alloc, &mut world.heap, &world.codes, function, args, names)?;
    begin(alloc, &mut world.heap, function, after, generator, bound)
}

/// Binds a function that is asked to positional arguments. How it begins: with a value for each parameter; or at once, as a
/// generator or an error.
pub fn bind(
    alloc: Global,
    world: &mut World,
    function: u64,
    args: &[Value],
    after: After,
) -> Result<OpEnd, AllocError>
    ensures end { IfOk result (λ e. e ≡ (table_rules.bind world.old function args.now after).end) }
    ensures world { OnOk result (world.new ≡ answers.after world.old (table_rules.bind world.old function args.now after)) }
{
    ask(alloc, world, function, args, &Names::new(alloc), after)
}

/// What an end of an operation becomes: a function that it asks is bound.
pub fn bound(alloc: Global, world: &mut World, end: OpEnd) -> Result<OpEnd, AllocError>
    ensures { IfOk result (λ e. DidIn (spec.bound_end world.old end) world.old world.new e) }
{
    match end {
        OpEnd::Ask(function, args, names, after) => ask(
            alloc,
            world,
            function,
            args.as_slice(),
            &names,
            after,
        ),
        OpEnd::Give(_)
        | OpEnd::Raise(_, _)
        | OpEnd::Resume(_, _)
        | OpEnd::Put(_)
        | OpEnd::Line
        | OpEnd::Stop(_) => Ok(end),
    }
}
