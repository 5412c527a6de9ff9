//! What becomes of the value of a function that an operation asked.

ghost use Rattle.std.specs.Prelude.{◌≡◌, IfOk, OnOk, pos, not};
ghost use Rattle.std.specs.Ordering.{int_eq};
ghost use Rattle.nu_value.specs.declared.value.Value.TheVariants as value_of;
ghost use Rattle.nu_value.specs.Same.{number_of, object_of};
ghost use Rattle.op_forms.specs.declared.end.OpEnd.TheVariants as opend;
ghost use Rattle.op_rules.specs.Comparisons.{give_bool};
ghost use Rattle.op_rules.specs.Finish as spec;
ghost use Rattle.op_forms.specs.Answers as answers;
ghost use Rattle.op_forms.specs.Doing.{Did, DidIn};
ghost use Rattle.op_forms.specs.Sound.{AfterIn, EndIn, IsIn, Sound};

use nu_run::StopKind;
use nu_value::{Heap, Integer, Object, Value, object_of};
use op_forms::{After, OpEnd, World};
use op_rules::{finishing_keeps_sound, raised};
use rt_call::copied;
use rt_text::join_after;
use std::alloc::{AllocError, Global};

const TYPE_ERROR: u64 = 35;

const VALUE_ERROR: u64 = 36;

fn truth(alloc: Global, value: &Value) -> Result<OpEnd, AllocError>
    ensures { IfOk result (λ e. e ≡ spec.truth_after value.now) }
{
    match value {
        Value::Bool(truth) => Ok(OpEnd::Give(Value::Bool(*truth))),
        _ => raised(alloc, TYPE_ERROR, "__bool__ should return bool"),
    }
}

fn length(alloc: Global, value: &Value) -> Result<OpEnd, AllocError>
    ensures { IfOk result (λ e. e ≡ spec.length_after (λ z. opend.Give (value_of.Int z)) (number_of value.now)) }
{
    let Some(length) = value.number() else {
        return raised(alloc, TYPE_ERROR, "__len__ should return an int");
    };
    if length < 0 {
        raised(alloc, VALUE_ERROR, "__len__() should return >= 0")
    } else {
        Ok(OpEnd::Give(Value::Int(Integer::new(length))))
    }
}

fn some(alloc: Global, value: &Value) -> Result<OpEnd, AllocError>
    ensures { IfOk result (λ e. e ≡ spec.length_after (λ z. give_bool (not (int_eq z (pos 0)))) (number_of value.now)) }
{
    let Some(length) = value.number() else {
        return raised(alloc, TYPE_ERROR, "__len__ should return an int");
    };
    if length < 0 {
        raised(alloc, VALUE_ERROR, "__len__() should return >= 0")
    } else {
        Ok(OpEnd::Give(Value::Bool(length != 0)))
    }
}

fn made(alloc: Global, made: Value, value: &Value) -> Result<OpEnd, AllocError>
    ensures { IfOk result (λ e. e ≡ spec.made_after made value.now) }
{
    match made {
        Value::None => Ok(OpEnd::Give(Value::None)),
        made => match value {
            Value::None => Ok(OpEnd::Give(made)),
            _ => raised(alloc, TYPE_ERROR, "__init__() should return None"),
        },
    }
}

fn tuple(alloc: Global, heap: &mut Heap, value: &Value) -> Result<OpEnd, AllocError>
    ensures { IfOk result (λ e. Did (spec.tuple_after heap.old (object_of heap.old value.now)) heap.old heap.new e) }
{
    let Some(Object::List(items)) = object_of(heap, value) else {
        return Ok(OpEnd::Stop(StopKind::Unbuilt));
    };
    let items = copied(alloc, items.as_slice())?;
    let number = heap.make(Object::Tuple(items))?;
    Ok(OpEnd::Give(Value::Obj(number)))
}

/// What becomes of the value of a function, where no list is asked for.
pub fn value_after(alloc: Global, after: After, value: Value) -> Result<OpEnd, AllocError>
    ensures { IfOk result (λ e. e ≡ spec.value_after after value) }
{
    match after {
        After::Plain => Ok(OpEnd::Give(value)),
        After::Truth => truth(alloc, &value),
        After::Some => some(alloc, &value),
        After::Length => length(alloc, &value),
        After::Made(new) => made(alloc, new, &value),
        After::Join(_) | After::Tuple | After::Report(_) => Ok(OpEnd::Stop(StopKind::Unbuilt)),
    }
}

fn finished(
    alloc: Global,
    world: &mut World,
    after: After,
    value: Value,
) -> Result<OpEnd, AllocError>
    ensures { IfOk result (λ e. DidIn (spec.finishing after world.old.heap value) world.old world.new e) }
{
    match after {
        After::Tuple => tuple(alloc, &mut world.heap, &value),
        After::Join(text) => join_after(alloc, &world.heap, &text, &value),
        after => value_after(alloc, after, value),
    }
}

/// What an operation gives, raises or stops with, from the value of the function that it asked, and the world after it. A sound
/// world stays sound, and the end names only objects of it, where the value and what is to become of it do.
pub fn finish(
    alloc: Global,
    world: &mut World,
    after: After,
    value: Value,
) -> Result<OpEnd, AllocError>
    ensures end { IfOk result (λ e. e ≡ (spec.finished after world.old value).end) }
    ensures world { OnOk result (world.new ≡ answers.after world.old (spec.finished after world.old value)) }
    ensures sound { Sound world.old → AfterIn world.old.heap after → IsIn world.old.heap value → OnOk result (Sound world.new) }
    ensures names { Sound world.old → AfterIn world.old.heap after → IsIn world.old.heap value → IfOk result (λ e. EndIn world.new.heap e) }
{
    finishing_keeps_sound();
    finished(alloc, world, after, value)
}
