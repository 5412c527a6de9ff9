//! Which arguments fit an operation.

ghost use Rattle.std.specs.Prelude.{◌≡◌, length, slice_get};
ghost use Rattle.nu_value.specs.Same.{number_of, object_of};
ghost use Rattle.nu_value.specs.View.{is_text};
ghost use Rattle.op_forms.specs.Fits as spec;
ghost use Rattle.runtime_table.specs.Keywords.{text_at};
ghost use Rattle.std.specs.List.{list_all};

use nu_text::is_built_in_name;
use nu_value::{Object, Pairs, Value, object_of};
use op_forms::{ArgumentKind, Op, World};

fn is_text(value: &Value) -> bool
    ensures { result ≡ is_text value.now }
{
    match value {
        Value::Str(_) => true,
        _ => false,
    }
}

// Whether a value is the name of a built-in.
fn is_built_in(value: &Value) -> bool
    ensures { result ≡ spec.is_built_in value.now }
{
    match value {
        Value::Str(text) => is_built_in_name(text.as_str()),
        _ => false,
    }
}

pub fn is_in(count: u64, value: &Value) -> bool
    ensures { result ≡ spec.is_in count value.now }
{
    match value {
        Value::Unset => false,
        Value::Obj(number) => *number < count,
        _ => true,
    }
}

// Whether a number is that of a function.
fn is_code(world: &World, value: &Value) -> bool
    ensures { result ≡ spec.is_below (length world.now.codes) (number_of value.now) }
{
    let count = world.codes.len() as i128;
    match value {
        Value::Int(number) => 0 <= number.get() && number.get() < count,
        Value::Bool(true) => 1 < count,
        Value::Bool(false) => 0 < count,
        _ => false,
    }
}

// Whether the key at a place is a text, if there is one.
fn is_text_at(pairs: &Pairs, place: usize) -> bool
    ensures { result ≡ text_at (slice_get pairs.now place) }
{
    match pairs.at(place) {
        Some((_, given, _)) => is_text(given),
        None => true,
    }
}

#[tactic(auto, using(crate::proofs::Keywords::texts_on, crate::proofs::Keywords::texts_end))]
fn are_texts(pairs: &Pairs) -> bool
    ensures { result ≡ spec.are_texts pairs.now }
{
    for place in 0..pairs.len() {
        if !is_text_at(pairs, place) {
            return false;
        }
    }
    true
}

// Whether an argument is of the kind that an operation takes.
fn is_of(kind: ArgumentKind, world: &World, value: &Value) -> bool
    ensures { result ≡ spec.is_of kind world.now value.now }
{
    let object = object_of(&world.heap, value);
    match kind {
        ArgumentKind::Name => is_text(value),
        ArgumentKind::BuiltinName => is_built_in(value),
        ArgumentKind::Value => is_in(world.heap.len(), value),
        ArgumentKind::Any => !value.is_set() || is_in(world.heap.len(), value),
        ArgumentKind::Cell => matches!(object, Some(Object::Cell(_))),
        ArgumentKind::Space => matches!(object, Some(Object::Space(_))),
        ArgumentKind::Code => is_code(world, value),
        ArgumentKind::Tuple => matches!(object, Some(Object::Tuple(_))),
        ArgumentKind::List => matches!(object, Some(Object::List(_))),
        ArgumentKind::Dict => matches!(object, Some(Object::Dict(_))),
        ArgumentKind::Keywords => match object {
            Some(Object::Dict(pairs)) => are_texts(pairs),
            _ => false,
        },
        ArgumentKind::Bool => matches!(value, Value::Bool(_)),
        ArgumentKind::Exception => matches!(object, Some(Object::Exception { .. })),
    }
}

// Whether all arguments are of one kind.
fn all_are(kind: ArgumentKind, world: &World, args: &[Value]) -> bool
    ensures { result ≡ list_all (spec.is_of kind world.now) args.now }
{
    for value in args {
        if !is_of(kind, world, value) {
            return false;
        }
    }
    true
}

// Whether all further arguments are of the kind that an operation takes there.
fn further_fit(further: Option<ArgumentKind>, world: &World, args: &[Value]) -> bool
    ensures { result ≡ spec.further_fit further world.now args.now }
{
    match further {
        None => args.is_empty(),
        Some(kind) => all_are(kind, world, args),
    }
}

fn fit(kinds: &[ArgumentKind], further: Option<ArgumentKind>, world: &World, args: &[Value]) -> bool
    ensures { result ≡ spec.fit kinds.now further world.now args.now }
{
    match kinds {
        [] => further_fit(further, world, args),
        [kind, kinds @ ..] => match args {
            [] => false,
            [value, values @ ..] => is_of(*kind, world, value)
                && fit(kinds, further, world, values),
        },
    }
}

/// Whether the arguments have the number and the kinds that the operation takes: none but the value of `local` is Unset,
/// and the objects that they name are there.
pub fn fits(op: Op, world: &World, args: &[Value]) -> bool
    ensures { result ≡ spec.fits op world.now args.now }
{
    fit(op.arguments(), op.further(), world, args)
}
