//! What a call is given in a list and a dict.

ghost use Rattle.std.specs.Prelude.{◌≡◌, [], IfOk, OnOk, slice_get};
ghost use Rattle.nu_value.specs.Same as same;
ghost use Rattle.op_rules.specs.Calls as spec;
ghost use Rattle.rt_call.specs.Pairs.{keyword_at};

use crate::collecting::copied;
use nu_value::{Heap, Items, Names, Object, Pairs, Value, object_of};
use std::alloc::{AllocError, Global};

fn keyword_into(name: &Value, value: &Value, names: &mut Names) -> Result<(), AllocError>
    ensures { OnOk result (names.new ≡ spec.keyword_into name.now value.now names.old) }
{
    match name {
        Value::Str(name) => names.set(name.share()?, value.copy()?),
        _ => Ok(()),
    }
}

// The keyword at a place of a dict, if there is one.
fn put_keyword(pairs: &Pairs, place: usize, names: &mut Names) -> Result<(), AllocError>
    ensures { OnOk result (names.new ≡ keyword_at (slice_get pairs.now place) names.old) }
{
    match pairs.at(place) {
        Some((_, name, value)) => keyword_into(name, value, names),
        None => Ok(()),
    }
}

/// The keywords of a dict.
#[tactic(auto, using(crate::proofs::Pairs::keywords_on))]
pub fn keywords_of(alloc: Global, pairs: &Pairs) -> Result<Names, AllocError>
    ensures { IfOk result (λ names. names ≡ spec.keywords_of pairs.now []) }
{
    let mut names = Names::new(alloc);
    for place in 0..pairs.len() {
        put_keyword(pairs, place, &mut names)?;
    }
    Ok(names)
}

/// The items of a list, in one of their own; none of another value.
pub fn items_of(alloc: Global, heap: &Heap, list: &Value) -> Result<Items, AllocError>
    ensures { IfOk result (λ items. items ≡ spec.items_at (same.object_of heap.now list.now)) }
{
    match object_of(heap, list) {
        Some(Object::List(items)) => copied(alloc, items.as_slice()),
        _ => Ok(Items::new(alloc)),
    }
}

/// The keywords in a dict; none in another value.
pub fn names_of(alloc: Global, heap: &Heap, dict: &Value) -> Result<Names, AllocError>
    ensures { IfOk result (λ names. names ≡ spec.keywords_at (same.object_of heap.now dict.now)) }
{
    match object_of(heap, dict) {
        Some(Object::Dict(pairs)) => keywords_of(alloc, pairs),
        _ => Ok(Names::new(alloc)),
    }
}
