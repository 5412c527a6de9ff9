//! Classes that are made (reference, section 8.8).

ghost use Rattle.std.specs.Prelude.{◌≡◌, IfOk, Some, slice_get};
ghost use Rattle.nu_value.specs.Names.{AreDistinct};
ghost use Rattle.nu_value.specs.Same.{object_of};
ghost use Rattle.op_forms.specs.Answers.{names_of};
ghost use Rattle.op_rules.specs.Classes as spec;
ghost use Rattle.rt_class.specs.Outcomes.{doing_of};

use crate::lookups::is_under;
use crate::outcome::Outcome;
use nu_run::StopKind;
use nu_text::RcStr;
use nu_value::{Heap, Names, Object, Value, object_of};
use op_forms::OpEnd;
use op_rules::raised;
use std::alloc::{AllocError, Global};

const BASE_EXCEPTION: u64 = 19;

const TYPE_ERROR: u64 = 35;

fn is_base(heap: &Heap, base: u64, native: bool) -> bool
    ensures { result ≡ spec.is_base heap.now base native }
{
    !(native && base != 0 && !is_under(heap, base, BASE_EXCEPTION))
}

fn copied(alloc: Global, list: &[(RcStr, Value)]) -> Result<Names, AllocError>
    requires { AreDistinct list.now }
    ensures { IfOk result (λ names. names ≡ list.now) }
{
    let mut names = Names::new(alloc);
    for pair in list {
        names.set(pair.0.share()?, pair.1.copy()?)?;
    }
    Ok(names)
}

// The names of a space.
fn names_of(alloc: Global, heap: &Heap, space: &Value) -> Result<Names, AllocError>
    ensures { IfOk result (λ names. names ≡ names_of (object_of heap.now space.now)) }
{
    match object_of(heap, space) {
        Some(Object::Space(names)) => copied(alloc, names.as_slice()),
        _ => Ok(Names::new(alloc)),
    }
}

fn no_base(alloc: Global) -> Result<OpEnd, AllocError>
    ensures { IfOk result (λ e. e ≡ spec.no_base) }
{
    raised(alloc, TYPE_ERROR, "bases must be classes")
}

fn class_under(
    alloc: Global,
    heap: &Heap,
    name: &RcStr,
    base: u64,
    space: &Value,
) -> Result<Outcome, AllocError>
    ensures { IfOk result (λ o. doing_of heap.now o ≡ spec.class_under heap.now name.now base (slice_get heap.now base) (object_of heap.now space.now)) }
{
    match heap.get(base) {
        Some(Object::Class { native, .. }) => {
            if !is_base(heap, base, *native) {
                return Ok(Outcome::Ends(OpEnd::Stop(StopKind::Unbuilt)));
            }
            let names = names_of(alloc, heap, space)?;
            let class = Object::class(alloc, name.share()?, Some(base), names, false)?;
            Ok(Outcome::Makes(class))
        }
        _ => Ok(Outcome::Ends(no_base(alloc)?)),
    }
}

/// A new class with the names of its block.
pub fn class_made(
    alloc: Global,
    heap: &Heap,
    name: &RcStr,
    base: &Value,
    space: &Value,
) -> Result<Outcome, AllocError>
    ensures { IfOk result (λ o. doing_of heap.now o ≡ spec.class_made heap.now name.now base.now space.now) }
{
    match base {
        Value::Obj(number) => class_under(alloc, heap, name, *number, space),
        _ => Ok(Outcome::Ends(no_base(alloc)?)),
    }
}
