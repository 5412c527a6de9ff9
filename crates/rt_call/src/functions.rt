//! Functions that are bound.

ghost use Rattle.std.specs.Prelude.{◌≡◌, ◌++◌, IfOk, OnOk};
ghost use Rattle.op_rules.specs.Binding as spec;

use crate::binding::{Call, binding};
use crate::collecting::collect;
use nu_run::StopKind;
use nu_value::{Codes, Heap, Names, Object, Value};
use op_rules::Bound;
use std::alloc::{AllocError, Global};

/// Binds a function to positional arguments and keywords: a value for each of its parameters, in their order, or why there are
/// none (reference, sections 6.3.4 and 8.7). A star's tuple and a double star's dict are made where there are values.
pub fn bind(
    alloc: Global,
    heap: &mut Heap,
    codes: &Codes,
    function: u64,
    args: &[Value],
    keywords: &Names,
) -> Result<Bound, AllocError>
    ensures bound { IfOk result (λ b. b ≡ (spec.bound_function heap.old codes.now function args.now keywords.now).bound) }
    ensures heap { OnOk result (heap.new ≡ heap.old ++ (spec.bound_function heap.old codes.now function args.now keywords.now).made) }
{
    let first = heap.len();
    let Some(
        Object::Function {
            code,
            defaults,
            keywords: others,
            ..
        },
    ) = heap.get(function)
    else {
        return Ok(Bound::Stop(StopKind::Unbuilt));
    };
    let Some(header) = codes.get(*code) else {
        return Ok(Bound::Stop(StopKind::Unbuilt));
    };
    let params = header.params.as_slice();
    let scope = header.scope.as_str();
    let call = Call {
        params,
        defaults,
        keywords: others,
        args,
        names: keywords,
        first,
    };
    match binding(alloc, scope, &call)? {
        Bound::Ready(values) => {
            collect(alloc, heap, params, args, keywords.as_slice())?;
            Ok(Bound::Ready(values))
        }
        other => Ok(other),
    }
}
