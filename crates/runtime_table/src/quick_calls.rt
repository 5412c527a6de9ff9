//! Calls that need no more than a look: of functions whose parameters all have places, with as many arguments.

ghost use Rattle.std.specs.Prelude.{◌≡◌, ◌∷◌, [], IfOk, IfSome};
ghost use Rattle.op_forms.specs.declared.end.After.TheVariants as after;
ghost use Rattle.op_forms.specs.declared.end.OpEnd.TheVariants as opend;
ghost use Rattle.op_forms.specs.declared.op.Op.TheVariants as op;
ghost use Rattle.op_forms.specs.Answers.{keeps};
ghost use Rattle.op_rules.specs.Table.{row};
ghost use Rattle.runtime_table.specs.Placed as spec;

use nu_text::RcStr;
use nu_value::{Header, Items, Object, ParamKind, Value};
use op_forms::World;
use rt_call::copied;
use std::alloc::{AllocError, Global};

fn are_placed(params: &[(ParamKind, RcStr)]) -> bool
    ensures { result ≡ spec.are_placed params.now }
{
    for param in params {
        if !matches!(param.0, ParamKind::Only | ParamKind::Plain) {
            return false;
        }
    }
    true
}

// Whether a function is no generator's, and takes so many arguments and no others.
fn takes_just(header: &Header, count: usize) -> bool
    ensures { result ≡ spec.takes_just header.now count }
{
    !header.generator && header.params.len() == count && are_placed(header.params.as_slice())
}

/// The function that a call begins, with the values of its parameters, where these are just the arguments.
#[tactic(auto, using(crate::proofs::Placed::just_called))]
pub fn quick_call(
    alloc: Global,
    world: &World,
    function: &Value,
    args: &[Value],
) -> Result<Option<(u64, Items)>, AllocError>
    ensures { IfOk result (λ found. IfSome found (λ p. row op.Call world.now (function.now ∷ args.now) ≡ keeps world.now.heap (opend.Ask p.0 p.1 [] after.Plain))) }
{
    let Value::Obj(number) = function else {
        return Ok(None);
    };
    let Some(Object::Function { code, .. }) = world.heap.get(*number) else {
        return Ok(None);
    };
    match world.codes.get(*code) {
        Some(header) if takes_just(header, args.len()) => Ok(Some((*number, copied(alloc, args)?))),
        _ => Ok(None),
    }
}
