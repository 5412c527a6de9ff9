//! Objects that values are, and the end of what isn't built.

ghost use Rattle.std.specs.Prelude.{◌≡◌, IfOk, option_copied};
ghost use Rattle.nu_value.specs.Same.{object_of};
ghost use Rattle.op_forms.specs.Answers as answers;

use nu_run::StopKind;
use nu_value::{Heap, Object, Value};
use op_forms::OpEnd;
use std::alloc::AllocError;

pub fn unbuilt() -> Result<OpEnd, AllocError>
    ensures { IfOk result (λ e. e ≡ answers.unbuilt) }
{
    Ok(OpEnd::Stop(StopKind::Unbuilt))
}
