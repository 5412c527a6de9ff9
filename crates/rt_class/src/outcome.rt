//! What a row does that changes no object.

ghost use Rattle.std.specs.Prelude.{IfOk};
ghost use Rattle.op_forms.specs.Doing.{Did};
ghost use Rattle.rt_class.specs.Outcomes.{doing_of};

use nu_value::{Heap, Object, Value};
use op_forms::OpEnd;
use std::alloc::AllocError;

/// How a row ends, or the object that it makes and gives.
#[derive(Drop)]
pub enum Outcome {
    Ends(OpEnd),
    Makes(Object),
}

/// Makes the object, if there is one.
pub fn carry_out(heap: &mut Heap, outcome: Outcome) -> Result<OpEnd, AllocError>
    ensures { IfOk result (λ e. Did (doing_of heap.old outcome) heap.old heap.new e) }
{
    match outcome {
        Outcome::Ends(end) => Ok(end),
        Outcome::Makes(object) => Ok(OpEnd::Give(Value::Obj(heap.make(object)?))),
    }
}
