//! Operations on values that lie elsewhere: what they give, where that takes no memory and changes nothing.

ghost use Rattle.std.specs.Prelude.{◌≡◌, ◌∷◌, [], IfSome, true, not};
ghost use Rattle.nu_value.specs.declared.value.Value.TheVariants as value;
ghost use Rattle.op_forms.specs.declared.end.OpEnd.TheVariants as opend;
ghost use Rattle.op_forms.specs.declared.op.Op.TheVariants as op;
ghost use Rattle.op_forms.specs.Doing.{given};
ghost use Rattle.op_rules.specs.IntRows.{int_row};
ghost use Rattle.op_rules.specs.Numbers.{computed_end};
ghost use Rattle.op_rules.specs.Table.{row};
ghost use Rattle.runtime_table.specs.Quick as spec;

use crate::arguments::is_in;
use nu_value::{Heap, Integer, Object, Value};
use op_forms::{Op, World};
use op_rules::{Computed, compute, compute_one};

// The integer of what was computed, if it is one.
#[inline]
fn number(found: Computed) -> Option<Value>
    ensures { IfSome result (λ v. computed_end found ≡ opend.Give v) }
{
    match found {
        Computed::Int(number) => Some(Value::Int(Integer::new(number))),
        _ => None,
    }
}

// What an operation on two integers gives, if it gives a value.
#[inline]
fn computed(op: Op, a: i128, b: i128) -> Option<Value>
    ensures quick { IfSome result (λ _. spec.is_number_op op ≡ true) }
    ensures value { IfSome result (λ v. int_row op [] (value.Int a ∷ value.Int b ∷ []) ≡ opend.Give v) }
{
    match op {
        Op::Add => number(compute(Op::Add, a, b)),
        Op::IAdd => number(compute(Op::IAdd, a, b)),
        Op::Sub => number(compute(Op::Sub, a, b)),
        Op::Mul => number(compute(Op::Mul, a, b)),
        Op::IMul => number(compute(Op::IMul, a, b)),
        Op::FloorDiv => number(compute(Op::FloorDiv, a, b)),
        Op::Mod => number(compute(Op::Mod, a, b)),
        Op::Pow => number(compute(Op::Pow, a, b)),
        Op::LShift => number(compute(Op::LShift, a, b)),
        Op::RShift => number(compute(Op::RShift, a, b)),
        Op::And => number(compute(Op::And, a, b)),
        Op::Or => number(compute(Op::Or, a, b)),
        Op::Xor => number(compute(Op::Xor, a, b)),
        _ => None,
    }
}

// How two integers compare, if the operation compares.
#[inline]
#[tactic(auto, using(crate::proofs::AtOnce::eq_integers, crate::proofs::AtOnce::ne_integers))]
fn compared(op: Op, a: i128, b: i128) -> Option<bool>
    ensures quick { IfSome result (λ _. spec.is_number_op op ≡ true) }
    ensures value { IfSome result (λ t. int_row op [] (value.Int a ∷ value.Int b ∷ []) ≡ opend.Give (value.Bool t)) }
{
    match op {
        Op::Lt => Some(a < b),
        Op::Le => Some(a <= b),
        Op::Gt => Some(a > b),
        Op::Ge => Some(a >= b),
        Op::Eq => Some(a == b),
        Op::Ne => Some(a != b),
        Op::Is => Some(a == b),
        Op::IsNot => Some(a != b),
        _ => None,
    }
}

#[inline]
fn of_integers(op: Op, a: i128, b: i128) -> Option<Value>
    ensures quick { IfSome result (λ _. spec.is_number_op op ≡ true) }
    ensures value { IfSome result (λ v. int_row op [] (value.Int a ∷ value.Int b ∷ []) ≡ opend.Give v) }
{
    match compared(op, a, b) {
        Some(truth) => Some(Value::Bool(truth)),
        None => computed(op, a, b),
    }
}

// What an operation on two integers gives.
#[inline]
#[tactic(auto, using(crate::proofs::AtOnce::numbers_quick))]
fn quick_numbers(_world: &World, op: Op, a: Integer, b: Integer) -> Option<Value>
    ensures { IfSome result (λ v. spec.IsQuick op _world.now (value.Int a ∷ value.Int b ∷ []) v) }
{
    of_integers(op, a.get(), b.get())
}

// What an operation on one integer gives, if it gives a value.
#[inline]
fn signed(op: Op, a: i128) -> Option<Value>
    ensures quick { IfSome result (λ _. spec.is_sign_op op ≡ true) }
    ensures value { IfSome result (λ v. int_row op [] (value.Int a ∷ []) ≡ opend.Give v) }
{
    match op {
        Op::Neg => number(compute_one(Op::Neg, a)),
        Op::Pos => number(compute_one(Op::Pos, a)),
        Op::Inv => number(compute_one(Op::Inv, a)),
        _ => None,
    }
}

// Whether a container without a class holds anything.
#[inline]
fn object_truth(heap: &Heap, number: u64) -> Option<bool>
    ensures { result ≡ spec.plain_truth heap.now (value.Obj number) }
{
    match heap.get(number) {
        Some(Object::List(items) | Object::Tuple(items)) => Some(items.len() != 0),
        Some(Object::Dict(pairs)) => Some(pairs.len() != 0),
        _ => None,
    }
}

// The truth value of what has no class of a script.
#[inline]
fn plain_truth(heap: &Heap, value: &Value) -> Option<bool>
    ensures { result ≡ spec.plain_truth heap.now value.now }
{
    match value {
        Value::Bool(truth) => Some(*truth),
        Value::Int(number) => Some(number.get() != 0),
        Value::None => Some(false),
        Value::Str(text) => Some(!text.as_str().is_empty()),
        Value::Obj(number) => object_truth(heap, *number),
        Value::Unset => None,
    }
}

// That value is what the table gives.
#[inline]
#[tactic(auto, using(crate::proofs::AtOnce::truth_quick))]
fn tested(world: &World, a: &Value) -> Option<bool>
    ensures { IfSome result (λ t. spec.IsQuick op.Truth world.now (a.now ∷ []) (value.Bool t)) }
{
    plain_truth(&world.heap, a)
}

// What an operation on one integer gives.
#[inline]
#[tactic(auto, using(crate::proofs::AtOnce::signs_quick))]
fn with_sign(_world: &World, op: Op, a: Integer) -> Option<Value>
    ensures { IfSome result (λ v. spec.IsQuick op _world.now (value.Int a ∷ []) v) }
{
    signed(op, a.get())
}

// The other bool.
#[inline]
fn turned(_world: &World, a: &Value) -> Option<Value>
    ensures { IfSome result (λ v. spec.IsQuick op.Not _world.now (a.now ∷ []) v) }
{
    match a {
        Value::Bool(truth) => Some(Value::Bool(!*truth)),
        _ => None,
    }
}

/// What an operation on one value gives: `truth` of what has no class of a script, `not` of a bool, and signs of integers.
#[inline]
pub fn quick_one(world: &World, op: Op, a: &Value) -> Option<Value>
    ensures { IfSome result (λ v. spec.IsQuick op world.now (a.now ∷ []) v) }
{
    match op {
        Op::Truth => match tested(world, a) {
            Some(truth) => Some(Value::Bool(truth)),
            None => None,
        },
        Op::Not => turned(world, a),
        _ => match a {
            Value::Int(number) => with_sign(world, op, *number),
            _ => None,
        },
    }
}

// Whether two values are identical.
#[inline]
#[tactic(auto, using(crate::proofs::AtOnce::is_quick, crate::proofs::AtOnce::isnot_quick))]
fn identical(world: &World, a: &Value, b: &Value) -> Option<bool>
    ensures same { IfSome result (λ t. spec.IsQuick op.Is world.now (a.now ∷ b.now ∷ []) (value.Bool t)) }
    ensures other { IfSome result (λ t. spec.IsQuick op.IsNot world.now (a.now ∷ b.now ∷ []) (value.Bool (not t))) }
{
    let count = world.heap.len();
    if is_in(count, a) && is_in(count, b) {
        Some(a.is_identical(b))
    } else {
        None
    }
}

// The item of a list, a tuple or a dict.
#[inline]
fn item(world: &World, a: &Value, b: &Value) -> Option<Value>
    ensures { IfSome result (λ v. row op.Index world.now (a.now ∷ b.now ∷ []) ≡ given world.now.heap v) }
{
    match rt_seq::quick_index(world, a, b) {
        Some(value) => Some(value),
        None => rt_dict::quick_index(world, a, b),
    }
}

// The item of a list, a tuple or a dict that is there.
#[inline]
#[tactic(auto, using(crate::proofs::AtOnce::index_quick))]
fn indexed(world: &World, a: &Value, b: &Value) -> Option<Value>
    ensures { IfSome result (λ v. spec.IsQuick op.Index world.now (a.now ∷ b.now ∷ []) v) }
{
    let count = world.heap.len();
    if is_in(count, a) && is_in(count, b) {
        item(world, a, b)
    } else {
        None
    }
}

// Whether two texts are the same.
#[inline]
#[tactic(auto, using(crate::proofs::AtOnce::eq_texts, crate::proofs::AtOnce::ne_texts))]
fn equal(_world: &World, a: &Value, b: &Value) -> Option<bool>
    ensures same { IfSome result (λ t. spec.IsQuick op.Eq _world.now (a.now ∷ b.now ∷ []) (value.Bool t)) }
    ensures other { IfSome result (λ t. spec.IsQuick op.Ne _world.now (a.now ∷ b.now ∷ []) (value.Bool (not t))) }
{
    match (a, b) {
        (Value::Str(x), Value::Str(y)) => Some(x.is_same(y)),
        _ => None,
    }
}

// What an operation on two values gives that aren't both integers.
#[inline]
fn of_others(world: &World, op: Op, a: &Value, b: &Value) -> Option<Value>
    ensures { IfSome result (λ v. spec.IsQuick op world.now (a.now ∷ b.now ∷ []) v) }
{
    match op {
        Op::Index => indexed(world, a, b),
        Op::Eq => match equal(world, a, b) {
            Some(same) => Some(Value::Bool(same)),
            None => None,
        },
        Op::Ne => match equal(world, a, b) {
            Some(same) => Some(Value::Bool(!same)),
            None => None,
        },
        Op::Is => match identical(world, a, b) {
            Some(same) => Some(Value::Bool(same)),
            None => None,
        },
        Op::IsNot => match identical(world, a, b) {
            Some(same) => Some(Value::Bool(!same)),
            None => None,
        },
        _ => None,
    }
}

/// What an operation on two values gives: arithmetic and comparisons of integers, equality of texts, `is` and `is not`, and the
/// item of a list, a tuple or a dict.
#[inline]
pub fn quick_two(world: &World, op: Op, a: &Value, b: &Value) -> Option<Value>
    ensures { IfSome result (λ v. spec.IsQuick op world.now (a.now ∷ b.now ∷ []) v) }
{
    match (a, b) {
        (Value::Int(x), Value::Int(y)) => quick_numbers(world, op, *x, *y),
        _ => of_others(world, op, a, b),
    }
}
