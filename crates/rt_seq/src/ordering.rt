//! The order of two values (reference, section 6.10.1).

ghost use Rattle.std.specs.Prelude.{◌≡◌, IfOk, length, option_copied, option_map};
ghost use Rattle.std.specs.Ordering.{nat_cmp};
ghost use Rattle.nu_value.specs.Same as same;
ghost use Rattle.op_forms.specs.Signs as signs;
ghost use Rattle.op_rules.specs.Comparisons as comparisons;
ghost use Rattle.op_rules.specs.Kinds as kinds;
ghost use Rattle.op_rules.specs.Ordering as spec;
ghost use Rattle.rt_seq.specs.Alike as alike;

use nu_run::StopKind;
use nu_value::{Heap, Object, Sameness, Value, object_of, same_within};
use op_forms::{Op, OpEnd};
use op_rules::no_order;
use std::alloc::{AllocError, Global};
use std::cmp::Ordering;

/// Whether an order is one that the comparison asks for.
fn holds(op: Op, order: Ordering) -> bool
    ensures { result ≡ comparisons.holds op order }
{
    match op {
        Op::Lt => order.is_lt(),
        Op::Le => order.is_le(),
        Op::Gt => order.is_gt(),
        Op::Ge => order.is_ge(),
        _ => false,
    }
}

/// What a comparison gives for an order.
fn order_end(op: Op, order: Ordering) -> OpEnd
    ensures { result ≡ comparisons.give_bool (comparisons.holds op order) }
{
    OpEnd::Give(Value::Bool(holds(op, order)))
}

/// What a comparison gives for two containers of which one begins with the other's items.
fn lengths_end(op: Op, xs: &[Value], ys: &[Value]) -> OpEnd
    ensures { result ≡ comparisons.give_bool (comparisons.holds op (nat_cmp (length xs.now) (length ys.now))) }
{
    order_end(op, xs.len().cmp(&ys.len()))
}

fn is_view(object: Option<&Object>) -> bool
    ensures { result ≡ alike.is_view (option_copied object.entry) }
{
    match object {
        Some(Object::View { .. }) => true,
        _ => false,
    }
}

// Two values that aren't of one kind.
fn unordered(alloc: Global, op: Op, heap: &Heap, a: &Value, b: &Value) -> Result<OpEnd, AllocError>
    ensures { IfOk result (λ e. e ≡ alike.unordered (kinds.no_order (signs.sign_of op) heap.now a.now b.now) (same.object_of heap.now a.now) (same.object_of heap.now b.now)) }
{
    if is_view(object_of(heap, a)) || is_view(object_of(heap, b)) {
        Ok(OpEnd::Stop(StopKind::Unbuilt))
    } else {
        no_order(alloc, op.sign(), heap, a, b)
    }
}

// The items of two lists, or of two tuples.
fn insides<'a>(x: Option<&'a Object>, y: Option<&'a Object>) -> Option<(&'a [Value], &'a [Value])>
    ensures { option_map (λ p. (p.0.now, p.1.now)) result ≡ alike.insides (option_copied x.entry) (option_copied y.entry) }
{
    match x {
        Some(Object::List(xs)) => match y {
            Some(Object::List(ys)) => Some((xs.as_slice(), ys.as_slice())),
            _ => None,
        },
        Some(Object::Tuple(xs)) => match y {
            Some(Object::Tuple(ys)) => Some((xs.as_slice(), ys.as_slice())),
            _ => None,
        },
        _ => None,
    }
}

/// Two values, in which containers may be looked into so deep.
#[cycle(ordering)]
fn order_at(
    alloc: Global,
    room: u32,
    op: Op,
    heap: &Heap,
    a: &Value,
    b: &Value,
) -> Result<OpEnd, AllocError>
    ensures { IfOk result (λ e. e ≡ spec.order_at room op heap.now a.now b.now) }
{
    if let (Some(x), Some(y)) = (a.number(), b.number()) {
        return Ok(order_end(op, x.cmp(&y)));
    }
    match (a, b) {
        (Value::Str(s), Value::Str(t)) => Ok(order_end(op, s.as_str().cmp(t.as_str()))),
        _ => order_objects(alloc, room, op, heap, a, b),
    }
}

#[cycle(ordering)]
#[tactic(auto, using(crate::proofs::Deciding::inside_is, crate::proofs::Deciding::apart_is))]
fn order_objects(
    alloc: Global,
    room: u32,
    op: Op,
    heap: &Heap,
    a: &Value,
    b: &Value,
) -> Result<OpEnd, AllocError>
    ensures { IfOk result (λ e. e ≡ spec.objects_order (kinds.no_order (signs.sign_of op) heap.now a.now b.now) (spec.inside_order room op heap.now) (same.object_of heap.now a.now) (same.object_of heap.now b.now)) }
{
    match insides(object_of(heap, a), object_of(heap, b)) {
        Some((xs, ys)) => order_inside(alloc, room, op, heap, xs, ys),
        None => unordered(alloc, op, heap, a, b),
    }
}

#[cycle(ordering)]
fn order_inside(
    alloc: Global,
    room: u32,
    op: Op,
    heap: &Heap,
    xs: &[Value],
    ys: &[Value],
) -> Result<OpEnd, AllocError>
    ensures { IfOk result (λ e. e ≡ spec.inside_order room op heap.now xs.now ys.now) }
{
    if room == 0 {
        Ok(OpEnd::Stop(StopKind::Depth))
    } else {
        order_items(alloc, room - 1, op, heap, xs, ys)
    }
}

#[cycle(ordering)]
fn order_items(
    alloc: Global,
    room: u32,
    op: Op,
    heap: &Heap,
    xs: &[Value],
    ys: &[Value],
) -> Result<OpEnd, AllocError>
    ensures { IfOk result (λ e. e ≡ spec.items_order op (same.eq_at room heap.now) (spec.order_at room op heap.now) xs.now ys.now) }
{
    for place in 0..xs.len() {
        let (Some(x), Some(y)) = (xs.get(place), ys.get(place)) else {
            return Ok(lengths_end(op, xs, ys));
        };
        match same_within(room, heap, x, y) {
            Sameness::Equal => {}
            Sameness::Different => return order_at(alloc, room, op, heap, x, y),
            Sameness::Depth => return Ok(OpEnd::Stop(StopKind::Depth)),
            Sameness::Unbuilt => return Ok(OpEnd::Stop(StopKind::Unbuilt)),
        }
    }
    Ok(lengths_end(op, xs, ys))
}

/// `a < b` and the like. Containers may lie at depth 1 to 1,000.
pub fn order_row(
    alloc: Global,
    op: Op,
    heap: &Heap,
    a: &Value,
    b: &Value,
) -> Result<OpEnd, AllocError>
    ensures { IfOk result (λ e. e ≡ spec.order_row op heap.now a.now b.now) }
{
    order_at(alloc, 1000, op, heap, a, b)
}
