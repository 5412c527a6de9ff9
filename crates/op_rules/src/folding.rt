//! Operations on constants, done before the program runs.

ghost use Rattle.std.specs.Prelude.{◌≡◌, []};
ghost use Rattle.nu_value.specs.Same.{identical, number_of};
ghost use Rattle.op_rules.specs.Comparisons as comparisons;
ghost use Rattle.op_forms.specs.Constants.{value_of};
ghost use Rattle.op_rules.specs.Foldable.{folded, given};
ghost use Rattle.op_rules.specs.Folding as spec;
ghost use Rattle.op_rules.specs.IntRows as rows;
ghost use Rattle.op_rules.specs.Numbers.{computed_end};

use crate::arithmetic::{Computed, compute, compute_one};
use op_forms::{Const, Op};
use std::cmp::Ordering;

// The number that a constant counts as.
fn number_of(a: &Const) -> Option<i128>
    ensures { result ≡ number_of (value_of a.now) }
{
    match a {
        Const::Bool(true) => Some(1),
        Const::Bool(false) => Some(0),
        Const::Int(number) => Some(*number),
        Const::None | Const::Str(_) => None,
    }
}

fn is_identical(a: &Const, b: &Const) -> bool
    ensures { result ≡ identical (value_of a.now) (value_of b.now) }
{
    match (a, b) {
        (Const::None, Const::None) => true,
        (Const::Bool(x), Const::Bool(y)) => *x == *y,
        (Const::Int(x), Const::Int(y)) => *x == *y,
        (Const::Str(x), Const::Str(y)) => x.is_same(y),
        _ => false,
    }
}

fn is_equal(a: &Const, b: &Const) -> bool
    ensures { result ≡ spec.const_eq a.now b.now }
{
    if is_identical(a, b) {
        return true;
    }
    match (number_of(a), number_of(b)) {
        (Some(x), Some(y)) => x == y,
        _ => false,
    }
}

fn number_order(a: Option<i128>, b: Option<i128>) -> Option<Ordering>
    ensures { result ≡ spec.numbers_order a b }
{
    match (a, b) {
        (Some(x), Some(y)) => Some(x.cmp(&y)),
        _ => None,
    }
}

fn order(a: &Const, b: &Const) -> Option<Ordering>
    ensures { result ≡ spec.const_order a.now b.now }
{
    match (a, b) {
        (Const::Str(s), Const::Str(t)) => Some(s.as_str().cmp(t.as_str())),
        _ => number_order(number_of(a), number_of(b)),
    }
}

fn holds(op: Op, order: Ordering) -> bool
    ensures { result ≡ comparisons.holds op order }
{
    match op {
        Op::Lt => order.is_lt(),
        Op::Le => order.is_le(),
        Op::Gt => order.is_gt(),
        Op::Ge => order.is_ge(),
        _ => false,
    }
}

fn compare(op: Op, a: &Const, b: &Const) -> Option<Const>
    ensures { result ≡ spec.order_folded op a.now b.now }
{
    match order(a, b) {
        Some(order) => Some(Const::Bool(holds(op, order))),
        None => None,
    }
}

fn bools(op: Op, a: &Const, b: &Const) -> Option<bool>
    ensures { result ≡ rows.bool_op op (value_of a.now) (value_of b.now) }
{
    match op {
        Op::And => match (a, b) {
            (Const::Bool(x), Const::Bool(y)) => Some(*x && *y),
            _ => None,
        },
        Op::Or => match (a, b) {
            (Const::Bool(x), Const::Bool(y)) => Some(*x || *y),
            _ => None,
        },
        Op::Xor => match (a, b) {
            (Const::Bool(x), Const::Bool(y)) => Some(*x != *y),
            _ => None,
        },
        _ => None,
    }
}

fn given(computed: Computed) -> Option<Const>
    ensures { result ≡ given (computed_end computed) }
{
    match computed {
        Computed::Int(number) => Some(Const::Int(number)),
        _ => None,
    }
}

fn calculate(op: Op, a: &Const, b: &Const) -> Option<Const>
    ensures { result ≡ spec.pair_folded op a.now b.now }
{
    if let Some(truth) = bools(op, a, b) {
        return Some(Const::Bool(truth));
    }
    match (number_of(a), number_of(b)) {
        (Some(x), Some(y)) => given(compute(op, x, y)),
        _ => None,
    }
}

fn calculate_one(op: Op, a: &Const) -> Option<Const>
    ensures { result ≡ given (rows.number_one op [] (value_of a.now)) }
{
    match number_of(a) {
        Some(x) => given(compute_one(op, x)),
        None => None,
    }
}

fn truth(a: &Const) -> Option<Const>
    ensures { result ≡ given (comparisons.truth_row [] (value_of a.now)) }
{
    match a {
        Const::None => Some(Const::Bool(false)),
        Const::Bool(truth) => Some(Const::Bool(*truth)),
        Const::Int(number) => Some(Const::Bool(*number != 0)),
        Const::Str(text) => Some(Const::Bool(!text.as_str().is_empty())),
    }
}

fn negation(a: &Const) -> Option<Const>
    ensures { result ≡ given (comparisons.not_row (value_of a.now)) }
{
    match a {
        Const::Bool(truth) => Some(Const::Bool(!*truth)),
        _ => None,
    }
}

fn fold_one(op: Op, a: &Const) -> Option<Const>
    ensures { result ≡ spec.one_folded op a.now }
{
    match op {
        Op::Neg => calculate_one(Op::Neg, a),
        Op::Pos => calculate_one(Op::Pos, a),
        Op::Inv => calculate_one(Op::Inv, a),
        Op::Not => negation(a),
        Op::Truth => truth(a),
        _ => None,
    }
}

fn fold_two(op: Op, a: &Const, b: &Const) -> Option<Const>
    ensures { result ≡ spec.two_folded op a.now b.now }
{
    match op {
        Op::Eq => Some(Const::Bool(is_equal(a, b))),
        Op::Ne => Some(Const::Bool(!is_equal(a, b))),
        Op::Is => Some(Const::Bool(is_identical(a, b))),
        Op::IsNot => Some(Const::Bool(!is_identical(a, b))),
        Op::Lt | Op::Le | Op::Gt | Op::Ge => compare(op, a, b),
        Op::Add => calculate(Op::Add, a, b),
        Op::Sub => calculate(Op::Sub, a, b),
        Op::Mul => calculate(Op::Mul, a, b),
        Op::FloorDiv => calculate(Op::FloorDiv, a, b),
        Op::Mod => calculate(Op::Mod, a, b),
        Op::LShift => calculate(Op::LShift, a, b),
        Op::RShift => calculate(Op::RShift, a, b),
        Op::And => calculate(Op::And, a, b),
        Op::Or => calculate(Op::Or, a, b),
        Op::Xor => calculate(Op::Xor, a, b),
        Op::IAdd => calculate(Op::IAdd, a, b),
        Op::IMul => calculate(Op::IMul, a, b),
        _ => None,
    }
}

fn fold_args(op: Op, args: &[Const]) -> Option<Const>
    ensures { result ≡ spec.folded_by op args.now }
{
    match args {
        [a] => fold_one(op, a),
        [a, b] => fold_two(op, a, b),
        _ => None,
    }
}

/// The integer or bool that a foldable operation gives for constants that fit it.
#[tactic(auto, using(crate::proofs::Constants::folded_from))]
pub fn fold(op: Op, args: &[Const]) -> Option<Const>
    ensures { result ≡ folded op args.now }
{
    fold_args(op, args)
}
