//! Operations on integers, without memory (library reference, "Numeric Types").

ghost use Rattle.std.specs.Prelude.{◌≡◌, ◌^◌, ◌*ℤ◌, ◌-ℤ◌, neg_ℤ, ◌<◌, ◌≤◌, pos, negsuc, false, unsigned_abs};
ghost use Rattle.std.specs.Int.{int_pow, is_negative};
ghost use Rattle.op_rules.specs.Division.{quotient_by, rest_by};
ghost use Rattle.op_rules.specs.Numbers as spec;

use op_forms::Op;

/// What an operation on integers comes to.
#[derive(Clone, Copy)]
pub enum Computed {
    Int(i128),
    /// An integer outside -2^127 to 2^127 - 1.
    TooLarge,
    /// What would be a float.
    Float,
    /// A division by zero.
    ZeroDivision,
    /// A negative power of zero.
    ZeroPower,
    /// A shift by a negative count.
    NegativeCount,
    /// The operation isn't one on integers.
    NoOperation,
}

fn checked(found: Option<i128>) -> Computed
    ensures { result ≡ spec.checked found }
{
    match found {
        Some(z) => Computed::Int(z),
        None => Computed::TooLarge,
    }
}

#[tactic(auto, using(crate::proofs::Ranges::checked_is))]
fn add(a: i128, b: i128) -> Computed
    ensures { result ≡ spec.sum a b }
{
    checked(a.checked_add(b))
}

#[tactic(auto, using(crate::proofs::Ranges::checked_is))]
fn sub(a: i128, b: i128) -> Computed
    ensures { result ≡ spec.difference a b }
{
    checked(a.checked_sub(b))
}

#[tactic(auto, using(crate::proofs::Ranges::checked_is))]
fn mul(a: i128, b: i128) -> Computed
    ensures { result ≡ spec.product a b }
{
    checked(a.checked_mul(b))
}

fn floor_div(a: i128, b: i128) -> Computed
    ensures { result ≡ spec.divided b (spec.floor_quotient a b) }
{
    quotient(a, b)
}

// The quotient, by the division whose rest isn't negative.
fn quotient(a: i128, b: i128) -> Computed
    ensures { result ≡ spec.divided b (quotient_by a b) }
{
    if b == 0 {
        return Computed::ZeroDivision;
    }
    if a == i128::MIN && b == -1 {
        return Computed::TooLarge;
    }
    let quotient = a.div_euclid(b);
    if b < 0 && 0 < a.rem_euclid(b) {
        Computed::Int(quotient - 1)
    } else {
        Computed::Int(quotient)
    }
}

fn floor_mod(a: i128, b: i128) -> Computed
    ensures { result ≡ spec.divided b (spec.floor_rest a b) }
{
    rest(a, b)
}

// The rest, by the division whose rest isn't negative.
fn rest(a: i128, b: i128) -> Computed
    ensures { result ≡ spec.divided b (rest_by a b) }
{
    if b == 0 {
        return Computed::ZeroDivision;
    }
    if b == -1 {
        return Computed::Int(0);
    }
    let rest = a.rem_euclid(b);
    if b < 0 && 0 < rest {
        Computed::Int(rest + b)
    } else {
        Computed::Int(rest)
    }
}

#[tactic(auto, using(crate::proofs::Ranges::checked_is))]
fn raised(a: i128, n: u32) -> Computed
    ensures { result ≡ spec.in_range (int_pow a n) }
{
    checked(a.checked_pow(n))
}

fn two_to(n: u32) -> i128
    requires { n < 127 }
    ensures { result ≡ pos (2 ^ n) }
{
    1i128 << n
}

#[tactic(auto, using(crate::proofs::Ranges::checked_is))]
fn times_two_to(a: i128, n: u32) -> Computed
    requires { n < 127 }
    ensures { result ≡ spec.in_range (a *ℤ pos (2 ^ n)) }
{
    checked(a.checked_mul(two_to(n)))
}

fn over_two_to(a: i128, n: u32) -> Computed
    requires { n < 127 }
    ensures { result ≡ spec.in_range (spec.floor_quotient a (pos (2 ^ n))) }
{
    Computed::Int(a.div_euclid(two_to(n)))
}

// A power that isn't negative.
fn natural_power(a: i128, b: i128) -> Computed
    requires { is_negative b ≡ false }
    ensures { result ≡ spec.in_range (int_pow a (unsigned_abs b)) }
{
    match u32::try_from(b) {
        Ok(n) => raised(a, n),
        Err(_) => huge_power(a, b.unsigned_abs()),
    }
}

// A power with an exponent from 2^32 on.
#[tactic(auto, using(crate::proofs::Powers::large, crate::proofs::Powers::minus_even, crate::proofs::Powers::minus_odd, crate::proofs::Powers::of_zero, crate::proofs::Powers::of_one))]
fn huge_power(a: i128, n: u128) -> Computed
    requires { 2 ^ 32 ≤ n }
    ensures { result ≡ spec.in_range (int_pow a n) }
{
    if 2 <= a.unsigned_abs() {
        Computed::TooLarge
    } else if a == -1 {
        if n % 2 == 0 {
            Computed::Int(1)
        } else {
            Computed::Int(-1)
        }
    } else if a == 0 {
        Computed::Int(0)
    } else {
        Computed::Int(1)
    }
}

fn power(a: i128, b: i128) -> Computed
    ensures { result ≡ spec.power a b }
{
    if b < 0 {
        if a == 0 {
            Computed::ZeroPower
        } else {
            Computed::Float
        }
    } else {
        natural_power(a, b)
    }
}

#[tactic(auto, using(crate::proofs::Powers::far_left, crate::proofs::Powers::minus_far_left))]
fn shift_left(a: i128, b: i128) -> Computed
    ensures { result ≡ spec.shifted b (a *ℤ pos (2 ^ unsigned_abs b)) }
{
    if b < 0 {
        Computed::NegativeCount
    } else if b < 127 {
        times_two_to(a, b as u32)
    } else if a == 0 {
        Computed::Int(0)
    } else if a != -1 {
        Computed::TooLarge
    } else if b == 127 {
        Computed::Int(i128::MIN)
    } else {
        Computed::TooLarge
    }
}

#[tactic(auto, using(crate::proofs::Powers::far_right, crate::proofs::Powers::far_right_below))]
fn shift_right(a: i128, b: i128) -> Computed
    ensures { result ≡ spec.shifted b (spec.floor_quotient a (pos (2 ^ unsigned_abs b))) }
{
    if b < 0 {
        Computed::NegativeCount
    } else if b < 127 {
        over_two_to(a, b as u32)
    } else if a < 0 {
        Computed::Int(-1)
    } else {
        Computed::Int(0)
    }
}

/// An operation on two integers.
pub fn compute(op: Op, a: i128, b: i128) -> Computed
    ensures { result ≡ spec.int_op op a b }
{
    match op {
        Op::Add | Op::IAdd => add(a, b),
        Op::Sub => sub(a, b),
        Op::Mul | Op::IMul => mul(a, b),
        Op::FloorDiv => floor_div(a, b),
        Op::Mod => floor_mod(a, b),
        Op::Pow => power(a, b),
        Op::LShift => shift_left(a, b),
        Op::RShift => shift_right(a, b),
        Op::And => Computed::Int(a & b),
        Op::Or => Computed::Int(a | b),
        Op::Xor => Computed::Int(a ^ b),
        _ => Computed::NoOperation,
    }
}

#[tactic(auto, using(crate::proofs::Ranges::checked_is))]
fn negative(a: i128) -> Computed
    ensures { result ≡ spec.in_range (neg_ℤ a) }
{
    checked(a.checked_neg())
}

#[tactic(auto, using(crate::proofs::Ranges::checked_is))]
fn inverse(a: i128) -> Computed
    ensures { result ≡ spec.in_range (negsuc 0 -ℤ a) }
{
    checked((-1i128).checked_sub(a))
}

fn itself(a: i128) -> Computed
    ensures { result ≡ spec.in_range a }
{
    Computed::Int(a)
}

/// An operation on one integer.
pub fn compute_one(op: Op, a: i128) -> Computed
    ensures { result ≡ spec.unary_op op a }
{
    match op {
        Op::Neg => negative(a),
        Op::Pos => itself(a),
        Op::Inv => inverse(a),
        _ => Computed::NoOperation,
    }
}
