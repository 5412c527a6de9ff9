//! Integer literals (reference, section 2.4.5).

ghost use Rattle.std.specs.Prelude.{◌≡◌, ◌≤◌, ◌<◌, ◌+◌, ◌^◌, length, IfSome};
ghost use Rattle.py_lexer.specs.declared.runs.Class.TheVariants as class;
ghost use Rattle.py_lexer.specs.Characters.{run_length};
ghost use Rattle.py_lexer.specs.Numerals as spec;
ghost use Rattle.py_lexer.specs.Seen.{run, measured};
ghost use Rattle.py_lexer.specs.Seen as seen;

use crate::runs::{Class, split_first_of};

/// Every number is below this one, 2^127.
const LIMIT: u128 = 0x8000_0000_0000_0000_0000_0000_0000_0000;

/// Whether a numeral starts with this character, before the rest.
pub fn begins_numeral(c: char, rest: &[char]) -> bool
    ensures { result ≡ spec.begins_numeral c rest.now }
{
    c.is_ascii_digit() || c == '.' && matches!(rest, ['0'..='9', ..])
}

/// The number of the digits at the front, if they are well formed and it is below the limit, and
/// how many characters they are, underscores with them. They go on as the numeral does.
fn digits(base: u32, text: &[char]) -> Option<(u128, usize)>
    requires low { 2 ≤ base }
    requires high { base ≤ 16 }
    ensures value { result ≡ measured (spec.digits base (run class.Numeral text.now)) (run_length class.Numeral text.now) }
    ensures below { IfSome result (λ r. r.0 < 2 ^ 127) }
    ensures within { IfSome result (λ r. r.1 ≤ length text.now) }
{
    let mut number: u128 = 0;
    let mut behind = false;
    let mut length = 0;
    let mut rest = text;
    'digits: while let Some((c, after)) = split_first_of(Class::Numeral, rest) {
        if c == '_' {
            if !behind {
                return None;
            }
            behind = false;
        } else {
            let digit = u128::from(c.to_digit(base)?);
            if number > (LIMIT - 1 - digit) / u128::from(base) {
                return None;
            }
            number = number * u128::from(base) + digit;
            behind = true;
        }
        length += 1;
        rest = after;
    }
    if behind { Some((number, length)) } else { None }
}

/// The base that a letter behind a zero names.
fn base_of(c: char) -> Option<u32>
    ensures value { result ≡ seen.base_of c }
    ensures within { IfSome result (λ base. (2 ≤ base) × (base ≤ 16)) }
{
    match c {
        'x' | 'X' => Some(16),
        'o' | 'O' => Some(8),
        'b' | 'B' => Some(2),
        _ => None,
    }
}

/// The number of the digits behind a zero and a letter, and the length with these two.
fn prefixed(base: u32, text: &[char]) -> Option<(u128, usize)>
    requires low { 2 ≤ base }
    requires high { base ≤ 16 }
    ensures value { result ≡ measured (spec.digits base (spec.past_underscore (run class.Numeral text.now))) (run_length class.Numeral text.now + 2) }
    ensures below { IfSome result (λ r. r.0 < 2 ^ 127) }
    ensures within { IfSome result (λ r. r.1 ≤ length text.now + 2) }
{
    if let ['_', rest @ ..] = text {
        let (number, length) = digits(base, rest)?;
        return Some((number, length + 3));
    }
    let (number, length) = digits(base, text)?;
    Some((number, length + 2))
}

/// The number of a numeral with a leading zero and no prefix, which is zero, and its length.
fn zeros(text: &[char]) -> Option<(u128, usize)>
    ensures value { result ≡ measured (spec.unless_positive (spec.digits 10 (run class.Numeral text.now))) (run_length class.Numeral text.now) }
    ensures below { IfSome result (λ r. r.0 < 2 ^ 127) }
    ensures within { IfSome result (λ r. r.1 ≤ length text.now) }
{
    let (number, length) = digits(10, text)?;
    if number == 0 { Some((0, length)) } else { None }
}

/// The number of the numeral at the front, if it is one, and its length.
pub fn numeral(text: &[char]) -> Option<(u128, usize)>
    ensures value { result ≡ measured (spec.numeral (run class.Numeral text.now)) (run_length class.Numeral text.now) }
    ensures below { IfSome result (λ r. r.0 < 2 ^ 127) }
    ensures within { IfSome result (λ r. r.1 ≤ length text.now) }
{
    let [first, letter, rest @ ..] = text else {
        return digits(10, text);
    };
    if *first != '0' {
        return digits(10, text);
    }
    match base_of(*letter) {
        Some(base) => prefixed(base, rest),
        None => zeros(text),
    }
}
