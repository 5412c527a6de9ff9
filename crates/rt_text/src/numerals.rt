//! Integers from texts, and characters from their numbers and back.

ghost use Rattle.std.specs.Prelude.{◌≡◌, ◌+◌, ◌-◌, ◌*◌, ◌≤◌, ◌^◌, pos, false, IfOk, IfSome, IfNone, MatchOption};
ghost use Rattle.std.specs.List.{list_any};
ghost use Rattle.std.specs.Str.{chars};
ghost use Rattle.nu_run.specs.declared.StopKind.TheVariants as stop;
ghost use Rattle.op_forms.specs.declared.end.OpEnd.TheVariants as opend;
ghost use Rattle.op_rules.specs.Numbers as numbers;
ghost use Rattle.op_rules.specs.Numerals as spec;
ghost use Rattle.op_rules.specs.TextMethods as methods;

use crate::methods::{bad_argument, give_number};
use crate::parts::{char_text, first_char, is_digit, stripped_bytes};
use nu_run::StopKind;
use nu_value::Value;
use op_forms::OpEnd;
use op_rules::raised;
use std::alloc::{AllocError, Global};

const TYPE_ERROR: u64 = 35;

const VALUE_ERROR: u64 = 36;

// 2^127
const HALF: u128 = 170_141_183_460_469_231_731_687_303_715_884_105_728;

// Whether the bytes are digits with single underscores between them.
fn is_numeral(text: &[u8]) -> bool
    ensures { result ≡ spec.is_numeral false text.now }
{
    let mut digit = false;
    for byte in text {
        if is_digit(*byte) {
            digit = true;
        } else if digit && *byte == b'_' {
            digit = false;
        } else {
            return false;
        }
    }
    digit
}

// The number with one digit more, if that fits.
fn with_digit(value: u128, byte: u8) -> Option<u128>
    ensures some { IfSome result (λ more. more ≡ value * 10 + (byte - 48)) }
    ensures none { IfNone result (2 ^ 128 ≤ value * 10 + (byte - 48)) }
{
    value
        .checked_mul(10)?
        .checked_add(u128::from(byte.saturating_sub(48)))
}

// The number that digits write, if it is below 2^128.
fn numeral_value(text: &[u8]) -> Option<u128>
    ensures some { IfSome result (λ n. n ≡ spec.numeral_value 0 text.now) }
    ensures none { IfNone result (2 ^ 128 ≤ spec.numeral_value 0 text.now) }
{
    let mut value: u128 = 0;
    for byte in text {
        if *byte != b'_' {
            value = with_digit(value, *byte)?;
        }
    }
    Some(value)
}

fn too_large() -> OpEnd
    ensures { result ≡ opend.Stop stop.Int }
{
    OpEnd::Stop(StopKind::Int)
}

// A number with its sign, from -2^127 to 2^127 - 1.
fn signed(negative: bool, number: u128) -> OpEnd
    ensures { result ≡ numbers.computed_end (numbers.in_range (spec.signed negative number)) }
{
    if number < HALF {
        let number = number as i128;
        if negative {
            give_number(-number)
        } else {
            give_number(number)
        }
    } else if negative && number == HALF {
        give_number(i128::MIN)
    } else {
        too_large()
    }
}

fn read_digits(alloc: Global, negative: bool, digits: &[u8]) -> Result<OpEnd, AllocError>
    ensures { IfOk result (λ e. e ≡ spec.read_digits negative digits.now) }
{
    if !is_numeral(digits) {
        return raised(alloc, VALUE_ERROR, "invalid literal for int() with base 10");
    }
    match numeral_value(digits) {
        Some(number) => Ok(signed(negative, number)),
        None => Ok(too_large()),
    }
}

fn read_signed(alloc: Global, text: &[u8]) -> Result<OpEnd, AllocError>
    ensures { IfOk result (λ e. e ≡ spec.read_signed text.now) }
{
    let [first, digits @ ..] = text else {
        return read_digits(alloc, false, text);
    };
    if *first == b'-' {
        read_digits(alloc, true, digits)
    } else if *first == b'+' {
        read_digits(alloc, false, digits)
    } else {
        read_digits(alloc, false, text)
    }
}

// Whether a byte is past ASCII, or a separator.
fn has_beyond(text: &[u8]) -> bool
    ensures { result ≡ list_any spec.is_beyond text.now }
{
    for byte in text {
        if 128 <= *byte || (28 <= *byte && *byte <= 31) {
            return true;
        }
    }
    false
}

fn read_int(alloc: Global, text: &[u8]) -> Result<OpEnd, AllocError>
    ensures { IfOk result (λ e. e ≡ spec.read_int text.now) }
{
    if has_beyond(text) {
        Ok(OpEnd::Stop(StopKind::Unbuilt))
    } else {
        read_signed(alloc, stripped_bytes(text))
    }
}

/// `int(value)`.
pub fn int_of(alloc: Global, value: &Value) -> Result<OpEnd, AllocError>
    ensures { IfOk result (λ e. e ≡ spec.int_of value.now) }
{
    if let Some(number) = value.number() {
        return Ok(give_number(number));
    }
    match value {
        Value::Str(text) => read_int(alloc, text.as_str().as_bytes()),
        _ => raised(
            alloc,
            TYPE_ERROR,
            "int() argument must be a string or a number",
        ),
    }
}

fn no_character(alloc: Global) -> Result<OpEnd, AllocError>
    ensures { IfOk result (λ e. e ≡ spec.no_character) }
{
    raised(alloc, TYPE_ERROR, "ord() expected a character")
}

// The only character of a text.
fn only_character(text: &str) -> Option<char>
    ensures { MatchOption result (spec.number_of_one (chars text.now) ≡ spec.no_character) (λ c. spec.number_of_one (chars text.now) ≡ methods.give_number (pos c)) }
{
    let (character, rest) = first_char(text)?;
    if rest.is_empty() {
        Some(character)
    } else {
        None
    }
}

/// `ord(value)`.
pub fn ord_of(alloc: Global, value: &Value) -> Result<OpEnd, AllocError>
    ensures { IfOk result (λ e. e ≡ spec.ord_of value.now) }
{
    let Value::Str(text) = value else {
        return no_character(alloc);
    };
    match only_character(text.as_str()) {
        Some(character) => Ok(give_number(character as i128)),
        None => no_character(alloc),
    }
}

fn character_of(alloc: Global, number: i128) -> Result<OpEnd, AllocError>
    ensures { IfOk result (λ e. e ≡ spec.character_of number) }
{
    if number < 0 || 1_114_111 < number {
        return raised(alloc, VALUE_ERROR, "chr() arg not in range");
    }
    match char::from_u32(number as u32) {
        Some(character) => Ok(OpEnd::Give(Value::Str(char_text(alloc, character)?))),
        None => Ok(OpEnd::Stop(StopKind::Unbuilt)),
    }
}

/// `chr(value)`.
pub fn chr_of(alloc: Global, value: &Value) -> Result<OpEnd, AllocError>
    ensures { IfOk result (λ e. e ≡ spec.chr_of value.now) }
{
    match value.number() {
        Some(number) => character_of(alloc, number),
        None => bad_argument(alloc, "chr"),
    }
}
