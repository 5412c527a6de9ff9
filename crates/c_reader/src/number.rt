//! Numbers at the front of a text.

ghost use Rattle.std.specs.Prelude.{◌≡◌, ℕ, ◌+◌, ◌-◌, ◌*◌, ◌<◌, ◌≤◌, ◌^◌, ◌++◌, ℤ, List, [], ◌∷◌, IfSome, IfNone, true, false, length, take, drop, decimal};
ghost use Rattle.nu_text.specs.Decimals.{starts_digit, ends_decimal};
ghost use Rattle.nu_text.specs.Pieces.{before};
ghost use Rattle.c_reader.specs.Pieces.{BareStands, NumberStands, FieldStands, IntStands};

use nu_text::leading_decimal;

/// How many lines there are, and how many functions a number could name.
pub const LINES: u128 = 1 << 32;

/// How many labels, slots, parameters and cells there are.
pub const NUMBERS: u128 = 1 << 64;

/// What follows the literal, where the text begins with it.
pub fn after<'a>(text: &'a [u8], literal: &[u8]) -> Option<&'a [u8]>
    ensures some { IfSome result (λ rest. text.now ≡ literal.now ++ rest.now) }
    ensures none { IfNone result ((rest : List ℕ) → text.now ≡ literal.now ++ rest → ⊥) }
{
    text.strip_prefix(literal)
}

/// Whether a digit follows.
pub fn begins_with_digit(text: &[u8]) -> bool
    ensures { result ≡ starts_digit text.now }
{
    match text {
        [byte, ..] => byte.is_ascii_digit(),
        _ => false,
    }
}

/// The number below the limit of which the decimal begins the text; and what follows, which begins with no digit.
pub fn bare_number(text: &[u8], limit: u128) -> Option<(u64, &[u8])>
    requires { limit ≤ 2 ^ 64 }
    ensures some { IfSome result (λ found. BareStands limit text.now found.0 found.1.now) }
    ensures none { IfNone result ((n : ℕ) (rest : List ℕ) → BareStands limit text.now n rest → ⊥) }
{
    let (value, rest) = leading_decimal(text)?;
    if value < limit {
        Some((value as u64, rest))
    } else {
        None
    }
}

/// The number below the limit of which the decimal begins the text, where this closing follows it; and what follows.
pub fn number<'a>(text: &'a [u8], limit: u128, closing: &[u8]) -> Option<(u64, &'a [u8])>
    requires limit { limit ≤ 2 ^ 64 }
    requires closing { ends_decimal closing.now ≡ true }
    ensures some { IfSome result
        (λ found. NumberStands limit closing.now text.now found.0 found.1.now) }
    ensures none { IfNone result ((n : ℕ) (rest : List ℕ)
        → NumberStands limit closing.now text.now n rest → ⊥) }
{
    let (value, behind) = bare_number(text, limit)?;
    let rest = after(behind, closing)?;
    Some((value, rest))
}

/// The number below the limit that stands between two pieces at the front of the text; and what follows.
pub fn field<'a>(
    text: &'a [u8],
    opening: &[u8],
    limit: u128,
    closing: &[u8],
) -> Option<(u64, &'a [u8])>
    requires limit { limit ≤ 2 ^ 64 }
    requires closing { ends_decimal closing.now ≡ true }
    ensures some { IfSome result
        (λ found. FieldStands limit opening.now closing.now text.now found.0 found.1.now) }
    ensures none { IfNone result ((n : ℕ) (rest : List ℕ)
        → FieldStands limit opening.now closing.now text.now n rest → ⊥) }
{
    let behind = after(text, opening)?;
    number(behind, limit, closing)
}

/// What follows the decimal of this number and this closing, where the text begins with them.
pub fn after_number<'a>(text: &'a [u8], value: u64, closing: &[u8]) -> Option<&'a [u8]>
    requires { ends_decimal closing.now ≡ true }
    ensures some { IfSome result
        (λ rest. text.now ≡ before (decimal value ∷ closing.now ∷ []) rest.now) }
    ensures none { IfNone result ((rest : List ℕ)
        → text.now ≡ before (decimal value ∷ closing.now ∷ []) rest → ⊥) }
{
    let (found, behind) = leading_decimal(text)?;
    if found != u128::from(value) {
        return None;
    }
    after(behind, closing)
}

// The size of the number of which the decimal begins the text, in 128 bits.
fn size<'a>(text: &'a [u8], limit: u128, closing: &[u8]) -> Option<(u128, &'a [u8])>
    requires { ends_decimal closing.now ≡ true }
    ensures some { IfSome result
        (λ found. NumberStands limit closing.now text.now found.0 found.1.now) }
    ensures none { IfNone result ((n : ℕ) (rest : List ℕ)
        → NumberStands limit closing.now text.now n rest → ⊥) }
{
    let (value, behind) = leading_decimal(text)?;
    let rest = after(behind, closing)?;
    if value < limit {
        Some((value, rest))
    } else {
        None
    }
}

const FIRST_TOO_LARGE: u128 = 1 << 127;

/// The number from -2^127 to 2^127 - 1 that begins the text, where this closing follows it; and what follows.
pub(crate) fn integer<'a>(text: &'a [u8], closing: &[u8]) -> Option<(i128, &'a [u8])>
    requires { ends_decimal closing.now ≡ true }
    ensures some { IfSome result (λ found. IntStands closing.now text.now found.0 found.1.now) }
    ensures none { IfNone result ((z : ℤ) (rest : List ℕ)
        → IntStands closing.now text.now z rest → ⊥) }
{
    match after(text, b"-") {
        Some(digits) => {
            let (size, rest) = size(digits, FIRST_TOO_LARGE + 1, closing)?;
            // There is no -0.
            let less = size.checked_sub(1)?;
            Some((-1 - less as i128, rest))
        }
        None => {
            let (size, rest) = size(text, FIRST_TOO_LARGE, closing)?;
            Some((size as i128, rest))
        }
    }
}
