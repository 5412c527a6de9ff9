//! Parts of texts: characters, cuts, pieces, words and blanks.

ghost use Rattle.std.specs.Prelude.{◌≡◌, ℕ, ◌-◌, ◌<◌, ◌≤◌, [], ◌∷◌, ◌++◌, true, IfOk, OnOk, IfSome, IsAscii, MatchOption, length, take, drop, map, string_bytes, encode_utf8, slice_get};
ghost use Rattle.std.specs.List.{list_all, prefix_len};
ghost use Rattle.std.specs.Str.{chars};
ghost use Rattle.nu_text.specs.Decimals.{is_digit};
ghost use Rattle.nu_value.specs.declared.value.Value.TheVariants as value;
ghost use Rattle.op_rules.specs.TextParts as spec;

use nu_text::RcStr;
use nu_value::{Items, Value};
use std::alloc::{AllocError, Global};

/// The first character, and what follows it.
pub fn first_char(text: &str) -> Option<(char, &str)>
    ensures cases { MatchOption result (text.now ≡ []) (λ found. text.now ≡ encode_utf8 found.0 ++ found.1.now) }
    ensures characters { IfSome result (λ found. chars text.now ≡ found.0 ∷ chars found.1.now) }
    ensures shorter { IfSome result (λ found. length found.1.now < length text.now) }
{
    let mut characters = text.chars();
    let first = characters.next()?;
    Some((first, characters.as_str()))
}

/// A text of one character.
pub fn char_text(alloc: Global, character: char) -> Result<RcStr, AllocError>
    ensures { IfOk result (λ t. t ≡ encode_utf8 character) }
{
    let mut text = String::new(alloc);
    text.push(character)?;
    RcStr::from_str(alloc, text.as_str())
}

/// Whether all characters are ASCII.
pub fn is_ascii(text: &str) -> bool
    ensures test { result ≡ spec.is_ascii text.now }
    ensures ascii { result ≡ true → IsAscii text.now }
{
    text.is_ascii()
}

// ---- pieces

/// What stands before the first place of a part, and behind that place.
pub fn first_cut<'a>(text: &'a str, part: &str) -> Option<(&'a str, &'a str)>
    requires { 0 < length part.now }
    ensures cases { MatchOption result (spec.pieces_from part.now 0 [] text.now ≡ text.now ∷ []) (λ cut. spec.pieces_from part.now 0 [] text.now ≡ cut.0.now ∷ spec.pieces_from part.now 0 [] cut.1.now) }
    ensures shorter { IfSome result (λ cut. length cut.1.now < length text.now) }
{
    text.split_once(part)
}

fn push_text(alloc: Global, items: &mut Items, text: &str) -> Result<(), AllocError>
    ensures { OnOk result (items.new ≡ items.old ++ value.Str text.now ∷ []) }
{
    items.push(Value::Str(RcStr::from_str(alloc, text)?))?;
    Ok(())
}

fn push_char(alloc: Global, items: &mut Items, character: char) -> Result<(), AllocError>
    ensures { OnOk result (items.new ≡ items.old ++ value.Str (encode_utf8 character) ∷ []) }
{
    items.push(Value::Str(char_text(alloc, character)?))?;
    Ok(())
}

// A text, cut at each place of a part that isn't empty.
fn cut_pieces(alloc: Global, text: &str, part: &str) -> Result<Items, AllocError>
    requires { 0 < length part.now }
    ensures { IfOk result (λ items. items ≡ spec.text_values (spec.pieces_from part.now 0 [] text.now)) }
{
    let mut items = Items::new(alloc);
    let mut rest = text;
    'cuts: while let Some((front, back)) = first_cut(rest, part) {
        push_text(alloc, &mut items, front)?;
        rest = back;
    }
    push_text(alloc, &mut items, rest)?;
    Ok(items)
}

// A text, cut before each character and at the end.
fn single_pieces(alloc: Global, text: &str) -> Result<Items, AllocError>
    ensures { IfOk result (λ items. items ≡ spec.text_values (spec.single_pieces (chars text.now))) }
{
    let mut items = Items::new(alloc);
    push_text(alloc, &mut items, "")?;
    let mut rest = text;
    'characters: while let Some((character, back)) = first_char(rest) {
        push_char(alloc, &mut items, character)?;
        rest = back;
    }
    push_text(alloc, &mut items, "")?;
    Ok(items)
}

/// A text, cut at each place of a part.
pub fn pieces(alloc: Global, text: &str, part: &str) -> Result<Items, AllocError>
    ensures { IfOk result (λ items. items ≡ spec.text_values (spec.pieces part.now text.now)) }
{
    if part.is_empty() {
        single_pieces(alloc, text)
    } else {
        cut_pieces(alloc, text, part)
    }
}

/// How often a part that isn't empty stands in a text, without overlap.
pub fn count_cuts(text: &str, part: &str) -> usize
    requires { 0 < length part.now }
    ensures { result ≡ length (spec.pieces_from part.now 0 [] text.now) - 1 }
{
    let mut count: usize = 0;
    let mut rest = text;
    'cuts: while let Some((_, back)) = first_cut(rest, part) {
        count += 1;
        rest = back;
    }
    count
}

// ---- words

/// Whether a byte is a tab, a line end, a form feed, a separator or a space.
fn is_blank(byte: u8) -> bool
    ensures { result ≡ spec.is_blank byte }
{
    (9 <= byte && byte <= 13) || (28 <= byte && byte <= 32)
}

fn push_word(alloc: Global, items: &mut Items, word: &str) -> Result<(), AllocError>
    ensures { OnOk result (items.new ≡ items.old ++ spec.text_values (spec.word_before word.now [])) }
{
    if word.is_empty() {
        return Ok(());
    }
    push_text(alloc, items, word)
}

/// What stands between blanks in an ASCII text.
pub fn words(alloc: Global, text: &str) -> Result<Items, AllocError>
    requires { IsAscii text.now }
    ensures { IfOk result (λ items. items ≡ spec.text_values (spec.words text.now)) }
{
    let mut items = Items::new(alloc);
    let mut word = String::new(alloc);
    for byte in text.as_bytes() {
        if is_blank(*byte) {
            push_word(alloc, &mut items, word.as_str())?;
            word.clear();
        } else {
            word.push(*byte as char)?;
        }
    }
    push_word(alloc, &mut items, word.as_str())?;
    Ok(items)
}

// ---- blanks at the ends

// How many blanks a text begins with.
fn blanks_before(text: &[u8]) -> usize
    ensures count { result ≡ prefix_len spec.is_blank text.now }
    ensures within { result ≤ length text.now }
{
    for (place, byte) in text.iter().enumerate() {
        if !is_blank(*byte) {
            return place;
        }
    }
    text.len()
}

// Where the blanks at the end of a text begin.
fn blanks_from(text: &[u8]) -> usize
    ensures place { take result text.now ≡ spec.without_end text.now }
    ensures within { result ≤ length text.now }
{
    let mut end = text.len();
    while 0 < end {
        if !is_blank(text[end - 1]) {
            return end;
        }
        end -= 1;
    }
    end
}

/// The bytes of a text without the blanks at its ends.
pub fn stripped_bytes(text: &[u8]) -> &[u8]
    ensures { result.now ≡ spec.stripped text.now }
{
    let rest = &text[blanks_before(text)..];
    &rest[..blanks_from(rest)]
}

/// An ASCII text without the blanks at its ends.
pub fn stripped(text: &str) -> &str
    requires { IsAscii text.now }
    ensures { result.now ≡ spec.stripped text.now }
{
    let rest = &text[blanks_before(text.as_bytes())..];
    &rest[..blanks_from(rest.as_bytes())]
}

// ---- tests of all bytes

/// Whether a byte is a decimal digit.
pub fn is_digit(byte: u8) -> bool
    ensures { result ≡ is_digit byte }
{
    48 <= byte && byte <= 57
}

/// Whether all bytes are decimal digits.
pub fn are_digits(text: &[u8]) -> bool
    ensures { result ≡ list_all is_digit text.now }
{
    for byte in text {
        if !is_digit(*byte) {
            return false;
        }
    }
    true
}
