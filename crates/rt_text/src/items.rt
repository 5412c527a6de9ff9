//! Characters of texts, slices, and parts of texts in texts.

ghost use Rattle.std.specs.Prelude.{◌≡◌, ◌+◌, ◌++◌, ◌<◌, ◌≤◌, pos, negsuc, IfOk, OnOk, codes, slice_get, string_bytes, encode_utf8, encode_utf8_all};
ghost use Rattle.std.specs.Str.{chars};
ghost use Rattle.nu_text.specs.Characters as lengths;
ghost use Rattle.nu_value.specs.declared.value.Value.TheVariants as value;
ghost use Rattle.nu_value.specs.Same.{number_of};
ghost use Rattle.op_forms.specs.Doing.{Did};
ghost use Rattle.op_rules.specs.Items as items;
ghost use Rattle.op_forms.specs.declared.end.OpEnd.TheVariants as opend;
ghost use Rattle.op_rules.specs.NameRows as names;
ghost use Rattle.std.specs.Option.{option_to_list};
ghost use Rattle.op_rules.specs.Slices as slices;
ghost use Rattle.op_rules.specs.TextAccess as spec;
ghost use Rattle.op_rules.specs.TextItems as texts;
ghost use Rattle.op_rules.specs.TextParts as parts;

use crate::parts::{char_text, first_char, first_cut};
use crate::rows::give_text;
use nu_text::RcStr;
use nu_value::{Heap, Object, Value, range_len};
use op_forms::OpEnd;
use op_rules::raised;
use std::alloc::{AllocError, Global};

const INDEX_ERROR: u64 = 28;

const TYPE_ERROR: u64 = 35;

const VALUE_ERROR: u64 = 36;

// ---- one character

// The character at a place, found by those before it.
fn char_after(text: &str, place: usize) -> Option<char>
    ensures { result ≡ slice_get (chars text.now) place }
{
    let mut rest = text;
    let mut left = place;
    'characters: while let Some((character, back)) = first_char(rest) {
        if left == 0 {
            return Some(character);
        }
        left -= 1;
        rest = back;
    }
    None
}

/// The character at a place of a text: at once where all are ASCII.
pub fn char_at(text: &RcStr, place: usize) -> Option<char>
    ensures { result ≡ slice_get (chars text.now) place }
{
    let bytes = text.as_str().as_bytes();
    if text.length() != bytes.len() {
        return char_after(text.as_str(), place);
    }
    match bytes.get(place) {
        Some(byte) => Some(*byte as char),
        None => None,
    }
}

// The place that an index means among so many: a negative one counts from the end.
fn place_in(count: usize, index: i128) -> Option<usize>
    ensures { result ≡ items.place_in count index }
{
    let place = if index < 0 {
        index + count as i128
    } else {
        index
    };
    if 0 <= place && place < count as i128 {
        Some(place as usize)
    } else {
        None
    }
}

/// The character at a place of a text, as a value.
pub fn text_item(alloc: Global, text: &RcStr, place: usize) -> Result<Option<Value>, AllocError>
    ensures { IfOk result (λ v. v ≡ texts.text_item text.now (pos place)) }
{
    match char_at(text, place) {
        Some(character) => Ok(Some(Value::Str(char_text(alloc, character)?))),
        None => Ok(None),
    }
}

fn out_of_range(alloc: Global) -> Result<OpEnd, AllocError>
    ensures { IfOk result (λ e. e ≡ items.out_of_range (codes "str")) }
{
    raised(alloc, INDEX_ERROR, "str index out of range")
}

fn item_at(alloc: Global, text: &RcStr, place: Option<usize>) -> Result<OpEnd, AllocError>
    ensures { IfOk result (λ e. e ≡ names.value_or (spec.item_at text.now place) (items.out_of_range (codes "str"))) }
{
    let Some(place) = place else {
        return out_of_range(alloc);
    };
    match char_at(text, place) {
        Some(character) => Ok(OpEnd::Give(Value::Str(char_text(alloc, character)?))),
        None => out_of_range(alloc),
    }
}

/// `text[index]`.
pub fn text_index(alloc: Global, text: &RcStr, index: &Value) -> Result<OpEnd, AllocError>
    ensures { IfOk result (λ e. e ≡ spec.text_index text.now (number_of index.now)) }
{
    match index.number() {
        None => raised(alloc, TYPE_ERROR, "str indices must be integers"),
        Some(index) => item_at(alloc, text, place_in(text.length(), index)),
    }
}

// ---- slices

fn is_bound(value: &Value) -> bool
    ensures { result ≡ slices.is_bound value.now }
{
    match value {
        Value::None | Value::Bool(_) | Value::Int(_) => true,
        _ => false,
    }
}

// A bound among so many: a negative one gets the length added, and it is cut to a range.
fn bound(count: usize, missing: i128, low: i128, high: i128, given: Option<i128>) -> i128
    ensures { result ≡ slices.bound count missing low high given }
{
    let Some(given) = given else {
        return missing;
    };
    let place = if given < 0 {
        given + count as i128
    } else {
        given
    };
    if place < low {
        low
    } else if high < place {
        high
    } else {
        place
    }
}

fn first_place(count: usize, step: i128, start: Option<i128>) -> i128
    ensures { result ≡ slices.first_place count step start }
{
    let all = count as i128;
    if 0 < step {
        bound(count, 0, 0, all, start)
    } else {
        bound(count, all - 1, -1, all - 1, start)
    }
}

fn end_place(count: usize, step: i128, stop: Option<i128>) -> i128
    ensures { result ≡ slices.end_place count step stop }
{
    let all = count as i128;
    if 0 < step {
        bound(count, all, 0, all, stop)
    } else {
        bound(count, -1, -1, all - 1, stop)
    }
}

// The character at a place, if there is one.
fn character_from(characters: &[char], place: i128) -> Option<char>
    ensures { result ≡ spec.character_from characters.now place }
{
    if place < 0 || characters.len() as i128 <= place {
        return None;
    }
    Some(characters[place as usize])
}

fn push_from(all: &mut String, characters: &[char], place: i128) -> Result<(), AllocError>
    ensures { OnOk result (string_bytes all.new ≡ string_bytes all.old ++ encode_utf8_all (option_to_list (spec.character_from characters.now place))) }
{
    match character_from(characters, place) {
        Some(character) => all.push(character),
        None => Ok(()),
    }
}

// So many characters, from a place on in steps.
#[tactic(auto, using(crate::proofs::Picked::picked_next, crate::proofs::Picked::picked_past))]
fn picked(
    alloc: Global,
    characters: &[char],
    first: i128,
    step: i128,
    count: u128,
) -> Result<String, AllocError>
    ensures { IfOk result (λ all. string_bytes all ≡ encode_utf8_all (spec.picked characters.now first step count)) }
{
    let mut all = String::new(alloc);
    let mut place = first;
    let mut left = count;
    while 0 < left {
        push_from(&mut all, characters, place)?;
        left -= 1;
        match place.checked_add(step) {
            Some(next) => place = next,
            None => return Ok(all),
        }
    }
    Ok(all)
}

fn characters_of(alloc: Global, text: &str) -> Result<Vec<char>, AllocError>
    ensures { IfOk result (λ all. all.items ≡ chars text.now) }
{
    text.chars().collect(alloc)
}

fn text_sliced(
    alloc: Global,
    text: &RcStr,
    start: Option<i128>,
    stop: Option<i128>,
    step: i128,
) -> Result<OpEnd, AllocError>
    ensures { IfOk result (λ e. e ≡ opend.Give (value.Str (spec.text_sliced text.now start stop step))) }
{
    let first = first_place(text.length(), step, start);
    let end = end_place(text.length(), step, stop);
    let characters = characters_of(alloc, text.as_str())?;
    let all = picked(
        alloc,
        characters.as_slice(),
        first,
        step,
        range_len(first, end, step),
    )?;
    give_text(alloc, all.as_str())
}

// A step that isn't given is 1.
fn step_of(given: Option<i128>) -> i128
    ensures { result ≡ slices.step_of given }
{
    match given {
        Some(step) => step,
        None => 1,
    }
}

/// `text[start:stop:step]`.
pub fn text_slice(
    alloc: Global,
    text: &RcStr,
    start: &Value,
    stop: &Value,
    step: &Value,
) -> Result<OpEnd, AllocError>
    ensures { IfOk result (λ e. e ≡ spec.text_slice text.now start.now stop.now step.now) }
{
    if !(is_bound(start) && is_bound(stop) && is_bound(step)) {
        return raised(alloc, TYPE_ERROR, "slice indices must be integers or None");
    }
    let step = step_of(step.number());
    if step == 0 {
        return raised(alloc, VALUE_ERROR, "slice step cannot be zero");
    }
    text_sliced(alloc, text, start.number(), stop.number(), step)
}

// ---- parts

fn stands_in(part: &str, text: &str) -> bool
    ensures { result ≡ spec.stands_in part.now text.now }
{
    if part.is_empty() {
        return true;
    }
    first_cut(text, part).is_some()
}

/// `part in text`.
pub fn in_text(alloc: Global, part: &Value, text: &str) -> Result<OpEnd, AllocError>
    ensures { IfOk result (λ e. e ≡ spec.in_text part.now text.now) }
{
    match part {
        Value::Str(part) => Ok(OpEnd::Give(Value::Bool(stands_in(part.as_str(), text)))),
        _ => raised(
            alloc,
            TYPE_ERROR,
            "'in <string>' requires string as left operand",
        ),
    }
}

// ---- iterators

/// `iter(text)`.
pub fn text_iterator(alloc: Global, heap: &mut Heap, text: &RcStr) -> Result<OpEnd, AllocError>
    ensures { IfOk result (λ e. Did (spec.text_iterator heap.old text.now) heap.old heap.new e) }
{
    let text = Value::Str(text.share()?);
    let number = heap.make(Object::iterator(alloc, text, 0)?)?;
    Ok(OpEnd::Give(Value::Obj(number)))
}
