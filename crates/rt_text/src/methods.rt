//! The methods of texts.

ghost use Rattle.std.specs.Prelude.{◌≡◌, ◌-◌, ◌∷◌, [], IfOk, Ok, length, pos};
ghost use Rattle.nu_run.specs.declared.StopKind.TheVariants as stop;
ghost use Rattle.nu_value.specs.Same.{object_of};
ghost use Rattle.op_forms.specs.declared.end.OpEnd.TheVariants as opend;
ghost use Rattle.op_forms.specs.Doing.{Did};
ghost use Rattle.op_rules.specs.TextMethods as spec;
ghost use Rattle.op_rules.specs.TextParts as parts;

use crate::joins::{join_method, sized_join};
use crate::parts::{are_digits, count_cuts, first_cut, is_ascii, pieces, stripped, words};
use crate::rows::give_text;
use nu_run::StopKind;
use nu_text::{RcStr, characters};
use nu_value::{Heap, Integer, Items, Object, Value, object_of};
use op_forms::OpEnd;
use op_rules::raised;
use std::alloc::{AllocError, Global};

const TYPE_ERROR: u64 = 35;

const VALUE_ERROR: u64 = 36;

/// The most items of a list.
const MOST_ITEMS: usize = 16_777_216;

/// The error of an argument of another kind than a method or a native of this name takes.
pub fn bad_argument(alloc: Global, name: &str) -> Result<OpEnd, AllocError>
    ensures { IfOk result (λ e. e ≡ spec.bad_argument name.now) }
{
    let mut text = String::from_str(alloc, "bad argument for ")?;
    text.push_str(name)?;
    raised(alloc, TYPE_ERROR, text.as_str())
}

/// A number is given.
pub fn give_number(number: i128) -> OpEnd
    ensures { result ≡ spec.give_number number }
{
    OpEnd::Give(Value::Int(Integer::new(number)))
}

fn unbuilt() -> Result<OpEnd, AllocError>
    ensures { result ≡ Ok (opend.Stop stop.Unbuilt) }
{
    Ok(OpEnd::Stop(StopKind::Unbuilt))
}

// ---- `split`

fn text_list(heap: &mut Heap, texts: Items) -> Result<OpEnd, AllocError>
    ensures { IfOk result (λ e. Did (spec.text_list heap.old texts) heap.old heap.new e) }
{
    if texts.len() <= MOST_ITEMS {
        let number = heap.make(Object::List(texts))?;
        Ok(OpEnd::Give(Value::Obj(number)))
    } else {
        Ok(OpEnd::Stop(StopKind::Size))
    }
}

fn split_words(alloc: Global, heap: &mut Heap, text: &str) -> Result<OpEnd, AllocError>
    ensures { IfOk result (λ e. Did (spec.split_words heap.old text.now) heap.old heap.new e) }
{
    if is_ascii(text) {
        text_list(heap, words(alloc, text)?)
    } else {
        unbuilt()
    }
}

fn split_at(alloc: Global, heap: &mut Heap, text: &str, part: &str) -> Result<OpEnd, AllocError>
    ensures { IfOk result (λ e. Did (spec.split_at heap.old text.now part.now) heap.old heap.new e) }
{
    if part.is_empty() {
        raised(alloc, VALUE_ERROR, "empty separator")
    } else {
        text_list(heap, pieces(alloc, text, part)?)
    }
}

fn split_by(alloc: Global, heap: &mut Heap, text: &str, value: &Value) -> Result<OpEnd, AllocError>
    ensures { IfOk result (λ e. Did (spec.split_by heap.old text.now value.now) heap.old heap.new e) }
{
    match value {
        Value::None => split_words(alloc, heap, text),
        Value::Str(part) => split_at(alloc, heap, text, part.as_str()),
        _ => bad_argument(alloc, "split"),
    }
}

// ---- what stands in a text

fn no_affix(alloc: Global, heap: &Heap, name: &str, value: &Value) -> Result<OpEnd, AllocError>
    ensures { IfOk result (λ e. e ≡ spec.no_affix name.now (object_of heap.now value.now)) }
{
    match object_of(heap, value) {
        Some(Object::Tuple(_)) => unbuilt(),
        _ => bad_argument(alloc, name),
    }
}

fn starts_with(text: &str, part: &str) -> OpEnd
    ensures { result ≡ spec.startswith_text text.now part.now }
{
    OpEnd::Give(Value::Bool(text.starts_with(part)))
}

fn ends_with(text: &str, part: &str) -> OpEnd
    ensures { result ≡ spec.endswith_text text.now part.now }
{
    OpEnd::Give(Value::Bool(text.ends_with(part)))
}

fn startswith_method(
    alloc: Global,
    heap: &Heap,
    text: &str,
    name: &str,
    value: &Value,
) -> Result<OpEnd, AllocError>
    ensures { IfOk result (λ e. e ≡ spec.with_affix heap.now (spec.startswith_text text.now) name.now value.now) }
{
    match value {
        Value::Str(part) => Ok(starts_with(text, part.as_str())),
        _ => no_affix(alloc, heap, name, value),
    }
}

fn endswith_method(
    alloc: Global,
    heap: &Heap,
    text: &str,
    name: &str,
    value: &Value,
) -> Result<OpEnd, AllocError>
    ensures { IfOk result (λ e. e ≡ spec.with_affix heap.now (spec.endswith_text text.now) name.now value.now) }
{
    match value {
        Value::Str(part) => Ok(ends_with(text, part.as_str())),
        _ => no_affix(alloc, heap, name, value),
    }
}

// How many characters stand before the first place of a part, or -1.
fn found_at(text: &str, part: &str) -> i128
    ensures { result ≡ spec.found_at (parts.pieces part.now text.now) }
{
    if part.is_empty() {
        return 0;
    }
    match first_cut(text, part) {
        Some((front, _)) => characters(front.as_bytes()) as i128,
        None => -1,
    }
}

fn find_method(alloc: Global, text: &str, name: &str, value: &Value) -> Result<OpEnd, AllocError>
    ensures { IfOk result (λ e. e ≡ spec.with_text (spec.find_text text.now) name.now value.now) }
{
    match value {
        Value::Str(part) => Ok(give_number(found_at(text, part.as_str()))),
        _ => bad_argument(alloc, name),
    }
}

fn part_count(text: &RcStr, part: &str) -> i128
    ensures { result ≡ pos (length (parts.pieces part.now text.now) - 1) }
{
    let all = text.as_str();
    if part.is_empty() {
        text.length() as i128 + 1
    } else {
        count_cuts(all, part) as i128
    }
}

fn count_method(alloc: Global, text: &RcStr, name: &str, value: &Value) -> Result<OpEnd, AllocError>
    ensures { IfOk result (λ e. e ≡ spec.with_text (spec.count_text text.now) name.now value.now) }
{
    match value {
        Value::Str(part) => Ok(give_number(part_count(text, part.as_str()))),
        _ => bad_argument(alloc, name),
    }
}

// ---- `replace`

fn replace_part(alloc: Global, text: &str, part: &str, other: &RcStr) -> Result<OpEnd, AllocError>
    ensures { IfOk result (λ e. e ≡ spec.sized_text (spec.replaced part.now other.now text.now)) }
{
    let texts = pieces(alloc, text, part)?;
    sized_join(alloc, other, texts.as_slice())
}

fn replace_method(alloc: Global, text: &str, a: &Value, b: &Value) -> Result<OpEnd, AllocError>
    ensures { IfOk result (λ e. e ≡ spec.replace_texts text.now a.now b.now) }
{
    match (a, b) {
        (Value::Str(part), Value::Str(other)) => replace_part(alloc, text, part.as_str(), other),
        _ => bad_argument(alloc, "replace"),
    }
}

// ---- on ASCII texts

fn strip_text(alloc: Global, text: &str) -> Result<OpEnd, AllocError>
    ensures { IfOk result (λ e. e ≡ spec.strip_text text.now) }
{
    if is_ascii(text) {
        give_text(alloc, stripped(text))
    } else {
        unbuilt()
    }
}

fn upper_text(alloc: Global, text: &str) -> Result<OpEnd, AllocError>
    ensures { IfOk result (λ e. e ≡ spec.upper_text text.now) }
{
    if !is_ascii(text) {
        return unbuilt();
    }
    let mut all = String::from_str(alloc, text)?;
    all.make_ascii_uppercase();
    give_text(alloc, all.as_str())
}

fn lower_text(alloc: Global, text: &str) -> Result<OpEnd, AllocError>
    ensures { IfOk result (λ e. e ≡ spec.lower_text text.now) }
{
    if !is_ascii(text) {
        return unbuilt();
    }
    let mut all = String::from_str(alloc, text)?;
    all.make_ascii_lowercase();
    give_text(alloc, all.as_str())
}

fn isdigit_text(text: &str) -> Result<OpEnd, AllocError>
    ensures { IfOk result (λ e. e ≡ spec.isdigit_text text.now) }
{
    if is_ascii(text) {
        let truth = !text.is_empty() && are_digits(text.as_bytes());
        Ok(OpEnd::Give(Value::Bool(truth)))
    } else {
        unbuilt()
    }
}

// ---- by their names, and how many arguments they have

fn method_of_none(alloc: Global, text: &str, name: &str) -> Result<OpEnd, AllocError>
    ensures { IfOk result (λ e. e ≡ spec.method_of_none text.now name.now) }
{
    if name == "strip" {
        strip_text(alloc, text)
    } else if name == "upper" {
        upper_text(alloc, text)
    } else if name == "lower" {
        lower_text(alloc, text)
    } else if name == "isdigit" {
        isdigit_text(text)
    } else {
        unbuilt()
    }
}

fn method_of_one(
    alloc: Global,
    heap: &Heap,
    text: &RcStr,
    name: &str,
    value: &Value,
) -> Result<OpEnd, AllocError>
    ensures { IfOk result (λ e. e ≡ spec.method_of_one heap.now text.now name.now value.now) }
{
    if name == "join" {
        join_method(alloc, heap, text, value)
    } else if name == "startswith" {
        startswith_method(alloc, heap, text.as_str(), name, value)
    } else if name == "endswith" {
        endswith_method(alloc, heap, text.as_str(), name, value)
    } else if name == "find" {
        find_method(alloc, text.as_str(), name, value)
    } else if name == "count" {
        count_method(alloc, text, name, value)
    } else {
        unbuilt()
    }
}

fn method_of_two(
    alloc: Global,
    text: &str,
    name: &str,
    a: &Value,
    b: &Value,
) -> Result<OpEnd, AllocError>
    ensures { IfOk result (λ e. e ≡ spec.method_of_two text.now name.now a.now b.now) }
{
    if name == "replace" {
        replace_method(alloc, text, a, b)
    } else {
        unbuilt()
    }
}

fn call_none(alloc: Global, heap: &mut Heap, text: &str, name: &str) -> Result<OpEnd, AllocError>
    ensures { IfOk result (λ e. Did (spec.text_method heap.old text.now name.now []) heap.old heap.new e) }
{
    if name == "split" {
        split_words(alloc, heap, text)
    } else {
        method_of_none(alloc, text, name)
    }
}

fn call_one(
    alloc: Global,
    heap: &mut Heap,
    text: &RcStr,
    name: &str,
    value: &Value,
) -> Result<OpEnd, AllocError>
    ensures { IfOk result (λ e. Did (spec.text_method heap.old text.now name.now (value.now ∷ [])) heap.old heap.new e) }
{
    if name == "split" {
        split_by(alloc, heap, text.as_str(), value)
    } else {
        method_of_one(alloc, heap, text, name, value)
    }
}

/// The method of this name on a text.
pub fn text_method(
    alloc: Global,
    heap: &mut Heap,
    text: &RcStr,
    name: &str,
    args: &[Value],
) -> Result<OpEnd, AllocError>
    ensures { IfOk result (λ e. Did (spec.text_method heap.old text.now name.now args.now) heap.old heap.new e) }
{
    match args {
        [] => call_none(alloc, heap, text.as_str(), name),
        [value] => call_one(alloc, heap, text, name, value),
        [a, b] => method_of_two(alloc, text.as_str(), name, a, b),
        _ => unbuilt(),
    }
}
