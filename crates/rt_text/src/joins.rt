//! Texts joined, with another between them.

ghost use Rattle.std.specs.Prelude.{◌≡◌, ◌+◌, ◌<◌, ◌≤◌, ◌^◌, ◌∷◌, [], IfOk, codes, nat_le, option_copied, string_bytes};
ghost use Rattle.std.specs.List.{list_all};
ghost use Rattle.nu_text.specs.Characters as lengths;
ghost use Rattle.nu_value.specs.Same.{object_of};
ghost use Rattle.nu_value.specs.View.{is_text};
ghost use Rattle.op_forms.specs.declared.end.After.TheVariants as behind;
ghost use Rattle.op_rules.specs.Asking as asking;
ghost use Rattle.op_rules.specs.TextMethods as spec;
ghost use Rattle.op_rules.specs.TextParts as parts;
ghost use Rattle.op_rules.specs.TextRows as limits;
ghost use Rattle.rt_text.specs.Sizes as sizes;

use crate::rows::{SIZE_LIMIT, give_text};
use nu_run::StopKind;
use nu_text::RcStr;
use nu_value::{Heap, Items, Names, Object, Value, object_of};
use op_forms::{After, OpEnd};
use op_rules::{ask, raised};
use std::alloc::{AllocError, Global};

const TYPE_ERROR: u64 = 35;

fn text_in(value: &Value) -> &str
    ensures { result.now ≡ parts.text_in value.now }
{
    match value {
        Value::Str(text) => text.as_str(),
        _ => "",
    }
}

fn length_in(value: &Value) -> usize
    ensures { result ≡ lengths.characters (parts.text_in value.now) }
{
    match value {
        Value::Str(text) => text.length(),
        _ => 0,
    }
}

// Texts, one after another, with another between them.
fn joined(alloc: Global, between: &str, texts: &[Value]) -> Result<String, AllocError>
    ensures { IfOk result (λ all. string_bytes all ≡ parts.joined between.now texts.now) }
{
    let [first, rest @ ..] = texts else {
        return Ok(String::new(alloc));
    };
    let mut all = String::from_str(alloc, text_in(first))?;
    for text in rest {
        all.push_str(between)?;
        all.push_str(text_in(text))?;
    }
    Ok(all)
}

// Whether so many characters, and those of more texts with so many before each, are no more than a text may have.
fn rest_fits(first: usize, between: usize, rest: &[Value]) -> bool
    ensures { result ≡ nat_le (first + sizes.rest_size between rest.now) limits.size_limit }
{
    let mut count = first as u128;
    for text in rest {
        if SIZE_LIMIT < count {
            return false;
        }
        count += between as u128 + length_in(text) as u128;
    }
    count <= SIZE_LIMIT
}

fn fits(between: usize, texts: &[Value]) -> bool
    ensures { result ≡ nat_le (sizes.joined_size between texts.now) limits.size_limit }
{
    match texts {
        [] => true,
        [first, rest @ ..] => rest_fits(length_in(first), between, rest),
    }
}

/// Texts joined, where they are no more than a text may have.
#[tactic(auto, using(crate::proofs::Sizes::joined_characters))]
pub fn sized_join(alloc: Global, between: &RcStr, texts: &[Value]) -> Result<OpEnd, AllocError>
    ensures { IfOk result (λ e. e ≡ spec.sized_text (parts.joined between.now texts.now)) }
{
    if !fits(between.length(), texts) {
        return Ok(OpEnd::Stop(StopKind::Size));
    }
    let all = joined(alloc, between.as_str(), texts)?;
    give_text(alloc, all.as_str())
}

fn are_texts(values: &[Value]) -> bool
    ensures { result ≡ list_all is_text values.now }
{
    for value in values {
        match value {
            Value::Str(_) => {}
            _ => return false,
        }
    }
    true
}

fn join_values(alloc: Global, text: &RcStr, values: &[Value]) -> Result<OpEnd, AllocError>
    ensures { IfOk result (λ e. e ≡ spec.joined_texts text.now values.now) }
{
    if are_texts(values) {
        sized_join(alloc, text, values)
    } else {
        raised(alloc, TYPE_ERROR, "sequence item: expected str instance")
    }
}

/// What joining comes to once a value is listed.
pub fn join_after(
    alloc: Global,
    heap: &Heap,
    text: &RcStr,
    value: &Value,
) -> Result<OpEnd, AllocError>
    ensures { IfOk result (λ e. e ≡ spec.join_after text.now (object_of heap.now value.now)) }
{
    match object_of(heap, value) {
        Some(Object::List(items)) => join_values(alloc, text, items.as_slice()),
        _ => Ok(OpEnd::Stop(StopKind::Unbuilt)),
    }
}

fn ask_list(alloc: Global, heap: &Heap, text: &RcStr, value: &Value) -> Result<OpEnd, AllocError>
    ensures { IfOk result (λ e. e ≡ asking.asks heap.now (codes "_nu_listof") (value.now ∷ []) [] (behind.Join text.now)) }
{
    let mut args = Items::new(alloc);
    args.push(value.copy()?)?;
    let text = text.share()?;
    Ok(ask(
        heap,
        "_nu_listof",
        args,
        Names::new(alloc),
        After::Join(text),
    ))
}

/// `text.join(value)`.
pub fn join_method(
    alloc: Global,
    heap: &Heap,
    text: &RcStr,
    value: &Value,
) -> Result<OpEnd, AllocError>
    ensures { IfOk result (λ e. e ≡ spec.join_method heap.now text.now value.now) }
{
    match object_of(heap, value) {
        Some(Object::List(items) | Object::Tuple(items)) => join_values(
            alloc,
            text,
            items.as_slice(),
        ),
        _ => ask_list(alloc, heap, text, value),
    }
}
