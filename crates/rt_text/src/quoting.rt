//! How `repr` shows texts, and values that are no texts and have no items.

ghost use Rattle.std.specs.Prelude.{◌≡◌, ◌∷◌, ◌++◌, ◌<◌, encode_utf8, IfOk, OnOk, nat_eq, option_copied, slice_get, string_bytes};
ghost use Rattle.std.specs.Char.{digit_char};
ghost use Rattle.std.specs.Fmt.{signed_decimal};
ghost use Rattle.std.specs.List.{list_any};
ghost use Rattle.op_rules.specs.Kinds as kinds;
ghost use Rattle.op_rules.specs.Quoting as spec;
ghost use Rattle.op_rules.specs.TextMethods as methods;
ghost use Rattle.rt_text.specs.Quoted as quotes;

use crate::parts::first_char;
use crate::rows::{SIZE_LIMIT, give_text};
use nu_run::StopKind;
use nu_text::characters;
use nu_value::{Codes, Header, Heap, Object, Value};
use op_forms::OpEnd;
use op_rules::class_name;
use std::alloc::{AllocError, Global};
use std::fmt::Write;

fn has_byte(text: &[u8], wanted: u8) -> bool
    ensures { result ≡ list_any (nat_eq wanted) text.now }
{
    for byte in text {
        if wanted == *byte {
            return true;
        }
    }
    false
}

fn mark_of(text: &[u8]) -> char
    ensures { result ≡ spec.mark_of text.now }
{
    if has_byte(text, b'\'') && !has_byte(text, b'"') {
        '"'
    } else {
        '\''
    }
}

fn hexadecimal_digit(number: u32) -> char
    requires { number < 16 }
    ensures { result ≡ digit_char number }
{
    if number < 10 {
        (b'0' + number as u8) as char
    } else {
        (b'W' + number as u8) as char
    }
}

// A control character as `\x` and two digits.
fn push_hexadecimal(all: &mut String, byte: u32) -> Result<(), AllocError>
    requires { byte < 128 }
    ensures { OnOk result (string_bytes all.new ≡ string_bytes all.old ++ spec.hexadecimal byte) }
{
    all.push_str("\\x")?;
    all.push(hexadecimal_digit(byte / 16))?;
    all.push(hexadecimal_digit(byte % 16))
}

fn push_escaped(all: &mut String, character: char) -> Result<(), AllocError>
    ensures { OnOk result (string_bytes all.new ≡ string_bytes all.old ++ 92 ∷ encode_utf8 character) }
{
    all.push('\\')?;
    all.push(character)
}

// A character as it stands in quotation marks.
#[tactic(auto, using(crate::proofs::Quotes::escaped_backslash, crate::proofs::Quotes::escaped_mark))]
fn push_quoted(all: &mut String, mark: char, character: char) -> Result<(), AllocError>
    requires { quotes.IsMark mark }
    ensures { OnOk result (string_bytes all.new ≡ string_bytes all.old ++ quotes.quoted_char mark character) }
{
    if character == '\\' {
        push_escaped(all, character)
    } else if character == mark {
        push_escaped(all, character)
    } else if character == '\n' {
        all.push_str("\\n")
    } else if character == '\r' {
        all.push_str("\\r")
    } else if character == '\t' {
        all.push_str("\\t")
    } else if character < ' ' || character == '\u{7f}' {
        push_hexadecimal(all, character as u32)
    } else {
        all.push(character)
    }
}

// A text between quotation marks.
fn quoted(alloc: Global, text: &str, mark: char) -> Result<String, AllocError>
    requires { quotes.IsMark mark }
    ensures { IfOk result (λ all. string_bytes all ≡ spec.quoted_by mark text.now) }
{
    let mut all = String::new(alloc);
    all.push(mark)?;
    let mut rest = text;
    'characters: while let Some((character, back)) = first_char(rest) {
        push_quoted(&mut all, mark, character)?;
        rest = back;
    }
    all.push(mark)?;
    Ok(all)
}

fn sized(alloc: Global, text: &str) -> Result<OpEnd, AllocError>
    ensures { IfOk result (λ e. e ≡ methods.sized_text text.now) }
{
    if characters(text.as_bytes()) as u128 <= SIZE_LIMIT {
        give_text(alloc, text)
    } else {
        Ok(OpEnd::Stop(StopKind::Size))
    }
}

/// `_nu_quote(value)`: a text between quotation marks.
pub fn quote_of(alloc: Global, value: &Value) -> Result<OpEnd, AllocError>
    ensures { IfOk result (λ e. e ≡ spec.quote_of value.now) }
{
    let Value::Str(text) = value else {
        return Ok(OpEnd::Stop(StopKind::Unbuilt));
    };
    let text = text.as_str();
    let all = quoted(alloc, text, mark_of(text.as_bytes()))?;
    sized(alloc, all.as_str())
}

// ---- other values

fn write_number(text: &mut String, number: i128) -> Result<(), AllocError>
    ensures { OnOk result (string_bytes text.new ≡ string_bytes text.old ++ signed_decimal number) }
{
    write!(text, "{number}")
}

fn give_decimal(alloc: Global, number: i128) -> Result<OpEnd, AllocError>
    ensures { IfOk result (λ e. e ≡ methods.give_text (signed_decimal number)) }
{
    let mut text = String::new(alloc);
    write_number(&mut text, number)?;
    give_text(alloc, text.as_str())
}

fn push_step(text: &mut String, step: i128) -> Result<(), AllocError>
    ensures { OnOk result (string_bytes text.new ≡ string_bytes text.old ++ spec.step_text step) }
{
    if step != 1 {
        text.push_str(", ")?;
        write_number(text, step)?;
    }
    text.push_str(")")
}

fn give_range(alloc: Global, start: i128, stop: i128, step: i128) -> Result<OpEnd, AllocError>
    ensures { IfOk result (λ e. e ≡ methods.give_text (spec.range_text start stop step)) }
{
    let mut text = String::from_str(alloc, "range(")?;
    write_number(&mut text, start)?;
    text.push_str(", ")?;
    write_number(&mut text, stop)?;
    push_step(&mut text, step)?;
    give_text(alloc, text.as_str())
}

// A name in front of which and behind which something stands.
fn give_between(alloc: Global, front: &str, name: &str, back: &str) -> Result<OpEnd, AllocError>
    ensures { IfOk result (λ e. e ≡ methods.give_text (front.now ++ name.now ++ back.now)) }
{
    let mut text = String::from_str(alloc, front)?;
    text.push_str(name)?;
    text.push_str(back)?;
    give_text(alloc, text.as_str())
}

fn give_scope(alloc: Global, kind: &str, header: Option<&Header>) -> Result<OpEnd, AllocError>
    ensures { IfOk result (λ e. e ≡ spec.shown_end (spec.scope_text kind.now (option_copied header.entry))) }
{
    match header {
        Some(header) => give_between(alloc, kind, header.scope.as_str(), ">"),
        None => Ok(OpEnd::Stop(StopKind::Unbuilt)),
    }
}

fn give_method(
    alloc: Global,
    codes: &Codes,
    heap: &Heap,
    function: u64,
) -> Result<OpEnd, AllocError>
    ensures { IfOk result (λ e. e ≡ spec.shown_end (spec.method_text codes.now (slice_get heap.now function))) }
{
    match heap.get(function) {
        Some(Object::Function { code, .. }) => give_scope(alloc, "<method ", codes.get(*code)),
        _ => Ok(OpEnd::Stop(StopKind::Unbuilt)),
    }
}

fn show_object(
    alloc: Global,
    codes: &Codes,
    heap: &Heap,
    object: Option<&Object>,
) -> Result<OpEnd, AllocError>
    ensures { IfOk result (λ e. e ≡ spec.shown_end (spec.object_text codes.now heap.now (option_copied object.entry))) }
{
    match object {
        Some(Object::Range { start, stop, step }) => give_range(
            alloc,
            start.get(),
            stop.get(),
            step.get(),
        ),
        Some(Object::Function { code, .. }) => give_scope(alloc, "<function ", codes.get(*code)),
        Some(Object::Method { function, .. }) => give_method(alloc, codes, heap, *function),
        Some(Object::Class { name, .. }) => give_between(alloc, "<class '", name.as_str(), "'>"),
        Some(Object::Instance { class, .. }) => give_between(
            alloc,
            "<",
            class_name(heap, *class),
            " object>",
        ),
        Some(Object::Generator { code, .. }) => give_scope(alloc, "<generator ", codes.get(*code)),
        Some(Object::Iterator { .. }) => give_text(alloc, "<iterator>"),
        Some(Object::Builtin { name, .. }) => give_between(alloc, "<built-in ", name.as_str(), ">"),
        Some(Object::Trace(_)) => give_text(alloc, "<traceback>"),
        _ => Ok(OpEnd::Stop(StopKind::Unbuilt)),
    }
}

fn show_of(alloc: Global, codes: &Codes, heap: &Heap, value: &Value) -> Result<OpEnd, AllocError>
    ensures { IfOk result (λ e. e ≡ spec.show_of codes.now heap.now value.now) }
{
    match value {
        Value::None => give_text(alloc, "None"),
        Value::Bool(true) => give_text(alloc, "True"),
        Value::Bool(false) => give_text(alloc, "False"),
        Value::Int(number) => give_decimal(alloc, number.get()),
        Value::Obj(number) => show_object(alloc, codes, heap, heap.get(*number)),
        Value::Unset | Value::Str(_) => Ok(OpEnd::Stop(StopKind::Unbuilt)),
    }
}

/// `_nu_text(value)`: the text of a value that is no text and has no items.
pub fn show_call(
    alloc: Global,
    codes: &Codes,
    heap: &Heap,
    args: &[Value],
) -> Result<OpEnd, AllocError>
    ensures { IfOk result (λ e. e ≡ spec.show_call codes.now heap.now args.now) }
{
    match args {
        [value] => show_of(alloc, codes, heap, value),
        _ => Ok(OpEnd::Stop(StopKind::Unbuilt)),
    }
}
