//! Calls of the methods of texts, and of natives on texts.

ghost use Rattle.std.specs.Prelude.{◌≡◌, IfOk, codes, pos, if◌then◌else◌};
ghost use Rattle.std.specs.Str.{bytes_eq};
ghost use Rattle.op_forms.specs.Answers.{unbuilt};
ghost use Rattle.op_forms.specs.Doing.{Did};
ghost use Rattle.op_rules.specs.Items as items;
ghost use Rattle.op_rules.specs.TextCalls as spec;
ghost use Rattle.op_rules.specs.TextMethods as methods;

use crate::methods::{give_number, text_method};
use crate::numerals::{chr_of, int_of, ord_of};
use crate::quoting::quote_of;
use nu_run::StopKind;
use nu_value::{Heap, Names, Value};
use op_forms::OpEnd;
use op_rules::{kind_name, raised};
use std::alloc::{AllocError, Global};

const TYPE_ERROR: u64 = 35;

fn no_len(alloc: Global, heap: &Heap, value: &Value) -> Result<OpEnd, AllocError>
    ensures { IfOk result (λ e. e ≡ items.no_len heap.now value.now) }
{
    let mut text = String::from_str(alloc, "object of type '")?;
    text.push_str(kind_name(heap, value))?;
    text.push_str("' has no len()")?;
    raised(alloc, TYPE_ERROR, text.as_str())
}

fn len_of(alloc: Global, heap: &Heap, value: &Value) -> Result<OpEnd, AllocError>
    ensures { IfOk result (λ e. e ≡ spec.len_of heap.now value.now) }
{
    match value {
        Value::Str(text) => Ok(give_number(text.length() as i128)),
        _ => no_len(alloc, heap, value),
    }
}

fn native_of_one(alloc: Global, heap: &Heap, name: &str, value: &Value) -> Result<OpEnd, AllocError>
    ensures { IfOk result (λ e. e ≡ spec.native_of_one heap.now name.now value.now) }
{
    if name == "len" {
        len_of(alloc, heap, value)
    } else if name == "int" {
        int_of(alloc, value)
    } else if name == "ord" {
        ord_of(alloc, value)
    } else if name == "chr" {
        chr_of(alloc, value)
    } else if name == "_nu_quote" {
        quote_of(alloc, value)
    } else {
        Ok(OpEnd::Stop(StopKind::Unbuilt))
    }
}

fn native_of_none(name: &str) -> OpEnd
    ensures { result ≡ (if bytes_eq name.now (codes "int") then methods.give_number (pos 0) else unbuilt) }
{
    if name == "int" {
        give_number(0)
    } else {
        OpEnd::Stop(StopKind::Unbuilt)
    }
}

fn text_native(alloc: Global, heap: &Heap, name: &str, args: &[Value]) -> Result<OpEnd, AllocError>
    ensures { IfOk result (λ e. e ≡ spec.text_native heap.now name.now args.now) }
{
    match args {
        [] => Ok(native_of_none(name)),
        [value] => native_of_one(alloc, heap, name, value),
        _ => Ok(OpEnd::Stop(StopKind::Unbuilt)),
    }
}

fn called_on(
    alloc: Global,
    heap: &mut Heap,
    name: &str,
    receiver: &Value,
    args: &[Value],
) -> Result<OpEnd, AllocError>
    ensures { IfOk result (λ e. Did (spec.called_on heap.old name.now receiver.now args.now) heap.old heap.new e) }
{
    match receiver {
        Value::Str(text) => text_method(alloc, heap, text, name, args),
        _ => text_native(alloc, heap, name, args),
    }
}

/// A built-in of this name, with its receiver or none, is called with arguments and keywords (Library Reference, "String
/// Methods", `int`, `len`, `ord`, `chr`).
pub fn call_text(
    alloc: Global,
    heap: &mut Heap,
    name: &str,
    receiver: &Value,
    args: &[Value],
    names: &Names,
) -> Result<OpEnd, AllocError>
    ensures { IfOk result (λ e. Did (spec.text_call heap.old name.now receiver.now args.now names.now) heap.old heap.new e) }
{
    match names.as_slice() {
        [] => called_on(alloc, heap, name, receiver, args),
        _ => Ok(OpEnd::Stop(StopKind::Unbuilt)),
    }
}
