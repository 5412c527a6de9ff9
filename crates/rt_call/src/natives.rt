//! Natives that no family of values has: `print` with one value, the length of what has none, and what the built-in text needs.

ghost use Rattle.std.specs.Prelude.{◌≡◌, ◌++◌, IfOk, OnOk, codes, string_bytes, option_copied};
ghost use Rattle.std.specs.Fmt.{signed_decimal};
ghost use Rattle.op_forms.specs.declared.end.OpEnd.TheVariants as opend;
ghost use Rattle.op_rules.specs.NativeCalls as spec;

use crate::objects::unbuilt;
use nu_text::RcStr;
use nu_value::{Heap, Names, Object, Value, object_of};
use op_forms::{How, OpEnd};
use op_rules::{kind_name, raised};
use rt_class::found_in;
use std::alloc::{AllocError, Global};
use std::fmt::Write;

const TYPE_ERROR: u64 = 35;

// A text and LF, printed in one piece.
fn print_line(alloc: Global, text: &str) -> Result<OpEnd, AllocError>
    ensures { IfOk result (λ e. e ≡ opend.Put (text.now ++ codes "\n")) }
{
    let mut line = String::from_str(alloc, text)?;
    line.push_str("\n")?;
    Ok(OpEnd::Put(RcStr::from_str(alloc, line.as_str())?))
}

fn write_number(line: &mut String, number: i128) -> Result<(), AllocError>
    ensures { OnOk result (string_bytes line.new ≡ string_bytes line.old ++ signed_decimal number) }
{
    write!(line, "{number}")
}

fn print_number(alloc: Global, number: i128) -> Result<OpEnd, AllocError>
    ensures { IfOk result (λ e. e ≡ opend.Put (signed_decimal number ++ codes "\n")) }
{
    let mut text = String::new(alloc);
    write_number(&mut text, number)?;
    print_line(alloc, text.as_str())
}

fn print_value(alloc: Global, value: &Value) -> Result<OpEnd, AllocError>
    ensures { IfOk result (λ e. e ≡ spec.printed (spec.text_of value.now)) }
{
    match value {
        Value::None => print_line(alloc, "None"),
        Value::Bool(true) => print_line(alloc, "True"),
        Value::Bool(false) => print_line(alloc, "False"),
        Value::Int(number) => print_number(alloc, number.get()),
        Value::Str(text) => print_line(alloc, text.as_str()),
        Value::Unset | Value::Obj(_) => unbuilt(),
    }
}

fn print_row(alloc: Global, args: &[Value]) -> Result<OpEnd, AllocError>
    ensures { IfOk result (λ e. e ≡ spec.print_row args.now) }
{
    match args {
        [value] => print_value(alloc, value),
        _ => unbuilt(),
    }
}

fn write_row(args: &[Value]) -> Result<OpEnd, AllocError>
    ensures { IfOk result (λ e. e ≡ spec.write_row args.now) }
{
    match args {
        [Value::Str(text)] => {
            if text.as_str().is_empty() {
                Ok(OpEnd::Give(Value::None))
            } else {
                Ok(OpEnd::Put(text.share()?))
            }
        }
        _ => unbuilt(),
    }
}

fn line_row(args: &[Value]) -> Result<OpEnd, AllocError>
    ensures { IfOk result (λ e. e ≡ spec.line_row args.now) }
{
    match args {
        [] => Ok(OpEnd::Line),
        _ => unbuilt(),
    }
}

fn is_nextable(heap: &Heap, object: Option<&Object>) -> bool
    ensures { result ≡ spec.is_nextable heap.now (option_copied object.entry) }
{
    match object {
        Some(Object::Generator { .. } | Object::Iterator { .. }) => true,
        Some(Object::Instance { class, .. }) => found_in(heap, *class, "__next__").is_some(),
        _ => false,
    }
}

fn nextable_row(heap: &Heap, args: &[Value]) -> Result<OpEnd, AllocError>
    ensures { IfOk result (λ e. e ≡ spec.nextable_row heap.now args.now) }
{
    match args {
        [value] => Ok(OpEnd::Give(Value::Bool(is_nextable(heap, object_of(heap, value))))),
        _ => unbuilt(),
    }
}

fn resume_row(heap: &Heap, args: &[Value]) -> Result<OpEnd, AllocError>
    ensures { IfOk result (λ e. e ≡ spec.resume_row heap.now args.now) }
{
    let [Value::Obj(generator), Value::Obj(exception)] = args else {
        return unbuilt();
    };
    match (heap.get(*generator), heap.get(*exception)) {
        (Some(Object::Generator { .. }), Some(Object::Exception { .. })) => Ok(OpEnd::Resume(
            *generator,
            How::Throw(*exception),
        )),
        _ => unbuilt(),
    }
}

fn getattr_row(alloc: Global, args: &[Value]) -> Result<OpEnd, AllocError>
    ensures { IfOk result (λ e. e ≡ spec.getattr_row args.now) }
{
    match args {
        [_value, _name] => raised(alloc, TYPE_ERROR, "attribute name must be string"),
        _ => unbuilt(),
    }
}

fn length_row(alloc: Global, heap: &Heap, args: &[Value]) -> Result<OpEnd, AllocError>
    ensures { IfOk result (λ e. e ≡ spec.length_row heap.now args.now) }
{
    let [value] = args else {
        return unbuilt();
    };
    let mut text = String::from_str(alloc, "object of type '")?;
    text.push_str(kind_name(heap, value))?;
    text.push_str("' has no len()")?;
    raised(alloc, TYPE_ERROR, text.as_str())
}

fn native_end(alloc: Global, heap: &Heap, name: &str, args: &[Value]) -> Result<OpEnd, AllocError>
    ensures { IfOk result (λ e. e ≡ spec.native_end heap.now name.now args.now) }
{
    if name == "print" {
        print_row(alloc, args)
    } else if name == "len" {
        length_row(alloc, heap, args)
    } else if name == "_nu_write" {
        write_row(args)
    } else if name == "_nu_line" {
        line_row(args)
    } else if name == "_nu_getattr" {
        getattr_row(alloc, args)
    } else if name == "_nu_nextable" {
        nextable_row(heap, args)
    } else if name == "_nu_resume" {
        resume_row(heap, args)
    } else {
        unbuilt()
    }
}

/// A native of this name is called. It takes no keywords.
pub fn native_called(
    alloc: Global,
    heap: &Heap,
    name: &str,
    args: &[Value],
    names: &Names,
) -> Result<OpEnd, AllocError>
    ensures { IfOk result (λ e. e ≡ spec.native_called heap.now name.now args.now names.now) }
{
    if names.as_slice().is_empty() {
        native_end(alloc, heap, name, args)
    } else {
        unbuilt()
    }
}
