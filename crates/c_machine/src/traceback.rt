//! The text of an exception that nothing caught.

ghost use Rattle.std.specs.Prelude.{◌≡◌, ◌++◌, IfOk, OnOk, codes, string_bytes, slice_get, decimal, drop};
ghost use Rattle.nu_calls.specs.Traceback as spec;
ghost use Rattle.c_machine.specs.Values.{text_at};

use nu_run::Text;
use nu_value::{Entries, Entry, Heap, Object};
use sqlite_items::Items;
use std::alloc::{AllocError, Global};
use std::fmt::Write;

fn push_number(text: &mut String, number: u32) -> Result<(), AllocError>
    ensures { OnOk result (string_bytes text.new ≡ string_bytes text.old ++ decimal number) }
{
    write!(text, "{number}")
}

// The line of an entry.
fn push_line(text: &mut String, file: &str, entry: &Entry) -> Result<(), AllocError>
    ensures { OnOk result (string_bytes text.new ≡ string_bytes text.old ++ spec.entry_text file.now entry.now) }
{
    text.push_str("  File \"")?;
    text.push_str(file)?;
    text.push_str("\", line ")?;
    push_number(text, entry.line)?;
    text.push_str(", in ")?;
    text.push_str(entry.scope.as_str())?;
    text.push_str("\n")
}

// The line of the entry at a place, if there is one.
#[tactic(auto, using(crate::proofs::Traces::entries_end))]
fn push_entry(
    text: &mut String,
    file: &str,
    entries: &Entries,
    place: usize,
) -> Result<(), AllocError>
    ensures { OnOk result (string_bytes text.new ≡ string_bytes text.old ++ text_at file.now (slice_get entries.now place)) }
{
    match entries.get(place) {
        Some(entry) => push_line(text, file, entry),
        None => Ok(()),
    }
}

fn push_entries(text: &mut String, file: &str, entries: &Entries) -> Result<(), AllocError>
    ensures { OnOk result (string_bytes text.new ≡ string_bytes text.old ++ spec.entries_text file.now entries.now) }
{
    for place in 0..entries.len() {
        push_entry(text, file, entries, place)?;
    }
    Ok(())
}

fn class_name(heap: &Heap, class: u64) -> &str
    ensures { result.now ≡ spec.name_of (slice_get heap.now class) }
{
    match heap.get(class) {
        Some(Object::Class { name, .. }) => name.as_str(),
        _ => "",
    }
}

/// All of a traceback but the exception's own text.
pub(crate) fn head_text(
    alloc: Global,
    file: &str,
    heap: &Heap,
    exception: u64,
) -> Result<Text, AllocError>
    ensures { IfOk result (λ text. text ≡ spec.head_text file.now heap.now exception) }
{
    let mut text = String::from_str(alloc, "Traceback (most recent call last):\n")?;
    if let Some(Object::Exception { class, entries, .. }) = heap.get(exception) {
        push_entries(&mut text, file, entries)?;
        text.push_str(class_name(heap, *class))?;
    }
    Items::from_slice(alloc, text.as_bytes())
}
