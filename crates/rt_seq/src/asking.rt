//! Functions of the built-in text that rows ask.

ghost use Rattle.std.specs.Prelude.{◌≡◌, IfOk};
ghost use Rattle.op_forms.specs.Doing.{ends};
ghost use Rattle.op_rules.specs.AskedValues as spec;
ghost use Rattle.op_rules.specs.Sequences as sequences;

use nu_value::{Heap, Items, Names, Value};
use op_forms::{After, OpEnd};
use op_rules::ask;
use std::alloc::{AllocError, Global};

/// The function of this name is asked with two values.
#[tactic(auto, unfolding(op_rules::specs::AskedValues::asks_two))]
pub fn ask_two(
    alloc: Global,
    heap: &Heap,
    name: &str,
    a: &Value,
    b: &Value,
) -> Result<OpEnd, AllocError>
    ensures { IfOk result (λ e. e ≡ spec.asks_two heap.now name.now a.now b.now) }
{
    let mut items = Items::new(alloc);
    items.push(a.copy()?)?;
    items.push(b.copy()?)?;
    Ok(ask(heap, name, items, Names::new(alloc), After::Plain))
}

/// The function of this name is asked with three values.
#[tactic(auto, unfolding(op_rules::specs::AskedValues::asks_three))]
pub fn ask_three(
    alloc: Global,
    heap: &Heap,
    name: &str,
    a: &Value,
    b: &Value,
    c: &Value,
) -> Result<OpEnd, AllocError>
    ensures { IfOk result (λ e. e ≡ spec.asks_three heap.now name.now a.now b.now c.now) }
{
    let mut items = Items::new(alloc);
    items.push(a.copy()?)?;
    items.push(b.copy()?)?;
    items.push(c.copy()?)?;
    Ok(ask(heap, name, items, Names::new(alloc), After::Plain))
}

/// The function of this name is asked with these values and keywords.
#[tactic(auto, unfolding(op_rules::specs::AskedValues::asks_all))]
pub fn ask_all(heap: &Heap, name: &str, args: Items, names: Names) -> OpEnd
    ensures { result ≡ spec.asks_all heap.now name.now args names }
{
    ask(heap, name, args, names, After::Plain)
}

/// `l.extend(x)`, or a display with `*x`.
pub fn extend_row(
    alloc: Global,
    heap: &Heap,
    list: &Value,
    value: &Value,
) -> Result<OpEnd, AllocError>
    ensures { IfOk result (λ e. sequences.extend_row heap.now list.now value.now ≡ ends e) }
{
    ask_two(alloc, heap, "_nu_extend", list, value)
}

/// So many items of a value.
pub fn unpack_row(
    alloc: Global,
    heap: &Heap,
    value: &Value,
    count: &Value,
) -> Result<OpEnd, AllocError>
    ensures { IfOk result (λ e. sequences.unpack_row heap.now value.now count.now ≡ ends e) }
{
    ask_two(alloc, heap, "_nu_unpack", value, count)
}

/// So many items of a value from the first on, so many up to the last, and those between.
pub fn unpackstar_row(
    alloc: Global,
    heap: &Heap,
    value: &Value,
    before: &Value,
    after: &Value,
) -> Result<OpEnd, AllocError>
    ensures { IfOk result (λ e. sequences.unpackstar_row heap.now value.now before.now after.now ≡ ends e) }
{
    ask_three(alloc, heap, "_nu_unpackstar", value, before, after)
}
