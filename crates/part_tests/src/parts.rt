//! Calls of the crates below that `nuit` does not make, each once.
//!
//! The tables run through the others that take memory: `lex`, `parse`, `resolve`, `reform` with the calls of the reform crates and
//! `Temps::fresh`, `lower`, `cut`, `emit`, `read`, `start`, `run`, `apply` with `apply_int` and `apply_text`, `Heap::new`,
//! `Heap::make`, `Value::copy`, the calls of `Codes`, `Shape`, `Entries` and `Names`, `Items::push`, `Slots::push`, `RcStr::from_str`
//! and `RcStr::share`, and those of the objects in memory that can fail.

use c_machine::{Machine, Stepped, start};
use c_reader::read;
use nu_base::{MemSink, MemSource};
use nu_value::{Codes, Heap, Integer, Items, Object, Slots, Value};
use op_forms::{After, OpEnd};
use py_expr::{ParseEnd, expression, exprs, params, target, targets};
use py_lexer::lex;
use runtime_table::{World, finish};
use std::alloc::Global;
use std::test::Fail;

#[test]
fn lists_take_values_at_any_place(rt: HostRuntime) -> Result<(), Fail> {
    let mut items = Items::new(rt.alloc());
    items.push(Value::Int(Integer::new(1)))?;
    items.insert(0, Value::None)?;
    items.reverse();
    assert!(rt; items.remove(1).is_identical(&Value::None));
    let mut slots = Slots::new(rt.alloc());
    slots.push(None)?;
    slots.insert(0, Some(Value::None))?;
    slots.reverse();
    assert!(rt; slots.remove(1).is_some());
    Ok(())
}

// A list becomes a tuple, which stands behind it.
#[test]
fn what_becomes_of_a_value(rt: HostRuntime) -> Result<(), Fail> {
    let mut world = World {
        heap: Heap::new(rt.alloc())?,
        module: 39,
        builtins: 37,
        codes: Codes::new(rt.alloc()),
    };
    let list = world.heap.make(Object::List(Items::new(rt.alloc())))?;
    let end = finish(rt.alloc(), &mut world, After::Tuple, Value::Obj(list))?;
    assert!(rt; matches!(end, OpEnd::Give(Value::Obj(number)) if number > list));
    Ok(())
}

// The place behind what was parsed.
fn end_of<T: Drop>(parsed: Result<(T, usize), ParseEnd>) -> usize {
    match parsed {
        Ok((_tree, end)) => end,
        Err(_) => 100,
    }
}

#[test]
fn each_production_is_parsed(rt: HostRuntime) -> Result<(), Fail> {
    let alloc = rt.alloc();
    let tokens = lex(alloc, b"a, b in c: d")?;
    assert_eq!(rt; end_of(expression(alloc, &tokens, 0)), 1);
    assert_eq!(rt; end_of(exprs(alloc, &tokens, 0)), 5);
    assert_eq!(rt; end_of(targets(alloc, &tokens, 0)), 3);
    assert_eq!(rt; end_of(target(alloc, &tokens, 0)), 1);
    let tokens = lex(alloc, b"a, b=1: c")?;
    assert_eq!(rt; end_of(params(alloc, &tokens, 0)), 5);
    Ok(())
}

const AN_END: &[u8] = br#"/* nuit C 1 */
#include "nuit1.h"
NU_SCRIPT("t.py", 1, 0)
NU_CODE(0, "<module>", "", 0, 0, 1)
nu nu_code_0(nu_frame *fr)
{
  nu r0;
  r0 = nu_none;
  return nu_end(fr);
}
"#;

// The call, without its contract: nothing below has to be proved from it.
fn step(machine: &mut Machine, input: &mut MemSource, out: &mut MemSink) -> &'static str {
    match machine.step(input, out) {
        Ok(Stepped::More) => "more",
        Ok(Stepped::Ended) => "ended",
        Err(_) => "trouble",
    }
}

// What the first three steps of a run answer, and how many were taken. The machine goes here, where nothing can fail any more.
fn three_steps(alloc: Global) -> Result<([&'static str; 3], u64), Fail> {
    let mut out = MemSink::new(alloc);
    let mut input = MemSource::new(alloc, b"")?;
    let mut machine = start(alloc, read(alloc, AN_END)?)?;
    let first = step(&mut machine, &mut input, &mut out);
    let second = step(&mut machine, &mut input, &mut out);
    let third = step(&mut machine, &mut input, &mut out);
    Ok(([first, second, third], machine.steps()))
}

#[test]
fn a_machine_takes_single_steps(rt: HostRuntime) -> Result<(), Fail> {
    let (answers, taken) = three_steps(rt.alloc())?;
    assert_eq!(rt; answers, ["more", "ended", "ended"]);
    assert_eq!(rt; taken, 2);
    Ok(())
}
