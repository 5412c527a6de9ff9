//! The methods of dicts, and `len`.

ghost use Rattle.std.specs.Prelude.{◌≡◌, [], ◌∷◌, IfOk, OnOk, slice_get, option_copied};
ghost use Rattle.nu_value.specs.Pairs.{with_pair};
ghost use Rattle.op_forms.specs.Doing.{Did};
ghost use Rattle.op_rules.specs.DictMethods as spec;
ghost use Rattle.op_rules.specs.Dicts.{dict_call};

use crate::changes::{clear_at, put_into, take_from};
use crate::keys::{key_error, key_or_end};
use crate::views::len_row;
use nu_run::StopKind;
use nu_value::{Atom, Heap, Items, Key, Names, Object, Pairs, Value, ViewKind};
use op_forms::{After, OpEnd};
use op_rules::ask;
use std::alloc::{AllocError, Global};

// What a key maps to, or else another value.
fn value_or(pairs: &Pairs, key: &Key, other: &Value) -> Result<OpEnd, AllocError>
    ensures { IfOk result (λ e. e ≡ spec.get_keyed pairs.now other.now (Ok key.now)) }
{
    match pairs.value_of(key) {
        Some(value) => Ok(OpEnd::Give(value.copy()?)),
        None => Ok(OpEnd::Give(other.copy()?)),
    }
}

fn get(
    alloc: Global,
    heap: &Heap,
    dict: u64,
    key: &Value,
    other: &Value,
) -> Result<OpEnd, AllocError>
    ensures { IfOk result (λ e. Did (spec.get heap.now key.now other.now (slice_get heap.now dict)) heap.now heap.now e) }
{
    let Some(Object::Dict(pairs)) = heap.get(dict) else {
        return Ok(OpEnd::Stop(StopKind::Unbuilt));
    };
    match key_or_end(alloc, heap, key)? {
        Ok(key) => value_or(pairs, &key, other),
        Err(end) => Ok(end),
    }
}

fn get_call(alloc: Global, heap: &Heap, dict: u64, args: &[Value]) -> Result<OpEnd, AllocError>
    ensures { IfOk result (λ e. Did (spec.get_call heap.now args.now (slice_get heap.now dict)) heap.now heap.now e) }
{
    match args {
        [key] => get(alloc, heap, dict, key, &Value::None),
        [key, other] => get(alloc, heap, dict, key, other),
        _ => Ok(OpEnd::Stop(StopKind::Unbuilt)),
    }
}

fn other_or(alloc: Global, key: &Value, other: Option<&Value>) -> Result<OpEnd, AllocError>
    ensures { IfOk result (λ e. e ≡ spec.other_or key.now (option_copied other.entry)) }
{
    match other {
        Some(value) => Ok(OpEnd::Give(value.copy()?)),
        None => key_error(alloc, key),
    }
}

fn pop(
    alloc: Global,
    heap: &mut Heap,
    dict: u64,
    key: &Value,
    other: Option<&Value>,
) -> Result<OpEnd, AllocError>
    ensures { IfOk result (λ e. Did (spec.pop heap.old dict key.now (option_copied other.entry) (slice_get heap.old dict)) heap.old heap.new e) }
{
    let Some(Object::Dict(pairs)) = heap.get(dict) else {
        return Ok(OpEnd::Stop(StopKind::Unbuilt));
    };
    let found = match key_or_end(alloc, heap, key)? {
        Ok(key) => pairs.find(&key),
        Err(end) => return Ok(end),
    };
    match found {
        Some(place) => Ok(OpEnd::Give(take_from(heap, dict, place))),
        None => other_or(alloc, key, other),
    }
}

fn pop_call(alloc: Global, heap: &mut Heap, dict: u64, args: &[Value]) -> Result<OpEnd, AllocError>
    ensures { IfOk result (λ e. Did (spec.pop_call heap.old dict args.now (slice_get heap.old dict)) heap.old heap.new e) }
{
    match args {
        [key] => pop(alloc, heap, dict, key, None),
        [key, other] => pop(alloc, heap, dict, key, Some(other)),
        _ => Ok(OpEnd::Stop(StopKind::Unbuilt)),
    }
}

fn put_default(
    heap: &mut Heap,
    dict: u64,
    key: Key,
    given: &Value,
    other: &Value,
) -> Result<OpEnd, AllocError>
    ensures { IfOk result (λ e. Did (spec.default_or dict key given.now other.now None) heap.old heap.new e) }
{
    put_into(heap, dict, key, given.copy()?, other.copy()?)?;
    Ok(OpEnd::Give(other.copy()?))
}

fn setdefault(
    alloc: Global,
    heap: &mut Heap,
    dict: u64,
    key: &Value,
    other: &Value,
) -> Result<OpEnd, AllocError>
    ensures { IfOk result (λ e. Did (spec.setdefault heap.old dict key.now other.now (slice_get heap.old dict)) heap.old heap.new e) }
{
    let Some(Object::Dict(pairs)) = heap.get(dict) else {
        return Ok(OpEnd::Stop(StopKind::Unbuilt));
    };
    let place = match key_or_end(alloc, heap, key)? {
        Ok(place) => place,
        Err(end) => return Ok(end),
    };
    match pairs.value_of(&place) {
        Some(value) => Ok(OpEnd::Give(value.copy()?)),
        None => put_default(heap, dict, place, key, other),
    }
}

fn setdefault_call(
    alloc: Global,
    heap: &mut Heap,
    dict: u64,
    args: &[Value],
) -> Result<OpEnd, AllocError>
    ensures { IfOk result (λ e. Did (spec.setdefault_call heap.old dict args.now (slice_get heap.old dict)) heap.old heap.new e) }
{
    match args {
        [key] => setdefault(alloc, heap, dict, key, &Value::None),
        [key, other] => setdefault(alloc, heap, dict, key, other),
        _ => Ok(OpEnd::Stop(StopKind::Unbuilt)),
    }
}

fn view(heap: &mut Heap, dict: u64, kind: ViewKind) -> Result<OpEnd, AllocError>
    ensures { IfOk result (λ e. Did (spec.view_call heap.old dict kind [] (slice_get heap.old dict)) heap.old heap.new e) }
{
    let Some(Object::Dict(_)) = heap.get(dict) else {
        return Ok(OpEnd::Stop(StopKind::Unbuilt));
    };
    let number = heap.make(Object::View { dict, kind })?;
    Ok(OpEnd::Give(Value::Obj(number)))
}

fn view_call(
    heap: &mut Heap,
    dict: u64,
    kind: ViewKind,
    args: &[Value],
) -> Result<OpEnd, AllocError>
    ensures { IfOk result (λ e. Did (spec.view_call heap.old dict kind args.now (slice_get heap.old dict)) heap.old heap.new e) }
{
    match args {
        [] => view(heap, dict, kind),
        _ => Ok(OpEnd::Stop(StopKind::Unbuilt)),
    }
}

fn clear(heap: &mut Heap, dict: u64) -> OpEnd
    ensures { Did (spec.clear_call dict [] (slice_get heap.old dict)) heap.old heap.new result }
{
    let Some(Object::Dict(_)) = heap.get(dict) else {
        return OpEnd::Stop(StopKind::Unbuilt);
    };
    clear_at(heap, dict);
    OpEnd::Give(Value::None)
}

fn clear_call(heap: &mut Heap, dict: u64, args: &[Value]) -> OpEnd
    ensures { Did (spec.clear_call dict args.now (slice_get heap.old dict)) heap.old heap.new result }
{
    match args {
        [] => clear(heap, dict),
        _ => OpEnd::Stop(StopKind::Unbuilt),
    }
}

fn copy_atom(atom: &Atom) -> Result<Atom, AllocError>
    ensures { IfOk result (λ a. a ≡ atom.now) }
{
    match atom {
        Atom::None => Ok(Atom::None),
        Atom::Int(number) => Ok(Atom::Int(*number)),
        Atom::Str(text) => Ok(Atom::Str(text.share()?)),
        Atom::Tuple(count) => Ok(Atom::Tuple(*count)),
        Atom::Range(count) => Ok(Atom::Range(*count)),
        Atom::Object(number) => Ok(Atom::Object(*number)),
    }
}

fn copy_atoms(alloc: Global, atoms: &[Atom]) -> Result<Key, AllocError>
    ensures { IfOk result (λ key. key ≡ atoms.now) }
{
    let mut list = Vec::new(alloc);
    for atom in atoms {
        list.push(copy_atom(atom)?)?;
    }
    Ok(Key::of(list))
}

// The same key once more.
fn copy_key(alloc: Global, key: &Key) -> Result<Key, AllocError>
    ensures { IfOk result (λ copy. copy ≡ key.now) }
{
    match key.as_slice() {
        [atom] => Ok(Key::one(copy_atom(atom)?)),
        atoms => copy_atoms(alloc, atoms),
    }
}

// Puts a pair once more.
fn put_copy(
    alloc: Global,
    pairs: &mut Pairs,
    key: &Key,
    given: &Value,
    value: &Value,
) -> Result<(), AllocError>
    ensures { OnOk result (pairs.new ≡ with_pair pairs.old key.now given.now value.now) }
{
    pairs.put(copy_key(alloc, key)?, given.copy()?, value.copy()?)
}

// Puts all pairs into a new dict.
fn copy_pairs(alloc: Global, pairs: &Pairs) -> Result<Pairs, AllocError>
    ensures { IfOk result (λ copy. copy ≡ spec.put_all [] pairs.now) }
{
    let mut all = Pairs::new(alloc);
    for place in 0..pairs.len() {
        let Some((key, given, value)) = pairs.at(place) else {
            return Ok(all);
        };
        put_copy(alloc, &mut all, key, given, value)?;
    }
    Ok(all)
}

fn copy(alloc: Global, heap: &mut Heap, dict: u64) -> Result<OpEnd, AllocError>
    ensures { IfOk result (λ e. Did (spec.copy_call heap.old [] (slice_get heap.old dict)) heap.old heap.new e) }
{
    let Some(Object::Dict(pairs)) = heap.get(dict) else {
        return Ok(OpEnd::Stop(StopKind::Unbuilt));
    };
    let pairs = copy_pairs(alloc, pairs)?;
    let number = heap.make(Object::Dict(pairs))?;
    Ok(OpEnd::Give(Value::Obj(number)))
}

fn copy_call(alloc: Global, heap: &mut Heap, dict: u64, args: &[Value]) -> Result<OpEnd, AllocError>
    ensures { IfOk result (λ e. Did (spec.copy_call heap.old args.now (slice_get heap.old dict)) heap.old heap.new e) }
{
    match args {
        [] => copy(alloc, heap, dict),
        _ => Ok(OpEnd::Stop(StopKind::Unbuilt)),
    }
}

fn changing_call(
    alloc: Global,
    heap: &mut Heap,
    name: &str,
    dict: u64,
    args: &[Value],
) -> Result<OpEnd, AllocError>
    ensures { IfOk result (λ e. Did (spec.changing_call heap.old name.now dict args.now (slice_get heap.old dict)) heap.old heap.new e) }
{
    if name == "pop" {
        pop_call(alloc, heap, dict, args)
    } else if name == "setdefault" {
        setdefault_call(alloc, heap, dict, args)
    } else if name == "clear" {
        Ok(clear_call(heap, dict, args))
    } else {
        Ok(OpEnd::Stop(StopKind::Unbuilt))
    }
}

fn viewing_call(
    alloc: Global,
    heap: &mut Heap,
    name: &str,
    dict: u64,
    args: &[Value],
) -> Result<OpEnd, AllocError>
    ensures { IfOk result (λ e. Did (spec.viewing_call heap.old name.now dict args.now (slice_get heap.old dict)) heap.old heap.new e) }
{
    if name == "keys" {
        view_call(heap, dict, ViewKind::Keys, args)
    } else if name == "values" {
        view_call(heap, dict, ViewKind::Values, args)
    } else if name == "items" {
        view_call(heap, dict, ViewKind::Both, args)
    } else {
        changing_call(alloc, heap, name, dict, args)
    }
}

fn plain_call(
    alloc: Global,
    heap: &mut Heap,
    name: &str,
    dict: u64,
    args: &[Value],
) -> Result<OpEnd, AllocError>
    ensures { IfOk result (λ e. Did (spec.plain_call heap.old name.now dict args.now (slice_get heap.old dict)) heap.old heap.new e) }
{
    if name == "get" {
        get_call(alloc, heap, dict, args)
    } else if name == "copy" {
        copy_call(alloc, heap, dict, args)
    } else {
        viewing_call(alloc, heap, name, dict, args)
    }
}

// A value in front of others.
fn with_first(alloc: Global, first: Value, rest: &[Value]) -> Result<Items, AllocError>
    ensures { IfOk result (λ items. items ≡ first ∷ rest.now) }
{
    let mut items = Items::new(alloc);
    items.push(first)?;
    for value in rest {
        items.push(value.copy()?)?;
    }
    Ok(items)
}

fn update_call(
    alloc: Global,
    heap: &Heap,
    dict: u64,
    args: &[Value],
    names: Names,
) -> Result<OpEnd, AllocError>
    ensures { IfOk result (λ e. Did (spec.update_call heap.now dict args.now names (slice_get heap.now dict)) heap.now heap.now e) }
{
    let Some(Object::Dict(_)) = heap.get(dict) else {
        return Ok(OpEnd::Stop(StopKind::Unbuilt));
    };
    let args = with_first(alloc, Value::Obj(dict), args)?;
    Ok(ask(heap, "_nu_update", args, names, After::Plain))
}

fn call_on(
    alloc: Global,
    heap: &mut Heap,
    name: &str,
    dict: u64,
    args: &[Value],
    names: Names,
) -> Result<OpEnd, AllocError>
    ensures { IfOk result (λ e. Did (spec.call_on heap.old name.now dict args.now names (slice_get heap.old dict)) heap.old heap.new e) }
{
    if name == "update" {
        return update_call(alloc, heap, dict, args, names);
    }
    match names.as_slice() {
        [] => plain_call(alloc, heap, name, dict, args),
        _ => Ok(OpEnd::Stop(StopKind::Unbuilt)),
    }
}

fn len_call(heap: &Heap, args: &[Value]) -> OpEnd
    ensures { Did (spec.len_call heap.now args.now) heap.now heap.now result }
{
    match args {
        [value] => len_row(heap, value),
        _ => OpEnd::Stop(StopKind::Unbuilt),
    }
}

fn native_call(heap: &Heap, name: &str, args: &[Value], names: &Names) -> OpEnd
    ensures { Did (spec.native_call heap.now name.now args.now names.now) heap.now heap.now result }
{
    if name != "len" {
        return OpEnd::Stop(StopKind::Unbuilt);
    }
    match names.as_slice() {
        [] => len_call(heap, args),
        _ => OpEnd::Stop(StopKind::Unbuilt),
    }
}

/// Calls a method of a dict, or `len` of a dict or a view where there is no receiver.
pub fn call_dict(
    alloc: Global,
    heap: &mut Heap,
    name: &str,
    receiver: &Value,
    args: &[Value],
    names: Names,
) -> Result<OpEnd, AllocError>
    ensures { IfOk result (λ e. Did (dict_call heap.old name.now receiver.now args.now names) heap.old heap.new e) }
{
    match receiver {
        Value::Obj(number) => call_on(alloc, heap, name, *number, args, names),
        Value::Unset => Ok(native_call(heap, name, args, &names)),
        _ => Ok(OpEnd::Stop(StopKind::Unbuilt)),
    }
}
