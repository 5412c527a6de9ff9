//! The keys of values.

ghost use Rattle.std.specs.Prelude.{◌≡◌, ◌∷◌, [], ◌++◌, ◌<◌, Ok, IfOk, IfErr, OnOk, Some, None, length, option_copied, pos, ◌+ℤ◌, ◌-ℤ◌, FitsSigned};
ghost use mir.Syntax.{w128};
ghost use Rattle.nu_value.specs.Ranges.{range_count};
ghost use Rattle.nu_value.specs.declared.key.Atom.TheVariants as atom;
ghost use Rattle.nu_value.specs.Keyed as spec;
ghost use Rattle.nu_value.specs.Seen.{seen};
ghost use Rattle.nu_value.specs.Laws.{KeysFollowEquality};

use crate::heap::Heap;
use crate::key::{Atom, Key};
use crate::object::Object;
use crate::ranges::range_len;
use crate::sequence::Items;
use crate::value::Value;
use std::alloc::{AllocError, Global};

/// Why a value has no key.
#[derive(Clone, Copy)]
pub enum KeyEnd {
    /// It's a list or a dict.
    Unhashable,
    /// The profile leaves it out as a key.
    Unbuilt,
    /// A tuple lies at depth 1,001.
    Depth,
    /// Memory is wanting.
    Memory,
}

impl From<AllocError> for KeyEnd {
    ghost use Rattle.std.specs.Prelude.{◌≡◌};
    ghost use Rattle.nu_value.specs.declared.keyed.KeyEnd.TheVariants as end;

    ghost from_gives = { λ _ e. e ≡ end.Memory };

    fn from(_: AllocError) -> KeyEnd {
        KeyEnd::Memory
    }
}

/// What a value is as a key.
#[derive(Drop)]
enum Kind<'a> {
    One(Atom),
    Many(&'a Items),
    Numbers(i128, i128, i128),
    Never(KeyEnd),
}

fn object_kind<'a>(number: u64, object: Option<&'a Object>) -> Kind<'a>
    ensures { seen result ≡ spec.object_kind number (option_copied object.entry) }
{
    match object {
        Some(Object::Tuple(items)) => Kind::Many(items),
        Some(Object::Range { start, stop, step }) => {
            Kind::Numbers(start.get(), stop.get(), step.get())
        },
        Some(Object::List(_) | Object::Dict(_)) => Kind::Never(KeyEnd::Unhashable),
        Some(Object::Method { .. } | Object::View { .. }) => Kind::Never(KeyEnd::Unbuilt),
        Some(Object::Builtin { receiver, .. }) if receiver.is_set() => {
            Kind::Never(KeyEnd::Unbuilt)
        }
        _ => Kind::One(Atom::Object(number)),
    }
}

fn kind_of<'a>(heap: &'a Heap, value: &Value) -> Result<Kind<'a>, AllocError>
    ensures { IfOk result (λ kind. seen kind ≡ spec.kind_of heap.now value.now) }
{
    match value {
        Value::Unset => Ok(Kind::Never(KeyEnd::Unbuilt)),
        Value::None => Ok(Kind::One(Atom::None)),
        Value::Bool(true) => Ok(Kind::One(Atom::Int(1))),
        Value::Bool(false) => Ok(Kind::One(Atom::Int(0))),
        Value::Int(number) => Ok(Kind::One(Atom::Int(number.get()))),
        Value::Str(text) => Ok(Kind::One(Atom::Str(text.share()?))),
        Value::Obj(number) => Ok(object_kind(*number, heap.get(*number))),
    }
}

/// So far up from a number.
fn above(start: i128, offset: u128) -> i128
    requires { FitsSigned w128 (start +ℤ pos offset) }
    ensures { result ≡ start +ℤ pos offset }
{
    start.checked_add_unsigned(offset).unwrap()
}

/// So far down from a number.
fn under(start: i128, offset: u128) -> i128
    requires { FitsSigned w128 (start -ℤ pos offset) }
    ensures { result ≡ start -ℤ pos offset }
{
    start.checked_sub_unsigned(offset).unwrap()
}

/// The last number of a range that gives one.
fn last_number(start: i128, stop: i128, step: i128) -> i128
    requires { 0 < range_count start stop step }
    ensures { result ≡ spec.last_number start step (range_count start stop step) }
{
    let offset = (range_len(start, stop, step) - 1) * step.unsigned_abs();
    if 0 < step {
        above(start, offset)
    } else {
        under(start, offset)
    }
}

fn push_atom(atoms: &mut Vec<Atom>, atom: Atom) -> Result<(), AllocError>
    ensures { OnOk result (atoms.new.items ≡ atoms.old.items ++ atom ∷ []) }
{
    atoms.push(atom)?;
    Ok(())
}

fn push_two(atoms: &mut Vec<Atom>, first: Atom, second: Atom) -> Result<(), AllocError>
    ensures { OnOk result (atoms.new.items ≡ atoms.old.items ++ first ∷ second ∷ []) }
{
    push_atom(atoms, first)?;
    push_atom(atoms, second)
}

/// Adds what tells apart a range that gives two numbers or more.
fn push_numbers(
    atoms: &mut Vec<Atom>,
    start: i128,
    step: i128,
    last: i128,
) -> Result<(), AllocError>
    ensures { OnOk result (atoms.new.items ≡ atoms.old.items ++ atom.Range 3 ∷ atom.Int start ∷ atom.Int step ∷ atom.Int last ∷ []) }
{
    push_two(atoms, Atom::Range(3), Atom::Int(start))?;
    push_two(atoms, Atom::Int(step), Atom::Int(last))
}

/// Adds what tells apart a range.
fn push_range(atoms: &mut Vec<Atom>, start: i128, stop: i128, step: i128) -> Result<(), AllocError>
    ensures { OnOk result (atoms.new.items ≡ atoms.old.items ++ spec.range_atoms (range_count start stop step) start step) }
{
    let len = range_len(start, stop, step);
    if len == 0 {
        push_atom(atoms, Atom::Range(0))
    } else if len == 1 {
        push_two(atoms, Atom::Range(1), Atom::Int(start))
    } else {
        push_numbers(atoms, start, step, last_number(start, stop, step))
    }
}

/// Adds the key of a value, in which tuples may be looked into so deep.
#[cycle(keys)]
fn push_key(room: u32, heap: &Heap, value: &Value, atoms: &mut Vec<Atom>) -> Result<(), KeyEnd>
    ensures ok { OnOk result (Ok atoms.new.items ≡ spec.behind atoms.old.items (spec.key_at room heap.now value.now)) }
    ensures err { IfErr result (λ e. spec.IsAnswer e (spec.key_at room heap.now value.now)) }
{
    match kind_of(heap, value)? {
        Kind::One(atom) => {
            push_atom(atoms, atom)?;
            Ok(())
        }
        Kind::Many(items) => push_tuple(room, heap, items, atoms),
        Kind::Numbers(start, stop, step) => {
            push_range(atoms, start, stop, step)?;
            Ok(())
        }
        Kind::Never(end) => Err(end),
    }
}

#[cycle(keys)]
fn push_tuple(room: u32, heap: &Heap, items: &Items, atoms: &mut Vec<Atom>) -> Result<(), KeyEnd>
    ensures ok { OnOk result (Ok atoms.new.items ≡ spec.behind atoms.old.items (spec.tuple_key room heap.now items.now)) }
    ensures err { IfErr result (λ e. spec.IsAnswer e (spec.tuple_key room heap.now items.now)) }
{
    if room == 0 {
        return Err(KeyEnd::Depth);
    }
    push_atom(atoms, Atom::Tuple(items.len() as u64))?;
    push_items(room - 1, heap, items, atoms)
}

#[cycle(keys)]
fn push_items(room: u32, heap: &Heap, items: &Items, atoms: &mut Vec<Atom>) -> Result<(), KeyEnd>
    ensures ok { OnOk result (Ok atoms.new.items ≡ spec.behind atoms.old.items (spec.keys_of (spec.key_at room heap.now) items.now)) }
    ensures err { IfErr result (λ e. spec.IsAnswer e (spec.keys_of (spec.key_at room heap.now) items.now)) }
{
    for place in 0..items.len() {
        let Some(item) = items.get(place) else {
            return Ok(());
        };
        match push_key(room, heap, item, atoms) {
            Ok(()) => {}
            Err(end) => return Err(end),
        }
    }
    Ok(())
}

/// The key of a value: what makes it and another one key of a dict.
pub fn key_of(alloc: Global, heap: &Heap, value: &Value) -> Result<Key, KeyEnd>
    ensures ok { IfOk result (λ k. spec.key heap.now value.now ≡ Ok k) }
    ensures err { IfErr result (λ e. spec.IsAnswer e (spec.key heap.now value.now)) }
{
    match kind_of(heap, value)? {
        Kind::One(atom) => Ok(Key::one(atom)),
        Kind::Many(items) => {
            let mut atoms = Vec::new(alloc);
            push_tuple(1000, heap, items, &mut atoms)?;
            Ok(Key::of(atoms))
        }
        Kind::Numbers(start, stop, step) => {
            let mut atoms = Vec::new(alloc);
            push_range(&mut atoms, start, stop, step)?;
            Ok(Key::of(atoms))
        }
        Kind::Never(end) => Err(end),
    }
}

/// Where two values have keys, these are equal exactly where the values are.
pub fn keys_are_equal_where_values_are()
    ensures { KeysFollowEquality }
{}
