//! Pairs of a dict.

ghost use Rattle.std.specs.Prelude.{◌≡◌, ◌<◌, OnOk, OnErr, None, [], ◌∷◌, ◌++◌, length, slice_get, option_copied, option_map, remove};
ghost use Rattle.indexmap.specs.IndexMap.{get};
ghost use Rattle.nu_value.specs.Atoms.{key_eq};
ghost use Rattle.nu_value.specs.Pairs.{found_at, mapped_at, mapped_value, with_pair};
ghost use Rattle.nu_value.specs.Triples.{triples};
ghost use Rattle.nu_value.specs.Held.{held};

use crate::key::Key;
use crate::value::Value;
use indexmap::IndexMap;
use std::alloc::{AllocError, Global};
use std::marker::Model;

/// The pairs of a dict, in the order in which their keys came: a key, the value that was first given for it, and the
/// value that it maps to.
#[derive(Drop)]
pub struct Pairs {
    // none as long as there is no pair
    map: Option<Box<IndexMap<Key, (Value, Value)>>>,
    alloc: Global,
}

impl Model for Pairs {
    ghost use Rattle.std.specs.Prelude.{List};
    ghost use Rattle.nu_value.specs.declared.key.Atom.{Atom};
    ghost use Rattle.nu_value.specs.declared.value.Value.{Value as Element};

    ghost Value = { List (List Atom × Element × Element) };

    ghost use Rattle.nu_value.specs.Held.{held};

    ghost view = { λ t. held t.map };
}

/// Gives the key at a place another value that it maps to.
fn map_at(map: &mut IndexMap<Key, (Value, Value)>, place: usize, value: Value)
    requires { place < length map.old.entries }
    ensures { triples map.new.entries ≡ mapped_at (triples map.old.entries) place value (slice_get (triples map.old.entries) place) }
{
    map[place].1 = value;
}

/// Adds a key that isn't there.
fn add(
    map: &mut IndexMap<Key, (Value, Value)>,
    key: Key,
    given: Value,
    value: Value,
) -> Result<(), AllocError>
    requires { get key_eq map.old key ≡ None }
    ensures ok { OnOk result (triples map.new.entries ≡ triples map.old.entries ++ (key, given, value) ∷ []) }
    ensures err { OnErr result (map.new.entries ≡ map.old.entries) }
{
    map.insert(key, (given, value))?;
    Ok(())
}

fn put_pair(
    map: &mut IndexMap<Key, (Value, Value)>,
    key: Key,
    given: Value,
    value: Value,
) -> Result<(), AllocError>
    ensures ok { OnOk result (triples map.new.entries ≡ with_pair (triples map.old.entries) key given value) }
    ensures err { OnErr result (map.new.entries ≡ map.old.entries) }
{
    match map.get_index_of(&key) {
        Some(place) => {
            map_at(map, place, value);
            Ok(())
        }
        None => add(map, key, given, value),
    }
}

fn place_in(map: &IndexMap<Key, (Value, Value)>, key: &Key) -> Option<usize>
    ensures { result ≡ found_at (triples map.now.entries) key.now }
{
    map.get_index_of(key)
}

fn pair_at<'a>(
    map: &'a IndexMap<Key, (Value, Value)>,
    place: usize,
) -> Option<(&'a Key, &'a Value, &'a Value)>
    ensures { option_map (λ p. (p.0.now, p.1.now, p.2.now)) result ≡ slice_get (triples map.now.entries) place }
{
    match map.get_index(place) {
        Some((key, values)) => Some((key, &values.0, &values.1)),
        None => None,
    }
}

fn value_in<'a>(map: &'a IndexMap<Key, (Value, Value)>, key: &Key) -> Option<&'a Value>
    ensures { option_copied result ≡ mapped_value (triples map.now.entries) key.now }
{
    match map.get(key) {
        Some(values) => Some(&values.1),
        None => None,
    }
}

fn take_pair(map: &mut IndexMap<Key, (Value, Value)>, place: usize) -> (Value, Value)
    requires { place < length map.old.entries }
    ensures pair { option_map (λ p. (p.1, p.2)) (slice_get (triples map.old.entries) place) ≡ Some result }
    ensures rest { triples map.new.entries ≡ remove (triples map.old.entries) place }
{
    let Some((_, values)) = map.shift_remove_index(place) else {
        unreachable!();
    };
    values
}

type Held = Option<Box<IndexMap<Key, (Value, Value)>>>;

fn take_held(held_map: &mut Held, place: usize) -> (Value, Value)
    requires { place < length (held held_map.old) }
    ensures pair { option_map (λ p. (p.1, p.2)) (slice_get (held held_map.old) place) ≡ Some result }
    ensures rest { held held_map.new ≡ remove (held held_map.old) place }
{
    match held_map {
        Some(map) => take_pair(map, place),
        None => unreachable!(),
    }
}

fn put_held(
    alloc: Global,
    held_map: &mut Held,
    key: Key,
    given: Value,
    value: Value,
) -> Result<(), AllocError>
    ensures ok { OnOk result (held held_map.new ≡ with_pair (held held_map.old) key given value) }
    ensures err { OnErr result (held held_map.new ≡ held held_map.old) }
{
    match held_map {
        Some(map) => put_pair(map, key, given, value),
        None => {
            let mut map = IndexMap::new(alloc);
            put_pair(&mut map, key, given, value)?;
            *held_map = Some(Box::new(alloc, map)?);
            Ok(())
        }
    }
}

fn add_held(
    alloc: Global,
    held_map: &mut Held,
    key: Key,
    given: Value,
    value: Value,
) -> Result<(), AllocError>
    requires { found_at (held held_map.old) key ≡ None }
    ensures ok { OnOk result (held held_map.new ≡ held held_map.old ++ (key, given, value) ∷ []) }
    ensures err { OnErr result (held held_map.new ≡ held held_map.old) }
{
    match held_map {
        Some(map) => add(map, key, given, value),
        None => {
            let mut map = IndexMap::new(alloc);
            add(&mut map, key, given, value)?;
            *held_map = Some(Box::new(alloc, map)?);
            Ok(())
        }
    }
}

impl Pairs {
    pub fn new(alloc: Global) -> Pairs
        ensures { result ≡ [] }
    {
        Pairs { map: None, alloc }
    }

    pub fn len(&self) -> usize
        ensures { result ≡ length self.now }
    {
        match &self.map {
            Some(map) => map.len(),
            None => 0,
        }
    }

    /// The pair at this place; None where the place isn't below the length.
    pub fn at(&self, place: usize) -> Option<(&Key, &Value, &Value)>
        ensures { option_map (λ p. (p.0.now, p.1.now, p.2.now)) result ≡ slice_get self.now place }
    {
        match &self.map {
            Some(map) => pair_at(map, place),
            None => None,
        }
    }

    /// The place of a key; None where no pair has it.
    pub fn find(&self, key: &Key) -> Option<usize>
        ensures { result ≡ found_at self.now key.now }
    {
        match &self.map {
            Some(map) => place_in(map, key),
            None => None,
        }
    }

    /// What a key maps to; None where no pair has it.
    pub fn value_of(&self, key: &Key) -> Option<&Value>
        ensures { option_copied result ≡ mapped_value self.now key.now }
    {
        match &self.map {
            Some(map) => value_in(map, key),
            None => None,
        }
    }

    /// Maps a key to a value: where the key stands, or else at the end, with the value that was given for it.
    pub fn put(&mut self, key: Key, given: Value, value: Value) -> Result<(), AllocError>
        ensures ok { OnOk result (self.new ≡ with_pair self.old key given value) }
        ensures err { OnErr result (self.new ≡ self.old) }
    {
        put_held(self.alloc, &mut self.map, key, given, value)
    }

    /// Maps a key that isn't there to a value, at the end.
    pub fn add(&mut self, key: Key, given: Value, value: Value) -> Result<(), AllocError>
        requires { found_at self.old key ≡ None }
        ensures ok { OnOk result (self.new ≡ self.old ++ (key, given, value) ∷ []) }
        ensures err { OnErr result (self.new ≡ self.old) }
    {
        add_held(self.alloc, &mut self.map, key, given, value)
    }

    /// Takes out the pair at this place: the value given for its key, and the value that it maps to.
    pub fn remove(&mut self, place: usize) -> (Value, Value)
        requires { place < length self.old }
        ensures pair { option_map (λ p. (p.1, p.2)) (slice_get self.old place) ≡ Some result }
        ensures rest { self.new ≡ remove self.old place }
    {
        take_held(&mut self.map, place)
    }

    pub fn clear(&mut self)
        ensures { self.new ≡ [] }
    {
        self.map = None;
    }
}
