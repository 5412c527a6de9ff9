//! Names and their values.

ghost use Rattle.std.specs.Prelude.{◌≡◌, ◌<◌, OnOk, OnErr, [], length, slice_get, option_copied, option_map};
ghost use Rattle.nu_value.specs.Names.{AreDistinct, is_named, place_of, value_at, with_name, with_value, without_name};

use crate::value::Value;
use nu_text::RcStr;
use std::alloc::{AllocError, Global};
use std::marker::Model;

/// Names with their values, each name once, in the order in which they came.
#[derive(Drop)]
pub struct Names {
    list: Vec<(RcStr, Value)>,
}

impl Model for Names {
    ghost use Rattle.std.specs.Prelude.{List, ℕ};
    ghost use Rattle.nu_value.specs.declared.value.Value.{Value as Element};

    ghost Value = { List (List ℕ × Element) };

    ghost use Rattle.nu_value.specs.Names.{AreDistinct};

    ghost view = { λ t. t.list.items };

    ghost invariant = { λ t. AreDistinct t.list.items };
}

/// The place of a name, or the length.
fn find(list: &[(RcStr, Value)], name: &str) -> usize
    ensures { result ≡ place_of list.now name.now }
{
    for (place, pair) in list.iter().enumerate() {
        if pair.0.as_str() == name {
            return place;
        }
    }
    list.len()
}

/// Whether the name at a place is this one.
#[inline]
fn stands(list: &[(RcStr, Value)], place: usize, name: &str) -> bool
    ensures { result ≡ is_named (slice_get list.now place) name.now }
{
    match list.get(place) {
        Some(pair) => pair.0.as_str() == name,
        None => false,
    }
}

/// Gives a name its value: where the name stands, or else at the end.
fn put(list: &mut Vec<(RcStr, Value)>, name: RcStr, value: Value) -> Result<(), AllocError>
    ensures ok { OnOk result (list.new.items ≡ with_name list.old.items name value) }
    ensures err { OnErr result (list.new.items ≡ list.old.items) }
{
    let place = find(list, name.as_str());
    if place < list.len() {
        list[place] = (name, value);
    } else {
        list.push((name, value))?;
    }
    Ok(())
}

/// Gives the name that stands at a place a value.
#[inline]
fn put_at(list: &mut Vec<(RcStr, Value)>, place: usize, value: Value)
    requires { place < length list.old.items }
    ensures { list.new.items ≡ with_value list.old.items place value }
{
    list[place].1 = value;
}

/// Takes out a name with its value.
fn take_name(list: &mut Vec<(RcStr, Value)>, name: &str) -> Option<Value>
    ensures value { result ≡ value_at list.old.items name.now }
    ensures rest { list.new.items ≡ without_name list.old.items name.now }
{
    let place = find(list, name);
    if place < list.len() {
        let (_, value) = list.remove(place);
        Some(value)
    } else {
        None
    }
}

impl Names {
    pub fn new(alloc: Global) -> Names
        ensures { result ≡ [] }
    {
        Names {
            list: Vec::new(alloc),
        }
    }

    pub fn len(&self) -> usize
        ensures { result ≡ length self.now }
    {
        self.list.len()
    }

    #[inline]
    pub fn as_slice(&self) -> &[(RcStr, Value)]
        ensures items { result.now ≡ self.now }
        ensures distinct { AreDistinct self.now }
    {
        self.list.as_slice()
    }

    /// The name at this place and its value; None where the place isn't below the length.
    pub fn at(&self, place: usize) -> Option<(&RcStr, &Value)>
        ensures { option_map (λ p. (p.0.now, p.1.now)) result ≡ slice_get self.now place }
    {
        match self.list.get(place) {
            Some(pair) => Some((&pair.0, &pair.1)),
            None => None,
        }
    }

    /// The place of a name, or the length. It is found at once where it's the guess.
    #[inline]
    pub fn find_near(&self, guess: usize, name: &str) -> usize
        ensures { result ≡ place_of self.now name.now }
    {
        if stands(&self.list, guess, name) {
            guess
        } else {
            find(&self.list, name)
        }
    }

    /// The value of a name; None where no element has it.
    pub fn get(&self, name: &str) -> Option<&Value>
        ensures { option_copied result ≡ value_at self.now name.now }
    {
        match self.list.get(find(&self.list, name)) {
            Some(pair) => Some(&pair.1),
            None => None,
        }
    }

    /// Gives a name its value: where the name stands, or else at the end.
    pub fn set(&mut self, name: RcStr, value: Value) -> Result<(), AllocError>
        ensures ok { OnOk result (self.new ≡ with_name self.old name value) }
        ensures err { OnErr result (self.new ≡ self.old) }
    {
        put(&mut self.list, name, value)
    }

    /// Gives the name that stands at this place a value.
    #[inline]
    pub fn set_at(&mut self, place: usize, value: Value)
        requires { place < length self.old }
        ensures { self.new ≡ with_value self.old place value }
    {
        put_at(&mut self.list, place, value);
    }

    /// Takes out a name with its value; None where no element has it.
    pub fn remove(&mut self, name: &str) -> Option<Value>
        ensures value { result ≡ value_at self.old name.now }
        ensures rest { self.new ≡ without_name self.old name.now }
    {
        take_name(&mut self.list, name)
    }
}
