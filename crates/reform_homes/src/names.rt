//! Lists of names that tell the place of each.

ghost use Rattle.std.specs.Prelude.{◌≡◌, ℕ, List, [], ◌∷◌, ◌++◌, OnOk, OnErr, length};
ghost use Rattle.py_meaning.specs.Scopes.{has, parameter_of, place_in};
ghost use Rattle.reform_homes.specs.Names as spec;

use nu_text::RcStr;
use std::alloc::{AllocError, Global};
use std::collections::HashMap;
use std::marker::Model;

/// Names, with the place where each stands first.
#[derive(Drop)]
pub struct Names {
    list: Vec<RcStr>,
    places: HashMap<RcStr, usize>,
}

impl Model for Names {
    ghost use Rattle.std.specs.Prelude.{ℕ, List};
    ghost use Rattle.reform_homes.specs.Names.{Places};

    ghost Value = { List (List ℕ) };

    ghost view = { λ t. t.list.items };

    ghost invariant = { λ t. Places t.places.entries t.list.items };
}

/// Gives a name its number, unless it has one.
pub fn number(
    numbers: &mut HashMap<RcStr, usize>,
    name: &RcStr,
    number: usize,
) -> Result<(), AllocError>
    ensures ok { OnOk result ((x : List ℕ) → spec.number_in numbers.new.entries x ≡ spec.numbered numbers.old.entries name.now number x) }
    ensures err { OnErr result (numbers.new.entries ≡ numbers.old.entries) }
{
    if !numbers.contains_key(name) {
        numbers.insert(name.share()?, number)?;
    }
    Ok(())
}

impl Names {
    pub fn new(alloc: Global) -> Names
        ensures { result ≡ [] }
    {
        Names {
            list: Vec::new(alloc),
            places: HashMap::new(alloc),
        }
    }

    pub fn len(&self) -> usize
        ensures { result ≡ length self.now }
    {
        self.list.len()
    }

    pub fn as_slice(&self) -> &[RcStr]
        ensures { result.now ≡ self.now }
    {
        self.list.as_slice()
    }

    /// The place where a name stands first; None where it doesn't.
    pub fn find(&self, name: &RcStr) -> Option<usize>
        ensures { result ≡ parameter_of self.now name.now }
    {
        self.places.get(name).copied()
    }

    pub fn contains(&self, name: &RcStr) -> bool
        ensures { result ≡ has self.now name.now }
    {
        self.find(name).is_some()
    }

    /// The place where a name stands first, or the length.
    pub fn place(&self, name: &RcStr) -> usize
        ensures { result ≡ place_in self.now name.now }
    {
        match self.find(name) {
            Some(place) => place,
            None => self.len(),
        }
    }

    /// Adds a name at the end.
    pub fn push(&mut self, name: &RcStr) -> Result<(), AllocError>
        ensures { OnOk result (self.new ≡ self.old ++ name.now ∷ []) }
    {
        let place = self.list.len();
        self.list.push(name.share()?)?;
        match number(&mut self.places, name, place) {
            Ok(()) => Ok(()),
            Err(error) => {
                self.list.truncate(place);
                Err(error)
            }
        }
    }

    /// Adds a name at the end, unless it is there.
    pub fn gain(&mut self, name: &RcStr) -> Result<(), AllocError>
        ensures { OnOk result (self.new ≡ spec.gained self.old name.now) }
    {
        if !self.contains(name) {
            self.push(name)?;
        }
        Ok(())
    }
}
