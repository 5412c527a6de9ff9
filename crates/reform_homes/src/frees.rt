//! The names that scopes have of enclosing functions.

ghost use Rattle.std.specs.Prelude.{◌≡◌, ℕ, ◌==◌, not, ◌&&◌, [], ◌∷◌, option_map, slice_get, IfOk, OnOk, if◌then◌else◌};
ghost use Rattle.py_meaning.specs.Scopes.{is_inside, names_at, names_where};
ghost use Rattle.py_meaning.specs.Scopes as meaning;
ghost use Rattle.reform_homes.specs.Names.{gained_all};
ghost use Rattle.reform_homes.specs.Gaining.{Gain, texts, passed};

use crate::lists::no_names;
use crate::names::Names;
use py_ast::{NameHome, Scope};
use std::alloc::{AllocError, Global};

/// Whether a name lives in a function around this scope.
fn is_free(this: usize, name: &NameHome) -> bool
    ensures { result ≡ meaning.is_free this name.now }
{
    name.home != 0 && name.home < this
}

fn gain_one(names: &mut Names, this: usize, name: &NameHome) -> Result<(), AllocError>
    ensures { OnOk result (names.new ≡ gained_all names.old (texts (meaning.is_free this) (name.now ∷ []))) }
{
    if is_free(this, name) {
        names.gain(&name.name)?;
    }
    Ok(())
}

fn gain_free(names: &mut Names, this: usize, more: &[NameHome]) -> Result<(), AllocError>
    ensures { OnOk result (names.new ≡ gained_all names.old (texts (meaning.is_free this) more.now)) }
{
    for name in more {
        gain_one(names, this, name)?;
    }
    Ok(())
}

// The scope with this number has the names that are free in it.
fn gain_free_at(lists: &mut Vec<Names>, this: usize, more: &[NameHome]) -> Result<(), AllocError>
    ensures { OnOk result (Gain lists.old.items lists.new.items (λ a. texts (meaning.is_free a) (if a == this then more.now else []))) }
{
    if this < lists.len() {
        gain_free(&mut lists[this], this, more)?;
    }
    Ok(())
}

// So has a scope that isn't their own.
fn pass(
    lists: &mut Vec<Names>,
    this: usize,
    scope: usize,
    names: &[NameHome],
) -> Result<(), AllocError>
    ensures { OnOk result (Gain lists.old.items lists.new.items (λ a. passed scope names.now a (a == this))) }
{
    if this != scope {
        gain_free_at(lists, this, names)?;
    }
    Ok(())
}

fn around(scopes: &[Scope], scope: usize) -> usize
    ensures { result ≡ meaning.around (slice_get scopes.now scope) }
{
    match scopes.get(scope) {
        Some(scope) => scope.enclosing,
        None => 0,
    }
}

// And so have all scopes around this one.
fn spread(
    lists: &mut Vec<Names>,
    scopes: &[Scope],
    scope: usize,
    names: &[NameHome],
) -> Result<(), AllocError>
    ensures { OnOk result (Gain lists.old.items lists.new.items (λ a. passed scope names.now a (is_inside scopes.now a scope))) }
{
    let turns = scopes.len();
    let mut at = scope;
    for _turn in 0..turns {
        if at == 0 {
            return Ok(());
        }
        at = around(scopes, at);
        pass(lists, at, scope, names)?;
    }
    Ok(())
}

// Each scope has the free names of its own text,
fn gain_own(lists: &mut Vec<Names>, scopes: &[Scope]) -> Result<(), AllocError>
    ensures { OnOk result (Gain lists.old.items lists.new.items (λ a. texts (meaning.is_free a) (names_at scopes.now a))) }
{
    for (number, scope) in scopes.iter().enumerate() {
        let names = scope.names.as_slice();
        gain_free_at(lists, number, names)?;
    }
    Ok(())
}

// and those of the scopes inside it.
fn gain_inner(lists: &mut Vec<Names>, scopes: &[Scope]) -> Result<(), AllocError>
    ensures { OnOk result (Gain lists.old.items lists.new.items (λ a. texts (meaning.is_free a) (names_where (λ scope. is_inside scopes.now a scope && not (scope == a)) 0 scopes.now))) }
{
    for (number, scope) in scopes.iter().enumerate() {
        let names = scope.names.as_slice();
        spread(lists, scopes, number, names)?;
    }
    Ok(())
}

/// The names that each scope has of enclosing functions.
pub fn free_names(alloc: Global, scopes: &[Scope]) -> Result<Vec<Names>, AllocError>
    ensures { IfOk result (λ lists. (a : ℕ) → slice_get lists.items a ≡ option_map (λ scope. meaning.free_names scopes.now a) (slice_get scopes.now a)) }
{
    let mut lists = no_names(alloc, scopes)?;
    gain_own(&mut lists, scopes)?;
    gain_inner(&mut lists, scopes)?;
    Ok(lists)
}
