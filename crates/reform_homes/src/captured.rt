//! The names that have cells, since other scopes use them.

ghost use Rattle.std.specs.Prelude.{◌≡◌, ℕ, List, [], ◌∷◌, option_map, slice_get, IfOk, OnOk};
ghost use Rattle.py_meaning.specs.Scopes.{has, is_captured};
ghost use Rattle.reform_homes.specs.Gaining.{Gain};
ghost use Rattle.reform_homes.specs.Gaining as spec;

use crate::lists::{gain_at, no_names};
use crate::names::Names;
use py_ast::{NameHome, Scope};
use std::alloc::{AllocError, Global};

// A name that stands in this scope has a cell in another one, if it lives there.
fn lend(lists: &mut Vec<Names>, scope: usize, name: &NameHome) -> Result<(), AllocError>
    ensures { OnOk result (Gain lists.old.items lists.new.items (λ a. spec.lent a scope (name.now ∷ []))) }
{
    if name.home != scope {
        gain_at(lists, name.home, &name.name)?;
    }
    Ok(())
}

fn lend_all(lists: &mut Vec<Names>, scope: usize, names: &[NameHome]) -> Result<(), AllocError>
    ensures { OnOk result (Gain lists.old.items lists.new.items (λ a. spec.lent a scope names.now)) }
{
    for name in names {
        lend(lists, scope, name)?;
    }
    Ok(())
}

fn capture(lists: &mut Vec<Names>, scopes: &[Scope]) -> Result<(), AllocError>
    ensures { OnOk result (Gain lists.old.items lists.new.items (spec.captured_names scopes.now)) }
{
    for (number, scope) in scopes.iter().enumerate() {
        let names = scope.names.as_slice();
        lend_all(lists, number, names)?;
    }
    Ok(())
}

/// The names of each scope that stand in others.
pub fn captured_names(alloc: Global, scopes: &[Scope]) -> Result<Vec<Names>, AllocError>
    ensures { IfOk result (λ lists. (a : ℕ) (x : List ℕ) → option_map (λ names. has names x) (slice_get lists.items a) ≡ option_map (λ scope. is_captured scopes.now a x) (slice_get scopes.now a)) }
{
    let mut lists = no_names(alloc, scopes)?;
    capture(&mut lists, scopes)?;
    Ok(lists)
}
