//! The names that the frame of a scope holds, and the homes of all its names.

ghost use Rattle.std.specs.Prelude.{◌≡◌, ℕ, List, [], ◌∷◌, ◌++◌, unwrap_or, IfOk, OnOk, if◌then◌else◌};
ghost use Rattle.py_meaning.specs.Scopes as meaning;
ghost use Rattle.reform_homes.specs.Names.{number_in};
ghost use Rattle.reform_homes.specs.Gaining.{texts};
ghost use Rattle.reform_homes.specs.Places as spec;

use crate::names::{Names, number};
use nu_text::RcStr;
use py_ast::{NameHome, ScopeKind};
use std::alloc::{AllocError, Global};
use std::collections::HashMap;

pub fn is_class(kind: ScopeKind) -> bool
    ensures { result ≡ meaning.is_class kind }
{
    matches!(kind, ScopeKind::Class)
}

/// Whether a frame holds the names of such a scope.
fn holds_names(kind: ScopeKind) -> bool
    ensures { result ≡ meaning.holds_names kind }
{
    !matches!(kind, ScopeKind::Module | ScopeKind::Class)
}

fn is_held(kind: ScopeKind, this: usize, name: &NameHome) -> bool
    ensures { result ≡ spec.is_held kind this name.now }
{
    holds_names(kind) && name.home == this
}

fn is_own(kind: ScopeKind, this: usize, captured: &Names, name: &NameHome) -> bool
    ensures { result ≡ spec.is_own kind this captured.now name.now }
{
    is_held(kind, this, name) && captured.contains(&name.name)
}

fn is_other(kind: ScopeKind, this: usize, captured: &Names, params: &Names, name: &NameHome) -> bool
    ensures { result ≡ spec.is_other kind this captured.now params.now name.now }
{
    is_held(kind, this, name) && !captured.contains(&name.name) && !params.contains(&name.name)
}

fn push_if(names: &mut Names, chosen: bool, name: &RcStr) -> Result<(), AllocError>
    ensures { OnOk result (names.new ≡ (if chosen then names.old ++ name.now ∷ [] else names.old)) }
{
    if chosen {
        names.push(name)?;
    }
    Ok(())
}

/// Those with a cell.
pub fn own_names(
    alloc: Global,
    kind: ScopeKind,
    this: usize,
    captured: &Names,
    names: &[NameHome],
) -> Result<Names, AllocError>
    ensures { IfOk result (λ own. own ≡ texts (spec.is_own kind this captured.now) names.now) }
{
    let mut own = Names::new(alloc);
    for name in names {
        let chosen = is_own(kind, this, captured, name);
        push_if(&mut own, chosen, &name.name)?;
    }
    Ok(own)
}

/// Those without one that are no parameters.
pub fn other_names(
    alloc: Global,
    kind: ScopeKind,
    this: usize,
    captured: &Names,
    params: &Names,
    names: &[NameHome],
) -> Result<Names, AllocError>
    ensures { IfOk result (λ other. other ≡ texts (spec.is_other kind this captured.now params.now) names.now) }
{
    let mut other = Names::new(alloc);
    for name in names {
        let chosen = is_other(kind, this, captured, params, name);
        push_if(&mut other, chosen, &name.name)?;
    }
    Ok(other)
}

/// The homes of the names of a scope.
pub fn homes(alloc: Global, names: &[NameHome]) -> Result<HashMap<RcStr, usize>, AllocError>
    ensures { IfOk result (λ homes. (x : List ℕ) → unwrap_or (number_in homes.entries x) 0 ≡ meaning.home_among names.now x) }
{
    let mut homes = HashMap::new(alloc);
    for name in names {
        number(&mut homes, &name.name, name.home)?;
    }
    Ok(homes)
}

/// Where a name lives; in the module, where it doesn't stand.
pub fn home_in(homes: &HashMap<RcStr, usize>, name: &RcStr) -> usize
    ensures { result ≡ unwrap_or (number_in homes.now.entries name.now) 0 }
{
    homes.get(name).copied().unwrap_or(0)
}
