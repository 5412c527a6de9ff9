//! A value goes to targets.

ghost use Rattle.std.specs.Prelude.{◌≡◌, ◌+◌, map, IfOk, OnOk};
ghost use Rattle.code_forms.specs.declared.operand.Operand.TheVariants as operand;
ghost use Rattle.node_tree.specs.Tree.{block};
ghost use Rattle.carried_codes.specs.Places as spec;
ghost use Rattle.reform_targets.specs.Places.{place_of, places_of};
ghost use Rattle.reform_targets.specs.Takers.{taker_of, taking};

use crate::place::{Place, turned};
use crate::stores::{to_attribute, to_index, to_name};
use crate::unpacking::{Taker, unpacked, unpacked_starred};
use node_tree::{Block, Operand, Temps};
use reform_blocks::append;
use sqlite_items::Items;
use std::alloc::{AllocError, Global};

/// What an operand holds goes to a target (reference, section 7.2). The items of a list go to their targets from left to right.
///
/// # Errors
///
/// Want of memory alone.
#[cycle(assign)]
pub fn assign(
    alloc: Global,
    value: Operand,
    place: Place,
    temps: &mut Temps,
) -> Result<Block, AllocError>
    ensures is { IfOk result (λ b. block b ≡ (spec.assign temps.old value (place_of place)).block) }
    ensures next { OnOk result (temps.new ≡ (spec.assign temps.old value (place_of place)).next) }
{
    match place {
        Place::Name { line, home } => {
            let whole = to_name(alloc, value, home, line, temps)?;
            Ok(whole)
        }
        Place::Attribute { line, part, name } => {
            let whole = to_attribute(alloc, value, part, name, line, temps)?;
            Ok(whole)
        }
        Place::Index { line, part, at } => {
            let whole = to_index(alloc, value, part, at, line, temps)?;
            Ok(whole)
        }
        Place::Each { line, places } => {
            let list = temps.fresh()?;
            let takers = takes(alloc, places, temps)?;
            let whole = unpacked(alloc, list, value, takers, line)?;
            Ok(whole)
        }
        Place::Starred {
            line,
            before,
            star,
            behind,
        } => {
            let list = temps.fresh()?;
            let before = takes(alloc, before, temps)?;
            let middle = taken(alloc, Box::into_inner(star), temps)?;
            let behind = takes(alloc, behind, temps)?;
            let whole = unpacked_starred(alloc, list, value, before, middle, behind, line)?;
            Ok(whole)
        }
        Place::Nothing => Ok(Items::new(alloc)),
    }
}

// An item goes to its target by a temporary of its own.
#[cycle(assign)]
fn taken(alloc: Global, place: Place, temps: &mut Temps) -> Result<Taker, AllocError>
    ensures is { IfOk result (λ k. taker_of k ≡ taking temps.old (place_of place)) }
    ensures next { OnOk result (temps.new ≡ (spec.assign (temps.old + 1) (operand.Temp temps.old) (place_of place)).next) }
{
    let item = temps.fresh()?;
    let block = assign(alloc, Operand::Temp(item), place, temps)?;
    Ok(Taker { item, block })
}

#[cycle(assign)]
fn takes(alloc: Global, places: Vec<Place>, temps: &mut Temps) -> Result<Vec<Taker>, AllocError>
    ensures is { IfOk result (λ ks. map taker_of ks.items ≡ (spec.takes temps.old (places_of places.items)).parts) }
    ensures next { OnOk result (temps.new ≡ (spec.takes temps.old (places_of places.items)).next) }
{
    let mut left = turned(places);
    let mut done = Vec::new(alloc);
    while let Some(place) = left.pop() {
        let taker = taken(alloc, place, temps)?;
        done.push(taker)?;
    }
    Ok(done)
}

/// What an operand holds goes to all these targets, from left to right (reference, section 7.2).
///
/// # Errors
///
/// Want of memory alone.
pub fn assign_all(
    alloc: Global,
    value: Operand,
    places: Vec<Place>,
    temps: &mut Temps,
) -> Result<Block, AllocError>
    ensures is { IfOk result (λ b. block b ≡ (spec.assign_all temps.old value (places_of places.items)).block) }
    ensures next { OnOk result (temps.new ≡ (spec.assign_all temps.old value (places_of places.items)).next) }
{
    let mut left = turned(places);
    let mut whole = Items::new(alloc);
    while let Some(place) = left.pop() {
        let shared = value.share()?;
        let one = assign(alloc, shared, place, temps)?;
        whole = append(whole, one)?;
    }
    Ok(whole)
}
