//! Deletions.

ghost use Rattle.std.specs.Prelude.{◌≡◌, IfOk, OnOk};
ghost use Rattle.node_tree.specs.Tree.{block};
ghost use Rattle.carried_codes.specs.Places as spec;
ghost use Rattle.reform_blocks.specs.Parts.{carrier};
ghost use Rattle.reform_names.specs.Homes.{seat_of};
ghost use Rattle.reform_targets.specs.Places.{place_of, places_of};

use crate::place::{Place, turned};
use node_tree::{Argument, Block, Node, Temps};
use nu_text::RcStr;
use op_forms::Op;
use reform_base::Part;
use reform_blocks::{append, followed};
use reform_names::{Home, unbind};
use sqlite_items::Items;
use std::alloc::{AllocError, Global};

#[tactic(auto, unfolding(carried_codes::specs::Places::delete_name))]
fn delete_name(alloc: Global, home: Home, line: u32, temps: &mut Temps) -> Result<Block, AllocError>
    ensures is { IfOk result (λ b. block b ≡ (spec.delete_name line (seat_of home) temps.old).block) }
    ensures next { OnOk result (temps.new ≡ (spec.delete_name line (seat_of home) temps.old).next) }
{
    let to = temps.fresh()?;
    let whole = unbind(alloc, to, line, home)?;
    Ok(whole)
}

#[tactic(auto, unfolding(carried_codes::specs::Places::delete_attribute))]
fn delete_attribute(
    alloc: Global,
    part: Part,
    name: RcStr,
    line: u32,
    temps: &mut Temps,
) -> Result<Block, AllocError>
    ensures is { IfOk result (λ b. block b ≡ (spec.delete_attribute line (carrier part) name temps.old).block) }
    ensures next { OnOk result (temps.new ≡ (spec.delete_attribute line (carrier part) name temps.old).next) }
{
    let to = temps.fresh()?;
    let Part {
        block: first,
        value,
    } = part;
    let mut args = Items::new(alloc);
    args.push(Argument::Value(value))?;
    args.push(Argument::Name(name))?;
    let node = Node::Do {
        to,
        line,
        op: Op::DelAttr,
        args,
    };
    let whole = followed(first, node)?;
    Ok(whole)
}

#[tactic(auto, unfolding(carried_codes::specs::Places::delete_index))]
fn delete_index(
    alloc: Global,
    part: Part,
    at: Part,
    line: u32,
    temps: &mut Temps,
) -> Result<Block, AllocError>
    ensures is { IfOk result (λ b. block b ≡ (spec.delete_index line (carrier part) (carrier at) temps.old).block) }
    ensures next { OnOk result (temps.new ≡ (spec.delete_index line (carrier part) (carrier at) temps.old).next) }
{
    let to = temps.fresh()?;
    let Part {
        block: first,
        value: whose,
    } = part;
    let Part {
        block: then,
        value: by,
    } = at;
    let mut args = Items::new(alloc);
    args.push(Argument::Value(whose))?;
    args.push(Argument::Value(by))?;
    let node = Node::Do {
        to,
        line,
        op: Op::DelIndex,
        args,
    };
    let behind = followed(then, node)?;
    let whole = append(first, behind)?;
    Ok(whole)
}

/// A target is deleted; several are from left to right (reference, section 7.5). Of a target with a star nothing is.
///
/// # Errors
///
/// Want of memory alone.
#[cycle(delete)]
pub fn delete(alloc: Global, place: Place, temps: &mut Temps) -> Result<Block, AllocError>
    ensures is { IfOk result (λ b. block b ≡ (spec.delete temps.old (place_of place)).block) }
    ensures next { OnOk result (temps.new ≡ (spec.delete temps.old (place_of place)).next) }
{
    match place {
        Place::Name { line, home } => {
            let whole = delete_name(alloc, home, line, temps)?;
            Ok(whole)
        }
        Place::Attribute { line, part, name } => {
            let whole = delete_attribute(alloc, part, name, line, temps)?;
            Ok(whole)
        }
        Place::Index { line, part, at } => {
            let whole = delete_index(alloc, part, at, line, temps)?;
            Ok(whole)
        }
        Place::Each { line: _, places } => {
            let whole = delete_all(alloc, places, temps)?;
            Ok(whole)
        }
        _ => Ok(Items::new(alloc)),
    }
}

/// Targets are deleted, from left to right (reference, section 7.5).
///
/// # Errors
///
/// Want of memory alone.
#[cycle(delete)]
pub fn delete_all(alloc: Global, places: Vec<Place>, temps: &mut Temps) -> Result<Block, AllocError>
    ensures is { IfOk result (λ b. block b ≡ (spec.delete_all temps.old (places_of places.items)).block) }
    ensures next { OnOk result (temps.new ≡ (spec.delete_all temps.old (places_of places.items)).next) }
{
    let mut left = turned(places);
    let mut whole = Items::new(alloc);
    while let Some(place) = left.pop() {
        let one = delete(alloc, place, temps)?;
        whole = append(whole, one)?;
    }
    Ok(whole)
}
