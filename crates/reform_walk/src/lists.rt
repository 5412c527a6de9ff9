//! Lists of parts that are made.

ghost use Rattle.std.specs.Prelude.{◌≡◌, ◌∷◌, map, IfOk};
ghost use Rattle.std.specs.List.{list_any};
ghost use Rattle.py_meaning.specs.Resolved as meaning;
ghost use Rattle.py_scopes.specs.Parts as parts;
ghost use Rattle.reform_blocks.specs.Parts.{carrier};
ghost use Rattle.reform_targets.specs.Places.{place_of};
ghost use Rattle.reform_values.specs.Filling.{item_of};
ghost use Rattle.reform_values.specs.Passing.{passed_of};
ghost use Rattle.walk_laws.specs.Expressions as spec;
ghost use Rattle.reform_walk.specs.Gathering.{sliced};
ghost use Rattle.reform_walk.specs.Made.{aim_of};

use crate::parts::Aim;
use py_ast::{Argument, Expr, Subscript};
use reform_base::Part;
use reform_targets::Place;
use reform_values::{Item, Passed};
use std::alloc::{AllocError, Global};

/// Whether a star stands before any item.
pub fn has_star(xs: &[py_ast::Item<Expr>]) -> bool
    ensures { result ≡ list_any meaning.is_star (map (parts.item_of spec.expr) xs.now) }
{
    for x in xs {
        if let py_ast::Item::Star(_, _) = x {
            return true;
        }
    }
    false
}

/// Whether a call has positional arguments alone.
pub fn all_plain(xs: &[Argument<Expr>]) -> bool
    ensures { result ≡ meaning.all_plain (map (parts.argument_of spec.expr) xs.now) }
{
    for x in xs {
        match x {
            Argument::Plain(_) => {}
            _ => return false,
        }
    }
    true
}

/// Whether a slice stands in the brackets of an index.
pub fn is_slice(at: &Subscript<Expr>) -> bool
    ensures { result ≡ sliced at.now }
{
    matches!(at, Subscript::Slice(_, _, _))
}

fn part_of(item: Item) -> Part
    ensures { carrier result ≡ spec.item_part (item_of item) }
{
    match item {
        Item::One(part) | Item::Star(part) => part,
    }
}

fn passed_part(passed: Passed) -> Part
    ensures { carrier result ≡ spec.passed_part (passed_of passed) }
{
    match passed {
        Passed::Plain(part) | Passed::Star(part) | Passed::Merge(part) => part,
        Passed::Key { name: _, value } => value,
    }
}

/// The parts of items.
pub fn item_parts(alloc: Global, items: Vec<Item>) -> Result<Vec<Part>, AllocError>
    ensures { IfOk result (λ ps. map carrier ps.items ≡ map spec.item_part (map item_of items.items)) }
{
    let mut parts = Vec::new(alloc);
    for item in items {
        parts.push(part_of(item))?;
    }
    Ok(parts)
}

/// The parts of arguments, behind what is called.
pub fn passed_parts(
    alloc: Global,
    function: Part,
    passed: Vec<Passed>,
) -> Result<Vec<Part>, AllocError>
    ensures { IfOk result (λ ps. map carrier ps.items ≡ carrier function ∷ map spec.passed_part (map passed_of passed.items)) }
{
    let mut parts = Vec::new(alloc);
    parts.push(function)?;
    for one in passed {
        parts.push(passed_part(one))?;
    }
    Ok(parts)
}

/// Targets, one of them perhaps behind a star: the first star counts.
pub fn assembled(alloc: Global, line: u32, aims: Vec<Aim>) -> Result<Place, AllocError>
    ensures { IfOk result (λ p. place_of p ≡ spec.assembled line (map aim_of aims.items)) }
{
    let mut before = Vec::new(alloc);
    let mut star = None;
    let mut behind = Vec::new(alloc);
    for aim in aims {
        let Aim { starred, place } = aim;
        if star.is_some() {
            behind.push(place)?;
        } else if starred {
            star = Some(Box::new(alloc, place)?);
        } else {
            before.push(place)?;
        }
    }
    match star {
        None => Ok(Place::Each {
            line,
            places: before,
        }),
        Some(star) => Ok(Place::Starred {
            line,
            before,
            star,
            behind,
        }),
    }
}
