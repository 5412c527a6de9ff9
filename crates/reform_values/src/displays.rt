//! Displays.

ghost use Rattle.std.specs.Prelude.{◌≡◌, ◌+◌, ◌<◌, ◌^◌, [], ◌∷◌, map, IfOk};
ghost use Rattle.node_tree.specs.Blocks as tree;
ghost use Rattle.node_tree.specs.Tree.{block};
ghost use Rattle.carries_values.specs.Displays as spec;
ghost use Rattle.carried_codes.specs.Expressions as expressions;
ghost use Rattle.reform_blocks.specs.Parts.{carrier};
ghost use Rattle.reform_values.specs.Filling.{item_of, entry_of};
ghost use Rattle.reform_values.specs.Values.{valued_of};

use crate::made::{Valued, added, left_in, on_none, on_two};
use node_tree::{Argument, Block, Node, Operand};
use op_forms::Op;
use reform_base::Part;
use reform_blocks::{append, followed, native, single};
use sqlite_items::Items;
use std::alloc::{AllocError, Global};

/// What stands in a list or a tuple.
#[derive(Drop)]
pub enum Item {
    One(Part),
    /// All items of this value.
    Star(Part),
}

/// What stands in a dict.
#[derive(Drop)]
pub enum Entry {
    Pair { key: Part, value: Part },
    /// All entries of this value.
    Merge(Part),
}

fn fill_one(alloc: Global, item: Item, line: u32, next: u64) -> Result<Block, AllocError>
    requires { next + 2 < 2 ^ 64 }
    ensures { IfOk result (λ b. block b ≡ spec.fill_block line next (item_of item ∷ [])) }
{
    match item {
        Item::One(part) => added(alloc, next, next + 1, line, Op::Push, part),
        Item::Star(part) => added(alloc, next, next + 1, line, Op::Extend, part),
    }
}

// Items go into the list that a block leaves in a temporary.
fn filled(
    alloc: Global,
    first: Block,
    items: Vec<Item>,
    line: u32,
    next: u64,
) -> Result<Block, AllocError>
    requires { next + 2 < 2 ^ 64 }
    ensures { IfOk result (λ b. block b ≡ tree.append (block first) (spec.fill_block line next (map item_of items.items))) }
{
    let mut whole = first;
    for item in items {
        let one = fill_one(alloc, item, line, next)?;
        whole = append(whole, one)?;
    }
    Ok(whole)
}

fn list(alloc: Global, items: Vec<Item>, line: u32, next: u64) -> Result<Block, AllocError>
    requires { next + 2 < 2 ^ 64 }
    ensures { IfOk result (λ b. block b ≡ spec.list_block line next (map item_of items.items)) }
{
    let first = single(alloc, on_none(alloc, next, line, Op::List))?;
    filled(alloc, first, items, line, next)
}

// A tuple of the items of a list.
fn as_tuple(alloc: Global, list: Block, line: u32, next: u64) -> Result<Block, AllocError>
    requires { next + 3 < 2 ^ 64 }
    ensures { IfOk result (λ b. block b ≡ tree.append (block list) (spec.tuple_block line next)) }
{
    let class = native(alloc, next + 1, line, "tuple")?;
    let made = on_two(
        alloc,
        next + 2,
        line,
        Op::Call,
        Operand::Temp(next + 1),
        Operand::Temp(next),
    )?;
    let behind = single(alloc, class)?;
    let behind = followed(behind, made)?;
    append(list, behind)
}

/// A list, or a tuple, with a star in it (reference, sections 6.2.5 and 6.15).
///
/// # Errors
///
/// Want of memory alone.
#[tactic(auto, unfolding(carried_codes::specs::Expressions::starred))]
pub fn starred(
    alloc: Global,
    tuple: bool,
    items: Vec<Item>,
    line: u32,
    next: u64,
) -> Result<Valued, AllocError>
    requires { next + 3 < 2 ^ 64 }
    ensures { IfOk result (λ v. valued_of v ≡ expressions.starred line tuple (map item_of items.items) next) }
{
    let list = list(alloc, items, line, next)?;
    if !tuple {
        return Ok(left_in(list, next, next + 2));
    }
    let whole = as_tuple(alloc, list, line, next)?;
    Ok(left_in(whole, next + 2, next + 3))
}

// A key and its value, the key first.
fn pair(alloc: Global, key: Part, value: Part, line: u32, next: u64) -> Result<Block, AllocError>
    requires { next + 2 < 2 ^ 64 }
    ensures { IfOk result (λ b. block b ≡ spec.pair_block line next (carrier key) (carrier value) tree.Stop) }
{
    let mut args = Items::new(alloc);
    args.push(Argument::Value(Operand::Temp(next)))?;
    args.push(Argument::Value(key.value))?;
    args.push(Argument::Value(value.value))?;
    let made = Node::Do {
        to: next + 1,
        line,
        op: Op::Put,
        args,
    };
    let behind = followed(value.block, made)?;
    append(key.block, behind)
}

fn enter_one(alloc: Global, entry: Entry, line: u32, next: u64) -> Result<Block, AllocError>
    requires { next + 2 < 2 ^ 64 }
    ensures { IfOk result (λ b. block b ≡ spec.enter_block line next (entry_of entry ∷ [])) }
{
    match entry {
        Entry::Pair { key, value } => pair(alloc, key, value, line, next),
        Entry::Merge(part) => added(alloc, next, next + 1, line, Op::Merge, part),
    }
}

// Entries go into the dict that a block leaves in a temporary.
fn entered(
    alloc: Global,
    first: Block,
    entries: Vec<Entry>,
    line: u32,
    next: u64,
) -> Result<Block, AllocError>
    requires { next + 2 < 2 ^ 64 }
    ensures { IfOk result (λ b. block b ≡ tree.append (block first) (spec.enter_block line next (map entry_of entries.items))) }
{
    let mut whole = first;
    for entry in entries {
        let one = enter_one(alloc, entry, line, next)?;
        whole = append(whole, one)?;
    }
    Ok(whole)
}

/// A dict (reference, section 6.2.7).
///
/// # Errors
///
/// Want of memory alone.
#[tactic(auto, unfolding(carried_codes::specs::Expressions::dict))]
pub fn dict(alloc: Global, entries: Vec<Entry>, line: u32, next: u64) -> Result<Valued, AllocError>
    requires { next + 2 < 2 ^ 64 }
    ensures { IfOk result (λ v. valued_of v ≡ expressions.dict line (map entry_of entries.items) next) }
{
    let first = single(alloc, on_none(alloc, next, line, Op::Dict))?;
    let whole = entered(alloc, first, entries, line, next)?;
    Ok(left_in(whole, next, next + 2))
}
