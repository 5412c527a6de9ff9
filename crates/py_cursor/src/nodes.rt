//! Nodes of the tree, parts off the heap, and lists of parts.

ghost use Rattle.std.specs.Prelude.{◌≡◌, IfOk};
ghost use Rattle.py_grammar.specs.Grammar as grammar;
ghost use Rattle.py_grammar.specs.Parse as parse;
ghost use Rattle.py_grammar.specs.Parse.{Reads};

use crate::cursor::Cursor;
use py_ast::{Argument, Clause, Entry, Expr, Item};
use py_grammar::{Found, Operator, ParseEnd};
use sqlite_items::{Boxed, Items};
use std::alloc::{AllocError, Global};

/// What was found, off the heap.
pub fn opened<T: Drop>(found: Found<Boxed<T>>) -> Found<T>
    ensures { result ≡ found }
{
    Found {
        tree: found.tree.into_inner(),
        height: found.height,
    }
}

pub fn opened_item(found: Found<Item<Boxed<Expr>>>) -> Found<Item<Expr>>
    ensures { result ≡ found }
{
    let Found { tree, height } = found;
    match tree {
        Item::One(x) => Found {
            tree: Item::One(x.into_inner()),
            height,
        },
        Item::Star(line, x) => Found {
            tree: Item::Star(line, x.into_inner()),
            height,
        },
    }
}

pub fn opened_argument(found: Found<Argument<Boxed<Expr>>>) -> Found<Argument<Expr>>
    ensures { result ≡ found }
{
    let Found { tree, height } = found;
    match tree {
        Argument::Plain(x) => Found {
            tree: Argument::Plain(x.into_inner()),
            height,
        },
        Argument::Star(x) => Found {
            tree: Argument::Star(x.into_inner()),
            height,
        },
        Argument::Keyword(line, name, x) => Found {
            tree: Argument::Keyword(line, name, x.into_inner()),
            height,
        },
        Argument::Merge(x) => Found {
            tree: Argument::Merge(x.into_inner()),
            height,
        },
    }
}

pub fn opened_entry(found: Found<Entry<Boxed<Expr>>>) -> Found<Entry<Expr>>
    ensures { result ≡ found }
{
    let Found { tree, height } = found;
    match tree {
        Entry::Pair(key, value) => Found {
            tree: Entry::Pair(key.into_inner(), value.into_inner()),
            height,
        },
        Entry::Merge(x) => Found {
            tree: Entry::Merge(x.into_inner()),
            height,
        },
    }
}

pub fn opened_clause(found: Found<Clause<Boxed<Expr>>>) -> Found<Clause<Expr>>
    ensures { result ≡ found }
{
    let Found { tree, height } = found;
    match tree {
        Clause::For(line, target, x) => Found {
            tree: Clause::For(line, target.into_inner(), x.into_inner()),
            height,
        },
        Clause::If(line, x) => Found {
            tree: Clause::If(line, x.into_inner()),
            height,
        },
    }
}

/// What may be there, off the heap.
pub fn maybe_opened<T: Drop>(part: Option<Boxed<T>>) -> Option<T>
    ensures { result ≡ part }
{
    match part {
        Some(x) => Some(x.into_inner()),
        None => None,
    }
}

/// A list with this part alone.
pub fn only<T: Drop>(alloc: Global, part: Found<T>) -> Result<Found<Items<T>>, AllocError>
    ensures { IfOk result (λ list. list ≡ parse.only part) }
{
    let mut tree = Items::new(alloc);
    tree.push(part.tree)?;
    Ok(Found {
        tree,
        height: part.height,
    })
}

/// The list with a part more.
pub fn with_part<T: Drop>(
    list: Found<Items<T>>,
    part: Found<T>,
) -> Result<Found<Items<T>>, AllocError>
    ensures { IfOk result (λ longer. longer ≡ parse.with_part list part) }
{
    let Found { mut tree, height } = list;
    tree.push(part.tree)?;
    Ok(Found {
        tree,
        height: height.max(part.height),
    })
}

/// An operator between its operands.
pub fn combined(line: u32, op: Operator, x: Boxed<Expr>, y: Boxed<Expr>) -> Expr
    ensures { result ≡ grammar.combined line op x y }
{
    match op {
        Operator::Binary(op) => Expr::Binary(line, op, x, y),
        Operator::Junction(op) => Expr::Junction(line, op, x, y),
    }
}

/// An item that stands by itself, without a comma.
pub fn alone(alloc: Global, item: Item<Boxed<Expr>>) -> Result<Boxed<Expr>, AllocError>
    ensures { IfOk result (λ e. e ≡ grammar.alone item) }
{
    match item {
        Item::One(x) => Ok(x),
        Item::Star(line, x) => Boxed::new(alloc, Expr::Star(line, x)),
    }
}

/// A node over parts of this height, if it is no deeper than is allowed.
#[tactic(auto, unfolding(py_grammar::specs::Parse::tall))]
pub fn tall(
    alloc: Global,
    _tokens: &Cursor<'_>,
    line: u32,
    depth: u32,
    height: u32,
    tree: Expr,
) -> Result<Found<Boxed<Expr>>, ParseEnd>
    ensures { Reads (parse.tall depth height tree _tokens.now) result _tokens.now }
{
    let tree = Boxed::new(alloc, tree)?;
    if height >= depth {
        return Err(ParseEnd::Grammar { line });
    }
    Ok(Found {
        tree,
        height: height + 1,
    })
}
