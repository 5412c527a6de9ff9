//! Expressions in statements, the items of `with`, decorators and a base class, no deeper than `depth`.

ghost use Rattle.std.specs.Prelude.{◌≡◌};
ghost use Rattle.py_grammar.specs.Parse.{Reads};
ghost use Rattle.py_statements.specs.Parse as spec;

use crate::nodes::{newline, nothing};
use crate::words::is_form;
use py_ast::{Expr, Manager, Sign, Word};
use py_cursor::{Cursor, EXPRESSION, begins_item, can_begin, opened, with_part};
use py_expr::{expression_to, exprs_to, target_to, yield_to};
use py_grammar::{Found, ParseEnd, Row};
use sqlite_items::{Boxed, Items};
use std::alloc::Global;

/// A list of expressions, or `yield`.
#[tactic(auto, unfolding(py_statements::specs::Parse::right))]
pub fn right(
    alloc: Global,
    tokens: &mut Cursor<'_>,
    depth: u32,
) -> Result<Found<Boxed<Expr>>, ParseEnd>
    ensures { Reads (spec.right depth tokens.old) result tokens.new }
{
    if tokens.sees_word(Word::Yield) {
        return yield_to(alloc, tokens, depth);
    }
    exprs_to(alloc, tokens, depth)
}

/// A list of expressions, if one comes next.
#[tactic(auto, unfolding(py_statements::specs::Parse::maybe_exprs))]
pub fn maybe_exprs(
    alloc: Global,
    tokens: &mut Cursor<'_>,
    depth: u32,
) -> Result<Found<Option<Boxed<Expr>>>, ParseEnd>
    ensures { Reads (spec.maybe_exprs depth tokens.old) result tokens.new }
{
    if !begins_item(Row::Expressions, tokens.mark()) {
        return Ok(Found {
            tree: None,
            height: 0,
        });
    }
    let x = exprs_to(alloc, tokens, depth)?;
    Ok(Found {
        tree: Some(x.tree),
        height: x.height,
    })
}

/// An expression, if one comes next.
#[tactic(auto, unfolding(py_statements::specs::Parse::maybe_expression))]
pub fn maybe_expression(
    alloc: Global,
    tokens: &mut Cursor<'_>,
    depth: u32,
) -> Result<Found<Option<Boxed<Expr>>>, ParseEnd>
    ensures { Reads (spec.maybe_expression depth tokens.old) result tokens.new }
{
    if !can_begin(EXPRESSION, tokens.mark()) {
        return Ok(Found {
            tree: None,
            height: 0,
        });
    }
    let x = expression_to(alloc, tokens, depth)?;
    Ok(Found {
        tree: Some(x.tree),
        height: x.height,
    })
}

/// A comma and an expression, if they come next.
#[tactic(auto, unfolding(py_statements::specs::Parse::message))]
pub fn message(
    alloc: Global,
    tokens: &mut Cursor<'_>,
    depth: u32,
) -> Result<Found<Option<Boxed<Expr>>>, ParseEnd>
    ensures { Reads (spec.message depth tokens.old) result tokens.new }
{
    if !tokens.sees(Sign::Comma) {
        return Ok(Found {
            tree: None,
            height: 0,
        });
    }
    tokens.take();
    let x = expression_to(alloc, tokens, depth)?;
    Ok(Found {
        tree: Some(x.tree),
        height: x.height,
    })
}

/// An item of `with`, behind its expression.
#[tactic(auto, unfolding(py_statements::specs::Parse::as_target))]
fn as_target(
    alloc: Global,
    tokens: &mut Cursor<'_>,
    depth: u32,
    x: Found<Boxed<Expr>>,
) -> Result<Found<Manager>, ParseEnd>
    ensures { Reads (spec.as_target depth x tokens.old) result tokens.new }
{
    if !tokens.sees_word(Word::As) {
        return Ok(Found {
            tree: Manager {
                value: x.tree.into_inner(),
                target: None,
            },
            height: x.height,
        });
    }
    tokens.take();
    let y = target_to(alloc, tokens, depth)?;
    Ok(Found {
        tree: Manager {
            value: x.tree.into_inner(),
            target: Some(y.tree.into_inner()),
        },
        height: x.height.max(y.height),
    })
}

/// An item of `with` (reference, section 8.5).
#[tactic(auto, unfolding(py_statements::specs::Parse::manager))]
fn manager(alloc: Global, tokens: &mut Cursor<'_>, depth: u32) -> Result<Found<Manager>, ParseEnd>
    ensures { Reads (spec.manager depth tokens.old) result tokens.new }
{
    let line = tokens.line();
    let before = tokens.rest();
    let x = expression_to(alloc, tokens, depth)?;
    let used = before.len().saturating_sub(tokens.len());
    if is_form(x.tree.get(), &before[..used]) {
        return Err(ParseEnd::Grammar { line });
    }
    as_target(alloc, tokens, depth, x)
}

/// The items of `with`.
pub fn managers(
    alloc: Global,
    tokens: &mut Cursor<'_>,
    depth: u32,
) -> Result<Found<Items<Manager>>, ParseEnd>
    ensures { Reads (spec.managers depth tokens.old) result tokens.new }
{
    let turns = tokens.len();
    let mut list = nothing(alloc);
    for _turn in 0..turns {
        let x = manager(alloc, tokens, depth)?;
        list = with_part(list, x)?;
        if !tokens.eat(Sign::Comma) {
            return Ok(list);
        }
    }
    Err(tokens.refuse())
}

/// Decorators (reference, section 8.7), or none.
pub fn decorators(
    alloc: Global,
    tokens: &mut Cursor<'_>,
    depth: u32,
) -> Result<Found<Items<Expr>>, ParseEnd>
    ensures { Reads (spec.decorators depth tokens.old) result tokens.new }
{
    let turns = tokens.rest().len() + 1;
    let mut list = nothing(alloc);
    for _turn in 0..turns {
        if !tokens.sees(Sign::At) {
            return Ok(list);
        }
        tokens.take();
        let x = expression_to(alloc, tokens, depth)?;
        list = with_part(list, opened(x))?;
        newline(tokens)?;
    }
    Err(tokens.refuse())
}

/// The base of a class in brackets, if they come next (reference, section 8.8).
#[tactic(auto, unfolding(py_statements::specs::Parse::base_class))]
pub fn base_class(
    alloc: Global,
    tokens: &mut Cursor<'_>,
    depth: u32,
) -> Result<Found<Option<Boxed<Expr>>>, ParseEnd>
    ensures { Reads (spec.base_class depth tokens.old) result tokens.new }
{
    if !tokens.sees(Sign::LeftParen) {
        return Ok(Found {
            tree: None,
            height: 0,
        });
    }
    tokens.take();
    let x = maybe_expression(alloc, tokens, depth)?;
    tokens.expect(Sign::RightParen)?;
    Ok(x)
}
