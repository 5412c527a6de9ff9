//! The productions of the grammar, each at a place of a list of tokens, and each on a cursor with the depth that is left.

ghost use Rattle.std.specs.Prelude.{◌≡◌, ◌≤◌, length};
ghost use Rattle.py_grammar.specs.Levels as level;
ghost use Rattle.py_grammar.specs.Grammar.{Expression, Exprs, Targets, Target, SomeParams, Answers};
ghost use Rattle.py_grammar.specs.Parse as spec;
ghost use Rattle.py_grammar.specs.Parse.{Reads};

use crate::grammar::{Grammar, parse};
use py_ast::{Expr, Item, Params, Sign, Target, Token, Word};
use py_cursor::{
    Cursor, EXPRESSION, MAX_DEPTH, Nested, alone, follows_expression, follows_exprs,
    follows_params, follows_target, follows_targets,
};
use py_grammar::{Found, ParseEnd, Row};
use sqlite_items::Boxed;
use std::alloc::Global;

/// An expression that is no deeper than `depth`.
#[tactic(auto, unfolding(py_grammar::specs::Parse::read_level))]
pub fn expression_to(
    alloc: Global,
    tokens: &mut Cursor<'_>,
    depth: u32,
) -> Result<Found<Boxed<Expr>>, ParseEnd>
    ensures { Reads (spec.read_level level.expression depth tokens.old) result tokens.new }
{
    let fuel = tokens.rest().len() + 1;
    parse(alloc, tokens, fuel, EXPRESSION, depth)
}

/// A list of expressions, or one by itself, no deeper than `depth`.
#[tactic(auto, unfolding(py_grammar::specs::Parse::read_exprs))]
pub fn exprs_to(
    alloc: Global,
    tokens: &mut Cursor<'_>,
    depth: u32,
) -> Result<Found<Boxed<Expr>>, ParseEnd>
    ensures { Reads (spec.read_exprs depth tokens.old) result tokens.new }
{
    let fuel = tokens.rest().len() + 1;
    let line = tokens.line();
    Grammar {
        nested: Nested {
            alloc,
            fuel,
            again: parse,
        },
    }
    .row_of(tokens, line, Row::Expressions, depth)
}

/// A list of expressions, or one by itself, no deeper than `depth`, and whether it is an expression by itself, with neither a
/// star nor a comma.
#[tactic(auto, unfolding(py_grammar::specs::Parse::read_row))]
pub fn row_to(
    alloc: Global,
    tokens: &mut Cursor<'_>,
    depth: u32,
) -> Result<(Found<Boxed<Expr>>, bool), ParseEnd>
    ensures { Reads (spec.read_row depth tokens.old) result tokens.new }
{
    let fuel = tokens.rest().len() + 1;
    let line = tokens.line();
    let grammar = Grammar {
        nested: Nested {
            alloc,
            fuel,
            again: parse,
        },
    };
    let first = grammar.nested.item(tokens, Row::Expressions, depth)?;
    let is_alone = match first.tree {
        Item::One(_) => !tokens.sees(Sign::Comma),
        Item::Star(_, _) => false,
    };
    let row = grammar.row_behind(tokens, line, Row::Expressions, depth, first)?;
    Ok((row, is_alone))
}

/// A list of targets, or one by itself, no deeper than `depth`.
#[tactic(auto, unfolding(py_grammar::specs::Parse::read_targets))]
pub fn targets_to(
    alloc: Global,
    tokens: &mut Cursor<'_>,
    depth: u32,
) -> Result<Found<Boxed<Target>>, ParseEnd>
    ensures { Reads (spec.read_targets depth tokens.old) result tokens.new }
{
    let fuel = tokens.rest().len() + 1;
    let line = tokens.line();
    Grammar {
        nested: Nested {
            alloc,
            fuel,
            again: parse,
        },
    }
    .row_of(tokens, line, Row::Targets, depth)
}

/// A target that is no deeper than `depth`.
#[tactic(auto, unfolding(py_grammar::specs::Parse::read_target))]
pub fn target_to(
    alloc: Global,
    tokens: &mut Cursor<'_>,
    depth: u32,
) -> Result<Found<Boxed<Target>>, ParseEnd>
    ensures { Reads (spec.read_target depth tokens.old) result tokens.new }
{
    let fuel = tokens.rest().len() + 1;
    let item = Nested {
        alloc,
        fuel,
        again: parse,
    }
    .item(tokens, Row::Targets, depth)?;
    Ok(Found {
        tree: alone(alloc, item.tree)?,
        height: item.height,
    })
}

/// A yield expression without brackets, no deeper than `depth`.
#[tactic(auto, unfolding(py_grammar::specs::Parse::read_yield))]
pub fn yield_to(
    alloc: Global,
    tokens: &mut Cursor<'_>,
    depth: u32,
) -> Result<Found<Boxed<Expr>>, ParseEnd>
    ensures { Reads (spec.read_yield depth tokens.old) result tokens.new }
{
    if !tokens.sees_word(Word::Yield) {
        return Err(tokens.refuse());
    }
    let fuel = tokens.rest().len() + 1;
    Grammar {
        nested: Nested {
            alloc,
            fuel,
            again: parse,
        },
    }
    .yields(tokens, depth)
}

/// Parameters, or none, no deeper than `depth`.
#[tactic(auto, unfolding(py_grammar::specs::Parse::read_params))]
pub fn params_to(
    alloc: Global,
    tokens: &mut Cursor<'_>,
    depth: u32,
) -> Result<Found<Params>, ParseEnd>
    ensures { Reads (spec.read_params depth tokens.old) result tokens.new }
{
    let fuel = tokens.rest().len() + 1;
    Grammar {
        nested: Nested {
            alloc,
            fuel,
            again: parse,
        },
    }
    .params(tokens, depth)
}

/// The one expression that starts at `at` and is followed by a closing bracket, `,`, `:`, `=`, `;`, an augmented sign, the end of a
/// line, `as`, `for` or `from`, and the place behind it.
///
/// # Errors
///
/// `Grammar` exactly where there is none of height at most 400, `Memory` where memory ends; never `Depth`.
pub fn expression(alloc: Global, tokens: &[Token], at: usize) -> Result<(Expr, usize), ParseEnd>
    requires { at ≤ length tokens.now }
    ensures { Answers Expression level.follows_expression tokens.now at result }
{
    let mut cursor = Cursor::new(&tokens[at..]);
    match expression_to(alloc, &mut cursor, MAX_DEPTH) {
        Ok(found) => {
            if follows_expression(cursor.mark()) {
                Ok((found.tree.into_inner(), tokens.len() - cursor.len()))
            } else {
                Err(cursor.refuse())
            }
        }
        Err(end) => Err(end),
    }
}

/// The one list of expressions, or one by itself, that starts at `at` and is followed as an expression is, but not by `,`, and the
/// place behind it.
///
/// # Errors
///
/// `Grammar` exactly where there is none of height at most 400, `Memory` where memory ends; never `Depth`.
pub fn exprs(alloc: Global, tokens: &[Token], at: usize) -> Result<(Expr, usize), ParseEnd>
    requires { at ≤ length tokens.now }
    ensures { Answers Exprs level.follows_exprs tokens.now at result }
{
    let mut cursor = Cursor::new(&tokens[at..]);
    match exprs_to(alloc, &mut cursor, MAX_DEPTH) {
        Ok(found) => {
            if follows_exprs(cursor.mark()) {
                Ok((found.tree.into_inner(), tokens.len() - cursor.len()))
            } else {
                Err(cursor.refuse())
            }
        }
        Err(end) => Err(end),
    }
}

/// The one list of targets, or one by itself, that starts at `at` and is followed by `in`, and the place behind it.
///
/// # Errors
///
/// `Grammar` exactly where there is none of height at most 400, `Memory` where memory ends; never `Depth`.
pub fn targets(alloc: Global, tokens: &[Token], at: usize) -> Result<(Target, usize), ParseEnd>
    requires { at ≤ length tokens.now }
    ensures { Answers Targets level.follows_targets tokens.now at result }
{
    let mut cursor = Cursor::new(&tokens[at..]);
    match targets_to(alloc, &mut cursor, MAX_DEPTH) {
        Ok(found) => {
            if follows_targets(cursor.mark()) {
                Ok((found.tree.into_inner(), tokens.len() - cursor.len()))
            } else {
                Err(cursor.refuse())
            }
        }
        Err(end) => Err(end),
    }
}

/// The one target that starts at `at` and is followed by `,` or `:`, and the place behind it.
///
/// # Errors
///
/// `Grammar` exactly where there is none of height at most 400, `Memory` where memory ends; never `Depth`.
pub fn target(alloc: Global, tokens: &[Token], at: usize) -> Result<(Target, usize), ParseEnd>
    requires { at ≤ length tokens.now }
    ensures { Answers Target level.follows_target tokens.now at result }
{
    let mut cursor = Cursor::new(&tokens[at..]);
    match target_to(alloc, &mut cursor, MAX_DEPTH) {
        Ok(found) => {
            if follows_target(cursor.mark()) {
                Ok((found.tree.into_inner(), tokens.len() - cursor.len()))
            } else {
                Err(cursor.refuse())
            }
        }
        Err(end) => Err(end),
    }
}

/// Parameters, one at least, no deeper than `depth`.
#[tactic(auto, unfolding(py_grammar::specs::Parse::read_some_params))]
fn some_params_to(
    alloc: Global,
    tokens: &mut Cursor<'_>,
    depth: u32,
) -> Result<Found<Params>, ParseEnd>
    ensures { Reads (spec.read_some_params depth tokens.old) result tokens.new }
{
    let found = params_to(alloc, tokens, depth)?;
    match found.tree.as_slice() {
        [] => Err(tokens.refuse()),
        _ => Ok(found),
    }
}

/// The parameters, one at least, that start at `at` and are followed by `)` or `:`, and the place behind them.
///
/// # Errors
///
/// `Grammar` exactly where there are none of height at most 400, `Memory` where memory ends; never `Depth`.
pub fn params(alloc: Global, tokens: &[Token], at: usize) -> Result<(Params, usize), ParseEnd>
    requires { at ≤ length tokens.now }
    ensures { Answers SomeParams level.follows_params tokens.now at result }
{
    let mut cursor = Cursor::new(&tokens[at..]);
    match some_params_to(alloc, &mut cursor, MAX_DEPTH) {
        Ok(found) => {
            if follows_params(cursor.mark()) {
                Ok((found.tree, tokens.len() - cursor.len()))
            } else {
                Err(cursor.refuse())
            }
        }
        Err(end) => Err(end),
    }
}
