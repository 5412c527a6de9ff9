//! Simple statements (reference, chapter 7), no deeper than `depth`.

ghost use Rattle.std.specs.Prelude.{◌≡◌, max};
ghost use Rattle.py_grammar.specs.Parse.{Reads};
ghost use Rattle.py_statements.specs.Parse as spec;

use crate::names::names;
use crate::nodes::made;
use crate::parts::{maybe_expression, maybe_exprs, message, right};
use crate::words::{augmented, is_newline};
use py_ast::{Expr, Sign, Stmt, Word};
use py_cursor::{Cursor, maybe_opened, only, opened, with_part};
use py_expr::{expression_to, exprs_to, row_to, yield_to};
use py_grammar::{Found, Mark, ParseEnd};
use sqlite_items::{Boxed, Items};
use std::alloc::Global;

/// The assignment of a value to targets.
fn assign(
    tokens: &Cursor<'_>,
    line: u32,
    depth: u32,
    targets: Found<Items<Expr>>,
    x: Found<Boxed<Expr>>,
) -> Result<Found<Stmt>, ParseEnd>
    ensures { Reads (spec.made depth (max targets.height x.height) (Stmt.Assign line targets.tree x.tree) tokens.now) result tokens.now }
{
    let height = targets.height.max(x.height);
    made(
        tokens,
        line,
        depth,
        height,
        Stmt::Assign(line, targets.tree, x.tree.into_inner()),
    )
}

/// An assignment (reference, section 7.2), behind its first `=`, with the targets before it.
fn assigned_from(
    alloc: Global,
    tokens: &mut Cursor<'_>,
    line: u32,
    depth: u32,
    turns: usize,
    mut targets: Found<Items<Expr>>,
) -> Result<Found<Stmt>, ParseEnd>
    ensures { Reads (spec.assigned_from line depth turns targets tokens.old) result tokens.new }
{
    for _turn in 0..turns {
        if tokens.sees_word(Word::Yield) {
            let x = yield_to(alloc, tokens, depth.saturating_sub(1))?;
            return assign(tokens, line, depth, targets, x);
        }
        let x = exprs_to(alloc, tokens, depth.saturating_sub(1))?;
        if !tokens.sees(Sign::Equal) {
            return assign(tokens, line, depth, targets, x);
        }
        tokens.take();
        targets = with_part(targets, opened(x))?;
    }
    Err(tokens.refuse())
}

/// An assignment, behind its first target and `=`.
#[tactic(auto, unfolding(py_statements::specs::Parse::assigned))]
fn assigned(
    alloc: Global,
    tokens: &mut Cursor<'_>,
    line: u32,
    depth: u32,
    first: Found<Boxed<Expr>>,
) -> Result<Found<Stmt>, ParseEnd>
    ensures { Reads (spec.assigned line depth first tokens.old) result tokens.new }
{
    let targets = only(alloc, opened(first))?;
    let turns = tokens.len();
    assigned_from(alloc, tokens, line, depth, turns, targets)
}

/// A statement behind its first list of expressions.
#[tactic(auto, unfolding(py_statements::specs::Parse::behind_row))]
fn behind_row(
    alloc: Global,
    tokens: &mut Cursor<'_>,
    line: u32,
    depth: u32,
    x: Found<Boxed<Expr>>,
    is_alone: bool,
) -> Result<Found<Stmt>, ParseEnd>
    ensures { Reads (spec.behind_row line depth x is_alone tokens.old) result tokens.new }
{
    if tokens.sees(Sign::Equal) {
        tokens.take();
        return assigned(alloc, tokens, line, depth, x);
    }
    match augmented(tokens.mark()) {
        Some(op) => {
            if !is_alone {
                return Err(tokens.refuse());
            }
            tokens.take();
            let y = right(alloc, tokens, depth.saturating_sub(1))?;
            let height = x.height.max(y.height);
            made(
                tokens,
                line,
                depth,
                height,
                Stmt::Augment(line, x.tree.into_inner(), op, y.tree.into_inner()),
            )
        }
        None => made(
            tokens,
            line,
            depth,
            x.height,
            Stmt::Expr(line, x.tree.into_inner()),
        ),
    }
}

/// A statement that begins with a list of expressions.
#[tactic(auto, unfolding(py_statements::specs::Parse::row_statement))]
fn row_statement(
    alloc: Global,
    tokens: &mut Cursor<'_>,
    depth: u32,
) -> Result<Found<Stmt>, ParseEnd>
    ensures { Reads (spec.row_statement depth tokens.old) result tokens.new }
{
    let line = tokens.line();
    let (x, is_alone) = row_to(alloc, tokens, depth.saturating_sub(1))?;
    behind_row(alloc, tokens, line, depth, x, is_alone)
}

#[tactic(auto, unfolding(py_statements::specs::Parse::yield_statement))]
fn yield_statement(
    alloc: Global,
    tokens: &mut Cursor<'_>,
    depth: u32,
) -> Result<Found<Stmt>, ParseEnd>
    ensures { Reads (spec.yield_statement depth tokens.old) result tokens.new }
{
    let line = tokens.line();
    let x = yield_to(alloc, tokens, depth.saturating_sub(1))?;
    made(
        tokens,
        line,
        depth,
        x.height,
        Stmt::Expr(line, x.tree.into_inner()),
    )
}

#[tactic(auto, unfolding(py_statements::specs::Parse::return_statement))]
fn return_statement(
    alloc: Global,
    tokens: &mut Cursor<'_>,
    depth: u32,
) -> Result<Found<Stmt>, ParseEnd>
    ensures { Reads (spec.return_statement depth tokens.old) result tokens.new }
{
    let line = tokens.take();
    let x = maybe_exprs(alloc, tokens, depth.saturating_sub(1))?;
    made(
        tokens,
        line,
        depth,
        x.height,
        Stmt::Return(line, maybe_opened(x.tree)),
    )
}

#[tactic(auto, unfolding(py_statements::specs::Parse::raise_statement))]
fn raise_statement(
    alloc: Global,
    tokens: &mut Cursor<'_>,
    depth: u32,
) -> Result<Found<Stmt>, ParseEnd>
    ensures { Reads (spec.raise_statement depth tokens.old) result tokens.new }
{
    let line = tokens.take();
    let x = maybe_expression(alloc, tokens, depth.saturating_sub(1))?;
    made(
        tokens,
        line,
        depth,
        x.height,
        Stmt::Raise(line, maybe_opened(x.tree)),
    )
}

#[tactic(auto, unfolding(py_statements::specs::Parse::del_statement))]
fn del_statement(
    alloc: Global,
    tokens: &mut Cursor<'_>,
    depth: u32,
) -> Result<Found<Stmt>, ParseEnd>
    ensures { Reads (spec.del_statement depth tokens.old) result tokens.new }
{
    let line = tokens.take();
    let x = exprs_to(alloc, tokens, depth.saturating_sub(1))?;
    made(
        tokens,
        line,
        depth,
        x.height,
        Stmt::Del(line, x.tree.into_inner()),
    )
}

#[tactic(auto, unfolding(py_statements::specs::Parse::assert_statement))]
fn assert_statement(
    alloc: Global,
    tokens: &mut Cursor<'_>,
    depth: u32,
) -> Result<Found<Stmt>, ParseEnd>
    ensures { Reads (spec.assert_statement depth tokens.old) result tokens.new }
{
    let line = tokens.take();
    let x = expression_to(alloc, tokens, depth.saturating_sub(1))?;
    let y = message(alloc, tokens, depth.saturating_sub(1))?;
    let height = x.height.max(y.height);
    made(
        tokens,
        line,
        depth,
        height,
        Stmt::Assert(line, x.tree.into_inner(), maybe_opened(y.tree)),
    )
}

/// A simple statement.
#[tactic(auto, unfolding(py_statements::specs::Parse::simple))]
fn simple(alloc: Global, tokens: &mut Cursor<'_>, depth: u32) -> Result<Found<Stmt>, ParseEnd>
    ensures { Reads (spec.simple depth tokens.old) result tokens.new }
{
    match tokens.mark() {
        Mark::Keyword(Word::Pass) => {
            let line = tokens.take();
            made(tokens, line, depth, 0, Stmt::Pass(line))
        }
        Mark::Keyword(Word::Break) => {
            let line = tokens.take();
            made(tokens, line, depth, 0, Stmt::Break(line))
        }
        Mark::Keyword(Word::Continue) => {
            let line = tokens.take();
            made(tokens, line, depth, 0, Stmt::Continue(line))
        }
        Mark::Keyword(Word::Return) => return_statement(alloc, tokens, depth),
        Mark::Keyword(Word::Raise) => raise_statement(alloc, tokens, depth),
        Mark::Keyword(Word::Del) => del_statement(alloc, tokens, depth),
        Mark::Keyword(Word::Assert) => assert_statement(alloc, tokens, depth),
        Mark::Keyword(Word::Global) => {
            let line = tokens.take();
            let all = names(alloc, tokens)?;
            made(tokens, line, depth, 0, Stmt::Global(line, all))
        }
        Mark::Keyword(Word::Nonlocal) => {
            let line = tokens.take();
            let all = names(alloc, tokens)?;
            made(tokens, line, depth, 0, Stmt::Nonlocal(line, all))
        }
        Mark::Keyword(Word::Yield) => yield_statement(alloc, tokens, depth),
        _ => row_statement(alloc, tokens, depth),
    }
}

/// The simple statements of a line, behind the statements before it.
pub fn line(
    alloc: Global,
    tokens: &mut Cursor<'_>,
    depth: u32,
    mut list: Found<Items<Stmt>>,
) -> Result<Found<Items<Stmt>>, ParseEnd>
    ensures { Reads (spec.one_line depth list tokens.old) result tokens.new }
{
    let turns = tokens.len();
    for _turn in 0..turns {
        let x = simple(alloc, tokens, depth)?;
        let is_closed = tokens.eat(Sign::Semicolon);
        list = with_part(list, x)?;
        if is_newline(tokens.mark()) {
            tokens.take();
            return Ok(list);
        }
        if !is_closed {
            return Err(tokens.refuse());
        }
    }
    Err(tokens.refuse())
}
