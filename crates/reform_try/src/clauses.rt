//! `try` with `except` clauses.

ghost use Rattle.std.specs.Prelude.{◌≡◌, ◌+◌, ◌<◌, ◌^◌, map, reverse, IfOk, OnOk};
ghost use Rattle.op_forms.specs.declared.constant.Const.TheVariants as constant;
ghost use Rattle.code_forms.specs.declared.operand.Operand.TheVariants as operand;
ghost use Rattle.node_tree.specs.Tree.{block};
ghost use Rattle.node_tree.specs.Blocks.{alone};
ghost use Rattle.node_tree.specs.Blocks as tree;
ghost use Rattle.carries_control.specs.Tries.{try_block, clause_block};
ghost use Rattle.carried_codes.specs.Clauses as spec;
ghost use Rattle.carried_codes.specs.Seats.{stores, unbinds};
ghost use Rattle.reform_names.specs.Homes.{seat_of};
ghost use Rattle.reform_try.specs.Guards.{clause_of, guard_of, bound_of};

use crate::ends::{five, goes_on, two};
use crate::finally::finishing;
use node_tree::{Argument, Block, Node, Operand, Temps};
use op_forms::{Const, Op};
use reform_base::Part;
use reform_blocks::{append, branches, catches, flag, followed, single};
use reform_names::{Home, store, unbind};
use sqlite_items::Items;
use std::alloc::{AllocError, Global};

/// A clause of a `try` statement, whose body is made (reference, section 8.4.1).
#[derive(Drop)]
pub struct Clause {
    /// Its class or classes, if it has any, with the line of that expression.
    pub test: Option<(Part, u32)>,
    /// The temporary in which the body finds the exception.
    pub caught: u64,
    /// The name that it binds.
    pub name: Option<Home>,
    pub body: Block,
    pub line: u32,
}

/// A clause with the temporaries that are drawn for it.
#[derive(Drop)]
enum Guard {
    Any {
        caught: u64,
        body: Block,
    },
    Only {
        line: u32,
        part: Part,
        fits: u64,
        caught: u64,
        body: Block,
    },
}

fn eight(temps: &mut Temps) -> Result<u64, AllocError>
    ensures first { IfOk result (λ first. first ≡ temps.old) }
    ensures room { OnOk result (temps.old + 7 < 2 ^ 64) }
    ensures drawn { OnOk result (temps.new ≡ temps.old + 8) }
{
    let first = five(temps)?;
    let _ = temps.fresh()?;
    let _ = temps.fresh()?;
    let _last = temps.fresh()?;
    Ok(first)
}

// The name is bound to the exception.
fn bound(alloc: Global, home: &Home, caught: u64, line: u32, to: u64) -> Result<Block, AllocError>
    ensures { IfOk result (λ b. block b ≡ alone (stores to line (seat_of home.now) (operand.Temp caught))) }
{
    let shared = home.share()?;
    let node = store(alloc, to, line, shared, Operand::Temp(caught))?;
    let block = single(alloc, node)?;
    Ok(block)
}

// The name is set to None, so that it is bound, and then unbound.
fn unbound(alloc: Global, home: Home, line: u32, next: u64) -> Result<Block, AllocError>
    requires { next + 2 < 2 ^ 64 }
    ensures { IfOk result (λ b. block b ≡ tree.append (alone (stores (next + 1) line (seat_of home) (operand.Const constant.None))) (unbinds (next + 2) line (seat_of home))) }
{
    let shared = home.share()?;
    let none = store(alloc, next + 1, line, shared, Operand::Const(Const::None))?;
    let block = single(alloc, none)?;
    let gone = unbind(alloc, next + 2, line, home)?;
    append(block, gone)
}

// The name is bound to the exception while the body runs, then set to None and unbound.
#[tactic(auto, unfolding(carried_codes::specs::Clauses::name_clause))]
fn named(
    alloc: Global,
    home: Home,
    caught: u64,
    body: Block,
    line: u32,
    next: u64,
) -> Result<Block, AllocError>
    requires { next + 7 < 2 ^ 64 }
    ensures { IfOk result (λ b. block b ≡ (spec.name_clause line (seat_of home) caught (block body) next).block) }
{
    let first = bound(alloc, &home, caught, line, next)?;
    let last = unbound(alloc, home, line, next)?;
    let whole = finishing(alloc, body, last, next + 3)?;
    append(first, whole)
}

#[tactic(auto, unfolding(carried_codes::specs::Clauses::name_clause))]
fn clause_body(
    alloc: Global,
    name: Option<Home>,
    caught: u64,
    body: Block,
    line: u32,
    temps: &mut Temps,
) -> Result<Block, AllocError>
    ensures is { IfOk result (λ b. block b ≡ (spec.clause_body caught (bound_of name line) (block body) temps.old).block) }
    ensures next { OnOk result (temps.new ≡ (spec.clause_body caught (bound_of name line) (block body) temps.old).next) }
{
    match name {
        None => Ok(body),
        Some(home) => {
            let next = eight(temps)?;
            let whole = named(alloc, home, caught, body, line, next)?;
            Ok(whole)
        }
    }
}

fn guard_one(alloc: Global, clause: Clause, temps: &mut Temps) -> Result<Guard, AllocError>
    ensures is { IfOk result (λ g. guard_of g ≡ (spec.guard temps.old (clause_of clause)).guard) }
    ensures next { OnOk result (temps.new ≡ (spec.guard temps.old (clause_of clause)).next) }
{
    let Clause {
        test,
        caught,
        name,
        body,
        line,
    } = clause;
    match test {
        None => Ok(Guard::Any { caught, body }),
        Some((part, at)) => {
            let body = clause_body(alloc, name, caught, body, line, temps)?;
            let fits = temps.fresh()?;
            Ok(Guard::Only {
                line: at,
                part,
                fits,
                caught,
                body,
            })
        }
    }
}

// The last clause first.
fn guards(alloc: Global, clauses: Vec<Clause>, temps: &mut Temps) -> Result<Vec<Guard>, AllocError>
    ensures is { IfOk result (λ gs. map guard_of (reverse gs.items) ≡ (spec.guards temps.old (map clause_of clauses.items)).parts) }
    ensures next { OnOk result (temps.new ≡ (spec.guards temps.old (map clause_of clauses.items)).next) }
{
    let mut left = clauses;
    let mut done = Vec::new(alloc);
    while let Some(clause) = left.pop() {
        let guard = guard_one(alloc, clause, temps)?;
        done.push(guard)?;
    }
    Ok(done)
}

// The exception is handed on to the body of a clause.
fn copied(alloc: Global, caught: u64, exception: u64, body: Block) -> Result<Block, AllocError>
    ensures { IfOk result (λ b. block b ≡ tree.Follow (tree.Copy caught exception) (block body)) }
{
    let block = single(
        alloc,
        Node::Copy {
            to: caught,
            from: exception,
        },
    )?;
    append(block, body)
}

// Whether a class fits is asked, and the clause's body runs, or what stands behind it.
fn only(
    alloc: Global,
    exception: u64,
    line: u32,
    part: Part,
    fits: u64,
    body: Block,
    rest: Block,
) -> Result<Block, AllocError>
    ensures { IfOk result (λ b. block b ≡ clause_block line exception fits (block part.block) part.value (block body) (block rest)) }
{
    let Part {
        block: first,
        value,
    } = part;
    let mut args = Items::new(alloc);
    args.push(Argument::Value(Operand::Temp(exception)))?;
    args.push(Argument::Value(value))?;
    let asked = Node::Do {
        to: fits,
        line,
        op: Op::Match,
        args,
    };
    let behind = single(alloc, asked)?;
    let behind = followed(behind, branches(Operand::Temp(fits), body, rest))?;
    append(first, behind)
}

fn handle(alloc: Global, exception: u64, guard: Guard, rest: Block) -> Result<Block, AllocError>
    ensures { IfOk result (λ b. block b ≡ spec.handle exception (guard_of guard) (block rest)) }
{
    match guard {
        Guard::Any { caught, body } => copied(alloc, caught, exception, body),
        Guard::Only {
            line,
            part,
            fits,
            caught,
            body,
        } => {
            let body = copied(alloc, caught, exception, body)?;
            only(alloc, exception, line, part, fits, body, rest)
        }
    }
}

// The exception is handed to the first clause that fits; the clauses come from the last to the first.
fn handles(alloc: Global, exception: u64, guards: Vec<Guard>) -> Result<Block, AllocError>
    ensures { IfOk result (λ b. block b ≡ spec.handles exception (map guard_of (reverse guards.items))) }
{
    let mut rest = goes_on(alloc, exception)?;
    for guard in guards {
        rest = handle(alloc, exception, guard, rest)?;
    }
    Ok(rest)
}

// The body, and what follows its exception, or none.
fn tried(
    alloc: Global,
    exception: u64,
    body: Block,
    handlers: Block,
    other: Block,
) -> Result<Block, AllocError>
    requires { exception + 1 < 2 ^ 64 }
    ensures { IfOk result (λ b. block b ≡ try_block exception (block body) (block handlers) (block other)) }
{
    let raised = single(alloc, flag(exception + 1, true))?;
    let block = single(alloc, flag(exception + 1, false))?;
    let block = followed(block, catches(exception, body, raised))?;
    let block = followed(
        block,
        branches(Operand::Temp(exception + 1), handlers, other),
    )?;
    Ok(block)
}

/// A `try` statement with `except` clauses and `else` (reference, section 8.4). The parts may write any temporaries that are drawn
/// already, each clause's body such as lie behind that in which it finds the exception.
///
/// # Errors
///
/// Want of memory alone, which is wanting for 2^64 loops in one another too.
#[tactic(auto, unfolding(carried_codes::specs::Clauses::try_block_of))]
pub fn try_except(
    alloc: Global,
    body: Block,
    clauses: Vec<Clause>,
    other: Block,
    temps: &mut Temps,
) -> Result<Block, AllocError>
    ensures is { IfOk result (λ b. block b ≡ (spec.try_except temps.old (block body) (map clause_of clauses.items) (block other)).block) }
    ensures next { OnOk result (temps.new ≡ (spec.try_except temps.old (block body) (map clause_of clauses.items) (block other)).next) }
{
    let guards = guards(alloc, clauses, temps)?;
    let exception = two(temps)?;
    let handlers = handles(alloc, exception, guards)?;
    let whole = tried(alloc, exception, body, handlers, other)?;
    Ok(whole)
}
