//! Operations on any number of operands, and calls.

ghost use Rattle.std.specs.Prelude.{◌≡◌, ℕ, ◌+◌, List, [], ◌∷◌, ◌++◌, map, OnOk, IfOk, slice_get};
ghost use Rattle.op_forms.specs.declared.op.Op.TheVariants as op_named;
ghost use Rattle.op_forms.specs.Signature as signature;
ghost use Rattle.node_tree.specs.Blocks as tree;
ghost use Rattle.node_tree.specs.Contents.{total};
ghost use Rattle.code_forms.specs.declared.operand.Operand.TheVariants as operand;
ghost use Rattle.node_tree.specs.Tree.{block};
ghost use Rattle.py_meaning.specs.Syntax as syntax;
ghost use Rattle.carries_base.specs.Frames.{Homes};
ghost use Rattle.carries_base.specs.Carries.{CarriesExpression};
ghost use Rattle.reform_expr.specs.Arguments.{is_name, argument_of, arguments};
ghost use Rattle.reform_expr.specs.Parts.{Range, CarriesEach, blocks, totals};

use node_tree::{Argument, Block, Node, Operand, Temps};
use op_forms::{ArgumentKind, Const, Op};
use reform_base::{Part, ended, joined};
use sqlite_items::Items;
use std::alloc::{AllocError, Global};

/// Whether the operation takes a bare name at a place.
fn takes_name(op: Op, place: usize) -> bool
    ensures { result ≡ is_name (slice_get (signature.arguments op) place) }
{
    match op.arguments().get(place) {
        Some(ArgumentKind::Name | ArgumentKind::BuiltinName) => true,
        _ => false,
    }
}

fn argument(named: bool, value: Operand) -> Argument
    ensures { result ≡ argument_of named value }
{
    match value {
        Operand::Const(Const::Str(name)) if named => Argument::Name(name),
        other => Argument::Value(other),
    }
}

/// The blocks of operands one after another, and what the operation takes.
fn gathered(alloc: Global, op: Op, parts: Vec<Part>) -> Result<(Block, Items<Argument>), AllocError>
    ensures { IfOk result (λ r. (r.0 ≡ blocks parts.items) × (r.1 ≡ arguments op parts.items)) }
{
    let mut block = Items::new(alloc);
    let mut args = Items::new(alloc);
    for part in parts {
        let named = takes_name(op, args.len());
        args.push(argument(named, part.value))?;
        block = joined(block, part.block)?;
    }
    Ok((block, args))
}

/// The same behind a block, for a call.
fn values(
    alloc: Global,
    first: Block,
    parts: Vec<Part>,
) -> Result<(Block, Items<Operand>), AllocError>
    ensures { IfOk result (λ r. (r.0 ≡ first ++ blocks parts.items) × (r.1 ≡ map (λ p. p.value) parts.items)) }
{
    let mut whole = first;
    let mut args = Items::new(alloc);
    for part in parts {
        args.push(part.value)?;
        whole = joined(whole, part.block)?;
    }
    Ok((whole, args))
}

/// An operation on operands, which are evaluated from left to right (reference, section 6.16). A name that the operation takes comes as
/// a text constant without a block.
///
/// The parts may write any temporaries that are drawn already, each in a range of its own.
///
/// # Errors
///
/// Want of memory alone.
pub fn operate(
    alloc: Global,
    op: Op,
    args: Vec<Part>,
    line: u32,
    temps: &mut Temps,
) -> Result<Part, AllocError>
    ensures carries { IfOk result (λ p. (h : Homes) (low : ℕ) (xs : syntax.Expressions) (rs : List Range) → CarriesEach h low temps.old xs args.items rs → CarriesExpression h low temps.new (syntax.Operation line op xs) (block p.block) p.value) }
    ensures contents { IfOk result (λ p. (count : tree.Form → ℕ) → total count (block p.block) ≡ totals count args.items + count (tree.Do temps.old line op (arguments op args.items))) }
    ensures value { IfOk result (λ p. p.value ≡ operand.Temp temps.old) }
    ensures drawn { OnOk result (temps.new ≡ temps.old + 1) }
{
    let (first, args) = gathered(alloc, op, args)?;
    let to = temps.fresh()?;
    let block = ended(first, Node::Do { to, line, op, args })?;
    Ok(Part {
        block,
        value: Operand::Temp(to),
    })
}

/// A call with positional arguments alone: the function is evaluated first, then they from left to right (reference, section 6.3.4).
///
/// # Errors
///
/// Want of memory alone.
pub fn call(
    alloc: Global,
    function: Part,
    args: Vec<Part>,
    line: u32,
    temps: &mut Temps,
) -> Result<Part, AllocError>
    ensures carries { IfOk result (λ p. (h : Homes) (low : ℕ) (f : syntax.Expression) (xs : syntax.Expressions) (rs : List Range) → CarriesEach h low temps.old (syntax.More f xs) (function ∷ args.items) rs → CarriesExpression h low temps.new (syntax.Operation line op_named.Call (syntax.More f xs)) (block p.block) p.value) }
    ensures contents { IfOk result (λ p. (count : tree.Form → ℕ) → total count (block p.block) ≡ totals count (function ∷ args.items) + count (tree.Call temps.old line function.value (map (λ a. a.value) args.items))) }
    ensures value { IfOk result (λ p. p.value ≡ operand.Temp temps.old) }
    ensures drawn { OnOk result (temps.new ≡ temps.old + 1) }
{
    let Part {
        block: first,
        value: function,
    } = function;
    let (first, args) = values(alloc, first, args)?;
    let to = temps.fresh()?;
    let block = ended(
        first,
        Node::Call {
            to,
            line,
            function,
            args,
        },
    )?;
    Ok(Part {
        block,
        value: Operand::Temp(to),
    })
}
