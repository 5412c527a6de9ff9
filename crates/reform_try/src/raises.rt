//! `raise` and `assert`.

ghost use Rattle.std.specs.Prelude.{◌≡◌, ℕ, ◌+◌, ◌<◌, ◌^◌, [], ◌∷◌, map, IfOk, OnOk};
ghost use Rattle.code_forms.specs.declared.operand.Argument.TheVariants as argument;
ghost use Rattle.node_tree.specs.Tree.{block};
ghost use Rattle.carries_base.specs.Carries.{joined};
ghost use Rattle.carries_control.specs.Raises.{raise_block, fails_block};
ghost use Rattle.carried_codes.specs.Parts.{made};
ghost use Rattle.carried_codes.specs.Statements as statements;
ghost use Rattle.reform_blocks.specs.Parts.{carrier};
ghost use Rattle.reform_try.specs.Texts.{texts_of, arguments_of};

use crate::ends::{five, goes_on, two};
use node_tree::{Argument, Block, Node, Operand, Temps};
use op_forms::Op;
use reform_base::Part;
use reform_blocks::{append, branches, followed, native, operation, single};
use sqlite_items::Items;
use std::alloc::{AllocError, Global};

// What an operand holds is raised.
fn raises(alloc: Global, value: Operand, next: u64, line: u32) -> Result<Block, AllocError>
    requires { next + 1 < 2 ^ 64 }
    ensures { IfOk result (λ b. block b ≡ raise_block line next value) }
{
    let exception = operation(alloc, next, line, Op::Exc, value)?;
    let raised = operation(alloc, next + 1, line, Op::Raise, Operand::Temp(next))?;
    let block = single(alloc, exception)?;
    let block = followed(block, raised)?;
    Ok(block)
}

/// A `raise` statement with its exception or class (reference, section 7.8).
///
/// # Errors
///
/// Want of memory alone.
#[tactic(auto, unfolding(carried_codes::specs::Statements::raise_value))]
pub fn raise_value(
    alloc: Global,
    value: Part,
    line: u32,
    temps: &mut Temps,
) -> Result<Block, AllocError>
    ensures is { IfOk result (λ b. block b ≡ (statements.raise_value line (carrier value) temps.old).block) }
    ensures next { OnOk result (temps.new ≡ (statements.raise_value line (carrier value) temps.old).next) }
{
    let next = two(temps)?;
    let Part {
        block: first,
        value,
    } = value;
    let raised = raises(alloc, value, next, line)?;
    let whole = append(first, raised)?;
    Ok(whole)
}

/// A bare `raise`: the exception of the `except` clause around it, in a temporary, is raised again (reference, section 7.8). Where none
/// is around it, nothing is done.
///
/// # Errors
///
/// Want of memory alone.
pub fn raise_again(alloc: Global, caught: Option<u64>) -> Result<Block, AllocError>
    ensures { IfOk result (λ b. (next : ℕ) → statements.raise_again caught next ≡ made (block b) next) }
{
    match caught {
        None => Ok(Items::new(alloc)),
        Some(exception) => goes_on(alloc, exception),
    }
}

// An AssertionError of a text, if there is one, is raised.
fn fails(alloc: Global, text: Option<Operand>, next: u64, line: u32) -> Result<Block, AllocError>
    requires { next + 3 < 2 ^ 64 }
    ensures { IfOk result (λ b. block b ≡ fails_block line next (arguments_of text)) }
{
    let mut args = Items::new(alloc);
    args.push(Argument::Value(Operand::Temp(next)))?;
    if let Some(value) = text {
        args.push(Argument::Value(value))?;
    }
    let class = native(alloc, next, line, "AssertionError")?;
    let raised = raises(alloc, Operand::Temp(next + 1), next + 2, line)?;
    let block = single(alloc, class)?;
    let made = Node::Do {
        to: next + 1,
        line,
        op: Op::Call,
        args,
    };
    let block = followed(block, made)?;
    let whole = append(block, raised)?;
    Ok(whole)
}

// The text is evaluated first.
fn fails_with(alloc: Global, text: Option<Part>, next: u64, line: u32) -> Result<Block, AllocError>
    requires { next + 3 < 2 ^ 64 }
    ensures { IfOk result (λ b. block b ≡ joined (texts_of text) (fails_block line next (map (λ p. argument.Value p.value) (texts_of text)))) }
{
    match text {
        None => fails(alloc, None, next, line),
        Some(text) => {
            let Part {
                block: first,
                value,
            } = text;
            let raised = fails(alloc, Some(value), next, line)?;
            append(first, raised)
        }
    }
}

/// An `assert` statement with its text, if there is one, which is evaluated where the test is false (reference, section 7.3).
///
/// # Errors
///
/// Want of memory alone.
#[tactic(auto, unfolding(carried_codes::specs::Statements::assert_that))]
pub fn assert_that(
    alloc: Global,
    test: Part,
    text: Option<Part>,
    line: u32,
    temps: &mut Temps,
) -> Result<Block, AllocError>
    ensures is { IfOk result (λ b. block b ≡ (statements.assert_that line (carrier test) (texts_of text) temps.old).block) }
    ensures next { OnOk result (temps.new ≡ (statements.assert_that line (carrier test) (texts_of text) temps.old).next) }
{
    let truth = five(temps)?;
    let Part {
        block: first,
        value,
    } = test;
    let asked = operation(alloc, truth, line, Op::Truth, value)?;
    let failed = fails_with(alloc, text, truth + 1, line)?;
    let behind = single(alloc, asked)?;
    let behind = followed(
        behind,
        branches(Operand::Temp(truth), Items::new(alloc), failed),
    )?;
    let whole = append(first, behind)?;
    Ok(whole)
}
