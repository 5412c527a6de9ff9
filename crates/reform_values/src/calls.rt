//! Calls with stars or keywords.

ghost use Rattle.std.specs.Prelude.{◌≡◌, ◌+◌, ◌<◌, ◌^◌, [], ◌∷◌, map, false, IfOk};
ghost use Rattle.op_forms.specs.declared.op.Op.TheVariants as op_named;
ghost use Rattle.code_forms.specs.declared.operand.Argument.TheVariants as argument;
ghost use Rattle.node_tree.specs.Blocks as tree;
ghost use Rattle.node_tree.specs.Blocks.{of_temp};
ghost use Rattle.node_tree.specs.Tree.{form, block};
ghost use Rattle.carries_values.specs.Calls.{keywords_block, key_block};
ghost use Rattle.carried_codes.specs.Expressions as expressions;
ghost use Rattle.reform_blocks.specs.Parts.{carrier};
ghost use Rattle.reform_values.specs.Passing as passing;
ghost use Rattle.reform_values.specs.Values.{valued_of};

use crate::made::{Valued, added, left_in, on_none};
use node_tree::{Argument, Block, Node, Operand};
use nu_text::RcStr;
use op_forms::{Const, Op};
use reform_base::Part;
use reform_blocks::{append, followed, single};
use sqlite_items::Items;
use std::alloc::{AllocError, Global};

/// An argument of a call (reference, section 6.3.4).
#[derive(Drop)]
pub enum Passed {
    Plain(Part),
    /// All items of this value.
    Star(Part),
    /// A value by the name of its parameter.
    Key { name: RcStr, value: Part },
    /// All entries of this value, by their names.
    Merge(Part),
}

// The dict of keywords is made, unless it is there, in front of a block.
fn keywords(
    alloc: Global,
    begun: bool,
    rest: Block,
    line: u32,
    to: u64,
) -> Result<Block, AllocError>
    ensures { IfOk result (λ b. block b ≡ keywords_block line to begun (block rest)) }
{
    if begun {
        return Ok(rest);
    }
    let dict = single(alloc, on_none(alloc, to, line, Op::Dict))?;
    append(dict, rest)
}

// The value of a part goes into the dict in a temporary, under this name, by the next temporary.
fn keyed(
    alloc: Global,
    name: RcStr,
    value: Part,
    line: u32,
    keywords: u64,
    by: u64,
) -> Result<Block, AllocError>
    ensures { IfOk result (λ b. block b ≡ key_block line keywords by name (carrier value) tree.Stop) }
{
    let mut args = Items::new(alloc);
    args.push(Argument::Value(Operand::Temp(keywords)))?;
    args.push(Argument::Value(Operand::Const(Const::Str(name))))?;
    args.push(Argument::Value(value.value))?;
    let made = Node::Do {
        to: by,
        line,
        op: Op::KeyPut,
        args,
    };
    followed(value.block, made)
}

// An argument, and whether the dict of keywords is there behind it.
fn pass(
    alloc: Global,
    begun: bool,
    arg: Passed,
    line: u32,
    next: u64,
) -> Result<(Block, bool), AllocError>
    requires { next + 4 < 2 ^ 64 }
    ensures { IfOk result (λ r. (block r.0 ≡ passing.pass_one line next begun (passing.passed_of arg)) × (r.1 ≡ passing.begun_by begun (passing.passed_of arg))) }
{
    match arg {
        Passed::Plain(part) => {
            let block = added(alloc, next, next + 2, line, Op::Push, part)?;
            Ok((block, begun))
        }
        Passed::Star(part) => {
            let block = added(alloc, next, next + 2, line, Op::Extend, part)?;
            Ok((block, begun))
        }
        Passed::Key { name, value } => {
            let put = keyed(alloc, name, value, line, next + 1, next + 2)?;
            let block = keywords(alloc, begun, put, line, next + 1)?;
            Ok((block, true))
        }
        Passed::Merge(part) => {
            let merged = added(alloc, next + 1, next + 2, line, Op::KeyMerge, part)?;
            let block = keywords(alloc, begun, merged, line, next + 1)?;
            Ok((block, true))
        }
    }
}

// Arguments behind a block.
fn handed(
    alloc: Global,
    first: Block,
    args: Vec<Passed>,
    line: u32,
    next: u64,
) -> Result<(Block, bool), AllocError>
    requires { next + 4 < 2 ^ 64 }
    ensures { IfOk result (λ r. (block r.0 ≡ tree.append (block first) (passing.pass_all line next false (map passing.passed_of args.items))) × (r.1 ≡ passing.begun_by_all false (map passing.passed_of args.items))) }
{
    let mut whole = first;
    let mut begun = false;
    for arg in args {
        let (one, there) = pass(alloc, begun, arg, line, next)?;
        whole = append(whole, one)?;
        begun = there;
    }
    Ok((whole, begun))
}

// The call itself, of a list and a dict.
fn called_with(alloc: Global, function: Operand, line: u32, next: u64) -> Result<Node, AllocError>
    requires { next + 4 < 2 ^ 64 }
    ensures { IfOk result (λ n. form n ≡ tree.Do (next + 3) line op_named.CallX (argument.Value function ∷ of_temp next ∷ of_temp (next + 1) ∷ [])) }
{
    let mut args = Items::new(alloc);
    args.push(Argument::Value(function))?;
    args.push(Argument::Value(Operand::Temp(next)))?;
    args.push(Argument::Value(Operand::Temp(next + 1)))?;
    Ok(Node::Do {
        to: next + 3,
        line,
        op: Op::CallX,
        args,
    })
}

/// A call with stars or keywords: what is called is evaluated first, then the arguments from left to right (reference, section 6.3.4).
///
/// # Errors
///
/// Want of memory alone.
pub fn call(
    alloc: Global,
    function: Part,
    args: Vec<Passed>,
    line: u32,
    next: u64,
) -> Result<Valued, AllocError>
    requires { next + 4 < 2 ^ 64 }
    ensures { IfOk result (λ v. valued_of v ≡ expressions.call line (carrier function) (map passing.passed_of args.items) next) }
{
    let Part {
        block: first,
        value,
    } = function;
    let made = called_with(alloc, value, line, next)?;
    let last = single(alloc, made)?;
    let first = followed(first, on_none(alloc, next, line, Op::List))?;
    let (first, begun) = handed(alloc, first, args, line, next)?;
    let last = keywords(alloc, begun, last, line, next + 1)?;
    let whole = append(first, last)?;
    Ok(left_in(whole, next + 3, next + 4))
}
