//! Classes.

ghost use Rattle.std.specs.Prelude.{◌≡◌, ◌+◌, ◌<◌, ◌^◌, [], ◌∷◌, map, length, IfOk};
ghost use Rattle.op_forms.specs.declared.op.Op.TheVariants as op_named;
ghost use Rattle.code_forms.specs.declared.operand.Argument.TheVariants as argument;
ghost use Rattle.node_tree.specs.Blocks as tree;
ghost use Rattle.node_tree.specs.Blocks.{of_temp};
ghost use Rattle.node_tree.specs.Tree.{form, block};
ghost use Rattle.carried_codes.specs.Expressions as expressions;
ghost use Rattle.reform_blocks.specs.Parts.{carrier};
ghost use Rattle.reform_values.specs.Values.{valued_of};
ghost use Rattle.reform_functions.specs.Marks.{decorator_of};

use crate::decorators::{Decorator, decorated, marked};
use crate::functions::bare_function;
use node_tree::{Argument, Block, Node, Operand};
use nu_text::RcStr;
use op_forms::Op;
use reform_base::Part;
use reform_blocks::{append, followed, single};
use reform_values::{Valued, on_none, on_two};
use sqlite_items::Items;
use std::alloc::{AllocError, Global};

// A class of the names in a temporary.
fn class_of(
    alloc: Global,
    name: RcStr,
    base: Operand,
    names: u64,
    line: u32,
    to: u64,
) -> Result<Node, AllocError>
    ensures { IfOk result (λ n. form n ≡ tree.Do to line op_named.Class (argument.Name name ∷ argument.Value base ∷ of_temp names ∷ [])) }
{
    let mut args = Items::new(alloc);
    args.push(Argument::Name(name))?;
    args.push(Argument::Value(base))?;
    args.push(Argument::Value(Operand::Temp(names)))?;
    Ok(Node::Do {
        to,
        line,
        op: Op::Class,
        args,
    })
}

// Its names, the function of its code, which is called with them, and the class.
fn class(
    alloc: Global,
    code: u32,
    name: RcStr,
    cells: Vec<u64>,
    base: Operand,
    line: u32,
    next: u64,
) -> Result<Block, AllocError>
    requires { next + 6 < 2 ^ 64 }
    ensures { IfOk result (λ b. block b ≡ expressions.class_block line code name cells.items base next) }
{
    let made = class_of(alloc, name, base, next, line, next + 5)?;
    let function = bare_function(alloc, code, cells, line, next + 1)?;
    let called = on_two(
        alloc,
        next + 4,
        line,
        Op::Call,
        Operand::Temp(next + 1 + 2),
        Operand::Temp(next),
    )?;
    let behind = single(alloc, called)?;
    let behind = followed(behind, made)?;
    let behind = append(function, behind)?;
    let whole = single(alloc, on_none(alloc, next, line, Op::Space))?;
    append(whole, behind)
}

/// A class with its decorators and its base, `name` as its name and the temporaries of the cells that its block gets (reference, section
/// 8.8).
///
/// # Errors
///
/// Want of memory alone.
pub fn make_class(
    alloc: Global,
    code: u32,
    name: RcStr,
    decorators: Vec<Decorator>,
    base: Part,
    cells: Vec<u64>,
    line: u32,
    next: u64,
) -> Result<Valued, AllocError>
    requires { next + 6 + length decorators.items < 2 ^ 64 }
    ensures { IfOk result (λ v. valued_of v ≡ expressions.make_class line code name (map decorator_of decorators.items) (carrier base) cells.items next) }
{
    let Part {
        block: before,
        value,
    } = base;
    let made = class(alloc, code, name, cells, value, line, next)?;
    let (first, marks) = marked(alloc, decorators)?;
    let first = append(first, before)?;
    let whole = append(first, made)?;
    let part = Part {
        block: whole,
        value: Operand::Temp(next + 5),
    };
    let defined = decorated(alloc, marks, part, next + 6)?;
    Ok(defined)
}
