//! Functions.

ghost use Rattle.std.specs.Prelude.{◌≡◌, ◌+◌, ◌<◌, ◌^◌, pos, [], ◌∷◌, map, length, IfOk};
ghost use Rattle.op_forms.specs.declared.constant.Const.TheVariants as const;
ghost use Rattle.op_forms.specs.declared.op.Op.TheVariants as op_named;
ghost use Rattle.code_forms.specs.declared.operand.Argument.TheVariants as argument;
ghost use Rattle.code_forms.specs.declared.operand.Operand.TheVariants as operand;
ghost use Rattle.node_tree.specs.Blocks as tree;
ghost use Rattle.node_tree.specs.Blocks.{of_temp};
ghost use Rattle.node_tree.specs.Tree.{form, block};
ghost use Rattle.carries_base.specs.Carries.{joined};
ghost use Rattle.carried_codes.specs.Expressions as expressions;
ghost use Rattle.reform_blocks.specs.Parts.{carrier};
ghost use Rattle.reform_values.specs.Values.{valued_of};
ghost use Rattle.reform_functions.specs.Names.{named_of};

use node_tree::{Argument, Block, Node, Operand};
use nu_text::RcStr;
use op_forms::{Const, Op};
use reform_base::Part;
use reform_blocks::{append, followed, single};
use reform_values::{Valued, gathered, left_in, on_none};
use sqlite_items::Items;
use std::alloc::{AllocError, Global};

/// A part with the name that its value goes under.
#[derive(Drop)]
pub struct Named {
    pub name: RcStr,
    pub part: Part,
}

/// Parts with names: their blocks behind one another, what puts their values into a dict, and the next temporary.
#[derive(Drop)]
struct Puts {
    whole: Block,
    puts: Block,
    next: u64,
}

fn values_of(alloc: Global, values: Vec<Operand>) -> Result<Items<Argument>, AllocError>
    ensures { IfOk result (λ args. args ≡ map argument.Value values.items) }
{
    let mut args = Items::new(alloc);
    for value in values {
        args.push(Argument::Value(value))?;
    }
    Ok(args)
}

// A value goes into a dict under its name.
fn put_named(
    alloc: Global,
    name: RcStr,
    value: Operand,
    line: u32,
    dict: u64,
    to: u64,
) -> Result<Node, AllocError>
    ensures { IfOk result (λ n. form n ≡ tree.Do to line op_named.Put (of_temp dict ∷ argument.Value (operand.Const (const.Str name)) ∷ argument.Value value ∷ [])) }
{
    let mut args = Items::new(alloc);
    args.push(Argument::Value(Operand::Temp(dict)))?;
    args.push(Argument::Value(Operand::Const(Const::Str(name))))?;
    args.push(Argument::Value(value))?;
    Ok(Node::Do {
        to,
        line,
        op: Op::Put,
        args,
    })
}

// Want of memory is wanting for 2^64 temporaries too.
fn gathered_named(
    alloc: Global,
    first: Block,
    named: Vec<Named>,
    line: u32,
    dict: u64,
    from: u64,
) -> Result<Puts, AllocError>
    ensures whole { IfOk result (λ r. block r.whole ≡ tree.append (block first) (joined (map (λ k. k.part) (map named_of named.items)) tree.Stop)) }
    ensures puts { IfOk result (λ r. block r.puts ≡ expressions.puts line dict from (map named_of named.items)) }
    ensures next { IfOk result (λ r. r.next ≡ from + length named.items) }
{
    let mut whole = first;
    let mut puts = Items::new(alloc);
    let mut next = from;
    for one in named {
        let Named { name, part } = one;
        let Part { block, value } = part;
        let Some(behind) = next.checked_add(1) else {
            return Err(AllocError);
        };
        let made = put_named(alloc, name, value, line, dict, next)?;
        puts = followed(puts, made)?;
        whole = append(whole, block)?;
        next = behind;
    }
    Ok(Puts { whole, puts, next })
}

fn cells_from(
    alloc: Global,
    code: u32,
    defaults: u64,
    keywords: u64,
    cells: Vec<u64>,
) -> Result<Items<Argument>, AllocError>
    ensures { IfOk result (λ args. args ≡ argument.Value (operand.Const (const.Int (pos code))) ∷ of_temp defaults ∷ of_temp keywords ∷ map of_temp cells.items) }
{
    let mut args = Items::new(alloc);
    args.push(Argument::Value(Operand::Const(Const::Int(code as i128))))?;
    args.push(Argument::Value(Operand::Temp(defaults)))?;
    args.push(Argument::Value(Operand::Temp(keywords)))?;
    for cell in cells {
        args.push(Argument::Value(Operand::Temp(cell)))?;
    }
    Ok(args)
}

// The function itself, behind its defaults.
fn made_function(
    alloc: Global,
    defaults: Items<Argument>,
    puts: Block,
    code: u32,
    cells: Vec<u64>,
    line: u32,
    next: u64,
    to: u64,
) -> Result<Block, AllocError>
    requires { next + 1 < 2 ^ 64 }
    ensures { IfOk result (λ b. block b ≡ tree.Follow (tree.Do next line op_named.Tuple defaults) (tree.Follow (tree.Do (next + 1) line op_named.Dict []) (tree.append (block puts) (tree.alone (expressions.function_form to line code next (next + 1) cells.items))))) }
{
    let args = cells_from(alloc, code, next, next + 1, cells)?;
    let made = Node::Do {
        to,
        line,
        op: Op::Func,
        args,
    };
    let behind = followed(puts, made)?;
    let whole = single(
        alloc,
        Node::Do {
            to: next,
            line,
            op: Op::Tuple,
            args: defaults,
        },
    )?;
    let whole = followed(whole, on_none(alloc, next + 1, line, Op::Dict))?;
    append(whole, behind)
}

/// The function of a code without defaults.
pub fn bare_function(
    alloc: Global,
    code: u32,
    cells: Vec<u64>,
    line: u32,
    next: u64,
) -> Result<Block, AllocError>
    requires { next + 3 < 2 ^ 64 }
    ensures { IfOk result (λ b. block b ≡ expressions.function_block line code [] [] cells.items next) }
{
    let whole = made_function(
        alloc,
        Items::new(alloc),
        Items::new(alloc),
        code,
        cells,
        line,
        next,
        next + 2,
    )?;
    Ok(whole)
}

/// A function of a code, with the defaults of its parameters and of those that are given by keyword alone, and the temporaries of the
/// cells that it gets (reference, sections 6.14 and 8.7).
///
/// # Errors
///
/// Want of memory alone.
pub fn function(
    alloc: Global,
    code: u32,
    defaults: Vec<Part>,
    keywords: Vec<Named>,
    cells: Vec<u64>,
    line: u32,
    next: u64,
) -> Result<Valued, AllocError>
    requires { next + 3 + length keywords.items < 2 ^ 64 }
    ensures { IfOk result (λ v. valued_of v ≡ expressions.function line code (map carrier defaults.items) (map named_of keywords.items) cells.items next) }
{
    let (first, values) = gathered(alloc, defaults)?;
    let values = values_of(alloc, values)?;
    let puts = gathered_named(alloc, first, keywords, line, next + 1, next + 2)?;
    let Puts {
        whole,
        puts,
        next: to,
    } = puts;
    let made = made_function(alloc, values, puts, code, cells, line, next, to)?;
    let whole = append(whole, made)?;
    Ok(left_in(whole, to, to + 1))
}
