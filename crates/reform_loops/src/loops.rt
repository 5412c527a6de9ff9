//! Loops.

ghost use Rattle.std.specs.Prelude.{◌≡◌, ℕ, ◌+◌, ◌≤◌, List, [], ◌∷◌, Bool, Option, OnOk, IfOk};
ghost use Rattle.op_forms.specs.declared.constant.Const.{Const as Constant};
ghost use Rattle.op_forms.specs.declared.op.Op.{Op as Operation};
ghost use Rattle.code_forms.specs.declared.operand.Argument.{Argument as Taken};
ghost use Rattle.code_forms.specs.declared.operand.Argument.TheVariants as argument;
ghost use Rattle.code_forms.specs.declared.operand.Operand.{Operand as Tested};
ghost use Rattle.node_tree.specs.Contents.{operations, constants, yields};
ghost use Rattle.code_forms.specs.Contents.{operand_constants};
ghost use Rattle.node_tree.specs.Tree.{block};
ghost use Rattle.py_meaning.specs.Syntax as syntax;
ghost use Rattle.carries_base.specs.Frames.{Homes, behind};
ghost use Rattle.carries_base.specs.Carries.{CarriesExpression, CarriesStatement, CarriesBlock};
ghost use Rattle.carries_base.specs.Laws.{Within, turn_block};
ghost use Rattle.reform_loops.specs.Kept.{asks, flags};

use crate::branches::branch_on;
use node_tree::{Argument, Block, Node, Operand, Temps};
use op_forms::Const;
use reform_base::{Part, argument, ended, one};
use sqlite_items::Items;
use std::alloc::{AllocError, Global};

/// A turn: the body in a loop of its own where the test is true; else the loop is over, and `over` says that its test failed. The test
/// comes as its block and what holds its value.
fn turn(
    alloc: Global,
    first: Block,
    args: Items<Argument>,
    body: Block,
    line: u32,
    over: u64,
    truth: u64,
) -> Result<Block, AllocError>
    ensures { IfOk result (λ b. (o : Tested) → args ≡ argument.Value o ∷ [] → block b ≡ turn_block line over truth (block first) o (block body)) }
{
    let inner = ended(body, Node::Leave { levels: 1 })?;
    let again = one(alloc, Node::Loop { body: inner })?;
    let fails = one(
        alloc,
        Node::Constant {
            to: over,
            value: Const::Bool(true),
        },
    )?;
    let fails = ended(fails, Node::Leave { levels: 1 })?;
    let whole = branch_on(first, args, line, truth, again, fails)?;
    Ok(whole)
}

/// A `while` loop with its `else`, an empty block where there is none (reference, section 8.2). In the body `break` comes as a leave of
/// two loops and `continue` as one of one. The parts may write any temporaries that are drawn already.
///
/// # Errors
///
/// Want of memory alone.
pub fn while_loop(
    alloc: Global,
    test: Part,
    body: Block,
    other: Block,
    line: u32,
    temps: &mut Temps,
) -> Result<Block, AllocError>
    ensures carries { IfOk result (λ b. (h : Homes) (low tl th bl bh ol oh : ℕ) (caught : Option ℕ) (x : syntax.Expression) (y z : syntax.Block) → behind h ≤ low → Within low temps.old tl th → Within low temps.old bl bh → Within low temps.old ol oh → CarriesExpression h tl th x (block test.block) test.value → CarriesBlock h bl bh caught y (block body) → CarriesBlock h ol oh caught z (block other) → CarriesStatement h low temps.new caught (syntax.While line x y z) (block b)) }
    ensures operations { IfOk result (λ b. (counts : Operation → List Taken → Bool) → operations counts (block b) ≡ operations counts (block test.block) + operations counts (block body) + operations counts (block other) + asks counts test.value) }
    ensures constants { IfOk result (λ b. (counts : Constant → Bool) → constants counts (block b) ≡ constants counts (block test.block) + constants counts (block body) + constants counts (block other) + operand_constants counts test.value + flags counts) }
    ensures yields { IfOk result (λ b. yields (block b) ≡ yields (block test.block) + yields (block body) + yields (block other)) }
    ensures drawn { OnOk result (temps.new ≡ temps.old + 1 + 1) }
{
    let Part {
        block: first,
        value,
    } = test;
    let args = argument(alloc, value)?;
    let over = temps.fresh()?;
    let truth = temps.fresh()?;
    let turn = turn(alloc, first, args, body, line, over, truth)?;
    let begins = one(
        alloc,
        Node::Constant {
            to: over,
            value: Const::Bool(false),
        },
    )?;
    let looped = ended(begins, Node::Loop { body: turn })?;
    let whole = ended(
        looped,
        Node::If {
            test: Operand::Temp(over),
            yes: other,
            no: Items::new(alloc),
        },
    )?;
    Ok(whole)
}
