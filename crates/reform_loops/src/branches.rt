//! Branches.

ghost use Rattle.std.specs.Prelude.{◌≡◌, ℕ, ◌+◌, ◌≤◌, List, [], ◌∷◌, Bool, Option, OnOk, IfOk};
ghost use Rattle.op_forms.specs.declared.constant.Const.{Const as Constant};
ghost use Rattle.op_forms.specs.declared.op.Op.{Op as Operation};
ghost use Rattle.code_forms.specs.declared.operand.Argument.{Argument as Taken};
ghost use Rattle.code_forms.specs.declared.operand.Argument.TheVariants as argument;
ghost use Rattle.code_forms.specs.declared.operand.Operand.{Operand as Tested};
ghost use Rattle.node_tree.specs.Contents.{operations, constants, yields};
ghost use Rattle.code_forms.specs.Contents.{operand_constants};
ghost use Rattle.node_tree.specs.Tree.{block};
ghost use Rattle.py_meaning.specs.Syntax as syntax;
ghost use Rattle.carries_base.specs.Frames.{Homes, behind};
ghost use Rattle.carries_base.specs.Carries.{CarriesExpression, CarriesStatement, CarriesBlock};
ghost use Rattle.carries_base.specs.Laws.{Within, if_block};
ghost use Rattle.reform_loops.specs.Kept.{asks};

use node_tree::{Argument, Block, Node, Operand, Temps};
use op_forms::Op;
use reform_base::{Part, argument, ended};
use sqlite_items::Items;
use std::alloc::{AllocError, Global};

/// A test, its truth value in a temporary, and a branch on that. The test comes as its block and what holds its value.
pub fn branch_on(
    first: Block,
    args: Items<Argument>,
    line: u32,
    truth: u64,
    yes: Block,
    no: Block,
) -> Result<Block, AllocError>
    ensures { IfOk result (λ b. (o : Tested) → args ≡ argument.Value o ∷ [] → block b ≡ if_block line truth (block first) o (block yes) (block no)) }
{
    let asked = ended(
        first,
        Node::Do {
            to: truth,
            line,
            op: Op::Truth,
            args,
        },
    )?;
    let whole = ended(
        asked,
        Node::If {
            test: Operand::Temp(truth),
            yes,
            no,
        },
    )?;
    Ok(whole)
}

/// An `if` statement with its `else`, an empty block where there is none (reference, section 8.1). The parts may write any temporaries
/// that are drawn already.
///
/// # Errors
///
/// Want of memory alone.
pub fn branch(
    alloc: Global,
    test: Part,
    body: Block,
    other: Block,
    line: u32,
    temps: &mut Temps,
) -> Result<Block, AllocError>
    ensures carries { IfOk result (λ b. (h : Homes) (low tl th bl bh ol oh : ℕ) (caught : Option ℕ) (x : syntax.Expression) (y z : syntax.Block) → behind h ≤ low → Within low temps.old tl th → Within low temps.old bl bh → Within low temps.old ol oh → CarriesExpression h tl th x (block test.block) test.value → CarriesBlock h bl bh caught y (block body) → CarriesBlock h ol oh caught z (block other) → CarriesStatement h low temps.new caught (syntax.If line x y z) (block b)) }
    ensures operations { IfOk result (λ b. (counts : Operation → List Taken → Bool) → operations counts (block b) ≡ operations counts (block test.block) + operations counts (block body) + operations counts (block other) + asks counts test.value) }
    ensures constants { IfOk result (λ b. (counts : Constant → Bool) → constants counts (block b) ≡ constants counts (block test.block) + constants counts (block body) + constants counts (block other) + operand_constants counts test.value) }
    ensures yields { IfOk result (λ b. yields (block b) ≡ yields (block test.block) + yields (block body) + yields (block other)) }
    ensures drawn { OnOk result (temps.new ≡ temps.old + 1) }
{
    let Part {
        block: first,
        value,
    } = test;
    let args = argument(alloc, value)?;
    let truth = temps.fresh()?;
    let whole = branch_on(first, args, line, truth, body, other)?;
    Ok(whole)
}
