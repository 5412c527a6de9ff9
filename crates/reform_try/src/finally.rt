//! `finally`.

ghost use Rattle.std.specs.Prelude.{◌≡◌, ℕ, ◌+◌, ◌<◌, ◌≤◌, ◌^◌, Bool, false, Option, None, IfOk, OnOk};
ghost use Rattle.op_forms.specs.declared.constant.Const.TheVariants as constant;
ghost use Rattle.node_tree.specs.Tree.{block};
ghost use Rattle.py_meaning.specs.Syntax as syntax;
ghost use Rattle.carries_base.specs.Frames.{Homes, behind};
ghost use Rattle.carries_base.specs.Carries.{CarriesStatement, CarriesBlock};
ghost use Rattle.carries_base.specs.Laws.{Within};
ghost use Rattle.carries_control.specs.Finish.{finally_block};
ghost use Rattle.carried_codes.specs.Statements as statements;
ghost use Rattle.reform_blocks.specs.Standing.{Content, standing};
ghost use Rattle.reform_blocks.specs.Standing as content;

use crate::ends::{five, guarded, onward, raised_or};
use node_tree::{Block, Temps};
use reform_blocks::{append, single};
use std::alloc::{AllocError, Global};

/// A `try` statement with `finally` alone: what runs after every end of the body stands once (reference, section 8.4). The parts may
/// write any temporaries that are drawn already.
///
/// # Errors
///
/// Want of memory alone, which is wanting for 2^64 loops in one another too.
#[tactic(auto, unfolding(carried_codes::specs::Statements::try_finally))]
pub fn try_finally(
    alloc: Global,
    body: Block,
    last: Block,
    temps: &mut Temps,
) -> Result<Block, AllocError>
    ensures is { IfOk result (λ b. block b ≡ (statements.try_finally (block body) (block last) temps.old).block) }
    ensures next { OnOk result (temps.new ≡ (statements.try_finally (block body) (block last) temps.old).next) }
    ensures carries { IfOk result (λ b. (h : Homes) (low bl bh ll lh : ℕ) (caught : Option ℕ) (x y : syntax.Block) → behind h ≤ low → Within low temps.old bl bh → Within low temps.old ll lh → CarriesBlock h bl bh caught x (block body) → CarriesBlock h ll lh None y (block last) → CarriesStatement h low temps.new caught (syntax.Finally x y) (block b)) }
    ensures stands { IfOk result (λ b. (test : Content → Bool) → ((truth : Bool) → test (content.Constant (constant.Bool truth)) ≡ false) → standing test (block b) ≡ standing test (block body) + standing test (block last)) }
{
    let kept = five(temps)?;
    let whole = finishing(alloc, body, last, kept)?;
    Ok(whole)
}

/// The same, by five temporaries from `kept` on.
pub fn finishing(alloc: Global, body: Block, last: Block, kept: u64) -> Result<Block, AllocError>
    requires { kept + 4 < 2 ^ 64 }
    ensures { IfOk result (λ b. block b ≡ finally_block kept (block body) (block last)) }
{
    let guarded = guarded(alloc, body, kept)?;
    let first = single(alloc, guarded)?;
    let pending = onward(alloc, kept)?;
    let raised = raised_or(alloc, kept, pending)?;
    let after = append(last, raised)?;
    let whole = append(first, after)?;
    Ok(whole)
}
