//! A body whose every end is kept, and the end that goes on.

ghost use Rattle.std.specs.Prelude.{◌≡◌, ◌+◌, ◌<◌, ◌^◌, IfOk, OnOk};
ghost use Rattle.code_forms.specs.declared.operand.Operand.TheVariants as operand;
ghost use Rattle.node_tree.specs.Tree.{form, block};
ghost use Rattle.node_tree.specs.Blocks.{alone};
ghost use Rattle.node_tree.specs.Blocks as tree;
ghost use Rattle.carries_control.specs.Finish.{guarded as guarded_form, onward as onward_block, raised_or as raised_block};

use node_tree::{Block, Node, Operand, Temps};
use reform_blocks::{branches, catches, flag, followed, loops, redirected, single};
use sqlite_items::Items;
use std::alloc::{AllocError, Global};

/// Two temporaries, the first of them answered.
pub fn two(temps: &mut Temps) -> Result<u64, AllocError>
    ensures first { IfOk result (λ first. first ≡ temps.old) }
    ensures room { OnOk result (temps.old + 1 < 2 ^ 64) }
    ensures drawn { OnOk result (temps.new ≡ temps.old + 2) }
{
    let first = temps.fresh()?;
    let _last = temps.fresh()?;
    Ok(first)
}

/// Five temporaries, the first of them answered.
pub fn five(temps: &mut Temps) -> Result<u64, AllocError>
    ensures first { IfOk result (λ first. first ≡ temps.old) }
    ensures room { OnOk result (temps.old + 4 < 2 ^ 64) }
    ensures drawn { OnOk result (temps.new ≡ temps.old + 5) }
{
    let first = temps.fresh()?;
    let _ = temps.fresh()?;
    let _ = temps.fresh()?;
    let _ = temps.fresh()?;
    let _last = temps.fresh()?;
    Ok(first)
}

/// A body in a loop, which each of its ends leaves, but for a stop; what it would have done is kept in temporaries from `kept` on.
pub fn guarded(alloc: Global, body: Block, kept: u64) -> Result<Node, AllocError>
    requires { kept + 4 < 2 ^ 64 }
    ensures { IfOk result (λ node. form node ≡ guarded_form kept (block body)) }
{
    let body = redirected(alloc, body, kept, 0)?;
    let handler = single(alloc, flag(kept + 1, true))?;
    let handler = followed(handler, flag(kept + 2, true))?;
    let handler = followed(handler, Node::Leave { levels: 1 })?;
    let whole = single(alloc, catches(kept, body, handler))?;
    let whole = followed(whole, flag(kept + 1, false))?;
    let whole = followed(whole, flag(kept + 2, false))?;
    let whole = followed(whole, Node::Leave { levels: 1 })?;
    Ok(loops(whole))
}

/// The end that was pending goes on, if it is no exception.
pub fn onward(alloc: Global, kept: u64) -> Result<Block, AllocError>
    requires { kept + 4 < 2 ^ 64 }
    ensures { IfOk result (λ b. block b ≡ onward_block kept) }
{
    let two = single(alloc, Node::Leave { levels: 2 })?;
    let one = single(alloc, Node::Leave { levels: 1 })?;
    let further = single(alloc, branches(Operand::Temp(kept + 4), two, one))?;
    let returns = single(
        alloc,
        Node::Return {
            value: Operand::Temp(kept),
        },
    )?;
    let outside = single(alloc, branches(Operand::Temp(kept + 3), returns, further))?;
    let whole = single(
        alloc,
        branches(Operand::Temp(kept + 1), outside, Items::new(alloc)),
    )?;
    Ok(whole)
}

/// The exception in a temporary goes on.
pub fn goes_on(alloc: Global, exception: u64) -> Result<Block, AllocError>
    ensures { IfOk result (λ b. block b ≡ alone (tree.Raise (operand.Temp exception))) }
{
    let raises = Node::Raise {
        value: Operand::Temp(exception),
    };
    single(alloc, raises)
}

/// The exception that was pending goes on; else a block runs.
pub fn raised_or(alloc: Global, kept: u64, other: Block) -> Result<Block, AllocError>
    requires { kept + 4 < 2 ^ 64 }
    ensures { IfOk result (λ b. block b ≡ raised_block kept (block other)) }
{
    let raises = goes_on(alloc, kept)?;
    let whole = single(alloc, branches(Operand::Temp(kept + 2), raises, other))?;
    Ok(whole)
}
