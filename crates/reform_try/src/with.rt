//! `with`.

ghost use Rattle.std.specs.Prelude.{◌≡◌, ℕ, ◌+◌, ◌<◌, ◌≤◌, ◌^◌, ◌⊎◌, [], ◌∷◌, Bool, false, Option, IfOk, OnOk};
ghost use Rattle.op_forms.specs.declared.constant.Const.TheVariants as constant;
ghost use Rattle.op_forms.specs.declared.op.Op.TheVariants as operation_named;
ghost use Rattle.code_forms.specs.declared.operand.Argument.TheVariants as argument;
ghost use Rattle.code_forms.specs.declared.operand.Operand.TheVariants as operand;
ghost use Rattle.node_tree.specs.Tree.{form, block};
ghost use Rattle.node_tree.specs.Blocks as tree;
ghost use Rattle.py_meaning.specs.Syntax as syntax;
ghost use Rattle.py_meaning.specs.Statements.{assign_all};
ghost use Rattle.carries_base.specs.Frames.{Homes, behind};
ghost use Rattle.carries_base.specs.Carries.{CarriesExpression, CarriesGiven, CarriesStatement, CarriesBlock};
ghost use Rattle.carries_base.specs.Laws.{Within};
ghost use Rattle.node_tree.specs.Blocks.{of_temp};
ghost use Rattle.carried_codes.specs.Statements as statements;
ghost use Rattle.reform_blocks.specs.Parts.{carrier};
ghost use Rattle.reform_blocks.specs.Standing.{Content, standing};
ghost use Rattle.reform_blocks.specs.Standing as content;
ghost use Rattle.reform_try.specs.Asks.{with_asks, managed_block};
ghost use Rattle.carries_control.specs.Finish.{exits_block, leaving_block};

use crate::ends::{five, goes_on, guarded, onward};
use node_tree::{Argument, Block, Node, Operand, Temps};
use op_forms::{Const, Op};
use reform_base::Part;
use reform_blocks::{append, branches, followed, named_operation, operation, single};
use sqlite_items::Items;
use std::alloc::{AllocError, Global};

/// A `with` statement of one item (reference, section 8.5): what `__enter__` gives goes to `item`, which `bind` binds. The parts may
/// write any temporaries that are drawn already, `bind` not `item`.
///
/// # Errors
///
/// Want of memory alone, which is wanting for 2^64 loops in one another too.
#[tactic(auto, unfolding(carried_codes::specs::Statements::with_item))]
pub fn with_item(
    alloc: Global,
    manager: Part,
    bind: Block,
    item: u64,
    body: Block,
    line: u32,
    temps: &mut Temps,
) -> Result<Block, AllocError>
    ensures is { IfOk result (λ b. block b ≡ (statements.with_item line (carrier manager) item (block bind) (block body) temps.old).block) }
    ensures next { OnOk result (temps.new ≡ (statements.with_item line (carrier manager) item (block bind) (block body) temps.old).next) }
    ensures carries { IfOk result (λ b. (h : Homes) (low ml mh il ih bl bh : ℕ) (caught : Option ℕ) (x : syntax.Expression) (targets : syntax.Targets) (y : syntax.Block) → behind h ≤ low → Within low temps.old ml mh → Within low temps.old il ih → Within low temps.old bl bh → low ≤ item → item < temps.old → ((item < il) ⊎ (ih ≤ item)) → CarriesExpression h ml mh x (block manager.block) manager.value → CarriesGiven h il ih (operand.Temp item) (λ l v. assign_all l v targets) (block bind) → CarriesBlock h bl bh caught y (block body) → CarriesStatement h low temps.new caught (syntax.With line x targets y) (block b)) }
    ensures stands { IfOk result (λ b. (test : Content → Bool) → ((truth : Bool) → test (content.Constant (constant.Bool truth)) ≡ false) → standing test (block b) ≡ standing test (block manager.block) + standing test (block bind) + standing test (block body) + with_asks test temps.old manager.value) }
{
    let kept = eleven(temps)?;
    let Part {
        block: first,
        value,
    } = manager;
    let inside = append(bind, body)?;
    let behind = managed(alloc, value, item, inside, line, kept)?;
    let whole = append(first, behind)?;
    Ok(whole)
}

// What follows the manager's value.
fn managed(
    alloc: Global,
    value: Operand,
    item: u64,
    inside: Block,
    line: u32,
    kept: u64,
) -> Result<Block, AllocError>
    requires { kept + 10 < 2 ^ 64 }
    ensures { IfOk result (λ b. block b ≡ managed_block line kept item value (block inside)) }
{
    let shared = value.share()?;
    let enters = named_operation(alloc, kept + 5, line, Op::Manager, shared, "__enter__")?;
    let exits = named_operation(alloc, kept + 6, line, Op::Manager, value, "__exit__")?;
    let entered = operation(alloc, item, line, Op::Call, Operand::Temp(kept + 5))?;
    let guarded = guarded(alloc, inside, kept)?;
    let leaves = leaving(alloc, line, kept, kept + 6, kept + 7)?;
    let begins = single(alloc, enters)?;
    let begins = followed(begins, exits)?;
    let begins = followed(begins, entered)?;
    let begins = followed(begins, guarded)?;
    let all = append(begins, leaves)?;
    Ok(all)
}

fn eleven(temps: &mut Temps) -> Result<u64, AllocError>
    ensures first { IfOk result (λ first. first ≡ temps.old) }
    ensures room { OnOk result (temps.old + 10 < 2 ^ 64) }
    ensures drawn { OnOk result (temps.new ≡ temps.old + 11) }
{
    let first = five(temps)?;
    let _ = five(temps)?;
    let _last = temps.fresh()?;
    Ok(first)
}

// `__exit__`, in the temporary `leave`, is called with three operands.
fn tells(
    alloc: Global,
    to: u64,
    line: u32,
    leave: u64,
    class: Operand,
    exception: Operand,
    trace: Operand,
) -> Result<Node, AllocError>
    ensures { IfOk result (λ n. form n ≡ tree.Do to line operation_named.Call (of_temp leave ∷ argument.Value class ∷ argument.Value exception ∷ argument.Value trace ∷ [])) }
{
    let mut args = Items::new(alloc);
    args.push(Argument::Value(Operand::Temp(leave)))?;
    args.push(Argument::Value(class))?;
    args.push(Argument::Value(exception))?;
    args.push(Argument::Value(trace))?;
    Ok(Node::Do {
        to,
        line,
        op: Op::Call,
        args,
    })
}

// After an exception: `__exit__` tells whether it ends here.
fn exits(alloc: Global, line: u32, kept: u64, leave: u64, next: u64) -> Result<Block, AllocError>
    requires { next + 3 < 2 ^ 64 }
    ensures { IfOk result (λ b. block b ≡ exits_block line kept leave next) }
{
    let class = operation(alloc, next, line, Op::ClassOf, Operand::Temp(kept))?;
    let trace = operation(alloc, next + 1, line, Op::Trace, Operand::Temp(kept))?;
    let tells = tells(
        alloc,
        next + 2,
        line,
        leave,
        Operand::Temp(next),
        Operand::Temp(kept),
        Operand::Temp(next + 1),
    )?;
    let truth = operation(alloc, next + 3, line, Op::Truth, Operand::Temp(next + 2))?;
    let raises = goes_on(alloc, kept)?;
    let ends = branches(Operand::Temp(next + 3), Items::new(alloc), raises);
    let whole = single(alloc, class)?;
    let whole = followed(whole, trace)?;
    let whole = followed(whole, tells)?;
    let whole = followed(whole, truth)?;
    let whole = followed(whole, ends)?;
    Ok(whole)
}

// After any end: `__exit__` is called, and the end goes on unless it is an exception that ends here.
fn leaving(alloc: Global, line: u32, kept: u64, leave: u64, next: u64) -> Result<Block, AllocError>
    requires kept { kept + 4 < 2 ^ 64 }
    requires next { next + 3 < 2 ^ 64 }
    ensures { IfOk result (λ b. block b ≡ leaving_block line kept leave next) }
{
    let raised = exits(alloc, line, kept, leave, next)?;
    let none = tells(
        alloc,
        next + 2,
        line,
        leave,
        Operand::Const(Const::None),
        Operand::Const(Const::None),
        Operand::Const(Const::None),
    )?;
    let first = single(alloc, none)?;
    let goes_on = onward(alloc, kept)?;
    let others = append(first, goes_on)?;
    let whole = single(alloc, branches(Operand::Temp(kept + 2), raised, others))?;
    Ok(whole)
}
