//! Statements of one line, and the first lines of others.

ghost use Rattle.std.specs.Prelude.{◌≡◌, ◌++◌, ℕ, List, [], ◌∷◌, IfOk, IfSome, IfNone, codes, decimal};
ghost use Rattle.op_forms.specs.declared.constant.Const.{Const as Constant};
ghost use Rattle.op_forms.specs.declared.op.Op.{Op as Operation};
ghost use Rattle.code_forms.specs.declared.operand.Operand.{Operand};
ghost use Rattle.code_forms.specs.declared.operand.Argument.{Argument};
ghost use Rattle.node_tree.specs.Blocks as tree;
ghost use Rattle.node_tree.specs.Tree.{form};
ghost use Rattle.node_reader.specs.Lines.{StampStands, ValuedStands, HeadStands};
ghost use Rattle.node_reader.specs.Nodes.{IsSimple};

use crate::operand::{arguments, constant, operand, operands};
use crate::operation::name;
use c_reader::number::{LINES, NUMBERS, after, field, number};
use node_tree::{Argument, Node, Operand};
use op_forms::{Const, Op};
use sqlite_items::Items;
use std::alloc::{AllocError, Global};

// The temporary and the line behind a word, and what follows.
fn stamp<'a>(text: &'a [u8], word: &[u8]) -> Option<(u64, u32, &'a [u8])>
    ensures some { IfSome result
        (λ found. StampStands word.now text.now found.0 found.1 found.2.now) }
    ensures none { IfNone result ((to line : ℕ) (rest : List ℕ)
        → StampStands word.now text.now to line rest → ⊥) }
{
    let (to, behind) = field(text, word, NUMBERS, b" ")?;
    let (line, rest) = number(behind, LINES, b" ")?;
    Some((to, line as u32, rest))
}

/// The operand behind a word, to the end of the line, and what follows.
pub(crate) fn valued<'a>(
    alloc: Global,
    text: &'a [u8],
    word: &[u8],
) -> Result<Option<(Operand, &'a [u8])>, AllocError>
    ensures some { IfOk result (λ read. IfSome read
        (λ found. ValuedStands word.now text.now found.0 found.1.now)) }
    ensures none { IfOk result (λ read. IfNone read ((a : Operand) (rest : List ℕ)
        → ValuedStands word.now text.now a rest → ⊥)) }
{
    let Some(behind) = after(text, word) else {
        return Ok(None);
    };
    let Some((value, behind)) = operand(alloc, behind)? else {
        return Ok(None);
    };
    let Some(rest) = after(behind, b"\n") else {
        return Ok(None);
    };
    Ok(Some((value, rest)))
}

// A constant and its temporary.
fn constant_line(alloc: Global, text: &[u8]) -> Result<Option<(u64, Const, &[u8])>, AllocError>
    ensures some { IfOk result (λ read. IfSome read
        (λ found. HeadStands text.now (tree.Constant found.0 found.1) found.2.now)) }
    ensures none { IfOk result (λ read. IfNone read ((to : ℕ) (c : Constant) (rest : List ℕ)
        → HeadStands text.now (tree.Constant to c) rest → ⊥)) }
{
    let Some((to, behind)) = field(text, b"const t", NUMBERS, b" ") else {
        return Ok(None);
    };
    let Some((value, behind)) = constant(alloc, behind)? else {
        return Ok(None);
    };
    let Some(rest) = after(behind, b"\n") else {
        return Ok(None);
    };
    Ok(Some((to, value, rest)))
}

// The two temporaries of a copy.
fn copy(text: &[u8]) -> Option<(u64, u64, &[u8])>
    ensures some { IfSome result
        (λ found. HeadStands text.now (tree.Copy found.0 found.1) found.2.now) }
    ensures none { IfNone result ((to from : ℕ) (rest : List ℕ)
        → HeadStands text.now (tree.Copy to from) rest → ⊥) }
{
    let (to, behind) = field(text, b"copy t", NUMBERS, b" t")?;
    let (from, rest) = number(behind, NUMBERS, b"\n")?;
    Some((to, from, rest))
}

// An operation.
fn operation(
    alloc: Global,
    text: &[u8],
) -> Result<Option<(u64, u32, Op, Items<Argument>, &[u8])>, AllocError>
    ensures some { IfOk result (λ read. IfSome read (λ found.
        HeadStands text.now (tree.Do found.0 found.1 found.2 found.3) found.4.now)) }
    ensures none { IfOk result (λ read. IfNone read
        ((to line : ℕ) (o : Operation) (given : List Argument) (rest : List ℕ)
        → HeadStands text.now (tree.Do to line o given) rest → ⊥)) }
{
    let Some((to, line, behind)) = stamp(text, b"do t") else {
        return Ok(None);
    };
    let Some((op, behind)) = name(behind) else {
        return Ok(None);
    };
    let Some((args, behind)) = arguments(alloc, behind)? else {
        return Ok(None);
    };
    let Some(rest) = after(behind, b"\n") else {
        return Ok(None);
    };
    Ok(Some((to, line, op, args, rest)))
}

// A call.
fn call(
    alloc: Global,
    text: &[u8],
) -> Result<Option<(u64, u32, Operand, Items<Operand>, &[u8])>, AllocError>
    ensures some { IfOk result (λ read. IfSome read (λ found.
        HeadStands text.now (tree.Call found.0 found.1 found.2 found.3) found.4.now)) }
    ensures none { IfOk result (λ read. IfNone read
        ((to line : ℕ) (function : Operand) (given : List Operand) (rest : List ℕ)
        → HeadStands text.now (tree.Call to line function given) rest → ⊥)) }
{
    let Some((to, line, behind)) = stamp(text, b"call t") else {
        return Ok(None);
    };
    let Some((function, behind)) = operand(alloc, behind)? else {
        return Ok(None);
    };
    let Some((args, behind)) = operands(alloc, behind)? else {
        return Ok(None);
    };
    let Some(rest) = after(behind, b"\n") else {
        return Ok(None);
    };
    Ok(Some((to, line, function, args, rest)))
}

// A pause.
fn yielded(alloc: Global, text: &[u8]) -> Result<Option<(u64, u32, Operand, &[u8])>, AllocError>
    ensures some { IfOk result (λ read. IfSome read (λ found.
        HeadStands text.now (tree.Yield found.0 found.1 found.2) found.3.now)) }
    ensures none { IfOk result (λ read. IfNone read
        ((to line : ℕ) (a : Operand) (rest : List ℕ)
        → HeadStands text.now (tree.Yield to line a) rest → ⊥)) }
{
    let Some((to, line, behind)) = stamp(text, b"yield t") else {
        return Ok(None);
    };
    let Some((value, rest)) = valued(alloc, behind, b"")? else {
        return Ok(None);
    };
    Ok(Some((to, line, value, rest)))
}

// The number of loops that a `leave` ends, one at least.
fn leave(text: &[u8]) -> Option<(u64, &[u8])>
    ensures some { IfSome result
        (λ found. HeadStands text.now (tree.Leave found.0) found.1.now) }
    ensures none { IfNone result ((levels : ℕ) (rest : List ℕ)
        → HeadStands text.now (tree.Leave levels) rest → ⊥) }
{
    let (levels, rest) = field(text, b"leave ", NUMBERS, b"\n")?;
    if levels == 0 {
        return None;
    }
    Some((levels, rest))
}

/// The statement of one line at the front of the text, and what follows.
pub(crate) fn simple(alloc: Global, text: &[u8]) -> Result<Option<(Node, &[u8])>, AllocError>
    ensures simple { IfOk result
        (λ read. IfSome read (λ found. IsSimple (form found.0))) }
    ensures some { IfOk result
        (λ read. IfSome read (λ found. HeadStands text.now (form found.0) found.1.now)) }
    ensures none { IfOk result (λ read. IfNone read ((x : tree.Form) (rest : List ℕ)
        → IsSimple x → HeadStands text.now x rest → ⊥)) }
{
    if let Some((to, line, op, args, rest)) = operation(alloc, text)? {
        return Ok(Some((Node::Do { to, line, op, args }, rest)));
    }
    if let Some((to, line, function, args, rest)) = call(alloc, text)? {
        return Ok(Some((
            Node::Call {
                to,
                line,
                function,
                args,
            },
            rest,
        )));
    }
    if let Some((to, value, rest)) = constant_line(alloc, text)? {
        return Ok(Some((Node::Constant { to, value }, rest)));
    }
    if let Some((to, from, rest)) = copy(text) {
        return Ok(Some((Node::Copy { to, from }, rest)));
    }
    if let Some((to, line, value, rest)) = yielded(alloc, text)? {
        return Ok(Some((Node::Yield { to, line, value }, rest)));
    }
    if let Some((levels, rest)) = leave(text) {
        return Ok(Some((Node::Leave { levels }, rest)));
    }
    if let Some((value, rest)) = valued(alloc, text, b"return ")? {
        return Ok(Some((Node::Return { value }, rest)));
    }
    if let Some((value, rest)) = valued(alloc, text, b"raise ")? {
        return Ok(Some((Node::Raise { value }, rest)));
    }
    if let Some((to, rest)) = field(text, b"unset t", NUMBERS, b"\n") {
        return Ok(Some((Node::Unset { to }, rest)));
    }
    Ok(None)
}
