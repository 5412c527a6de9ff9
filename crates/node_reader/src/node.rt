//! Statements with their blocks.

ghost use Rattle.std.specs.Prelude.{◌≡◌, ℕ, List, IfOk, IfErr, codes, string_bytes, true};
ghost use Rattle.node_tree.specs.Blocks as tree;
ghost use Rattle.node_tree.specs.Tree.{form, block as block_of};
ghost use Rattle.node_text.specs.Text.{inner};
ghost use Rattle.node_reader.specs.Answers.{OnMiss};
ghost use Rattle.node_reader.specs.Nodes.{begins_word, NodeStands, BlockStands, ClosedStands, TwoStand};

use crate::end::Miss;
use crate::line::{simple, valued};
use c_reader::number::{NUMBERS, after, field};
use node_tree::{Block, Node};
use sqlite_items::Items;
use std::alloc::{AllocError, Global};

// The indentation of blocks within lines of this one.
fn deeper(alloc: Global, indent: &[u8]) -> Result<Vec<u8>, AllocError>
    ensures { IfOk result (λ deeper. deeper.items ≡ inner indent.now) }
{
    let mut deeper = Vec::new(alloc);
    deeper.extend_from_slice(indent)?;
    deeper.extend_from_slice(b"  ")?;
    Ok(deeper)
}

/// The block of lines of this indentation at the front of the text, behind which no other such line follows; and what
/// follows.
#[cycle(nesting)]
pub(crate) fn block<'a>(
    alloc: Global,
    text: &'a [u8],
    indent: &[u8],
) -> Result<(Block, &'a [u8]), Miss>
    ensures ok { IfOk result
        (λ found. BlockStands indent.now text.now (block_of found.0) found.1.now) }
    ensures not_nodes { IfErr result (λ miss. OnMiss miss ((b : tree.Block) (rest : List ℕ)
        → BlockStands indent.now text.now b rest → ⊥)) }
{
    let mut nodes = Items::new(alloc);
    let mut left = text;
    while let Some(behind) = after(left, indent) {
        let (one, rest) = node(alloc, behind, indent)?;
        nodes.push(one)?;
        left = rest;
    }
    Ok((nodes, left))
}

// A block within lines of this indentation, the line of the closing word behind it, and what follows.
#[cycle(nesting)]
fn closed<'a>(
    alloc: Global,
    text: &'a [u8],
    indent: &[u8],
    word: &[u8],
) -> Result<(Block, &'a [u8]), Miss>
    requires { begins_word word.now ≡ true }
    ensures ok { IfOk result (λ found.
        ClosedStands indent.now word.now text.now (block_of found.0) found.1.now) }
    ensures not_nodes { IfErr result (λ miss. OnMiss miss ((b : tree.Block) (rest : List ℕ)
        → ClosedStands indent.now word.now text.now b rest → ⊥)) }
{
    let within = deeper(alloc, indent)?;
    let (nodes, behind) = block(alloc, text, &within)?;
    let Some(closing) = after(behind, indent) else {
        return Err(Miss::NotNodes { left: behind.len() });
    };
    let Some(rest) = after(closing, word) else {
        return Err(Miss::NotNodes { left: behind.len() });
    };
    Ok((nodes, rest))
}

// Two blocks with a word between them, and what follows.
#[cycle(nesting)]
fn two<'a>(
    alloc: Global,
    text: &'a [u8],
    indent: &[u8],
    word: &[u8],
) -> Result<(Block, Block, &'a [u8]), Miss>
    requires { begins_word word.now ≡ true }
    ensures ok { IfOk result (λ found. TwoStand
        indent.now word.now text.now (block_of found.0) (block_of found.1) found.2.now) }
    ensures not_nodes { IfErr result (λ miss. OnMiss miss
        ((b c : tree.Block) (rest : List ℕ)
        → TwoStand indent.now word.now text.now b c rest → ⊥)) }
{
    let (first, behind) = closed(alloc, text, indent, word)?;
    let (second, rest) = closed(alloc, behind, indent, b"end\n")?;
    Ok((first, second, rest))
}

// The statement at the front of the text, behind its indentation, and what follows.
#[cycle(nesting)]
fn node<'a>(alloc: Global, text: &'a [u8], indent: &[u8]) -> Result<(Node, &'a [u8]), Miss>
    ensures ok { IfOk result
        (λ found. NodeStands indent.now text.now (form found.0) found.1.now) }
    ensures not_nodes { IfErr result (λ miss. OnMiss miss ((x : tree.Form) (rest : List ℕ)
        → NodeStands indent.now text.now x rest → ⊥)) }
{
    if let Some((node, rest)) = simple(alloc, text)? {
        return Ok((node, rest));
    }
    if let Some((test, behind)) = valued(alloc, text, b"if ")? {
        let (yes, no, rest) = two(alloc, behind, indent, b"else\n")?;
        return Ok((Node::If { test, yes, no }, rest));
    }
    if let Some(behind) = after(text, b"loop\n") {
        let (body, rest) = closed(alloc, behind, indent, b"end\n")?;
        return Ok((Node::Loop { body }, rest));
    }
    if let Some((to, behind)) = field(text, b"catch t", NUMBERS, b"\n") {
        let (body, handler, rest) = two(alloc, behind, indent, b"handler\n")?;
        return Ok((Node::Catch { to, body, handler }, rest));
    }
    Err(Miss::NotNodes { left: text.len() })
}
