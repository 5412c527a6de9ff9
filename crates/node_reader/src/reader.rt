//! Reads a text from its first line to its last.

ghost use Rattle.std.specs.Prelude.{◌≡◌, ℕ, List, IfOk, IfErr, IfSome, IfNone};
ghost use Rattle.node_tree.specs.declared.script.NodeCode.{NodeCode};
ghost use Rattle.node_tree.specs.declared.script.NodeScript.{NodeScript};
ghost use Rattle.node_text.specs.Written.{IsNodeText};
ghost use Rattle.node_reader.specs.Answers.{OnMiss, OnNotNodes};
ghost use Rattle.node_reader.specs.Codes.{CountsStand, ScriptStands, HeadingStands, CodesStand};

use crate::code::code;
use crate::end::{Miss, NodeEnd};
use c_reader::number::{LINES, after, number};
use c_reader::spelling::string;
use node_tree::{NodeCode, NodeScript};
use nu_text::RcStr;
use sqlite_items::Items;
use std::alloc::{AllocError, Global};

/// How many codes a tree has at most.
const CODES: u64 = 1 << 32;

// The numbers of codes, and what follows.
fn counts(text: &[u8]) -> Option<(u32, u32, &[u8])>
    ensures some { IfSome result (λ found. CountsStand text.now found.0 found.1 found.2.now) }
    ensures none { IfNone result ((scripts builtins : ℕ) (rest : List ℕ)
        → CountsStand text.now scripts builtins rest → ⊥) }
{
    let (scripts, behind) = number(text, LINES, b" ")?;
    let (builtins, rest) = number(behind, LINES, b"\n")?;
    if scripts + builtins > CODES {
        return None;
    }
    Some((scripts as u32, builtins as u32, rest))
}

// The name of the script's file and the numbers of codes in the second line, and what follows.
fn script_line(alloc: Global, text: &[u8]) -> Result<Option<(RcStr, u32, u32, &[u8])>, AllocError>
    ensures some { IfOk result (λ read. IfSome read
        (λ found. ScriptStands text.now found.0 found.1 found.2 found.3.now)) }
    ensures none { IfOk result (λ read. IfNone read
        ((name : List ℕ) (scripts builtins : ℕ) (rest : List ℕ)
        → ScriptStands text.now name scripts builtins rest → ⊥)) }
{
    let Some(behind) = after(text, b"script ") else {
        return Ok(None);
    };
    let Some((name, behind)) = string(alloc, behind)? else {
        return Ok(None);
    };
    let Some(behind) = after(behind, b" ") else {
        return Ok(None);
    };
    let Some((scripts, builtins, rest)) = counts(behind) else {
        return Ok(None);
    };
    Ok(Some((name, scripts, builtins, rest)))
}

// The first two lines, and what follows.
fn heading(alloc: Global, text: &[u8]) -> Result<(RcStr, u32, u32, &[u8]), Miss>
    ensures ok { IfOk result
        (λ found. HeadingStands text.now found.0 found.1 found.2 found.3.now) }
    ensures not_nodes { IfErr result (λ miss. OnMiss miss
        ((name : List ℕ) (scripts builtins : ℕ) (rest : List ℕ)
        → HeadingStands text.now name scripts builtins rest → ⊥)) }
{
    let Some(second) = after(text, b"nodes 1\n") else {
        return Err(Miss::NotNodes { left: text.len() });
    };
    let Some((name, scripts, builtins, rest)) = script_line(alloc, second)? else {
        return Err(Miss::NotNodes { left: second.len() });
    };
    Ok((name, scripts, builtins, rest))
}

// All codes, of which there are so many, to the end of the text.
fn codes(alloc: Global, text: &[u8], count: u64) -> Result<Items<NodeCode>, Miss>
    ensures ok { IfOk result (λ found. CodesStand count text.now found) }
    ensures not_nodes { IfErr result (λ miss. OnMiss miss ((found : List NodeCode)
        → CodesStand count text.now found → ⊥)) }
{
    let mut found = Items::new(alloc);
    let mut left = text;
    for number in 0..count {
        let (one, behind) = code(alloc, left, number)?;
        found.push(one)?;
        left = behind;
    }
    if !left.is_empty() {
        return Err(Miss::NotNodes { left: left.len() });
    }
    Ok(found)
}

// The tree that has the text.
fn script(alloc: Global, text: &[u8]) -> Result<NodeScript, Miss>
    ensures ok { IfOk result (λ script. IsNodeText text.now script) }
    ensures not_nodes { IfErr result (λ miss. OnMiss miss
        ((script : NodeScript) → IsNodeText text.now script → ⊥)) }
{
    let (name, scripts, builtins, behind) = heading(alloc, text)?;
    let count = u64::from(scripts) + u64::from(builtins);
    let codes = codes(alloc, behind, count)?;
    Ok(NodeScript {
        name,
        scripts,
        codes,
    })
}

// The line in which so many bytes are left, counted from 1.
fn line_at(text: &[u8], left: usize) -> u32 {
    let mut line: u32 = 1;
    for (place, byte) in text.iter().enumerate() {
        if text.len() - place <= left {
            break;
        }
        if *byte == b'\n' {
            line = line.saturating_add(1);
        }
    }
    line
}

/// The tree that has the text, by the text relation `IsNodeText` (`node_text`, specs/Written.antt).
///
/// # Errors
///
/// `NotNodes` exactly where no tree has the text; `Memory` where memory runs out.
pub fn read(alloc: Global, text: &str) -> Result<NodeScript, NodeEnd>
    ensures ok { IfOk result (λ script. IsNodeText text.now script) }
    ensures not_nodes { IfErr result (λ end. OnNotNodes end
        ((script : NodeScript) → IsNodeText text.now script → ⊥)) }
{
    let bytes = text.as_bytes();
    match script(alloc, bytes) {
        Ok(script) => Ok(script),
        Err(Miss::NotNodes { left }) => Err(NodeEnd::NotNodes {
            line: line_at(bytes, left),
        }),
        Err(Miss::Memory) => Err(NodeEnd::Memory),
    }
}
