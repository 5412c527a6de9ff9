//! Reads a text from its first line to its last.

ghost use Rattle.std.specs.Prelude.{◌≡◌, ℕ, List, IfOk, IfErr, IfSome, IfNone};
ghost use Rattle.c_meaning.specs.Written.{IsText};
ghost use Rattle.c_meaning.specs.declared.program.Function.{Function};
ghost use Rattle.c_meaning.specs.declared.program.CProgram.{CProgram};
ghost use Rattle.c_reader.specs.Answers.{OnMiss, OnNotC};
ghost use Rattle.c_reader.specs.Programs.{CountsStand, ScriptStands, HeadingStands, FunctionsStand};

use crate::end::{Miss, ReadEnd};
use crate::function::function;
use crate::number::{LINES, after, number};
use crate::spelling::string;
use c_meaning::{CProgram, Function};
use nu_text::RcStr;
use sqlite_items::Items;
use std::alloc::{AllocError, Global};

/// How many functions a program has at most.
const FUNCTIONS: u64 = 65535;

// The numbers of functions in the third line, and what follows.
fn counts(text: &[u8]) -> Option<(u32, u32, &[u8])>
    ensures some { IfSome result (λ found. CountsStand text.now found.0 found.1 found.2.now) }
    ensures none { IfNone result ((scripts builtins : ℕ) (rest : List ℕ)
        → CountsStand text.now scripts builtins rest → ⊥) }
{
    let (scripts, behind) = number(text, LINES, b", ")?;
    let (builtins, rest) = number(behind, LINES, b")\n")?;
    if scripts == 0 {
        return None;
    }
    if scripts + builtins > FUNCTIONS {
        return None;
    }
    Some((scripts as u32, builtins as u32, rest))
}

// The name of the script's file and the numbers of functions in the third line, and what follows.
fn script_line(alloc: Global, text: &[u8]) -> Result<Option<(RcStr, u32, u32, &[u8])>, AllocError>
    ensures some { IfOk result (λ read. IfSome read
        (λ found. ScriptStands text.now found.0 found.1 found.2 found.3.now)) }
    ensures none { IfOk result (λ read. IfNone read
        ((name : List ℕ) (scripts builtins : ℕ) (rest : List ℕ)
        → ScriptStands text.now name scripts builtins rest → ⊥)) }
{
    let Some(behind) = after(text, b"NU_SCRIPT(") else {
        return Ok(None);
    };
    let Some((name, behind)) = string(alloc, behind)? else {
        return Ok(None);
    };
    let Some(behind) = after(behind, b", ") else {
        return Ok(None);
    };
    let Some((scripts, builtins, rest)) = counts(behind) else {
        return Ok(None);
    };
    Ok(Some((name, scripts, builtins, rest)))
}

// The first three lines, and what follows.
fn heading(alloc: Global, text: &[u8]) -> Result<(RcStr, u32, u32, &[u8]), Miss>
    ensures ok { IfOk result
        (λ found. HeadingStands text.now found.0 found.1 found.2 found.3.now) }
    ensures not_c { IfErr result (λ miss. OnMiss miss
        ((name : List ℕ) (scripts builtins : ℕ) (rest : List ℕ)
        → HeadingStands text.now name scripts builtins rest → ⊥)) }
{
    let Some(second) = after(text, b"/* nuit C 1 */\n") else {
        return Err(Miss::NotC { left: text.len() });
    };
    let Some(third) = after(second, b"#include \"nuit1.h\"\n") else {
        return Err(Miss::NotC { left: second.len() });
    };
    let Some((name, scripts, builtins, rest)) = script_line(alloc, third)? else {
        return Err(Miss::NotC { left: third.len() });
    };
    Ok((name, scripts, builtins, rest))
}

// All functions, of which there are so many, to the end of the text.
fn functions(alloc: Global, text: &[u8], count: u64) -> Result<Items<Function>, Miss>
    ensures ok { IfOk result (λ found. FunctionsStand count text.now found) }
    ensures not_c { IfErr result (λ miss. OnMiss miss ((found : List Function)
        → FunctionsStand count text.now found → ⊥)) }
{
    let mut found = Items::new(alloc);
    let mut left = text;
    for number in 0..count {
        let (one, behind) = function(alloc, left, number)?;
        found.push(one)?;
        left = behind;
    }
    if !left.is_empty() {
        return Err(Miss::NotC { left: left.len() });
    }
    Ok(found)
}

// The program that stands for the bytes.
fn program(alloc: Global, text: &[u8]) -> Result<CProgram, Miss>
    ensures ok { IfOk result (λ program. IsText text.now program) }
    ensures not_c { IfErr result (λ miss. OnMiss miss
        ((program : CProgram) → IsText text.now program → ⊥)) }
{
    let (name, scripts, builtins, behind) = heading(alloc, text)?;
    let count = u64::from(scripts) + u64::from(builtins);
    let functions = functions(alloc, behind, count)?;
    Ok(CProgram {
        name,
        scripts,
        builtins,
        functions,
    })
}

// The line that begins where so many bytes are left, counted from 1.
fn line_at(text: &[u8], left: usize) -> u32 {
    let mut line: u32 = 1;
    for (place, byte) in text.iter().enumerate() {
        if text.len() - place <= left {
            break;
        }
        if *byte == b'\n' {
            line = line.saturating_add(1);
        }
    }
    line
}

/// The program that stands for the bytes, by the text relation `IsText` (`c_meaning`, specs/Written.antt).
///
/// # Errors
///
/// `NotC` exactly where no program stands for the bytes; `Memory` where memory runs out.
pub fn read(alloc: Global, text: &[u8]) -> Result<CProgram, ReadEnd>
    ensures ok { IfOk result (λ program. IsText text.now program) }
    ensures not_c { IfErr result (λ end. OnNotC end
        ((program : CProgram) → IsText text.now program → ⊥)) }
{
    match program(alloc, text) {
        Ok(program) => Ok(program),
        Err(Miss::NotC { left }) => Err(ReadEnd::NotC {
            line: line_at(text, left),
        }),
        Err(Miss::Memory) => Err(ReadEnd::Memory),
    }
}
