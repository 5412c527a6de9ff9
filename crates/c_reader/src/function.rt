//! Functions.

ghost use Rattle.std.specs.Prelude.{◌≡◌, ◌++◌, ℕ, Bool, List, [], ◌∷◌, IfOk, IfErr, IfSome, IfNone, true};
ghost use Rattle.nu_text.specs.Decimals.{ends_decimal};
ghost use Rattle.nu_value.specs.declared.header.ParamKind.{ParamKind};
ghost use Rattle.nu_value.specs.declared.header.Header.{Header};
ghost use Rattle.c_meaning.specs.declared.program.Line.{Line};
ghost use Rattle.c_meaning.specs.declared.program.Function.{Function};
ghost use Rattle.c_reader.specs.Answers.{OnMiss};
ghost use Rattle.c_reader.specs.Functions.{FrontStands, KindStands, BackStands, OpeningStands, HeaderStands, BodyStands, FunctionStands};

use crate::declaration::declaration;
use crate::end::Miss;
use crate::labels::{is_new, no_labels};
use crate::number::{LINES, NUMBERS, after, after_number, number};
use crate::params::params;
use crate::spelling::string;
use crate::statement::line;
use c_meaning::{Function, Line};
use nu_text::RcStr;
use nu_value::{Header, Shape};
use sqlite_items::Items;
use std::alloc::{AllocError, Global};

// What follows the opening piece, the decimal of this number, and a closing piece.
fn given_number<'a>(text: &'a [u8], opening: &[u8], value: u64, closing: &[u8]) -> Option<&'a [u8]>
    requires { ends_decimal closing.now ≡ true }
    ensures some { IfSome result (λ rest.
        OpeningStands opening.now value closing.now text.now rest.now) }
    ensures none { IfNone result ((rest : List ℕ)
        → OpeningStands opening.now value closing.now text.now rest → ⊥) }
{
    let behind = after(text, opening)?;
    after_number(behind, value, closing)
}

// The scope and the parameters in the first line of the function of this number, and what follows.
fn front(
    alloc: Global,
    text: &[u8],
    value: u64,
) -> Result<Option<(RcStr, Shape, &[u8])>, AllocError>
    ensures some { IfOk result (λ read. IfSome read
        (λ found. FrontStands value text.now found.0 found.1 found.2.now)) }
    ensures none { IfOk result (λ read. IfNone read
        ((scope : List ℕ) (shape : List (ParamKind × List ℕ)) (rest : List ℕ)
        → FrontStands value text.now scope shape rest → ⊥)) }
{
    let Some(behind) = given_number(text, b"NU_CODE(", value, b", ") else {
        return Ok(None);
    };
    let Some((scope, behind)) = string(alloc, behind)? else {
        return Ok(None);
    };
    let Some(behind) = after(behind, b", ") else {
        return Ok(None);
    };
    let Some((shape, behind)) = params(alloc, behind)? else {
        return Ok(None);
    };
    let Some(rest) = after(behind, b", ") else {
        return Ok(None);
    };
    Ok(Some((scope, shape, rest)))
}

// Whether the function is a generator's, and what follows.
fn kind(text: &[u8]) -> Option<(bool, &[u8])>
    ensures some { IfSome result (λ found. KindStands text.now found.0 found.1.now) }
    ensures none { IfNone result ((generator : Bool) (rest : List ℕ)
        → KindStands text.now generator rest → ⊥) }
{
    if let Some(rest) = after(text, b"0, ") {
        return Some((false, rest));
    }
    let rest = after(text, b"1, ")?;
    Some((true, rest))
}

// The kind, the slots and the line behind them, and what follows.
fn back(text: &[u8]) -> Option<(bool, u64, u32, &[u8])>
    ensures some { IfSome result
        (λ found. BackStands text.now found.0 found.1 found.2 found.3.now) }
    ensures none { IfNone result ((generator : Bool) (slots at : ℕ) (rest : List ℕ)
        → BackStands text.now generator slots at rest → ⊥) }
{
    let (generator, behind) = kind(text)?;
    let (slots, behind) = number(behind, NUMBERS, b", ")?;
    let (line, rest) = number(behind, LINES, b")\n")?;
    if line == 0 {
        return None;
    }
    Some((generator, slots, line as u32, rest))
}

// All that stands in front of the body of the function of this number, and what follows.
fn header(alloc: Global, text: &[u8], value: u64) -> Result<(Header, u64, u64, &[u8]), Miss>
    ensures ok { IfOk result
        (λ found. HeaderStands value text.now found.0 found.1 found.2 found.3.now) }
    ensures not_c { IfErr result (λ miss. OnMiss miss
        ((h : Header) (slots registers : ℕ) (rest : List ℕ)
        → HeaderStands value text.now h slots registers rest → ⊥)) }
{
    let Some((scope, params, behind)) = front(alloc, text, value)? else {
        return Err(Miss::NotC { left: text.len() });
    };
    let Some((generator, slots, line, behind)) = back(behind) else {
        return Err(Miss::NotC { left: text.len() });
    };
    let Some(opened) = given_number(behind, b"nu nu_code_", value, b"(nu_frame *fr)\n") else {
        return Err(Miss::NotC { left: behind.len() });
    };
    let Some(declared) = after(opened, b"{\n") else {
        return Err(Miss::NotC { left: opened.len() });
    };
    let Some((registers, rest)) = declaration(declared) else {
        return Err(Miss::NotC {
            left: declared.len(),
        });
    };
    Ok((
        Header {
            scope,
            params,
            generator,
            line,
        },
        slots,
        registers,
        rest,
    ))
}

// The lines of a body, behind which its brace follows, and what follows that.
fn body(alloc: Global, text: &[u8], registers: u64) -> Result<(Items<Line>, &[u8]), Miss>
    ensures ok { IfOk result (λ found. BodyStands registers text.now found.0 found.1.now) }
    ensures not_c { IfErr result (λ miss. OnMiss miss ((lines : List Line) (rest : List ℕ)
        → BodyStands registers text.now lines rest → ⊥)) }
{
    let mut lines = Items::new(alloc);
    let mut labels = no_labels(alloc);
    let mut left = text;
    while after(left, b"}\n").is_none() {
        let Some((one, behind)) = line(alloc, left, registers)? else {
            return Err(Miss::NotC { left: left.len() });
        };
        let Ok(new) = is_new(&mut labels, &one) else {
            drop(one);
            return Err(Miss::Memory);
        };
        if !new {
            drop(one);
            return Err(Miss::NotC { left: left.len() });
        }
        lines.push(one)?;
        left = behind;
    }
    let Some(rest) = after(left, b"}\n") else {
        return Err(Miss::NotC { left: left.len() });
    };
    Ok((lines, rest))
}

/// The function of this number at the front of the text, and what follows.
pub(crate) fn function(alloc: Global, text: &[u8], value: u64) -> Result<(Function, &[u8]), Miss>
    ensures ok { IfOk result (λ found. FunctionStands value text.now found.0 found.1.now) }
    ensures not_c { IfErr result (λ miss. OnMiss miss ((f : Function) (rest : List ℕ)
        → FunctionStands value text.now f rest → ⊥)) }
{
    let (header, slots, registers, behind) = header(alloc, text, value)?;
    let (body, rest) = body(alloc, behind, registers)?;
    Ok((
        Function {
            header,
            slots,
            registers,
            body,
        },
        rest,
    ))
}
