//! Codes.

ghost use Rattle.std.specs.Prelude.{◌≡◌, ℕ, Bool, List, IfOk, IfErr, IfSome, IfNone};
ghost use Rattle.nu_value.specs.declared.header.ParamKind.{ParamKind};
ghost use Rattle.nu_value.specs.declared.header.Header.{Header};
ghost use Rattle.node_tree.specs.declared.script.NodeCode.{NodeCode};
ghost use Rattle.node_reader.specs.Answers.{OnMiss};
ghost use Rattle.node_reader.specs.Codes.{FrontStands, KindStands, BackStands, HeaderStands, CodeStands};

use crate::end::Miss;
use crate::node::block;
use c_reader::number::{LINES, NUMBERS, after, after_number, number};
use c_reader::params::params;
use c_reader::spelling::string;
use node_tree::NodeCode;
use nu_text::RcStr;
use nu_value::{Header, Shape};
use std::alloc::{AllocError, Global};

// The scope and the parameters in the first line of the code of this number, and what follows.
fn front(
    alloc: Global,
    text: &[u8],
    value: u64,
) -> Result<Option<(RcStr, Shape, &[u8])>, AllocError>
    ensures some { IfOk result (λ read. IfSome read
        (λ found. FrontStands value text.now found.0 found.1 found.2.now)) }
    ensures none { IfOk result (λ read. IfNone read
        ((scope : List ℕ) (shape : List (ParamKind × List ℕ)) (rest : List ℕ)
        → FrontStands value text.now scope shape rest → ⊥)) }
{
    let Some(behind) = after(text, b"code ") else {
        return Ok(None);
    };
    let Some(behind) = after_number(behind, value, b" ") else {
        return Ok(None);
    };
    let Some((scope, behind)) = string(alloc, behind)? else {
        return Ok(None);
    };
    let Some(behind) = after(behind, b" ") else {
        return Ok(None);
    };
    let Some((shape, behind)) = params(alloc, behind)? else {
        return Ok(None);
    };
    let Some(rest) = after(behind, b" ") else {
        return Ok(None);
    };
    Ok(Some((scope, shape, rest)))
}

// Whether the code is a generator's, and what follows.
fn kind(text: &[u8]) -> Option<(bool, &[u8])>
    ensures some { IfSome result (λ found. KindStands text.now found.0 found.1.now) }
    ensures none { IfNone result ((generator : Bool) (rest : List ℕ)
        → KindStands text.now generator rest → ⊥) }
{
    if let Some(rest) = after(text, b"plain ") {
        return Some((false, rest));
    }
    let rest = after(text, b"generator ")?;
    Some((true, rest))
}

// The kind, the number of free cells and the line behind them, and what follows.
fn back(text: &[u8]) -> Option<(bool, u64, u32, &[u8])>
    ensures some { IfSome result
        (λ found. BackStands text.now found.0 found.1 found.2 found.3.now) }
    ensures none { IfNone result ((generator : Bool) (free line : ℕ) (rest : List ℕ)
        → BackStands text.now generator free line rest → ⊥) }
{
    let (generator, behind) = kind(text)?;
    let (free, behind) = number(behind, NUMBERS, b" ")?;
    let (line, rest) = number(behind, LINES, b"\n")?;
    Some((generator, free, line as u32, rest))
}

// The first line of the code of this number, and what follows.
fn header(
    alloc: Global,
    text: &[u8],
    value: u64,
) -> Result<Option<(Header, u64, &[u8])>, AllocError>
    ensures some { IfOk result (λ read. IfSome read
        (λ found. HeaderStands value text.now found.0 found.1 found.2.now)) }
    ensures none { IfOk result (λ read. IfNone read ((h : Header) (free : ℕ) (rest : List ℕ)
        → HeaderStands value text.now h free rest → ⊥)) }
{
    let Some((scope, params, behind)) = front(alloc, text, value)? else {
        return Ok(None);
    };
    let Some((generator, free, line, rest)) = back(behind) else {
        return Ok(None);
    };
    Ok(Some((
        Header {
            scope,
            params,
            generator,
            line,
        },
        free,
        rest,
    )))
}

/// The code of this number at the front of the text, behind which no line of a statement follows; and what follows.
pub(crate) fn code(alloc: Global, text: &[u8], value: u64) -> Result<(NodeCode, &[u8]), Miss>
    ensures ok { IfOk result (λ found. CodeStands value text.now found.0 found.1.now) }
    ensures not_nodes { IfErr result (λ miss. OnMiss miss ((c : NodeCode) (rest : List ℕ)
        → CodeStands value text.now c rest → ⊥)) }
{
    let Some((header, free, behind)) = header(alloc, text, value)? else {
        return Err(Miss::NotNodes { left: text.len() });
    };
    let (body, rest) = block(alloc, behind, b"  ")?;
    Ok((NodeCode { header, free, body }, rest))
}
