//! Parameters.

ghost use Rattle.std.specs.Prelude.{◌≡◌, ◌++◌, ℕ, List, IfOk, IfSome, IfNone, false, true};
ghost use Rattle.nu_value.specs.declared.header.ParamKind.{ParamKind};
ghost use Rattle.c_meaning.specs.Text.{letter};
ghost use Rattle.c_meaning.specs.Written.{has, in_order, rank, rank_behind};
ghost use Rattle.c_reader.specs.Params.{left_text, ParamStands, AreSpelled, ParamsStand};

use crate::spelling::quoted;
use nu_text::RcStr;
use nu_value::{ParamKind, Shape};
use std::alloc::{AllocError, Global};

// The kind of parameter of this letter.
fn kind_of(byte: u8) -> Option<ParamKind>
    ensures some { IfSome result (λ kind. letter kind ≡ byte) }
    ensures none { IfNone result ((kind : ParamKind) → letter kind ≡ byte → ⊥) }
{
    match byte {
        b'p' => Some(ParamKind::Only),
        b'n' => Some(ParamKind::Plain),
        b's' => Some(ParamKind::Star),
        b'k' => Some(ParamKind::Key),
        b'd' => Some(ParamKind::Double),
        _ => None,
    }
}

// What stands in front of the first space, and what follows it.
fn split_at_space(text: &[u8]) -> (&[u8], Option<&[u8]>)
    ensures no_space { has result.0.now 32 ≡ false }
    ensures spelled { text.now ≡ result.0.now ++ left_text result.1 }
{
    for (place, byte) in text.iter().enumerate() {
        if *byte == b' ' {
            return (&text[..place], Some(&text[place + 1..]));
        }
    }
    (text, None)
}

// A parameter, and what follows the space behind it.
fn param(
    alloc: Global,
    text: &[u8],
) -> Result<Option<(ParamKind, RcStr, Option<&[u8]>)>, AllocError>
    ensures some { IfOk result (λ read. IfSome read
        (λ found. ParamStands text.now (found.0, found.1) (left_text found.2))) }
    ensures none { IfOk result (λ read. IfNone read
        ((p : ParamKind × List ℕ) (rest : List ℕ) → ParamStands text.now p rest → ⊥)) }
{
    let [byte, behind @ ..] = text else {
        return Ok(None);
    };
    let Some(kind) = kind_of(*byte) else {
        return Ok(None);
    };
    let (bytes, next) = split_at_space(behind);
    if bytes.is_empty() {
        return Ok(None);
    }
    let Ok(name) = str::from_utf8(bytes) else {
        return Ok(None);
    };
    Ok(Some((kind, RcStr::from_str(alloc, name)?, next)))
}

// The parameters that are spelled so, at least one, in any order.
fn some_params(alloc: Global, text: &[u8]) -> Result<Option<Shape>, AllocError>
    ensures some { IfOk result (λ read. IfSome read (λ shape. AreSpelled text.now shape)) }
    ensures none { IfOk result (λ read. IfNone read
        ((shape : List (ParamKind × List ℕ)) → AreSpelled text.now shape → ⊥)) }
{
    let mut shape = Shape::new(alloc);
    let mut left = Some(text);
    while let Some(item) = left {
        let Some((kind, name, next)) = param(alloc, item)? else {
            return Ok(None);
        };
        shape.push(kind, name)?;
        left = next;
    }
    Ok(Some(shape))
}

fn rank(kind: ParamKind) -> u8
    ensures { result ≡ rank kind }
{
    match kind {
        ParamKind::Only => 0,
        ParamKind::Plain => 1,
        ParamKind::Star => 2,
        ParamKind::Key => 3,
        ParamKind::Double => 4,
    }
}

fn rank_behind(kind: ParamKind) -> u8
    ensures { result ≡ rank_behind kind }
{
    match kind {
        ParamKind::Only => 0,
        ParamKind::Plain => 1,
        ParamKind::Star | ParamKind::Key => 3,
        ParamKind::Double => 5,
    }
}

// Whether the parameters stand in their order.
fn in_order(shape: &Shape) -> bool
    ensures { result ≡ in_order 0 shape.now }
{
    let mut least = 0;
    for place in 0..shape.len() {
        let Some((kind, _)) = shape.at(place) else {
            unreachable!();
        };
        if rank(kind) < least {
            return false;
        }
        least = rank_behind(kind);
    }
    true
}

/// The parameters of which a string stands at the front, and what follows.
pub fn params(alloc: Global, text: &[u8]) -> Result<Option<(Shape, &[u8])>, AllocError>
    ensures some { IfOk result
        (λ read. IfSome read (λ found. ParamsStand text.now found.0 found.1.now)) }
    ensures none { IfOk result (λ read. IfNone read
        ((shape : List (ParamKind × List ℕ)) (rest : List ℕ) → ParamsStand text.now shape rest → ⊥)) }
{
    let Some((bytes, rest)) = quoted(alloc, text)? else {
        return Ok(None);
    };
    if bytes.is_empty() {
        return Ok(Some((Shape::new(alloc), rest)));
    }
    let Some(shape) = some_params(alloc, &bytes)? else {
        return Ok(None);
    };
    if !in_order(&shape) {
        return Ok(None);
    }
    Ok(Some((shape, rest)))
}
