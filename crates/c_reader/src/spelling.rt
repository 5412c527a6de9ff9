//! Strings between quotation marks at the front of a text.

ghost use Rattle.std.specs.Prelude.{◌≡◌, ℕ, ◌<◌, ◌++◌, List, IfOk, IfSome, IfNone};
ghost use Rattle.nu_text.specs.Strings.{stands_plain, string_byte};
ghost use Rattle.c_reader.specs.Pieces.{QuotedStands, StringStands};

use crate::number::after;
use nu_text::RcStr;
use std::alloc::{AllocError, Global};

// Whether the byte stands for itself in a string.
fn is_plain(byte: u8) -> bool
    ensures { result ≡ stands_plain byte }
{
    matches!(byte, b' '..=b'~') && byte != b'"' && byte != b'\\' && byte != b'?'
}

// The byte of a string that is spelled at the front of the text, and what follows.
fn spelled_byte(text: &[u8]) -> Option<(u8, &[u8])>
    ensures some { IfSome result (λ found. text.now ≡ string_byte found.0 ++ found.1.now) }
    ensures none { IfNone result ((byte : ℕ) (rest : List ℕ)
        → byte < 256 → text.now ≡ string_byte byte ++ rest → ⊥) }
{
    match text {
        [
            b'\\',
            high @ b'0'..=b'3',
            middle @ b'0'..=b'7',
            low @ b'0'..=b'7',
            rest @ ..,
        ] => {
            let byte = (*high - b'0') * 64 + (*middle - b'0') * 8 + (*low - b'0');
            if is_plain(byte) {
                None
            } else {
                Some((byte, rest))
            }
        }
        [byte, rest @ ..] if is_plain(*byte) => Some((*byte, rest)),
        _ => None,
    }
}

/// The bytes of which a string stands at the front, and what follows.
pub(crate) fn quoted(alloc: Global, text: &[u8]) -> Result<Option<(Vec<u8>, &[u8])>, AllocError>
    ensures some { IfOk result
        (λ read. IfSome read (λ found. QuotedStands text.now found.0.items found.1.now)) }
    ensures none { IfOk result
        (λ read. IfNone read ((bytes rest : List ℕ) → QuotedStands text.now bytes rest → ⊥)) }
{
    let Some(mut rest) = after(text, b"\"") else {
        return Ok(None);
    };
    let mut bytes = Vec::new(alloc);
    while let Some((byte, behind)) = spelled_byte(rest) {
        bytes.push(byte)?;
        rest = behind;
    }
    let Some(rest) = after(rest, b"\"") else {
        return Ok(None);
    };
    Ok(Some((bytes, rest)))
}

/// The text of which a string stands at the front, and what follows.
pub fn string(alloc: Global, text: &[u8]) -> Result<Option<(RcStr, &[u8])>, AllocError>
    ensures some { IfOk result
        (λ read. IfSome read (λ found. StringStands text.now found.0 found.1.now)) }
    ensures none { IfOk result
        (λ read. IfNone read ((bytes rest : List ℕ) → StringStands text.now bytes rest → ⊥)) }
{
    let Some((bytes, rest)) = quoted(alloc, text)? else {
        return Ok(None);
    };
    let Ok(name) = str::from_utf8(&bytes) else {
        return Ok(None);
    };
    Ok(Some((RcStr::from_str(alloc, name)?, rest)))
}
