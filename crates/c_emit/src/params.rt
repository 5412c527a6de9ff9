//! Parameters.

ghost use Rattle.std.specs.Prelude.{◌≡◌, ◌∷◌, ◌++◌, IfOk, OnOk, string_bytes};
ghost use Rattle.nu_text.specs.Strings.{string_text};
ghost use Rattle.c_meaning.specs.Text.{letter, params_text};

use crate::pieces::push_string;
use nu_value::{ParamKind, Shape};
use std::alloc::{AllocError, Global};

// The letter of a kind of parameter.
fn letter_of(kind: ParamKind) -> u8
    ensures { result ≡ letter kind }
{
    match kind {
        ParamKind::Only => b'p',
        ParamKind::Plain => b'n',
        ParamKind::Star => b's',
        ParamKind::Key => b'k',
        ParamKind::Double => b'd',
    }
}

// A parameter: its letter and its name.
fn push_param(bytes: &mut Vec<u8>, kind: ParamKind, name: &str) -> Result<(), AllocError>
    ensures { OnOk result (bytes.new.items ≡ bytes.old.items ++ letter kind ∷ name.now) }
{
    bytes.push(letter_of(kind))?;
    bytes.extend_from_slice(name.as_bytes())
}

// All parameters, with a space between two.
fn spelled(alloc: Global, params: &Shape) -> Result<Vec<u8>, AllocError>
    ensures { IfOk result (λ bytes. bytes.items ≡ params_text params.now) }
{
    let mut bytes = Vec::new(alloc);
    let Some((kind, name)) = params.at(0) else {
        return Ok(bytes);
    };
    push_param(&mut bytes, kind, name.as_str())?;
    for place in 1..params.len() {
        let Some((kind, name)) = params.at(place) else {
            unreachable!();
        };
        bytes.push(b' ')?;
        push_param(&mut bytes, kind, name.as_str())?;
    }
    Ok(bytes)
}

/// All parameters between quotation marks.
pub fn push_params(alloc: Global, text: &mut String, params: &Shape) -> Result<(), AllocError>
    ensures { OnOk result (string_bytes text.new ≡ string_bytes text.old ++ string_text (params_text params.now)) }
{
    let bytes = spelled(alloc, params)?;
    push_string(text, &bytes)
}
