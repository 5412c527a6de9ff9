//! Identifiers inside classes.

ghost use Rattle.std.specs.Prelude.{◌≡◌, option_map, IfOk};
ghost use Rattle.py_scopes.specs.Names as spec;

use nu_text::RcStr;
use std::alloc::{AllocError, Global};

/// The text behind a first underscore.
fn after_underscore(text: &str) -> Option<&str>
    ensures { option_map (λ rest. rest.now) result ≡ spec.after_underscore text.now }
{
    text.strip_prefix('_')
}

/// A name without its leading underscores.
fn stem(name: &str) -> &str
    ensures { result.now ≡ spec.stem name.now }
{
    match after_underscore(name) {
        Some(rest) => stem(rest),
        None => name,
    }
}

fn is_private(class: &str, name: &str) -> bool
    ensures { result ≡ spec.is_private class.now name.now }
{
    let bytes = name.as_bytes();
    bytes.starts_with(b"__") && !bytes.ends_with(b"__") && stem(class).len() >= 1
}

/// An identifier as it counts in a class of this name (reference, section 6.2.1).
fn mangled_in(alloc: Global, class: &RcStr, name: &RcStr) -> Result<RcStr, AllocError>
    ensures { IfOk result (λ x. x ≡ spec.mangled_in class.now name.now) }
{
    if !is_private(class.as_str(), name.as_str()) {
        return name.share();
    }
    let mut text = String::from_str(alloc, "_")?;
    text.push_str(stem(class.as_str()))?;
    text.push_str(name.as_str())?;
    RcStr::from_str(alloc, text.as_str())
}

/// As it counts under the innermost class around it, if there is one.
pub fn mangled(alloc: Global, class: &Option<RcStr>, name: &RcStr) -> Result<RcStr, AllocError>
    ensures { IfOk result (λ x. x ≡ spec.mangled class.now name.now) }
{
    match class {
        Some(class) => mangled_in(alloc, class, name),
        None => name.share(),
    }
}
