//! Identifiers: mangling, names between double underscores, and the names that a module has without binding them.

ghost use Rattle.std.specs.Prelude.{◌≡◌, option_map, IfOk};
ghost use Rattle.nu_text.specs.Names as tables;
ghost use Rattle.py_scopes.specs.Names as spec;

use nu_text::{RcStr, is_among, is_built_in_name, is_text_native};
use std::alloc::{AllocError, Global};

/// The identifiers between double underscores that a script may have (reference, section 3.3).
pub const SPECIAL: [&str; 16] = [
    "__init__",
    "__str__",
    "__repr__",
    "__len__",
    "__bool__",
    "__iter__",
    "__next__",
    "__enter__",
    "__exit__",
    "__call__",
    "__getitem__",
    "__setitem__",
    "__delitem__",
    "__contains__",
    "__name__",
    "__class__",
];

/// The text behind a first underscore.
fn after_underscore(text: &str) -> Option<&str>
    ensures { option_map (λ rest. rest.now) result ≡ spec.after_underscore text.now }
{
    text.strip_prefix('_')
}

/// A name without its leading underscores.
fn stem(name: &str) -> &str
    ensures { result.now ≡ spec.stem name.now }
{
    match after_underscore(name) {
        Some(rest) => stem(rest),
        None => name,
    }
}

/// Whether an identifier is mangled in a class of this name.
fn is_private(class: &str, name: &str) -> bool
    ensures { result ≡ spec.is_private class.now name.now }
{
    let bytes = name.as_bytes();
    bytes.starts_with(b"__") && !bytes.ends_with(b"__") && stem(class).len() >= 1
}

/// An identifier as it counts in a class of this name (reference, section 6.2.1).
pub fn mangled(alloc: Global, class: &RcStr, name: &RcStr) -> Result<RcStr, AllocError>
    ensures { IfOk result (λ x. x ≡ spec.mangled_in class.now name.now) }
{
    if !is_private(class.as_str(), name.as_str()) {
        return name.share();
    }
    let mut text = String::from_str(alloc, "_")?;
    text.push_str(stem(class.as_str()))?;
    text.push_str(name.as_str())?;
    RcStr::from_str(alloc, text.as_str())
}

/// Whether an identifier of five or more characters between double underscores is not in the written list.
pub fn is_unwritten(name: &str) -> bool
    ensures { result ≡ spec.is_unwritten name.now }
{
    let bytes = name.as_bytes();
    bytes.starts_with(b"__") && bytes.ends_with(b"__") && bytes.len() >= 5 && !is_special(name)
}

#[tactic(auto, unfolding(crate::specs::Names::special))]
fn is_special(name: &str) -> bool
    ensures { result ≡ tables.is_among spec.special name.now }
{
    is_among(&SPECIAL, name)
}

/// Whether the module has this name without binding it.
pub fn is_given(built_in: bool, name: &str) -> bool
    ensures { result ≡ spec.is_given built_in name.now }
{
    name == "__name__" || is_built_in_name(name) || (built_in && is_text_native(name))
}
