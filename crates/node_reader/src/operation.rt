//! The names of operations.

ghost use Rattle.std.specs.Prelude.{◌≡◌, ℕ, List, IfSome, IfNone};
ghost use Rattle.std.specs.List.{AllByRecursion};
ghost use Rattle.op_forms.specs.declared.op.Op.{Op};
ghost use Rattle.node_reader.specs.Lines.{starts_letter, NameStands};

use c_reader::number::{after, begins_with_digit};
use op_forms::{OPS, Op};

// Whether a lower-case letter follows.
fn begins_with_letter(text: &[u8]) -> bool
    ensures { result ≡ starts_letter text.now }
{
    match text {
        [byte, ..] => byte.is_ascii_lowercase(),
        _ => false,
    }
}

// What follows the name of this operation.
fn behind_name(text: &[u8], op: Op) -> Option<&[u8]>
    ensures some { IfSome result (λ rest. NameStands text.now op rest.now) }
    ensures none { IfNone result ((rest : List ℕ) → NameStands text.now op rest → ⊥) }
{
    let rest = after(text, op.name().as_bytes())?;
    if begins_with_letter(rest) {
        return None;
    }
    if begins_with_digit(rest) {
        return None;
    }
    Some(rest)
}

// The operation of the table of which the name stands at the front of the text, and what follows.
fn name_among<'a>(table: &[Op], text: &'a [u8]) -> Option<(Op, &'a [u8])>
    ensures some { IfSome result (λ found. NameStands text.now found.0 found.1.now) }
    ensures none { IfNone result
        (AllByRecursion (λ o. (rest : List ℕ) → NameStands text.now o rest → ⊥) table.now) }
{
    for op in table {
        if let Some(rest) = behind_name(text, *op) {
            return Some((*op, rest));
        }
    }
    None
}

/// The operation of which the name stands at the front of the text, and what follows.
pub(crate) fn name(text: &[u8]) -> Option<(Op, &[u8])>
    ensures some { IfSome result (λ found. NameStands text.now found.0 found.1.now) }
    ensures none { IfNone result ((o : Op) (rest : List ℕ) → NameStands text.now o rest → ⊥) }
{
    name_among(&OPS, text)
}
