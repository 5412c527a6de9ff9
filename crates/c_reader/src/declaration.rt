//! The declaration of a function's registers.

ghost use Rattle.std.specs.Prelude.{◌≡◌, ℕ, List, IfSome, IfNone};
ghost use Rattle.c_reader.specs.Functions.{DeclarationStands};

use crate::number::after;
use nu_text::leading_decimal;

/// How many registers are declared at the front of a function's body, and what follows.
pub(crate) fn declaration(text: &[u8]) -> Option<(u64, &[u8])>
    ensures some { IfSome result (λ found. DeclarationStands text.now found.0 found.1.now) }
    ensures none { IfNone result ((registers : ℕ) (rest : List ℕ)
        → DeclarationStands text.now registers rest → ⊥) }
{
    let Some(mut rest) = after(text, b"  nu r0") else {
        return Some((0, text));
    };
    let mut registers: u64 = 1;
    while let Some(next) = after(rest, b", r") {
        let (register, behind) = leading_decimal(next)?;
        if register != u128::from(registers) {
            return None;
        }
        registers = registers.checked_add(1)?;
        rest = behind;
    }
    let rest = after(rest, b";\n")?;
    match after(rest, b"  nu r0") {
        Some(_) => None,
        None => Some((registers, rest)),
    }
}
