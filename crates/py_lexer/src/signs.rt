//! Operators and delimiters (reference, sections 2.5 and 2.6).

ghost use Rattle.std.specs.Prelude.{◌≡◌, ◌≤◌, length, IfSome};
ghost use Rattle.py_ast.specs.Spelled.{sign_spelled};
ghost use Rattle.py_lexer.specs.Signs as spec;

use crate::runs::begins;
use py_ast::{SIGNS, Sign};

/// The first sign of the table at the front.
fn sign_in(table: &[Sign], text: &[char]) -> Option<Sign>
    ensures value { result ≡ spec.sign_of table.now text.now }
    ensures within { IfSome result (λ s. length (sign_spelled s) ≤ length text.now) }
{
    for sign in table {
        if begins(text, sign.spelling()) {
            return Some(*sign);
        }
    }
    None
}

/// The longest sign at the front.
pub fn sign(text: &[char]) -> Option<Sign>
    ensures value { result ≡ spec.sign_at text.now }
    ensures within { IfSome result (λ s. length (sign_spelled s) ≤ length text.now) }
{
    sign_in(&SIGNS, text)
}
