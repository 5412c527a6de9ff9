//! How many brackets and indentation levels are open at once.

ghost use Rattle.std.specs.Prelude.{◌≡◌};
ghost use Rattle.py_statements.specs.Nesting as spec;

use crate::words::opened;
use py_ast::Token;

/// The most brackets and indentation levels that may be open together.
const MAX_NESTING: usize = 100;

/// The line of the first token at which too many are open.
pub fn too_deep(tokens: &[Token]) -> Option<u32>
    ensures { result ≡ spec.too_deep 0 tokens.now }
{
    let mut open = 0;
    for token in tokens {
        open = opened(open, &token.kind);
        if open > MAX_NESTING {
            return Some(token.line);
        }
    }
    None
}
