//! Why a text has no tokens.

ghost use Rattle.std.specs.Prelude.{◌≡◌};
ghost use Rattle.py_lexer.specs.LogicalLines.{refusal};

use std::alloc::{AllocError, AllocFailed};
use thiserror::Error;

/// Why a script has no tokens: what comes first in its text, with the line, counted from 1.
#[derive(Debug, Drop, Error)]
pub enum LexEnd {
    #[error("not UTF-8")]
    Utf8,
    /// No token stands at a place, a string isn't closed, an escape is refused, or a bracket closes
    /// none or another kind, or is open at the end.
    #[error("line {line}: no token")]
    Token { line: u32 },
    /// A logical line's indentation fits no level.
    #[error("line {line}: no level of indentation")]
    Indent { line: u32 },
    /// A numeral breaks the rule of integer literals.
    #[error("line {line}: no number")]
    Number { line: u32 },
    #[error("out of memory")]
    Memory,
}

impl From<AllocError> for LexEnd {
    ghost use Rattle.std.specs.Prelude.{◌≡◌};
    ghost use Rattle.py_lexer.specs.declared.refusals.LexEnd.TheVariants.{Memory};

    ghost from_gives = { λ _ e. e ≡ Memory };

    fn from(_: AllocError) -> LexEnd {
        LexEnd::Memory
    }
}

impl<T: Drop> From<AllocFailed<T>> for LexEnd {
    ghost use Rattle.std.specs.Prelude.{◌≡◌};
    ghost use Rattle.py_lexer.specs.declared.refusals.LexEnd.TheVariants.{Memory};

    ghost from_gives = { λ _ e. e ≡ Memory };

    fn from(_: AllocFailed<T>) -> LexEnd {
        LexEnd::Memory
    }
}

/// Why no piece stands at a place.
#[derive(Clone, Copy)]
pub enum Fault {
    Token,
    Number,
}

impl Fault {
    pub fn at(self, line: u32) -> LexEnd
        ensures { result ≡ refusal self line }
    {
        match self {
            Fault::Token => LexEnd::Token { line },
            Fault::Number => LexEnd::Number { line },
        }
    }
}

/// Why the search for a piece ended without one.
#[derive(Clone, Copy)]
pub enum Stop {
    /// What is wrong shows so many lines below the place.
    Fault { fault: Fault, below: u32 },
    Memory,
}

impl From<AllocError> for Stop {
    ghost use Rattle.std.specs.Prelude.{◌≡◌};
    ghost use Rattle.py_lexer.specs.declared.refusals.Stop.TheVariants.{Memory};

    ghost from_gives = { λ _ e. e ≡ Memory };

    fn from(_: AllocError) -> Stop {
        Stop::Memory
    }
}
