//! What a parser answers.

use std::alloc::AllocError;
use thiserror::Error;

/// Why a list of tokens has no tree.
#[derive(Debug, Drop, Error)]
pub enum ParseEnd {
    /// No tree of depth at most 400 stands for the tokens; the line of the token at which no production goes on, or of
    /// the first token of a part that is too deep.
    #[error("line {line}: invalid syntax")]
    Grammar { line: u32 },
    /// More than 100 brackets and indentation levels together are open at a token of this line.
    #[error("line {line}: too many brackets and indentation levels")]
    Depth { line: u32 },
    #[error("out of memory")]
    Memory,
}

impl From<AllocError> for ParseEnd {
    ghost use Rattle.std.specs.Prelude.{◌≡◌};
    ghost use Rattle.py_grammar.specs.declared.found.ParseEnd.TheVariants.{Memory};

    ghost from_gives = { λ _ e. e ≡ Memory };

    fn from(_: AllocError) -> ParseEnd {
        ParseEnd::Memory
    }
}

/// A tree, or a list of trees, with its height: the number of expressions on the longest way inwards.
#[derive(Drop)]
pub struct Found<T> {
    pub tree: T,
    pub height: u32,
}
