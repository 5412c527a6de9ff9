//! Why there is no tree.

ghost use Rattle.std.specs.Prelude.{◌≡◌};

use std::alloc::{AllocError, AllocFailed};
use thiserror::Error;

/// Why reading answers no tree.
#[derive(Clone, Copy, Debug, PartialEq, Eq, Error)]
pub enum NodeEnd {
    /// No tree has the text. From this line on, counted from 1, none can.
    #[error("no nodes, line {line}")]
    NotNodes { line: u32 },
    #[error("out of memory")]
    Memory,
}

impl From<AllocError> for NodeEnd {
    ghost use Rattle.node_reader.specs.declared.end.NodeEnd.TheVariants as end;

    ghost from_gives = { λ _ e. e ≡ end.Memory };

    fn from(_e: AllocError) -> NodeEnd {
        NodeEnd::Memory
    }
}

impl<T: Drop> From<AllocFailed<T>> for NodeEnd {
    ghost use Rattle.node_reader.specs.declared.end.NodeEnd.TheVariants as end;

    ghost from_gives = { λ _ e. e ≡ end.Memory };

    fn from(_e: AllocFailed<T>) -> NodeEnd {
        NodeEnd::Memory
    }
}

/// Why a part isn't read.
#[derive(Clone, Copy)]
pub(crate) enum Miss {
    /// In the line in which so many bytes are left no tree can stand.
    NotNodes { left: usize },
    Memory,
}

impl From<AllocError> for Miss {
    ghost use Rattle.node_reader.specs.declared.end.Miss.TheVariants as miss;

    ghost from_gives = { λ _ e. e ≡ miss.Memory };

    fn from(_e: AllocError) -> Miss {
        Miss::Memory
    }
}
