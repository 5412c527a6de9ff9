//! Why there is no program.

ghost use Rattle.std.specs.Prelude.{◌≡◌};

use std::alloc::{AllocError, AllocFailed};
use thiserror::Error;

/// Why reading answers no program.
#[derive(Clone, Copy, Debug, PartialEq, Eq, Error)]
pub enum ReadEnd {
    /// No program stands for the bytes. From this line on, counted from 1, none can.
    #[error("not C, line {line}")]
    NotC { line: u32 },
    #[error("out of memory")]
    Memory,
}

impl From<AllocError> for ReadEnd {
    ghost use Rattle.c_reader.specs.declared.end.ReadEnd.TheVariants as end;

    ghost from_gives = { λ _ e. e ≡ end.Memory };

    fn from(_e: AllocError) -> ReadEnd {
        ReadEnd::Memory
    }
}

impl<T: Drop> From<AllocFailed<T>> for ReadEnd {
    ghost use Rattle.c_reader.specs.declared.end.ReadEnd.TheVariants as end;

    ghost from_gives = { λ _ e. e ≡ end.Memory };

    fn from(_e: AllocFailed<T>) -> ReadEnd {
        ReadEnd::Memory
    }
}

/// Why a part isn't read.
#[derive(Clone, Copy)]
pub(crate) enum Miss {
    /// In the line that begins where so many bytes are left no program can stand.
    NotC { left: usize },
    Memory,
}

impl From<AllocError> for Miss {
    ghost use Rattle.c_reader.specs.declared.end.Miss.TheVariants as miss;

    ghost from_gives = { λ _ e. e ≡ miss.Memory };

    fn from(_e: AllocError) -> Miss {
        Miss::Memory
    }
}
