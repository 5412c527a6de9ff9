//! What keeps a script from being reformulated.

use std::alloc::AllocError;
use thiserror::Error;

/// What keeps a script from being reformulated.
#[derive(Debug, Drop, Error)]
pub enum ReformEnd {
    /// The first thing in the script that is not built yet stands in this line.
    #[error("line {line}: not built")]
    Unbuilt { line: u32 },
    #[error("out of memory")]
    Memory,
}

impl From<AllocError> for ReformEnd {
    ghost use Rattle.std.specs.Prelude.{◌≡◌};
    ghost use Rattle.reform_all.specs.declared.ending.ReformEnd.TheVariants.{Memory};

    ghost from_gives = { λ _ e. e ≡ Memory };

    fn from(_: AllocError) -> ReformEnd {
        ReformEnd::Memory
    }
}
