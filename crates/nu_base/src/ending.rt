//! How a call on the outside ends.

use std::alloc::{AllocError, AllocFailed};
use thiserror::Error;

/// What a fetch found.
#[derive(Clone, Copy)]
pub enum Fetched {
    /// The whole file was appended.
    Whole,
    /// The file is longer than the limit.
    Longer,
    /// There is no such file.
    Absent,
}

/// Why a fetch gave up.
#[derive(Clone, Copy, Debug, Error)]
pub enum FetchTrouble {
    /// The files failed, and counted it.
    #[error("the files failed")]
    Failed,
    #[error("out of memory")]
    Memory,
}

/// Why a put gave up.
#[derive(Clone, Copy, Debug, Error)]
pub enum PutTrouble {
    /// The output failed, and counted it.
    #[error("the output failed")]
    Failed,
    #[error("out of memory")]
    Memory,
}

/// The input failed, and counted it.
#[derive(Clone, Copy, Debug, Error)]
#[error("the input failed")]
pub struct Failed;

/// Want of memory.
#[derive(Clone, Copy, Debug, Error)]
#[error("out of memory")]
pub struct Memory;

impl From<AllocError> for Memory {
    fn from(_e: AllocError) -> Memory {
        Memory
    }
}

impl<T: Drop> From<AllocFailed<T>> for Memory {
    fn from(_e: AllocFailed<T>) -> Memory {
        Memory
    }
}
