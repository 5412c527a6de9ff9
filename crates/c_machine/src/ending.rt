//! How a call of a machine ends.

/// Whether a run goes on.
#[derive(Clone, Copy)]
pub enum Stepped {
    /// The run has no end yet.
    More,
    Ended,
}

/// Why a call of a machine gave up.
#[derive(Clone, Copy)]
pub enum Trouble {
    Memory,
    /// The input failed, and counted it.
    ReadFault,
    /// The output failed, and counted it.
    WriteFault,
    /// An earlier call of the machine gave up.
    Failed,
}
