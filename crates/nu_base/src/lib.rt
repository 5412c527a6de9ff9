//! What lies outside the compiler: files, an input and an output, with the bytes that they tell and the faults that they count.
#![tactic(auto)]

mod ending;
mod host;
mod in_memory;
mod schedule;
mod stored;
mod sure;
mod traits;

pub use ending::{Failed, FetchTrouble, Fetched, Memory, PutTrouble};
pub use host::{HostFiles, HostSink, HostSource};
pub use in_memory::{MemFiles, MemSink, MemSource};
pub use sure::{SureFiles, SureSink, SureSource};
pub use traits::{Files, Sink, Source};
