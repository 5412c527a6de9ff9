//! Runs with a bound: what they print, how they end, and when two of them are the same.
//!
//! A meaning is a function from a bound to a run. The bound counts what the meaning chooses to count; a larger bound
//! prints no less, and an end stays.
#![tactic(auto)]

ghost use Rattle.nu_run.specs.Laws.{SameIsAnEquivalence};

use sqlite_items::Items;

/// A stop that a run names: what the profile leaves out, and limits that it sets.
#[derive(Clone, Copy)]
pub enum StopKind {
    /// An integer outside -2^127 to 2^127 - 1.
    Int,
    /// A result that would be a float.
    Float,
    /// An operation outside the profile.
    Unbuilt,
    /// More than 1,000 live frames, or a comparison that looks as deep.
    Depth,
    /// A text, list or tuple of more than 16,777,216 items.
    Size,
    /// An input line of more than 1,048,575 bytes, or one that isn't UTF-8.
    Line,
}

/// Bytes that were printed or read.
pub type Text = Items<u8>;

/// How a run ends.
#[derive(Drop)]
pub enum End {
    Done,
    /// An exception left the module, with the text of its traceback.
    Uncaught { text: Text },
    Stopped(StopKind),
    /// The meaning says nothing of this statement of this function, counted from 0.
    Undefined { function: u32, statement: u64 },
}

/// To be the same is an equivalence of runs.
pub fn same_is_an_equivalence()
    ensures { SameIsAnEquivalence }
{}
