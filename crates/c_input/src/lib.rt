//! The input of a run, by lines.
//!
//! A `Buffer` takes at most 4,096 bytes at a time, until the next line stands in it whole. The definitions stand in specs/Lines: what
//! was taken, and when a line is whole.
#![tactic(auto)]

mod input;

pub use input::{Buffer, Line, Short};
