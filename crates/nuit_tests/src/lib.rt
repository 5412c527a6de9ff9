//! Tests of the calls of `nuit`, and so of most calls of the crates below it, which have no tests of their own: a crate with tests is
//! proved twice. What `nuit` does not call is tested in `part_tests`.
//!
//! `calling` calls `nuit` over objects in memory. `commands`, `texts`, `functions`, `scripts` and `refusals` are tables of such calls,
//! as texts, with a test for each.
#![tactic(auto)]

#[cfg(test)]
mod calling;
#[cfg(test)]
mod commands;
#[cfg(test)]
mod functions;
#[cfg(test)]
mod refusals;
#[cfg(test)]
mod scripts;
#[cfg(test)]
mod texts;
