//! The tests of calls that `nuit` does not make: of the crates below it, of what lies outside, and for the built-in text. The others are
//! in `nuit_tests`, apart from these so that neither takes long to prove.
#![tactic(auto)]

#[cfg(test)]
mod built_in;
#[cfg(test)]
mod outside;
#[cfg(test)]
mod parts;
