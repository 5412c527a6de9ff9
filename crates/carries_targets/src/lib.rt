//! When blocks of primitive statements carry assignments to attributes, to indices and to several targets, augmented assignments and
//! deletions.
//!
//! The laws serve the reformulation of scripts: where the blocks that it builds are these, their runs are those of the script.
#![tactic(auto)]

ghost use Rattle.carries_targets.specs.Laws.{CarriesTargetLists, CarriesAugments, CarriesDeletes, CarriesStores, CarriesUnpacking};

/// Attributes and indices are assigned to where their parts are carried.
pub fn stores_are_carried()
    ensures { CarriesStores }
{}

/// A value is unpacked where each item's target is carried.
pub fn unpacking_is_carried()
    ensures { CarriesUnpacking }
{}

/// A value goes to several targets where it goes to each of them.
pub fn target_lists_are_carried()
    ensures { CarriesTargetLists }
{}

/// A target is read, and what an operation makes of it is stored, where its parts are carried.
pub fn augments_are_carried()
    ensures { CarriesAugments }
{}

/// A target is deleted where its parts are carried.
pub fn deletions_are_carried()
    ensures { CarriesDeletes }
{}
