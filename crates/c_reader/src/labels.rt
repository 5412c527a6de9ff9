//! The labels of a function, each of which stands once.

ghost use Rattle.std.specs.Prelude.{◌≡◌, ℕ, Bool, ◌||◌, not, false, IfOk, OnOk};
ghost use Rattle.c_meaning.specs.Written.{label_of, has};
ghost use Rattle.c_reader.specs.Labels.{holds, any_holds};

use c_meaning::Line;
use std::alloc::{AllocError, Global};
use std::collections::BTreeSet;

/// Labels that were read.
#[derive(Drop)]
pub(crate) struct Labels {
    set: BTreeSet<u64>,
}

/// No label yet.
pub(crate) fn no_labels(alloc: Global) -> Labels
    ensures { (label : ℕ) → holds result label ≡ false }
{
    Labels {
        set: BTreeSet::new(alloc),
    }
}

/// Whether the line is no label that was read before; a label counts as read from then on.
pub(crate) fn is_new(labels: &mut Labels, line: &Line) -> Result<bool, AllocError>
    ensures new { IfOk result (λ new. new ≡ not (any_holds labels.old line.now)) }
    ensures adds { OnOk result
        ((label : ℕ) → holds labels.new label ≡ (has (label_of line.now) label || holds labels.old label)) }
{
    match line {
        Line::Label(label) => Ok(labels.set.insert(*label)?),
        Line::Do(_) => Ok(true),
    }
}
