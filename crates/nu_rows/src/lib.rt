//! Rows: the language in which meanings are written.
#![tactic(auto)]

ghost use Rattle.nu_rows.specs.Laws.{RowsGrow, OutcomeFromPlaces, RowsCorrespond};

/// A larger bound prints no less, and a pause or an end stays.
pub fn rows_grow<S, I>()
    ensures { RowsGrow S I }
{}

/// The outcome from a place is what the row makes of the outcome of the part there.
pub fn outcome_from_places<S, I>()
    ensures { OutcomeFromPlaces S I }
{}

/// Rows correspond where their parts do.
pub fn rows_correspond<S, T, I, J>()
    ensures { RowsCorrespond S T I J }
{}
