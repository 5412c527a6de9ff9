//! What follows from the definition of the refusal kinds.

ghost use Rattle.std.specs.Prelude.{ℕ, List};
ghost use Rattle.nuit_lib.specs.Refusals.{OneKind};

/// A script has one refusal kind at most, and none where it is accepted.
pub fn one_kind()
    ensures { (bytes : List ℕ) → OneKind bytes }
{}
