//! What a walk comes to.

ghost use Rattle.walk_laws.specs.Composed.{ExpressionsAreWalked, StatementsAreWalked, ScriptsAreWalked};

/// A walk over an expression makes the primitive statements of what it means.
pub fn expressions_are_walked()
    ensures { ExpressionsAreWalked }
{}

/// A walk over a statement makes the primitive statements of what it means.
pub fn statements_are_walked()
    ensures { StatementsAreWalked }
{}

/// A walk over a script makes the nodes of its codes.
pub fn scripts_are_walked()
    ensures { ScriptsAreWalked }
{}
