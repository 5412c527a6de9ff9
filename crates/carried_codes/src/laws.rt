//! What the primitive statements of lawful constructs do.

ghost use Rattle.carried_codes.specs.Laws.{ExpressionsAreCarried, BlocksAreCarried, CodesAreCarried, ScriptsAreCarried};

/// Lawful expressions are carried by their statements.
pub fn expressions_are_carried()
    ensures { ExpressionsAreCarried }
{}

/// Lawful blocks are carried by their statements.
pub fn blocks_are_carried()
    ensures { BlocksAreCarried }
{}

/// Lawful codes are carried by their nodes.
pub fn codes_are_carried()
    ensures { CodesAreCarried }
{}

/// A script whose codes are lawful has the run of their nodes.
pub fn scripts_are_carried()
    ensures { ScriptsAreCarried }
{}
