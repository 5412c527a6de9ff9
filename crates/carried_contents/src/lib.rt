//! What stands in the primitive statements of the codes of a script.
#![tactic(auto)]

ghost use Rattle.carried_contents.specs.Laws.{CodesAreTaken, AcceptedScriptsAreTaken, CodesAreCounted, CodesAreNamed};

use py_accepted::accepted_scripts_are_lawful;

/// In the statements of a lawful code each operation takes what it is given.
pub fn codes_are_taken()
    ensures { CodesAreTaken }
{}

/// So it is in the nodes of a script that keeps the static rules.
pub fn accepted_scripts_are_taken()
    ensures { AcceptedScriptsAreTaken }
{
    accepted_scripts_are_lawful();
}

/// Operations that aren't free stand at most four times as often as the own list of the scope asks for them.
pub fn codes_are_counted()
    ensures { CodesAreCounted }
{}

/// Bare names and text constants are texts of the scope.
pub fn codes_are_named()
    ensures { CodesAreNamed }
{}
