//! Accepted scripts have the runs of the nodes of their codes.
#![tactic(auto)]

ghost use Rattle.carried_scripts.specs.Laws.{AcceptedScriptsAreCarried};

use carried_codes::scripts_are_carried;
use py_accepted::accepted_scripts_are_lawful;

/// The nodes of the codes of a script that keeps the static rules do what the script does.
pub fn accepted_scripts_are_carried()
    ensures { AcceptedScriptsAreCarried }
{
    accepted_scripts_are_lawful();
    scripts_are_carried();
}
