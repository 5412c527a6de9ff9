//! What stands before the codes of functions can stand before functions of C texts.
#![tactic(auto)]

ghost use Rattle.py_headings.specs.Laws.{ParametersMakeHeadings};
ghost use Rattle.py_headings.specs.Scripts.{AcceptedScriptsHaveHeadings};

/// Parameters in the order of the grammar, with names, make a heading.
pub fn parameters_make_headings()
    ensures { ParametersMakeHeadings }
{}

/// The codes of scripts that are read from bytes and keep the static rules have headings, alone or with a built-in text behind them.
pub fn accepted_scripts_have_headings()
    ensures { AcceptedScriptsHaveHeadings }
{}
