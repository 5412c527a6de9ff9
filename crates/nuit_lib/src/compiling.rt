//! From a resolved script to C text: primitive statements, flat code, a program.

ghost use Rattle.std.specs.Prelude.{MatchResult};
ghost use Rattle.nuit_lib.specs.Compiled.{IsCompiled, IsUncompiled};
ghost use Rattle.nuit_lib.specs.Scripts.{IsResolved};

use c_emit::emit;
use flow_lower::lower;
use generator_cut::cut;
use py_accepted::accepted_scripts_never_end_undefined;
use py_ast::Scoped;
use py_safe::runs_never_end_undefined;
use py_table::the_table_keeps_law;
use reform_all::{ReformEnd, reform};
use std::alloc::Global;

/// The C text of a script of this file name.
pub(crate) fn compile(alloc: Global, name: &str, script: &Scoped) -> Result<Vec<u8>, ReformEnd>
    requires { IsResolved script.now }
    ensures { MatchResult result (λ bytes. IsCompiled name.now script.now bytes.items) (IsUncompiled script.now) }
{
    runs_never_end_undefined();
    the_table_keeps_law();
    accepted_scripts_never_end_undefined();
    let nodes = reform(alloc, name, script)?;
    let flat = lower(alloc, &nodes)?;
    let program = cut(alloc, &flat)?;
    let text = emit(alloc, &program)?;
    Ok(text)
}
