//! Where the names of a script live, and its static rules (reference, sections 4.2, 6 to 8).
#![tactic(auto)]

ghost use Rattle.std.specs.Prelude.{◌≡◌};
ghost use Rattle.py_scopes.specs.Resolve.{Answers, AnswersAs, AnswersBuiltIn};

mod end;
mod homes;
mod names;
mod rules;
mod scopes;
mod seen;
mod survey;
mod surveyor;

use crate::scopes::resolved;
pub use end::ScopeEnd;
pub use homes::{has_nearest_home, scopes_nest};
use py_ast::{Scoped, Script};
use std::alloc::Global;

/// The scopes of a script with the homes of their names, or the first kind of the table whose rule it breaks
/// (reference, sections 4.2, 6 to 8).
///
/// The kinds and their order are those of `ScopeEnd`. A kind comes where the script breaks its rule anywhere and no
/// rule of an earlier kind, on the line of the first place that breaks it. `Memory` says nothing of the script.
pub fn resolve(alloc: Global, script: Script) -> Result<Scoped, ScopeEnd>
    ensures { Answers script result }
{
    resolve_as(alloc, false, script)
}

/// The scopes of the built-in text with the homes of their names, or the first kind of the table whose rule it breaks
/// (reference, sections 4.2, 6 to 8).
///
/// The rules and their order are those of `resolve`, but this text may also name the natives that are for it alone,
/// those of `nu_text::TEXT_NATIVES`. `Memory` says nothing of the text.
pub fn resolve_built_in(alloc: Global, script: Script) -> Result<Scoped, ScopeEnd>
    ensures { AnswersBuiltIn script result }
{
    resolve_as(alloc, true, script)
}

/// The scopes of a script, or of the built-in text, or what it breaks.
fn resolve_as(alloc: Global, built_in: bool, script: Script) -> Result<Scoped, ScopeEnd>
    ensures { AnswersAs built_in script result }
{
    match resolved(alloc, built_in, &script) {
        Ok(Ok(scopes)) => Ok(Scoped { script, scopes }),
        Ok(Err(end)) => refused(script, end),
        Err(_) => refused(script, ScopeEnd::Memory),
    }
}

fn refused(script: Script, end: ScopeEnd) -> Result<Scoped, ScopeEnd>
    ensures { result ≡ Err end }
{
    script.let_go();
    Err(end)
}
