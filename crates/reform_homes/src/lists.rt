//! Lists of names, one for each scope.

ghost use Rattle.std.specs.Prelude.{◌≡◌, ◌==◌, [], ◌∷◌, map, IfOk, OnOk, if◌then◌else◌};
ghost use Rattle.reform_homes.specs.Gaining.{Gain};

use crate::names::Names;
use nu_text::RcStr;
use py_ast::Scope;
use std::alloc::{AllocError, Global};

/// No names for any scope.
pub fn no_names(alloc: Global, scopes: &[Scope]) -> Result<Vec<Names>, AllocError>
    ensures { IfOk result (λ lists. lists.items ≡ map (λ scope. []) scopes.now) }
{
    let mut lists = Vec::new(alloc);
    for _scope in scopes {
        lists.push(Names::new(alloc))?;
    }
    Ok(lists)
}

/// A name comes last in the list of this number, unless it is there.
pub fn gain_at(lists: &mut Vec<Names>, number: usize, name: &RcStr) -> Result<(), AllocError>
    ensures { OnOk result (Gain lists.old.items lists.new.items (λ a. if number == a then name.now ∷ [] else [])) }
{
    if number < lists.len() {
        lists[number].gain(name)?;
    }
    Ok(())
}
