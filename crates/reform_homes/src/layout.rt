//! The layout of the names of a script.

ghost use Rattle.std.specs.Prelude.{◌≡◌, ◌+◌, ◌<◌, ◌^◌, ℕ, List, Some, length, slice_get, IfOk, OnOk};
ghost use Rattle.py_meaning.specs.Scopes.{has, is_captured};
ghost use Rattle.py_meaning.specs.Scopes as meaning;

use crate::captured::captured_names;
use crate::frees::free_names;
use crate::names::Names;
use py_ast::Scope;
use std::alloc::{AllocError, Global};
use std::marker::Model;

/// The scopes of a script, with the names of each that have cells, and those that it has of enclosing functions.
#[derive(Drop)]
pub struct Layout<'a> {
    scopes: &'a [Scope],
    captured: Vec<Names>,
    free: Vec<Names>,
}

impl<'a> Model for Layout<'a> {
    ghost use Rattle.std.specs.Prelude.{List};
    ghost use Rattle.py_ast.specs.declared.scoped.Scope.{Scope as Element};
    ghost use Rattle.reform_homes.specs.Standing.{Captured, Free};

    ghost Value = { List Element };

    ghost view = { λ t. t.scopes.now };

    ghost invariant = { λ t. Captured t.scopes.now t.captured.items × Free t.scopes.now t.free.items };
}

impl<'a> Layout<'a> {
    pub fn new(alloc: Global, scopes: &'a [Scope]) -> Result<Layout<'a>, AllocError>
        ensures { IfOk result (λ layout. layout ≡ scopes.now) }
    {
        let captured = captured_names(alloc, scopes)?;
        let free = free_names(alloc, scopes)?;
        Ok(Layout {
            scopes,
            captured,
            free,
        })
    }

    // Each scope that a walk asks for is there.
    pub fn scope(&self, this: usize) -> Result<&Scope, AllocError>
        ensures { IfOk result (λ scope. slice_get self.now this ≡ Some scope.now) }
    {
        match self.scopes.get(this) {
            Some(scope) => Ok(scope),
            None => Err(AllocError),
        }
    }

    /// The names of a scope that stand in others.
    pub fn captured(&self, this: usize) -> Result<&Names, AllocError>
        ensures { IfOk result (λ names. (x : List ℕ) → has names.now x ≡ is_captured self.now this x) }
    {
        match self.captured.get(this) {
            Some(names) => Ok(names),
            None => Err(AllocError),
        }
    }

    /// The names that a scope has of enclosing functions.
    pub fn free(&self, this: usize) -> Result<&Names, AllocError>
        ensures { IfOk result (λ names. names.now ≡ meaning.free_names self.now this) }
    {
        match self.free.get(this) {
            Some(names) => Ok(names),
            None => Err(AllocError),
        }
    }
}
