//! The homes of names.

ghost use Rattle.std.specs.Prelude.{◌≡◌, ◌∷◌, Some, length};
ghost use Rattle.py_scopes.specs.Homes as spec;
ghost use Rattle.py_scopes.specs.Nearest.{HasNearestHome};
ghost use Rattle.py_scopes.specs.Nested.{ScopesNest};
ghost use Rattle.py_scopes.specs.Seen.{Sees};

use crate::seen::{Seen, is_listed};
use crate::survey::Survey;
use py_ast::ScopeKind;

fn is_class(survey: &Survey, scope: usize) -> bool
    ensures { result ≡ spec.is_class survey.now scope }
{
    match survey.scopes.get(scope) {
        Some(scope) => matches!(scope.kind, ScopeKind::Class),
        None => false,
    }
}

/// The number of the scope directly around.
fn enclosing(survey: &Survey, scope: usize) -> usize
    ensures { result ≡ spec.enclosing survey.now scope }
{
    match survey.scopes.get(scope) {
        Some(scope) => scope.enclosing,
        None => 0,
    }
}

/// The home of a name that this scope decides, if it does.
fn decided<'a>(survey: &Survey, seen: &Seen<'a>, name: &'a str, scope: usize) -> Option<usize>
    requires { Sees seen.now survey.now.sites }
    ensures { result ≡ spec.decided survey.now name.now scope }
{
    if is_listed(&seen.global, scope, name) {
        Some(0)
    } else if is_listed(&seen.bound, scope, name) && !is_listed(&seen.nonlocal, scope, name) {
        Some(scope)
    } else {
        None
    }
}

/// The same as it is seen from inside: a class decides nothing.
fn decided_inside<'a>(
    survey: &Survey,
    seen: &Seen<'a>,
    name: &'a str,
    scope: usize,
) -> Option<usize>
    requires { Sees seen.now survey.now.sites }
    ensures { result ≡ spec.decided_inside survey.now name.now scope }
{
    if is_class(survey, scope) {
        None
    } else {
        decided(survey, seen, name, scope)
    }
}

/// The home of a name if this scope does not bind it (reference, section 7.13).
#[tactic(auto, unfolding(crate::specs::Homes::outer_home))]
pub fn outer_home<'a>(survey: &Survey, seen: &Seen<'a>, name: &'a str, scope: usize) -> usize
    requires { Sees seen.now survey.now.sites }
    ensures { result ≡ spec.outer_home survey.now name.now scope }
{
    let mut at = scope;
    for _turn in 0..survey.scopes.len() {
        if at == 0 {
            return 0;
        }
        at = enclosing(survey, at);
        if let Some(home) = decided_inside(survey, seen, name, at) {
            return home;
        }
    }
    0
}

/// The home of a name that stands in a scope (reference, section 4.2.2).
#[tactic(auto, unfolding(crate::specs::Homes::home, crate::specs::Homes::outer_home))]
pub fn home<'a>(survey: &Survey, seen: &Seen<'a>, name: &'a str, scope: usize) -> usize
    requires { Sees seen.now survey.now.sites }
    ensures { result ≡ spec.home survey.now name.now scope }
{
    match decided(survey, seen, name, scope) {
        Some(home) => home,
        None => outer_home(survey, seen, name, scope),
    }
}

/// The home of a name is that of the nearest scope around it that binds it or declares it global, a class counting
/// for what stands in the class itself only; where there is none, it is the module (reference, section 4.2.2).
pub fn has_nearest_home()
    ensures { HasNearestHome }
{}

/// The scopes that `resolve` and `resolve_built_in` answer nest: each but the first, the module's, stands directly in
/// one of a lower number (reference, section 4.1).
pub fn scopes_nest()
    ensures { ScopesNest }
{}
