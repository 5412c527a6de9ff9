//! The scopes of a script with the homes of their names, where it keeps every rule.

ghost use Rattle.std.specs.Prelude.{◌≡◌, map, IfOk, OnOk};
ghost use Rattle.py_scopes.specs.Filling as filling;
ghost use Rattle.py_scopes.specs.Passes as passes;
ghost use Rattle.py_scopes.specs.Resolve as spec;
ghost use Rattle.py_scopes.specs.Rules as rules;
ghost use Rattle.py_scopes.specs.Seen.{Sees, Gains};
ghost use Rattle.py_scopes.specs.Survey as surveys;

use crate::end::ScopeEnd;
use crate::homes::home;
use crate::rules::{Alone, first_alone, first_clash, first_repeat, first_unnamed};
use crate::seen::{Seen, enlist};
use crate::survey::{Site, Survey, What};
use crate::surveyor::survey_of;
use py_ast::{NameHome, Scope, Script};
use sqlite_items::Items;
use std::alloc::{AllocError, Global};
use std::collections::HashSet;

/// The first kind of the table whose rule the script breaks, on the line of the first place that breaks it.
#[tactic(auto, unfolding(crate::specs::Passes::refusal))]
fn refusal<'a>(
    alloc: Global,
    survey: &'a Survey,
    seen: &Seen<'a>,
) -> Result<Option<ScopeEnd>, AllocError>
    requires { Sees seen.now survey.now.sites }
    ensures { IfOk result (λ end. end ≡ passes.refusal survey.now) }
{
    if let Some(line) = first_alone(Alone::Target, survey) {
        return Ok(Some(ScopeEnd::Target { line }));
    }
    if let Some(line) = first_alone(Alone::Loop, survey) {
        return Ok(Some(ScopeEnd::Loop { line }));
    }
    if let Some(line) = first_alone(Alone::Function, survey) {
        return Ok(Some(ScopeEnd::Function { line }));
    }
    if let Some(line) = first_clash(alloc, survey, seen)? {
        return Ok(Some(ScopeEnd::Declare { line }));
    }
    if let Some(line) = first_unnamed(alloc, survey, seen)? {
        return Ok(Some(ScopeEnd::Name { line }));
    }
    if let Some(line) = first_alone(Alone::Raise, survey) {
        return Ok(Some(ScopeEnd::Raise { line }));
    }
    if let Some(line) = first_repeat(alloc, survey)? {
        return Ok(Some(ScopeEnd::Repeat { line }));
    }
    Ok(None)
}

/// The scopes of the survey, which have no names yet.
fn bare_scopes(alloc: Global, survey: &Survey) -> Result<Vec<Scope>, AllocError>
    ensures { IfOk result (λ scopes. scopes.items ≡ map filling.bare survey.now.scopes) }
{
    let mut scopes = Vec::new(alloc);
    for scope in survey.scopes.as_slice() {
        scopes.push(Scope {
            kind: scope.kind,
            name: scope.name.share()?,
            line: scope.line,
            enclosing: scope.enclosing,
            is_generator: scope.is_generator,
            names: Items::new(alloc),
        })?;
    }
    Ok(scopes)
}

fn add_name(scopes: &mut Vec<Scope>, at: usize, name: NameHome) -> Result<(), AllocError>
    ensures { OnOk result (scopes.new.items ≡ filling.changed (filling.with_name name) at 0 scopes.old.items) }
{
    if at < scopes.len() {
        scopes[at].names.push(name)?;
    }
    Ok(())
}

fn mark_generator(scopes: &mut Vec<Scope>, at: usize)
    ensures { scopes.new.items ≡ filling.changed filling.as_generator at 0 scopes.old.items }
{
    if at < scopes.len() {
        scopes[at].is_generator = true;
    }
}

fn is_yield(what: &What) -> bool
    ensures { result ≡ spec.is_yield what.now }
{
    matches!(what, What::Yield)
}

/// Adds what stands at one more site to its scope.
fn note<'a>(
    survey: &'a Survey,
    seen: &Seen<'a>,
    named: &mut HashSet<(usize, &'a str)>,
    scopes: &mut Vec<Scope>,
    site: &'a Site,
) -> Result<(), AllocError>
    requires { Sees seen.now survey.now.sites }
    ensures scopes { OnOk result (scopes.new.items ≡ filling.changed (filling.change survey.now named.old.keys site.now.place.scope site.now.what) site.now.place.scope 0 scopes.old.items) }
    ensures named { OnOk result (Gains named.old.keys named.new.keys rules.variable site.now) }
{
    let scope = site.place.scope;
    if is_yield(&site.what) {
        mark_generator(scopes, scope);
        return Ok(());
    }
    let Some(name) = site.what.variable() else {
        return Ok(());
    };
    if !enlist(named, scope, name.as_str())? {
        return Ok(());
    }
    let home = home(survey, seen, name.as_str(), scope);
    let name = name.share()?;
    add_name(scopes, scope, NameHome { name, home })
}

/// The scopes of the survey with the homes of their names.
#[tactic(auto, unfolding(crate::specs::Resolve::scopes_of))]
fn filled<'a>(
    alloc: Global,
    survey: &'a Survey,
    seen: &Seen<'a>,
) -> Result<Items<Scope>, AllocError>
    requires { Sees seen.now survey.now.sites }
    ensures { IfOk result (λ scopes. scopes ≡ spec.scopes_of survey.now) }
{
    let mut scopes = bare_scopes(alloc, survey)?;
    let mut named: HashSet<(usize, &str)> = HashSet::new(alloc);
    for site in survey.sites.as_slice() {
        note(survey, seen, &mut named, &mut scopes, site)?;
    }
    Ok(Items::from_vec(scopes))
}

/// The scopes of the survey with the homes of their names, or what its script breaks.
fn answer<'a>(
    alloc: Global,
    survey: &'a Survey,
    seen: &Seen<'a>,
) -> Result<Result<Items<Scope>, ScopeEnd>, AllocError>
    requires { Sees seen.now survey.now.sites }
    ensures { IfOk result (spec.Resolves survey.now) }
{
    if let Some(end) = refusal(alloc, survey, seen)? {
        return Ok(Err(end));
    }
    let scopes = filled(alloc, survey, seen)?;
    Ok(Ok(scopes))
}

/// The scopes of the script, or of the built-in text, with the homes of their names, or what it breaks.
pub fn resolved(
    alloc: Global,
    built_in: bool,
    script: &Script,
) -> Result<Result<Items<Scope>, ScopeEnd>, AllocError>
    ensures { IfOk result (spec.Resolves (surveys.survey_of built_in script.now.statements)) }
{
    let survey = survey_of(alloc, built_in, script)?;
    let seen = Seen::of(alloc, survey.sites.as_slice())?;
    answer(alloc, &survey, &seen)
}
