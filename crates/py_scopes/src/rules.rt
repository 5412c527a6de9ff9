//! The static rules, each by one pass over what stands in the script.

ghost use Rattle.std.specs.Prelude.{◌≡◌, [], ◌∷◌, ◌==◌, ◌&&◌, ◌||◌, ℕ, List, IfOk, OnOk, option_map};
ghost use Rattle.std.specs.List.{list_any};
ghost use Rattle.py_scopes.specs.Homes as homes;
ghost use Rattle.py_scopes.specs.Names as names;
ghost use Rattle.py_scopes.specs.Passes as passes;
ghost use Rattle.py_scopes.specs.Rules as spec;
ghost use Rattle.py_scopes.specs.Seen as sees;
ghost use Rattle.py_scopes.specs.declared.survey.Site.{Site as TheSite};

use crate::homes::{home, outer_home};
use crate::names::{is_given, is_unwritten};
use crate::seen::{Seen, enlist, is_listed};
use crate::survey::{Site, Survey, What};
use py_ast::ScopeKind;
use std::alloc::{AllocError, Global};
use std::collections::HashSet;

/// A rule that something breaks by itself.
#[derive(Clone, Copy)]
pub enum Alone {
    Target,
    Loop,
    Function,
    Raise,
}

/// Whether `return` or `yield` stands where none may.
fn is_outside(survey: &Survey, site: &Site) -> bool
    ensures { result ≡ spec.is_outside survey.now site.now }
{
    let kind = match survey.scopes.get(site.place.scope) {
        Some(scope) => scope.kind,
        None => ScopeKind::Module,
    };
    match site.what {
        What::Return => matches!(kind, ScopeKind::Module | ScopeKind::Class),
        What::Yield => !matches!(kind, ScopeKind::Function),
        _ => false,
    }
}

fn breaks(rule: Alone, survey: &Survey, site: &Site) -> bool
    ensures { result ≡ passes.breaks rule survey.now site.now }
{
    match rule {
        Alone::Target => matches!(site.what, What::Misplaced),
        Alone::Loop => matches!(site.what, What::Break) && !site.place.in_loop,
        Alone::Function => is_outside(survey, site),
        Alone::Raise => matches!(site.what, What::Reraise) && !site.place.in_except,
    }
}

/// The line of the first place that breaks the rule.
pub fn first_alone(rule: Alone, survey: &Survey) -> Option<u32>
    ensures { result ≡ passes.first_at_fault (λ before site. passes.breaks rule survey.now site) [] survey.now.sites }
{
    for site in survey.sites.as_slice() {
        if breaks(rule, survey, site) {
            return Some(site.line);
        }
    }
    None
}

/// Whether a declaration breaks its rule, by the names that stand before it.
fn clashes<'a>(survey: &Survey, seen: &Seen<'a>, before: &Seen<'a>, site: &'a Site) -> bool
    requires { sees.Sees seen.now survey.now.sites }
    ensures { (sites : List TheSite) → sees.Sees before.now sites → result ≡ spec.clashes survey.now sites site.now.place.scope site.now.what }
{
    let scope = site.place.scope;
    match &site.what {
        What::Global(name) => {
            let name = name.as_str();
            is_listed(&before.standing, scope, name) || is_listed(&before.nonlocal, scope, name)
        }
        What::Nonlocal(name) => {
            let name = name.as_str();
            is_listed(&before.standing, scope, name)
                || is_listed(&before.global, scope, name)
                || outer_home(survey, seen, name, scope) == 0
        }
        _ => false,
    }
}

/// The line of the first declaration that breaks its rule.
pub fn first_clash<'a>(
    alloc: Global,
    survey: &'a Survey,
    seen: &Seen<'a>,
) -> Result<Option<u32>, AllocError>
    requires { sees.Sees seen.now survey.now.sites }
    ensures { IfOk result (λ line. line ≡ passes.first_fault spec.Declare survey.now) }
{
    let mut before = Seen::new(alloc);
    for site in survey.sites.as_slice() {
        if clashes(survey, seen, &before, site) {
            return Ok(Some(site.line));
        }
        before.note(site)?;
    }
    Ok(None)
}

/// The name that the module gets here: it is bound in the module, or where it is declared global.
fn module_name<'a>(survey: &Survey, seen: &Seen<'a>, site: &'a Site) -> Option<&'a str>
    requires { sees.Sees seen.now survey.now.sites }
    ensures { option_map (λ name. name.now) result ≡ spec.module_name survey.now site.now.place.scope (homes.bound site.now.what) }
{
    match &site.what {
        What::Binds(name) | What::Parameter(name) => {
            let name = name.as_str();
            if site.place.scope == 0 || is_listed(&seen.global, site.place.scope, name) {
                Some(name)
            } else {
                None
            }
        }
        _ => None,
    }
}

/// The names that are bound in the module, or where they are declared global, as names of scope 0.
fn module_names<'a>(
    alloc: Global,
    survey: &'a Survey,
    seen: &Seen<'a>,
) -> Result<HashSet<(usize, &'a str)>, AllocError>
    requires { sees.Sees seen.now survey.now.sites }
    ensures { IfOk result (λ names. (x : List ℕ) → sees.has names.keys 0 x ≡ list_any (spec.binds_in_module survey.now x) survey.now.sites) }
{
    let mut names: HashSet<(usize, &'a str)> = HashSet::new(alloc);
    for site in survey.sites.as_slice() {
        if let Some(name) = module_name(survey, seen, site) {
            enlist(&mut names, 0, name)?;
        }
    }
    Ok(names)
}

/// Whether a name that stands in the scope is one of the module, which has none of this name.
fn is_unknown<'a>(
    survey: &Survey,
    seen: &Seen<'a>,
    names: &HashSet<(usize, &'a str)>,
    scope: usize,
    name: &'a str,
) -> bool
    requires seen { sees.Sees seen.now survey.now.sites }
    requires names { (x : List ℕ) → sees.has names.now.keys 0 x ≡ list_any (spec.binds_in_module survey.now x) survey.now.sites }
    ensures { result ≡ spec.is_unknown survey.now scope name.now }
{
    !is_listed(names, 0, name)
        && !is_given(survey.built_in, name)
        && home(survey, seen, name, scope) == 0
}

/// Whether a name or an identifier breaks its rule.
fn is_unnamed<'a>(
    survey: &Survey,
    seen: &Seen<'a>,
    names: &HashSet<(usize, &'a str)>,
    site: &'a Site,
) -> bool
    requires seen { sees.Sees seen.now survey.now.sites }
    requires names { (x : List ℕ) → sees.has names.now.keys 0 x ≡ list_any (spec.binds_in_module survey.now x) survey.now.sites }
    ensures { result ≡ spec.is_unnamed survey.now site.now }
{
    if let Some(name) = site.what.identifier() {
        if is_unwritten(name.as_str()) {
            return true;
        }
    }
    match site.what.variable() {
        Some(name) => is_unknown(survey, seen, names, site.place.scope, name.as_str()),
        None => false,
    }
}

/// The line of the first name or identifier that breaks its rule.
pub fn first_unnamed<'a>(
    alloc: Global,
    survey: &'a Survey,
    seen: &Seen<'a>,
) -> Result<Option<u32>, AllocError>
    requires { sees.Sees seen.now survey.now.sites }
    ensures { IfOk result (λ line. line ≡ passes.first_fault spec.Name survey.now) }
{
    let names = module_names(alloc, survey, seen)?;
    for site in survey.sites.as_slice() {
        if is_unnamed(survey, seen, &names, site) {
            return Ok(Some(site.line));
        }
    }
    Ok(None)
}

/// The parameters with their scopes, and the keyword arguments with the sites where their lists begin.
#[derive(Drop)]
pub struct Listed<'a> {
    pub parameters: HashSet<(usize, &'a str)>,
    pub keywords: HashSet<(usize, &'a str)>,
}

impl<'a> Listed<'a> {
    /// Adds what stands at one more site, and answers whether it repeats one of its list.
    fn note(&mut self, site: &'a Site) -> Result<bool, AllocError>
        ensures repeats { IfOk result (λ again. again ≡ passes.is_listed self.old site.now.place.scope site.now.what) }
        ensures notes { OnOk result (passes.Lists self.old self.new site.now) }
    {
        match &site.what {
            What::Parameter(name) => {
                let is_new = enlist(&mut self.parameters, site.place.scope, name.as_str())?;
                Ok(!is_new)
            }
            What::Keyword(start, name) => {
                let is_new = enlist(&mut self.keywords, *start, name.as_str())?;
                Ok(!is_new)
            }
            _ => Ok(false),
        }
    }
}

/// The line of the first parameter or keyword argument that repeats one of its list.
pub fn first_repeat(alloc: Global, survey: &Survey) -> Result<Option<u32>, AllocError>
    ensures { IfOk result (λ line. line ≡ passes.first_fault spec.Repeat survey.now) }
{
    let mut listed = Listed {
        parameters: HashSet::new(alloc),
        keywords: HashSet::new(alloc),
    };
    for site in survey.sites.as_slice() {
        if listed.note(site)? {
            return Ok(Some(site.line));
        }
    }
    Ok(None)
}
