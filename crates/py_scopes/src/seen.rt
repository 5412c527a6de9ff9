//! Which names occur in which scopes.

ghost use Rattle.std.specs.Prelude.{◌≡◌, ◌==◌, ◌&&◌, ◌||◌, ◌++◌, [], ◌∷◌, ℕ, List, true, cond, not, IfOk, OnOk};
ghost use Rattle.std.specs.Str.{bytes_eq};
ghost use Rattle.py_scopes.specs.Homes as homes;
ghost use Rattle.py_scopes.specs.Seen as spec;

use crate::survey::{Site, What};
use std::alloc::{AllocError, Global};
use std::collections::HashSet;

/// Adds a name of a scope, and answers whether it is new.
pub fn enlist<'a>(
    names: &mut HashSet<(usize, &'a str)>,
    scope: usize,
    name: &'a str,
) -> Result<bool, AllocError>
    ensures is_new { IfOk result (λ new. new ≡ not (spec.has names.old.keys scope name.now)) }
    ensures adds { OnOk result (spec.Adds names.old.keys names.new.keys scope name.now) }
{
    let is_new = names.insert((scope, name))?;
    Ok(is_new)
}

pub fn is_listed<'a>(names: &HashSet<(usize, &'a str)>, scope: usize, name: &'a str) -> bool
    ensures { result ≡ spec.has names.now.keys scope name.now }
{
    names.contains(&(scope, name))
}

/// The names of some sites, with their scopes.
#[derive(Drop)]
pub struct Seen<'a> {
    /// Those that are bound.
    pub bound: HashSet<(usize, &'a str)>,
    /// Those that stand in the scope, other than in a declaration.
    pub standing: HashSet<(usize, &'a str)>,
    /// Those that are declared global.
    pub global: HashSet<(usize, &'a str)>,
    /// Those that are declared nonlocal.
    pub nonlocal: HashSet<(usize, &'a str)>,
}

impl<'a> Seen<'a> {
    pub fn new(alloc: Global) -> Seen<'a>
        ensures { spec.Sees result [] }
    {
        Seen {
            bound: HashSet::new(alloc),
            standing: HashSet::new(alloc),
            global: HashSet::new(alloc),
            nonlocal: HashSet::new(alloc),
        }
    }

    /// Adds what stands at one more site.
    pub fn note(&mut self, site: &'a Site) -> Result<(), AllocError>
        ensures { OnOk result (spec.Notes self.old self.new site.now) }
    {
        let scope = site.place.scope;
        match &site.what {
            What::Binds(name) | What::Parameter(name) => {
                enlist(&mut self.bound, scope, name.as_str())?;
                enlist(&mut self.standing, scope, name.as_str())?;
            }
            What::Uses(name) => {
                enlist(&mut self.standing, scope, name.as_str())?;
            }
            What::Global(name) => {
                enlist(&mut self.global, scope, name.as_str())?;
            }
            What::Nonlocal(name) => {
                enlist(&mut self.nonlocal, scope, name.as_str())?;
            }
            _ => {}
        }
        Ok(())
    }

    /// The names of all these sites.
    pub fn of(alloc: Global, sites: &'a [Site]) -> Result<Seen<'a>, AllocError>
        ensures { IfOk result (λ seen. spec.Sees seen sites.now) }
    {
        let mut seen = Seen::new(alloc);
        for site in sites {
            seen.note(site)?;
        }
        Ok(seen)
    }
}
