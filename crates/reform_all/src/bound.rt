//! The names that a script binds.

ghost use Rattle.std.specs.Prelude.{◌≡◌, ℕ, List, [], map, IfOk, OnOk};
ghost use Rattle.py_scopes.specs.Parts as parts;
ghost use Rattle.reform_all.specs.Built as built;
ghost use Rattle.reform_all.specs.Names.{Holds, Gains};

use nu_text::is_built_in_name;
use py_ast::{Branch, Expr, Stmt};
use std::alloc::{AllocError, Global};
use std::collections::HashSet;

/// The names that a script binds in its module.
#[derive(Drop)]
pub struct Bound<'a> {
    names: HashSet<&'a str>,
}

impl<'a> Bound<'a> {
    /// Those that these statements bind.
    pub fn of(alloc: Global, statements: &'a [Stmt]) -> Result<Bound<'a>, AllocError>
        ensures { IfOk result (λ bound. Holds bound (built.bound_in statements.now)) }
    {
        let mut bound = Bound {
            names: HashSet::new(alloc),
        };
        bound.note_all(statements)?;
        Ok(bound)
    }

    /// Adds the name that a target is.
    fn note(&mut self, target: &'a Expr) -> Result<(), AllocError>
        ensures { OnOk result (Gains self.old self.new (built.bound_by target.now)) }
    {
        if let Expr::Name(_, name) = target {
            self.names.insert(name.as_str())?;
        }
        Ok(())
    }

    fn note_targets(&mut self, targets: &'a [Expr]) -> Result<(), AllocError>
        ensures { OnOk result (Gains self.old self.new (built.all_bound_by targets.now)) }
    {
        for target in targets {
            self.note(target)?;
        }
        Ok(())
    }

    /// Adds the names that a statement binds.
    #[cycle(walk)]
    fn note_statement(&mut self, s: &'a Stmt) -> Result<(), AllocError>
        ensures { OnOk result (Gains self.old self.new (built.stmt s.now).binds) }
    {
        match s {
            Stmt::Assign(_, targets, _) => self.note_targets(targets.as_slice()),
            Stmt::Augment(_, to, _, _) => self.note(to),
            Stmt::If(_, branches, other) => {
                self.note_branches(branches.as_slice())?;
                self.note_all(other.as_slice())
            }
            Stmt::While(_, _, body, other) => {
                self.note_all(body.as_slice())?;
                self.note_all(other.as_slice())
            }
            _ => Ok(()),
        }
    }

    #[cycle(walk)]
    fn note_branches(&mut self, branches: &'a [Branch<Stmt>]) -> Result<(), AllocError>
        ensures { OnOk result (Gains self.old self.new (built.branches_bind (map (parts.branch_of built.stmt) branches.now) [])) }
    {
        for branch in branches {
            for s in branch.body.as_slice() {
                self.note_statement(s)?;
            }
        }
        Ok(())
    }

    #[cycle(walk)]
    fn note_all(&mut self, statements: &'a [Stmt]) -> Result<(), AllocError>
        ensures { OnOk result (Gains self.old self.new (built.all_binds (map built.stmt statements.now))) }
    {
        for s in statements {
            self.note_statement(s)?;
        }
        Ok(())
    }

    /// Whether it is a built-in name other than `print`.
    pub fn is_other(&self, name: &str) -> bool
        ensures { (names : List (List ℕ)) → Holds self.now names → result ≡ built.is_other names name.now }
    {
        is_built_in_name(name) && name != "print" && !self.names.contains(name)
    }
}
