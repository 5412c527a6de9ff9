//! The pass over the tree that makes the survey.

ghost use Rattle.std.specs.Prelude.{◌≡◌, map, false, option_map, OnOk, IfOk, length};
ghost use Rattle.py_scopes.specs.Parts as parts;
ghost use Rattle.py_scopes.specs.Roles as roles;
ghost use Rattle.py_scopes.specs.Survey as spec;
ghost use Rattle.py_ast.specs.declared.scoped.ScopeKind.TheVariants as kind;
ghost use Rattle.py_scopes.specs.declared.survey.Role.TheVariants as role;
ghost use Rattle.py_scopes.specs.declared.survey.What.TheVariants as what;

use crate::names::mangled;
use crate::survey::{Place, Role, Site, Survey, What};
use nu_text::RcStr;
use py_ast::{
    Argument, Branch, Clause, Clauses, Declared, Entry, Expr, Handler, Item, Link, Manager, Param,
    Scope, ScopeKind, Script, Stmt, Subscript,
};
use sqlite_items::{Boxed, Items};
use std::alloc::{AllocError, Global};

/// The survey of what was passed so far.
#[derive(Drop)]
struct Surveyor {
    alloc: Global,
    survey: Survey,
}

impl Surveyor {
    #[tactic(auto, unfolding(crate::specs::Survey::site))]
    fn site(&mut self, place: Place, line: u32, what: What) -> Result<(), AllocError>
        ensures { OnOk result (self.new.survey ≡ spec.site line what place self.old.survey) }
    {
        self.survey.sites.push(Site { place, line, what })
    }

    /// Something that is no target, where one has to stand.
    fn misplaced_if(&mut self, wrong: bool, place: Place, line: u32) -> Result<(), AllocError>
        ensures { OnOk result (self.new.survey ≡ spec.misplaced_if wrong line place self.old.survey) }
    {
        if wrong {
            self.site(place, line, What::Misplaced)
        } else {
            Ok(())
        }
    }

    /// The name of the class with this number.
    #[tactic(auto, unfolding(crate::specs::Survey::class_name))]
    fn class_name(&self, class: Option<usize>) -> Option<&RcStr>
        ensures { option_map (λ name. name.now) result ≡ spec.class_name self.now.survey class }
    {
        match self.survey.scopes.get(class?) {
            Some(scope) => Some(&scope.name),
            None => None,
        }
    }

    /// A name as it counts at a place.
    fn spelled(&self, place: Place, name: &RcStr) -> Result<RcStr, AllocError>
        ensures { IfOk result (λ x. x ≡ spec.spelled place self.now.survey name.now) }
    {
        match self.class_name(place.class) {
            Some(class) => mangled(self.alloc, class, name),
            None => name.share(),
        }
    }

    /// A name that is bound.
    fn binds(&mut self, place: Place, line: u32, name: &RcStr) -> Result<(), AllocError>
        ensures { OnOk result (self.new.survey ≡ spec.name line what.Binds name.now place self.old.survey) }
    {
        let name = self.spelled(place, name)?;
        self.site(place, line, What::Binds(name))
    }

    /// Begins a scope, and answers the place inside it.
    #[tactic(auto, unfolding(crate::specs::Survey::enter))]
    fn enter(
        &mut self,
        place: Place,
        line: u32,
        kind: ScopeKind,
        name: RcStr,
    ) -> Result<Place, AllocError>
        ensures enters { OnOk result (self.new.survey ≡ spec.enter line kind name place self.old.survey) }
        ensures inside { IfOk result (λ own. own ≡ spec.inside kind place self.old.survey) }
    {
        let scope = self.survey.scopes.len();
        self.survey.scopes.push(Scope {
            kind,
            name,
            line,
            enclosing: place.scope,
            is_generator: is_generator(kind),
            names: Items::new(self.alloc),
        })?;
        Ok(Place {
            scope,
            class: class_inside(kind, scope, place.class),
            in_loop: false,
            in_except: false,
        })
    }

    /// Begins the scope of a lambda, a comprehension or a generator expression, and answers the place inside it.
    fn begin(&mut self, place: Place, line: u32, kind: ScopeKind) -> Result<Place, AllocError>
        ensures enters { OnOk result (self.new.survey ≡ spec.enter line kind (spec.own_name kind) place self.old.survey) }
        ensures inside { IfOk result (λ own. own ≡ spec.inside kind place self.old.survey) }
    {
        let name = RcStr::from_str(self.alloc, own_name(kind))?;
        self.enter(place, line, kind, name)
    }

    #[cycle(walk)]
    fn expr(&mut self, role: Role, place: Place, x: &Expr) -> Result<(), AllocError>
        ensures { OnOk result (self.new.survey ≡ spec.expr x.now role place self.old.survey) }
    {
        self.misplaced_if(is_misplaced(role, x), place, x.line())?;
        match x {
            Expr::None(_)
            | Expr::True(_)
            | Expr::False(_)
            | Expr::Number(_, _)
            | Expr::Text(_, _) => Ok(()),
            Expr::Name(line, name) => {
                let name = self.spelled(place, name)?;
                self.site(place, *line, named(role, name))
            }
            Expr::Tuple(_, xs) | Expr::List(_, xs) => {
                self.items(listed(role), place, xs.as_slice())
            }
            Expr::Dict(_, entries) => self.entries(place, entries.as_slice()),
            Expr::ListComprehension(line, element, clauses) => {
                let own = self.begin(place, *line, ScopeKind::ListComprehension)?;
                self.expr(Role::Value, own, element.get())?;
                self.clauses(own, place, clauses.get())
            }
            Expr::DictComprehension(line, key, value, clauses) => {
                let own = self.begin(place, *line, ScopeKind::DictComprehension)?;
                self.expr(Role::Value, own, key.get())?;
                self.expr(Role::Value, own, value.get())?;
                self.clauses(own, place, clauses.get())
            }
            Expr::Generator(line, element, clauses) => {
                let own = self.begin(place, *line, ScopeKind::Generator)?;
                self.expr(Role::Value, own, element.get())?;
                self.clauses(own, place, clauses.get())
            }
            Expr::Attribute(line, value, attribute) => {
                self.expr(Role::Value, place, value.get())?;
                self.site(place, *line, What::Attribute(attribute.share()?))
            }
            Expr::Index(_, value, at) => {
                self.expr(Role::Value, place, value.get())?;
                self.subscript(place, at.get())
            }
            Expr::Call(line, called, arguments) => {
                self.expr(Role::Value, place, called.get())?;
                self.arguments(place, *line, arguments.as_slice())
            }
            Expr::Unary(_, _, value) | Expr::Not(_, value) | Expr::Star(_, value) => {
                self.expr(Role::Value, place, value.get())
            }
            Expr::Binary(_, _, left, right) | Expr::Junction(_, _, left, right) => {
                self.expr(Role::Value, place, left.get())?;
                self.expr(Role::Value, place, right.get())
            }
            Expr::Compare(_, first, links) => {
                self.expr(Role::Value, place, first.get())?;
                self.links(place, links.as_slice())
            }
            Expr::Conditional(_, test, chosen, otherwise) => {
                self.expr(Role::Value, place, chosen.get())?;
                self.expr(Role::Value, place, test.get())?;
                self.expr(Role::Value, place, otherwise.get())
            }
            Expr::Lambda(line, params, body) => {
                let own = self.begin(place, *line, ScopeKind::Lambda)?;
                self.params(own, place, params.as_slice())?;
                self.expr(Role::Value, own, body.get())
            }
            Expr::Yield(line, None) => self.site(place, *line, What::Yield),
            Expr::Yield(line, Some(value)) | Expr::YieldFrom(line, value) => {
                self.site(place, *line, What::Yield)?;
                self.expr(Role::Value, place, value.get())
            }
        }
    }

    #[cycle(walk)]
    fn items(&mut self, role: Role, place: Place, xs: &[Item<Expr>]) -> Result<(), AllocError>
        ensures { OnOk result (self.new.survey ≡ spec.items role false (map (parts.item_of spec.expr) xs.now) place self.old.survey) }
    {
        let mut has_star = false;
        for x in xs {
            match x {
                Item::One(x) => self.expr(role, place, x)?,
                Item::Star(line, x) => {
                    self.misplaced_if(is_stray(role, has_star), place, *line)?;
                    self.expr(role, place, x)?;
                    has_star = true;
                }
            }
        }
        Ok(())
    }

    #[cycle(walk)]
    fn entries(&mut self, place: Place, entries: &[Entry<Expr>]) -> Result<(), AllocError>
        ensures { OnOk result (self.new.survey ≡ spec.all (map spec.entry_adds (map (parts.entry_of spec.expr) entries.now)) place self.old.survey) }
    {
        for entry in entries {
            match entry {
                Entry::Pair(key, value) => {
                    self.expr(Role::Value, place, key)?;
                    self.expr(Role::Value, place, value)?;
                }
                Entry::Merge(x) => self.expr(Role::Value, place, x)?,
            }
        }
        Ok(())
    }

    #[cycle(walk)]
    fn links(&mut self, place: Place, links: &[Link<Expr>]) -> Result<(), AllocError>
        ensures { OnOk result (self.new.survey ≡ spec.all (map spec.link_adds (map (parts.link_of spec.expr) links.now)) place self.old.survey) }
    {
        for link in links {
            self.expr(Role::Value, place, &link.right)?;
        }
        Ok(())
    }

    #[cycle(walk)]
    fn subscript(&mut self, place: Place, at: &Subscript<Expr>) -> Result<(), AllocError>
        ensures { OnOk result (self.new.survey ≡ spec.subscripts (parts.subscript_of spec.expr at.now) place self.old.survey) }
    {
        match at {
            Subscript::One(x) => self.expr(Role::Value, place, x),
            Subscript::Several(xs) => {
                for x in xs.as_slice() {
                    self.expr(Role::Value, place, x)?;
                }
                Ok(())
            }
            Subscript::Slice(lower, upper, step) => {
                if let Some(x) = lower {
                    self.expr(Role::Value, place, x)?;
                }
                if let Some(x) = upper {
                    self.expr(Role::Value, place, x)?;
                }
                if let Some(x) = step {
                    self.expr(Role::Value, place, x)?;
                }
                Ok(())
            }
        }
    }

    #[cycle(walk)]
    fn arguments(
        &mut self,
        place: Place,
        line: u32,
        arguments: &[Argument<Expr>],
    ) -> Result<(), AllocError>
        ensures { OnOk result (self.new.survey ≡ spec.arguments line (map (parts.argument_of spec.expr) arguments.now) place self.old.survey) }
    {
        let start = self.survey.sites.len();
        self.site(place, line, What::Arguments)?;
        for argument in arguments {
            match argument {
                Argument::Plain(x) | Argument::Star(x) | Argument::Merge(x) => {
                    self.expr(Role::Value, place, x)?;
                }
                Argument::Keyword(line, name, value) => {
                    let name = self.spelled(place, name)?;
                    self.site(place, *line, What::Keyword(start, name))?;
                    self.expr(Role::Value, place, value)?;
                }
            }
        }
        Ok(())
    }

    /// A parameter stands in the place `own`, its default in the one around.
    #[cycle(walk)]
    fn params(&mut self, own: Place, place: Place, params: &[Param<Expr>]) -> Result<(), AllocError>
        ensures { OnOk result (self.new.survey ≡ spec.all (map (spec.param_adds own) (map (parts.param_of spec.expr) params.now)) place self.old.survey) }
    {
        for param in params {
            match param {
                Param::Named(line, name, default) => {
                    let name = self.spelled(own, name)?;
                    self.site(own, *line, What::Parameter(name))?;
                    if let Some(default) = default {
                        self.expr(Role::Value, place, default)?;
                    }
                }
                Param::Star(line, Some(name)) | Param::DoubleStar(line, name) => {
                    let name = self.spelled(own, name)?;
                    self.site(own, *line, What::Parameter(name))?;
                }
                Param::Slash(_) | Param::Star(_, None) => {}
            }
        }
        Ok(())
    }

    /// The clauses of a comprehension: its first iterable stands in the place around.
    #[cycle(walk)]
    fn clauses(
        &mut self,
        own: Place,
        place: Place,
        clauses: &Clauses<Expr>,
    ) -> Result<(), AllocError>
        ensures { OnOk result (self.new.survey ≡ spec.clauses_add own (parts.clauses_of spec.expr clauses.now) place self.old.survey) }
    {
        self.expr(Role::Target, own, &clauses.target)?;
        self.expr(Role::Value, place, &clauses.iterable)?;
        for clause in clauses.more.as_slice() {
            match clause {
                Clause::For(_, target, iterable) => {
                    self.expr(Role::Target, own, target)?;
                    self.expr(Role::Value, own, iterable)?;
                }
                Clause::If(_, test) => self.expr(Role::Value, own, test)?,
            }
        }
        Ok(())
    }

    fn exprs(&mut self, place: Place, xs: &[Expr]) -> Result<(), AllocError>
        ensures { OnOk result (self.new.survey ≡ spec.values (map spec.expr xs.now) place self.old.survey) }
    {
        for x in xs {
            self.expr(Role::Value, place, x)?;
        }
        Ok(())
    }

    /// The decorators and the name of a function or class. Begins its scope, and answers the place inside it.
    fn begin_block(
        &mut self,
        place: Place,
        line: u32,
        kind: ScopeKind,
        decorators: &[Expr],
        name: &RcStr,
    ) -> Result<Place, AllocError>
        ensures enters { OnOk result (self.new.survey ≡ spec.enter line kind name.now place (spec.decorated line decorators.now name.now place self.old.survey)) }
        ensures inside { IfOk result (λ own. own ≡ spec.inside kind place (spec.decorated line decorators.now name.now place self.old.survey)) }
    {
        self.exprs(place, decorators)?;
        self.binds(place, line, name)?;
        self.enter(place, line, kind, name.share()?)
    }

    fn targets(&mut self, place: Place, xs: &[Expr]) -> Result<(), AllocError>
        ensures { OnOk result (self.new.survey ≡ spec.all (map spec.target xs.now) place self.old.survey) }
    {
        for x in xs {
            self.expr(Role::Target, place, x)?;
        }
        Ok(())
    }

    fn value_of(&mut self, place: Place, x: &Option<Expr>) -> Result<(), AllocError>
        ensures { OnOk result (self.new.survey ≡ spec.value_of x.now place self.old.survey) }
    {
        match x {
            Some(x) => self.expr(Role::Value, place, x),
            None => Ok(()),
        }
    }

    fn globals(&mut self, place: Place, names: &[Declared]) -> Result<(), AllocError>
        ensures { OnOk result (self.new.survey ≡ spec.all (map (spec.declared what.Global) names.now) place self.old.survey) }
    {
        for declared in names {
            let name = self.spelled(place, &declared.name)?;
            self.site(place, declared.line, What::Global(name))?;
        }
        Ok(())
    }

    fn nonlocals(&mut self, place: Place, names: &[Declared]) -> Result<(), AllocError>
        ensures { OnOk result (self.new.survey ≡ spec.all (map (spec.declared what.Nonlocal) names.now) place self.old.survey) }
    {
        for declared in names {
            let name = self.spelled(place, &declared.name)?;
            self.site(place, declared.line, What::Nonlocal(name))?;
        }
        Ok(())
    }

    fn managers(&mut self, place: Place, managers: &[Manager]) -> Result<(), AllocError>
        ensures { OnOk result (self.new.survey ≡ spec.all (map spec.manager_adds managers.now) place self.old.survey) }
    {
        for manager in managers {
            self.expr(Role::Value, place, &manager.value)?;
            if let Some(target) = &manager.target {
                self.expr(Role::Target, place, target)?;
            }
        }
        Ok(())
    }

    #[cycle(block)]
    fn stmt(&mut self, place: Place, x: &Stmt) -> Result<(), AllocError>
        ensures { OnOk result (self.new.survey ≡ spec.stmt x.now place self.old.survey) }
    {
        match x {
            Stmt::Expr(_, value) => self.expr(Role::Value, place, value),
            Stmt::Assign(_, targets, value) => {
                self.targets(place, targets.as_slice())?;
                self.expr(Role::Value, place, value)
            }
            Stmt::Augment(_, target, _, value) => {
                self.expr(Role::Augmented, place, target)?;
                self.expr(Role::Value, place, value)
            }
            Stmt::Pass(_) => Ok(()),
            Stmt::Break(line) | Stmt::Continue(line) => self.site(place, *line, What::Break),
            Stmt::Return(line, value) => {
                self.site(place, *line, What::Return)?;
                self.value_of(place, value)
            }
            Stmt::Raise(_, Some(value)) => self.expr(Role::Value, place, value),
            Stmt::Raise(line, None) => self.site(place, *line, What::Reraise),
            Stmt::Del(_, target) => self.expr(Role::Deleted, place, target),
            Stmt::Assert(_, test, text) => {
                self.expr(Role::Value, place, test)?;
                self.value_of(place, text)
            }
            Stmt::Global(_, names) => self.globals(place, names.as_slice()),
            Stmt::Nonlocal(_, names) => self.nonlocals(place, names.as_slice()),
            Stmt::If(_, branches, otherwise) => {
                self.branches(place, branches.as_slice())?;
                self.stmts(place, otherwise.as_slice())
            }
            Stmt::While(_, test, body, otherwise) => {
                self.expr(Role::Value, place, test)?;
                self.stmts(looping(place), body.as_slice())?;
                self.stmts(place, otherwise.as_slice())
            }
            Stmt::For(_, target, iterable, body, otherwise) => {
                self.expr(Role::Target, place, target)?;
                self.expr(Role::Value, place, iterable)?;
                self.stmts(looping(place), body.as_slice())?;
                self.stmts(place, otherwise.as_slice())
            }
            Stmt::Try(_, body, handlers, otherwise, last) => {
                self.stmts(place, body.as_slice())?;
                self.handlers(place, handlers.as_slice())?;
                self.stmts(place, otherwise.as_slice())?;
                self.stmts(finishing(place), last.as_slice())
            }
            Stmt::With(_, managers, body) => {
                self.managers(place, managers.as_slice())?;
                self.stmts(place, body.as_slice())
            }
            Stmt::Def(line, decorators, name, params, body) => {
                let own = self.begin_block(
                    place,
                    *line,
                    ScopeKind::Function,
                    decorators.as_slice(),
                    name,
                )?;
                self.params(own, place, params.as_slice())?;
                self.stmts(own, body.as_slice())
            }
            Stmt::Class(line, decorators, name, base, body) => {
                let own = self.begin_block(
                    place,
                    *line,
                    ScopeKind::Class,
                    decorators.as_slice(),
                    name,
                )?;
                self.value_of(place, base)?;
                self.stmts(own, body.as_slice())
            }
        }
    }

    #[cycle(block)]
    fn stmts(&mut self, place: Place, xs: &[Stmt]) -> Result<(), AllocError>
        ensures { OnOk result (self.new.survey ≡ spec.stmts xs.now place self.old.survey) }
    {
        for x in xs {
            self.stmt(place, x)?;
        }
        Ok(())
    }

    #[cycle(block)]
    fn branches(&mut self, place: Place, branches: &[Branch<Stmt>]) -> Result<(), AllocError>
        ensures { OnOk result (self.new.survey ≡ spec.all (map spec.branch_adds (map (parts.branch_of spec.stmt) branches.now)) place self.old.survey) }
    {
        for branch in branches {
            self.expr(Role::Value, place, &branch.test)?;
            for x in branch.body.as_slice() {
                self.stmt(place, x)?;
            }
        }
        Ok(())
    }

    #[cycle(block)]
    fn handlers(&mut self, place: Place, handlers: &[Handler<Stmt>]) -> Result<(), AllocError>
        ensures { OnOk result (self.new.survey ≡ spec.all (map spec.handler_adds (map (parts.handler_of spec.stmt) handlers.now)) place self.old.survey) }
    {
        for handler in handlers {
            self.value_of(place, &handler.class)?;
            if let Some(name) = &handler.name {
                self.binds(place, handler.line, name)?;
            }
            let inside = handling(place);
            for x in handler.body.as_slice() {
                self.stmt(inside, x)?;
            }
        }
        Ok(())
    }
}

fn is_value(role: Role) -> bool
    ensures { result ≡ spec.is_value role }
{
    matches!(role, Role::Value)
}

fn is_single(role: Role) -> bool
    ensures { result ≡ spec.is_single role }
{
    matches!(role, Role::Augmented)
}

/// A name is bound where it is a target.
fn named(role: Role, name: RcStr) -> What
    ensures { result ≡ spec.named role name }
{
    match role {
        Role::Value => What::Uses(name),
        _ => What::Binds(name),
    }
}

/// What the items of a tuple or a list are.
fn listed(role: Role) -> Role
    ensures { result ≡ spec.listed role }
{
    match role {
        Role::Target | Role::Deleted => role,
        _ => Role::Value,
    }
}

/// Whether a star in a list breaks the rules, with or without a star before it.
fn is_stray(role: Role, before: bool) -> bool
    ensures { result ≡ spec.is_stray role before }
{
    match role {
        Role::Value => false,
        Role::Target => before,
        Role::Augmented | Role::Deleted => true,
    }
}

/// Whether an expression is no target, where one has to stand, or is a star that no rule allows.
fn is_misplaced(role: Role, x: &Expr) -> bool
    ensures { result ≡ roles.is_misplaced role x.now }
{
    match x {
        Expr::Name(_, _) | Expr::Attribute(_, _, _) => false,
        Expr::Tuple(_, _) | Expr::List(_, _) => is_single(role),
        Expr::Index(_, _, at) => is_slice(at.get()) && !is_value(role),
        Expr::Star(_, _) => true,
        _ => !is_value(role),
    }
}

fn is_slice(at: &Subscript<Expr>) -> bool
    ensures { result ≡ spec.is_slice at.now }
{
    matches!(at, Subscript::Slice(_, _, _))
}

/// The name of a scope that its kind gives.
fn own_name(kind: ScopeKind) -> &'static str
    ensures { result.now ≡ spec.own_name kind }
{
    match kind {
        ScopeKind::Module => "<module>",
        ScopeKind::Lambda => "<lambda>",
        ScopeKind::ListComprehension => "<listcomp>",
        ScopeKind::DictComprehension => "<dictcomp>",
        ScopeKind::Generator => "<genexpr>",
        ScopeKind::Function | ScopeKind::Class => "",
    }
}

fn is_generator(kind: ScopeKind) -> bool
    ensures { result ≡ spec.is_generator_kind kind }
{
    matches!(kind, ScopeKind::Generator)
}

/// The innermost class around what stands in a scope of this kind and number.
fn class_inside(kind: ScopeKind, scope: usize, class: Option<usize>) -> Option<usize>
    ensures { result ≡ spec.class_inside kind scope class }
{
    match kind {
        ScopeKind::Class => Some(scope),
        _ => class,
    }
}

fn looping(place: Place) -> Place
    ensures { result ≡ spec.looping place }
{
    Place {
        in_loop: true,
        ..place
    }
}

fn handling(place: Place) -> Place
    ensures { result ≡ spec.handling place }
{
    Place {
        in_except: true,
        ..place
    }
}

fn finishing(place: Place) -> Place
    ensures { result ≡ spec.finishing place }
{
    Place {
        in_except: false,
        ..place
    }
}

/// The scopes of a script, or of the built-in text, in the order of the text, and what stands in them.
#[tactic(auto, unfolding(crate::specs::Survey::survey_of))]
pub fn survey_of(alloc: Global, built_in: bool, script: &Script) -> Result<Survey, AllocError>
    ensures { IfOk result (λ survey. survey ≡ spec.survey_of built_in script.now.statements) }
{
    let name = RcStr::from_str(alloc, own_name(ScopeKind::Module))?;
    let mut surveyor = Surveyor {
        alloc,
        survey: Survey {
            built_in,
            scopes: Items::new(alloc),
            sites: Items::new(alloc),
        },
    };
    let top = Place {
        scope: 0,
        class: None,
        in_loop: false,
        in_except: false,
    };
    surveyor.enter(top, 1, ScopeKind::Module, name)?;
    surveyor.stmts(top, script.statements.as_slice())?;
    let Surveyor { alloc: _, survey } = surveyor;
    Ok(survey)
}
