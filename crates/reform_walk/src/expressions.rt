//! The walk of an expression (reference, chapter 6).

ghost use Rattle.std.specs.Prelude.{◌≡◌, map, OnOk, IfOk, false};
ghost use Rattle.node_tree.specs.Tree.{block};
ghost use Rattle.py_scopes.specs.Parts as parts;
ghost use Rattle.py_meaning.specs.Resolved as meaning;
ghost use Rattle.walk_laws.specs.Expressions as spec;
ghost use Rattle.walk_laws.specs.States.{at};
ghost use Rattle.reform_blocks.specs.Parts.{carrier};
ghost use Rattle.reform_targets.specs.Places.{place_of};
ghost use Rattle.reform_values.specs.Filling.{item_of, entry_of};
ghost use Rattle.reform_values.specs.Linking.{linked_of};
ghost use Rattle.reform_values.specs.Passing.{passed_of};
ghost use Rattle.reform_walk.specs.Gathering.{behind_element, item_at, ranged, ranged_of};
ghost use Rattle.reform_walk.specs.Made.{aim_of, turn_of, defaults_of};
ghost use Rattle.reform_walk.specs.States.{state_of};

use crate::comprehensions::{Comprehension, Ranged};
use crate::constructs::{binary_op, comparison_op, constant, is_negated, is_or, unary_op};
use crate::functions::Function;
use crate::here::Here;
use crate::lists::{all_plain, assembled, has_star, is_slice};
use crate::parts::{Aim, Defaults, Turn};
use crate::shapes::shape;
use crate::state::Walk;
use node_tree::{Block, Operand};
use op_forms::{Const, Op};
use py_ast::{Argument, Clause, Clauses, Expr, Param, Subscript};
use reform_base::Part;
use reform_functions::Named;
use reform_targets::Place;
use reform_values::{Entry, Item, Link, Passed, Valued};
use std::alloc::AllocError;

impl Walk {
    /// An expression is evaluated.
    #[cycle(walk)]
    pub fn value<H: Here>(&mut self, here: &H, x: &Expr) -> Result<Part, AllocError>
        ensures is { IfOk result (λ p. carrier p ≡ ((spec.expr x.now).value (H.context here.now) (state_of self.old)).is) }
        ensures state { OnOk result (state_of self.new ≡ ((spec.expr x.now).value (H.context here.now) (state_of self.old)).state) }
    {
        match x {
            Expr::None(_) => Ok(constant(self.alloc, Const::None)),
            Expr::True(_) => Ok(constant(self.alloc, Const::Bool(true))),
            Expr::False(_) => Ok(constant(self.alloc, Const::Bool(false))),
            Expr::Number(_, value) => Ok(constant(self.alloc, Const::Int(*value))),
            Expr::Text(_, text) => Ok(constant(self.alloc, Const::Str(text.share()?))),
            Expr::Name(line, name) => {
                let home = here.home(name)?;
                self.named(*line, home)
            }
            Expr::Tuple(line, xs) => {
                let items = self.items(here, xs.as_slice())?;
                self.displayed(*line, Op::Tuple, true, has_star(xs.as_slice()), items)
            }
            Expr::List(line, xs) => {
                let items = self.items(here, xs.as_slice())?;
                self.displayed(*line, Op::List, false, has_star(xs.as_slice()), items)
            }
            Expr::Dict(line, entries) => {
                let entries = self.entries(here, entries.as_slice())?;
                self.dict(*line, entries)
            }
            Expr::ListComprehension(line, x, clauses) => {
                let mut inner = self.comprehension_begins(here, Some(Op::List))?;
                let x = inner.walk.value(&inner.here, x.get())?;
                let element = inner.walk.pushed(*line, Operand::Temp(inner.first), x)?;
                self.closed(here, *line, Some(Op::List), inner, clauses.get(), element)
            }
            Expr::DictComprehension(line, x, y, clauses) => {
                let mut inner = self.comprehension_begins(here, Some(Op::Dict))?;
                let x = inner.walk.value(&inner.here, x.get())?;
                let y = inner.walk.value(&inner.here, y.get())?;
                let element = inner.walk.put(*line, Operand::Temp(inner.first), x, y)?;
                self.closed(here, *line, Some(Op::Dict), inner, clauses.get(), element)
            }
            Expr::Generator(line, x, clauses) => {
                let mut inner = self.comprehension_begins(here, None)?;
                let x = inner.walk.value(&inner.here, x.get())?;
                let element = inner.walk.emitted(*line, x)?;
                self.closed(here, *line, None, inner, clauses.get(), element)
            }
            Expr::Attribute(line, x, name) => {
                let x = self.value(here, x.get())?;
                let name = here.word(name)?;
                self.attribute(*line, x, name)
            }
            Expr::Index(line, x, at) => {
                let x = self.value(here, x.get())?;
                self.item(here, *line, x, at.get())
            }
            Expr::Call(line, function, args) => {
                let function = self.value(here, function.get())?;
                let passed = self.arguments(here, args.as_slice())?;
                self.passed(*line, function, all_plain(args.as_slice()), passed)
            }
            Expr::Unary(line, sign, x) => {
                let x = self.value(here, x.get())?;
                self.on_one(*line, unary_op(*sign), x)
            }
            Expr::Binary(line, operator, x, y) => {
                let x = self.value(here, x.get())?;
                let y = self.value(here, y.get())?;
                self.on_two(*line, binary_op(*operator), x, y)
            }
            Expr::Compare(line, first, links) => {
                let first = self.value(here, first.get())?;
                let links = self.links(here, links.as_slice())?;
                self.compared(*line, first, links)
            }
            Expr::Not(line, x) => {
                let x = self.value(here, x.get())?;
                self.negated(*line, x)
            }
            Expr::Junction(line, junction, x, y) => {
                let x = self.value(here, x.get())?;
                let y = self.value(here, y.get())?;
                self.both(*line, is_or(*junction), x, y)
            }
            Expr::Conditional(line, test, yes, no) => {
                let yes = self.value(here, yes.get())?;
                let test = self.value(here, test.get())?;
                let no = self.value(here, no.get())?;
                self.choose(*line, test, yes, no)
            }
            Expr::Lambda(line, params, x) => {
                let mut function = self.function_begins(here, params.as_slice())?;
                let value = function.walk.value(&function.here, x.get())?;
                let body = function.walk.returned(value)?;
                self.function_ends(here, *line, function, body)
            }
            Expr::Yield(line, None) => {
                let value = constant(self.alloc, Const::None);
                self.yields(*line, value)
            }
            Expr::Yield(line, Some(x)) => {
                let value = self.value(here, x.get())?;
                self.yields(*line, value)
            }
            Expr::YieldFrom(line, x) => {
                let over = self.value(here, x.get())?;
                self.delegates(*line, over)
            }
            Expr::Star(_, x) => self.value(here, x.get()),
        }
    }

    /// The parts of a target are evaluated (reference, section 7.2).
    #[cycle(walk)]
    pub fn target<H: Here>(&mut self, here: &H, x: &Expr) -> Result<Place, AllocError>
        ensures is { IfOk result (λ p. place_of p ≡ ((spec.expr x.now).target (H.context here.now) (state_of self.old)).is) }
        ensures state { OnOk result (state_of self.new ≡ ((spec.expr x.now).target (H.context here.now) (state_of self.old)).state) }
    {
        match x {
            Expr::Name(line, name) => Ok(Place::Name {
                line: *line,
                home: here.home(name)?,
            }),
            Expr::Tuple(line, xs) | Expr::List(line, xs) => {
                let aims = self.aims(here, xs.as_slice())?;
                assembled(self.alloc, *line, aims)
            }
            Expr::Attribute(line, x, name) => {
                let part = self.value(here, x.get())?;
                Ok(Place::Attribute {
                    line: *line,
                    part,
                    name: here.word(name)?,
                })
            }
            Expr::Index(line, x, at) => {
                if is_slice(at.get()) {
                    return Ok(Place::Nothing);
                }
                let part = self.value(here, x.get())?;
                let at = self.subscript(here, *line, at.get())?;
                Ok(Place::Index {
                    line: *line,
                    part,
                    at,
                })
            }
            Expr::Star(_, x) => self.target(here, x.get()),
            _ => Ok(Place::Nothing),
        }
    }

    /// What the next temporary gets goes to a target.
    #[cycle(walk)]
    pub fn bind<H: Here>(&mut self, here: &H, x: &Expr) -> Result<Block, AllocError>
        ensures is { IfOk result (λ b. block b ≡ (spec.bind (H.context here.now) (spec.expr x.now) (state_of self.old)).is) }
        ensures state { OnOk result (state_of self.new ≡ (spec.bind (H.context here.now) (spec.expr x.now) (state_of self.old)).state) }
    {
        let item = self.drawn()?;
        let place = self.target(here, x)?;
        self.assigned(item, place)
    }

    #[cycle(walk)]
    fn items<H: Here>(
        &mut self,
        here: &H,
        xs: &[py_ast::Item<Expr>],
    ) -> Result<Vec<Item>, AllocError>
        ensures is { IfOk result (λ items. map item_of items.items ≡ (spec.items (H.context here.now) (map (parts.item_of spec.expr) xs.now) (state_of self.old)).is) }
        ensures state { OnOk result (state_of self.new ≡ (spec.items (H.context here.now) (map (parts.item_of spec.expr) xs.now) (state_of self.old)).state) }
    {
        let mut items = Vec::new(self.alloc);
        for x in xs {
            match x {
                py_ast::Item::One(x) => items.push(Item::One(self.value(here, x)?))?,
                py_ast::Item::Star(_, x) => items.push(Item::Star(self.value(here, x)?))?,
            }
        }
        Ok(items)
    }

    #[cycle(walk)]
    fn aims<H: Here>(&mut self, here: &H, xs: &[py_ast::Item<Expr>]) -> Result<Vec<Aim>, AllocError>
        ensures is { IfOk result (λ aims. map aim_of aims.items ≡ (spec.aims (H.context here.now) (map (parts.item_of spec.expr) xs.now) (state_of self.old)).is) }
        ensures state { OnOk result (state_of self.new ≡ (spec.aims (H.context here.now) (map (parts.item_of spec.expr) xs.now) (state_of self.old)).state) }
    {
        let mut aims = Vec::new(self.alloc);
        for x in xs {
            match x {
                py_ast::Item::One(x) => aims.push(Aim {
                    starred: false,
                    place: self.target(here, x)?,
                })?,
                py_ast::Item::Star(_, x) => aims.push(Aim {
                    starred: true,
                    place: self.target(here, x)?,
                })?,
            }
        }
        Ok(aims)
    }

    #[cycle(walk)]
    fn entries<H: Here>(
        &mut self,
        here: &H,
        xs: &[py_ast::Entry<Expr>],
    ) -> Result<Vec<Entry>, AllocError>
        ensures is { IfOk result (λ entries. map entry_of entries.items ≡ (spec.entries (H.context here.now) (map (parts.entry_of spec.expr) xs.now) (state_of self.old)).is) }
        ensures state { OnOk result (state_of self.new ≡ (spec.entries (H.context here.now) (map (parts.entry_of spec.expr) xs.now) (state_of self.old)).state) }
    {
        let mut entries = Vec::new(self.alloc);
        for x in xs {
            match x {
                py_ast::Entry::Pair(key, value) => {
                    let key = self.value(here, key)?;
                    let value = self.value(here, value)?;
                    entries.push(Entry::Pair { key, value })?;
                }
                py_ast::Entry::Merge(x) => entries.push(Entry::Merge(self.value(here, x)?))?,
            }
        }
        Ok(entries)
    }

    #[cycle(walk)]
    fn links<H: Here>(
        &mut self,
        here: &H,
        xs: &[py_ast::Link<Expr>],
    ) -> Result<Vec<Link>, AllocError>
        ensures is { IfOk result (λ links. map linked_of links.items ≡ (spec.links (H.context here.now) (map (parts.link_of spec.expr) xs.now) (state_of self.old)).is) }
        ensures state { OnOk result (state_of self.new ≡ (spec.links (H.context here.now) (map (parts.link_of spec.expr) xs.now) (state_of self.old)).state) }
    {
        let mut links = Vec::new(self.alloc);
        for x in xs {
            let right = self.value(here, &x.right)?;
            links.push(Link {
                op: comparison_op(x.comparison),
                negated: is_negated(x.comparison),
                right,
            })?;
        }
        Ok(links)
    }

    #[cycle(walk)]
    fn arguments<H: Here>(
        &mut self,
        here: &H,
        xs: &[Argument<Expr>],
    ) -> Result<Vec<Passed>, AllocError>
        ensures is { IfOk result (λ passed. map passed_of passed.items ≡ (spec.arguments (H.context here.now) (map (parts.argument_of spec.expr) xs.now) (state_of self.old)).is) }
        ensures state { OnOk result (state_of self.new ≡ (spec.arguments (H.context here.now) (map (parts.argument_of spec.expr) xs.now) (state_of self.old)).state) }
    {
        let mut passed = Vec::new(self.alloc);
        for x in xs {
            match x {
                Argument::Plain(x) => passed.push(Passed::Plain(self.value(here, x)?))?,
                Argument::Star(x) => passed.push(Passed::Star(self.value(here, x)?))?,
                Argument::Keyword(_, name, x) => {
                    let name = here.word(name)?;
                    let value = self.value(here, x)?;
                    passed.push(Passed::Key { name, value })?;
                }
                Argument::Merge(x) => passed.push(Passed::Merge(self.value(here, x)?))?,
            }
        }
        Ok(passed)
    }

    // An item of what is evaluated, or a slice of it.
    #[cycle(walk)]
    fn item<H: Here>(
        &mut self,
        here: &H,
        line: u32,
        x: Part,
        at: &Subscript<Expr>,
    ) -> Result<Part, AllocError>
        ensures is { IfOk result (λ p. carrier p ≡ (item_at (H.context here.now) line (carrier x) (parts.subscript_of spec.expr at.now) (state_of self.old)).is) }
        ensures state { OnOk result (state_of self.new ≡ (item_at (H.context here.now) line (carrier x) (parts.subscript_of spec.expr at.now) (state_of self.old)).state) }
    {
        match at {
            Subscript::Slice(lower, upper, step) => {
                let lower = self.bound(here, lower)?;
                let upper = self.bound(here, upper)?;
                let step = self.bound(here, step)?;
                self.sliced(line, x, lower, upper, step)
            }
            _ => {
                let at = self.subscript(here, line, at)?;
                self.on_two(line, Op::Index, x, at)
            }
        }
    }

    // What stands in the brackets, where it is no slice.
    #[cycle(walk)]
    fn subscript<H: Here>(
        &mut self,
        here: &H,
        line: u32,
        at: &Subscript<Expr>,
    ) -> Result<Part, AllocError>
        ensures is { IfOk result (λ p. carrier p ≡ (spec.operand_at (H.context here.now) line (parts.subscript_of spec.expr at.now) (state_of self.old)).is) }
        ensures state { OnOk result (state_of self.new ≡ (spec.operand_at (H.context here.now) line (parts.subscript_of spec.expr at.now) (state_of self.old)).state) }
    {
        match at {
            Subscript::One(x) => self.value(here, x),
            Subscript::Several(xs) => {
                let mut parts = Vec::new(self.alloc);
                for x in xs.as_slice() {
                    parts.push(self.value(here, x)?)?;
                }
                self.operated(line, Op::Tuple, parts)
            }
            Subscript::Slice(_, _, _) => Ok(constant(self.alloc, Const::None)),
        }
    }

    #[cycle(walk)]
    fn bound<H: Here>(&mut self, here: &H, x: &Option<Expr>) -> Result<Part, AllocError>
        ensures is { IfOk result (λ p. carrier p ≡ (spec.maybe (H.context here.now) (parts.option_of spec.expr x.now) (state_of self.old)).is) }
        ensures state { OnOk result (state_of self.new ≡ (spec.maybe (H.context here.now) (parts.option_of spec.expr x.now) (state_of self.old)).state) }
    {
        match x {
            Some(x) => self.value(here, x),
            None => Ok(constant(self.alloc, Const::None)),
        }
    }

    /// The defaults of parameters (reference, section 8.7).
    #[cycle(walk)]
    pub fn defaults<H: Here>(
        &mut self,
        here: &H,
        params: &[Param<Expr>],
    ) -> Result<Defaults, AllocError>
        ensures is { IfOk result (λ d. defaults_of d ≡ (spec.defaults (H.context here.now) false (map (parts.param_of spec.expr) params.now) (state_of self.old)).is) }
        ensures state { OnOk result (state_of self.new ≡ (spec.defaults (H.context here.now) false (map (parts.param_of spec.expr) params.now) (state_of self.old)).state) }
    {
        let mut positional = Vec::new(self.alloc);
        let mut named = Vec::new(self.alloc);
        let mut behind = false;
        for param in params {
            match param {
                Param::Named(_, name, Some(x)) => {
                    let part = self.value(here, x)?;
                    if behind {
                        let name = here.word(name)?;
                        named.push(Named { name, part })?;
                    } else {
                        positional.push(part)?;
                    }
                }
                Param::Star(_, _) => behind = true,
                _ => {}
            }
        }
        Ok(Defaults { positional, named })
    }

    /// Begins the function that comes next. Its body is walked by `walk` at `here` of the answer, in no `except` clause.
    #[cycle(walk)]
    pub fn function_begins<H: Here>(
        &self,
        here: &H,
        params: &[Param<Expr>],
    ) -> Result<Function<H>, AllocError>
        ensures place { IfOk result (λ f. H.context f.here ≡ meaning.inside (H.context here.now) self.now.scope (meaning.shape (H.context here.now) params.now) (H.context here.now).class) }
        ensures params { IfOk result (λ f. f.params ≡ meaning.shape (H.context here.now) params.now) }
        ensures defaults { IfOk result (λ f. defaults_of f.defaults ≡ (spec.defaults (H.context here.now) false (map (parts.param_of spec.expr) params.now) (spec.begun (state_of self.now))).is) }
        ensures outside { IfOk result (λ f. f.outside ≡ (spec.defaults (H.context here.now) false (map (parts.param_of spec.expr) params.now) (spec.begun (state_of self.now))).state.temp) }
        ensures state { IfOk result (λ f. state_of f.walk ≡ spec.entered (H.context f.here) (spec.defaults (H.context here.now) false (map (parts.param_of spec.expr) params.now) (spec.begun (state_of self.now))).state) }
    {
        let mut walk = self.begun()?;
        let defaults = walk.defaults(here, params)?;
        let shape = shape(self.alloc, here, params)?;
        let inside = here.inside(self.alloc, self.scope, &shape)?;
        let outside = walk.entered(&inside)?;
        Ok(Function {
            walk,
            here: inside,
            params: shape,
            defaults,
            outside,
        })
    }

    // The clauses behind the first.
    #[cycle(walk)]
    fn turns<H: Here>(&mut self, here: &H, clauses: &Clauses<Expr>) -> Result<Vec<Turn>, AllocError>
        ensures is { IfOk result (λ turns. map turn_of turns.items ≡ (spec.turns (H.context here.now) (map (parts.clause_of spec.expr) clauses.now.more) (state_of self.old)).is) }
        ensures state { OnOk result (state_of self.new ≡ (spec.turns (H.context here.now) (map (parts.clause_of spec.expr) clauses.now.more) (state_of self.old)).state) }
    {
        let mut turns = Vec::new(self.alloc);
        for clause in clauses.more.as_slice() {
            match clause {
                Clause::For(_, target, over) => {
                    let item = self.next;
                    let bind = self.bind(here, target)?;
                    let over = self.value(here, over)?;
                    turns.push(Turn::Ranges { item, bind, over })?;
                }
                Clause::If(_, test) => turns.push(Turn::Filters {
                    test: self.value(here, test)?,
                })?,
            }
        }
        Ok(turns)
    }

    // What draws from the temporary `next` on; behind it the walk draws where it did.
    #[cycle(walk)]
    fn value_from<H: Here>(&mut self, here: &H, next: u64, x: &Expr) -> Result<Valued, AllocError>
        ensures is { IfOk result (λ v. carrier v.part ≡ ((spec.expr x.now).value (H.context here.now) (at next (state_of self.old))).is) }
        ensures next { IfOk result (λ v. v.next ≡ ((spec.expr x.now).value (H.context here.now) (at next (state_of self.old))).state.temp) }
        ensures state { OnOk result (state_of self.new ≡ at self.old.next ((spec.expr x.now).value (H.context here.now) (at next (state_of self.old))).state) }
    {
        let inner = self.next;
        self.next = next;
        let part = self.value(here, x)?;
        let next = self.next;
        self.next = inner;
        Ok(Valued { part, next })
    }

    // The clauses of a comprehension around its element: the first iterable stands outside, from the temporary `next` on.
    #[cycle(walk)]
    fn clauses<H: Here>(
        &mut self,
        here: &H,
        outside: &H,
        line: u32,
        next: u64,
        clauses: &Clauses<Expr>,
        element: Block,
    ) -> Result<Ranged, AllocError>
        ensures is { IfOk result (λ r. ranged_of r ≡ (ranged (H.context outside.now) (H.context here.now) line next (parts.clauses_of spec.expr clauses.now) (block element) (state_of self.old)).is) }
        ensures state { OnOk result (state_of self.new ≡ (ranged (H.context outside.now) (H.context here.now) line next (parts.clauses_of spec.expr clauses.now) (block element) (state_of self.old)).state) }
    {
        let item = self.next;
        let bind = self.bind(here, &clauses.target)?;
        let over = self.value_from(outside, next, &clauses.iterable)?;
        let turns = self.turns(here, clauses)?;
        let body = self.around(line, element, turns)?;
        let Valued { part, next } = over;
        Ok(Ranged {
            item,
            bind,
            over: part,
            next,
            body,
        })
    }

    // A comprehension behind its element.
    #[cycle(walk)]
    fn closed<H: Here>(
        &mut self,
        here: &H,
        line: u32,
        op: Option<Op>,
        inner: Comprehension<H>,
        clauses: &Clauses<Expr>,
        element: Block,
    ) -> Result<Part, AllocError>
        ensures is { IfOk result (λ p. carrier p ≡ (behind_element (H.context here.now) (H.context inner.here) line op inner.first (parts.clauses_of spec.expr clauses.now) (block element) (state_of self.old) (state_of inner.walk)).is) }
        ensures state { OnOk result (state_of self.new ≡ (behind_element (H.context here.now) (H.context inner.here) line op inner.first (parts.clauses_of spec.expr clauses.now) (block element) (state_of self.old) (state_of inner.walk)).state) }
    {
        let mut inner = inner;
        let ranged = inner
            .walk
            .clauses(&inner.here, here, line, self.next, clauses, element)?;
        self.comprehension_ends(here, line, op, inner, ranged)
    }
}
