//! Constructs whose parts are made.

ghost use Rattle.std.specs.Prelude.{◌≡◌, [], ◌∷◌, map, OnOk, IfOk};
ghost use Rattle.op_forms.specs.declared.op.Op.TheVariants as op_named;
ghost use Rattle.code_forms.specs.declared.operand.Operand.TheVariants as operand;
ghost use Rattle.node_tree.specs.Blocks as tree;
ghost use Rattle.py_meaning.specs.Resolved as meaning;
ghost use Rattle.carried_codes.specs.Parts as parts;
ghost use Rattle.carried_codes.specs.Expressions as expressions;
ghost use Rattle.reform_blocks.specs.Parts.{carrier};
ghost use Rattle.reform_names.specs.Homes.{seat_of};
ghost use Rattle.reform_values.specs.Filling.{item_of, entry_of};
ghost use Rattle.reform_values.specs.Linking.{linked_of};
ghost use Rattle.reform_values.specs.Passing.{passed_of};
ghost use Rattle.walk_laws.specs.Expressions as spec;
ghost use Rattle.walk_laws.specs.States.{valued, and_then};
ghost use Rattle.reform_walk.specs.States.{state_of};

use crate::lists::{item_parts, passed_parts};
use crate::state::Walk;
use node_tree::Operand;
use nu_text::RcStr;
use op_forms::{Const, Op};
use py_ast::{Binary, Comparison, Junction, Unary};
use reform_base::Part;
use reform_blocks::single;
use reform_names::{Home, read};
use reform_values::{
    Entry, Item, Link, Passed, both, call, chain, choose, delegate, dict, left_in, operate,
    starred, yield_value,
};
use sqlite_items::Items;
use std::alloc::{AllocError, Global};

/// A constant.
pub fn constant(alloc: Global, value: Const) -> Part
    ensures { carrier result ≡ parts.part tree.Stop (operand.Const value) }
{
    Part {
        block: Items::new(alloc),
        value: Operand::Const(value),
    }
}

/// The operation of a sign before its operand (reference, section 6.6).
pub fn unary_op(sign: Unary) -> Op
    ensures { result ≡ meaning.unary_op sign }
{
    match sign {
        Unary::Plus => Op::Pos,
        Unary::Minus => Op::Neg,
        Unary::Invert => Op::Inv,
    }
}

/// The operation of an operator between its operands (reference, sections 6.5, 6.7 to 6.9).
pub fn binary_op(operator: Binary) -> Op
    ensures { result ≡ meaning.binary_op operator }
{
    match operator {
        Binary::BitOr => Op::Or,
        Binary::BitXor => Op::Xor,
        Binary::BitAnd => Op::And,
        Binary::LeftShift => Op::LShift,
        Binary::RightShift => Op::RShift,
        Binary::Add => Op::Add,
        Binary::Subtract => Op::Sub,
        Binary::Multiply => Op::Mul,
        Binary::FloorDivide => Op::FloorDiv,
        Binary::Remainder => Op::Mod,
        Binary::Power => Op::Pow,
    }
}

/// The operation of a comparison, which `not in` negates (reference, section 6.10).
pub fn comparison_op(comparison: Comparison) -> Op
    ensures { result ≡ meaning.comparison_op comparison }
{
    match comparison {
        Comparison::Less => Op::Lt,
        Comparison::Greater => Op::Gt,
        Comparison::LessEqual => Op::Le,
        Comparison::GreaterEqual => Op::Ge,
        Comparison::Equal => Op::Eq,
        Comparison::NotEqual => Op::Ne,
        Comparison::In | Comparison::NotIn => Op::In,
        Comparison::Is => Op::Is,
        Comparison::IsNot => Op::IsNot,
    }
}

pub fn is_negated(comparison: Comparison) -> bool
    ensures { result ≡ meaning.is_negated comparison }
{
    matches!(comparison, Comparison::NotIn)
}

pub fn is_or(junction: Junction) -> bool
    ensures { result ≡ meaning.is_or junction }
{
    matches!(junction, Junction::Or)
}

impl Walk {
    /// A name is read.
    #[tactic(auto, unfolding(carried_codes::specs::Expressions::name))]
    pub fn named(&mut self, line: u32, home: Home) -> Result<Part, AllocError>
        ensures is { IfOk result (λ p. carrier p ≡ (valued (expressions.name line (seat_of home)) (state_of self.old)).is) }
        ensures state { OnOk result (state_of self.new ≡ (valued (expressions.name line (seat_of home)) (state_of self.old)).state) }
    {
        let next = self.room()?;
        let node = read(self.alloc, next, line, home)?;
        let block = single(self.alloc, node)?;
        Ok(self.settled(left_in(block, next, next + 1)))
    }

    pub fn operated(&mut self, line: u32, op: Op, parts: Vec<Part>) -> Result<Part, AllocError>
        ensures is { IfOk result (λ p. carrier p ≡ (valued (expressions.operate line op (map carrier parts.items)) (state_of self.old)).is) }
        ensures state { OnOk result (state_of self.new ≡ (valued (expressions.operate line op (map carrier parts.items)) (state_of self.old)).state) }
    {
        let next = self.room()?;
        let made = operate(self.alloc, op, parts, line, next)?;
        Ok(self.settled(made))
    }

    pub fn both(
        &mut self,
        line: u32,
        any: bool,
        left: Part,
        right: Part,
    ) -> Result<Part, AllocError>
        ensures is { IfOk result (λ p. carrier p ≡ (valued (expressions.both line any (carrier left) (carrier right)) (state_of self.old)).is) }
        ensures state { OnOk result (state_of self.new ≡ (valued (expressions.both line any (carrier left) (carrier right)) (state_of self.old)).state) }
    {
        let next = self.room()?;
        let made = both(self.alloc, any, left, right, line, next)?;
        Ok(self.settled(made))
    }

    pub fn choose(&mut self, line: u32, test: Part, yes: Part, no: Part) -> Result<Part, AllocError>
        ensures is { IfOk result (λ p. carrier p ≡ (valued (expressions.choose line (carrier test) (carrier yes) (carrier no)) (state_of self.old)).is) }
        ensures state { OnOk result (state_of self.new ≡ (valued (expressions.choose line (carrier test) (carrier yes) (carrier no)) (state_of self.old)).state) }
    {
        let next = self.room()?;
        let made = choose(self.alloc, test, yes, no, line, next)?;
        Ok(self.settled(made))
    }

    pub fn chained(&mut self, line: u32, first: Part, links: Vec<Link>) -> Result<Part, AllocError>
        ensures is { IfOk result (λ p. carrier p ≡ (valued (expressions.chain line (carrier first) (map linked_of links.items)) (state_of self.old)).is) }
        ensures state { OnOk result (state_of self.new ≡ (valued (expressions.chain line (carrier first) (map linked_of links.items)) (state_of self.old)).state) }
    {
        let next = self.room()?;
        let made = chain(self.alloc, first, links, line, next)?;
        Ok(self.settled(made))
    }

    pub fn starred(&mut self, line: u32, tuple: bool, items: Vec<Item>) -> Result<Part, AllocError>
        ensures is { IfOk result (λ p. carrier p ≡ (valued (expressions.starred line tuple (map item_of items.items)) (state_of self.old)).is) }
        ensures state { OnOk result (state_of self.new ≡ (valued (expressions.starred line tuple (map item_of items.items)) (state_of self.old)).state) }
    {
        let next = self.room()?;
        let made = starred(self.alloc, tuple, items, line, next)?;
        Ok(self.settled(made))
    }

    pub fn dict(&mut self, line: u32, entries: Vec<Entry>) -> Result<Part, AllocError>
        ensures is { IfOk result (λ p. carrier p ≡ (valued (expressions.dict line (map entry_of entries.items)) (state_of self.old)).is) }
        ensures state { OnOk result (state_of self.new ≡ (valued (expressions.dict line (map entry_of entries.items)) (state_of self.old)).state) }
    {
        let next = self.room()?;
        let made = dict(self.alloc, entries, line, next)?;
        Ok(self.settled(made))
    }

    pub fn called(
        &mut self,
        line: u32,
        function: Part,
        args: Vec<Passed>,
    ) -> Result<Part, AllocError>
        ensures is { IfOk result (λ p. carrier p ≡ (valued (expressions.call line (carrier function) (map passed_of args.items)) (state_of self.old)).is) }
        ensures state { OnOk result (state_of self.new ≡ (valued (expressions.call line (carrier function) (map passed_of args.items)) (state_of self.old)).state) }
    {
        let next = self.room()?;
        let made = call(self.alloc, function, args, line, next)?;
        Ok(self.settled(made))
    }

    pub fn yields(&mut self, line: u32, value: Part) -> Result<Part, AllocError>
        ensures is { IfOk result (λ p. carrier p ≡ (valued (expressions.yield_value line (carrier value)) (state_of self.old)).is) }
        ensures state { OnOk result (state_of self.new ≡ (valued (expressions.yield_value line (carrier value)) (state_of self.old)).state) }
    {
        let next = self.room()?;
        let made = yield_value(value, line, next)?;
        Ok(self.settled(made))
    }

    pub fn delegates(&mut self, line: u32, over: Part) -> Result<Part, AllocError>
        ensures is { IfOk result (λ p. carrier p ≡ (valued (expressions.delegate line (carrier over)) (state_of self.old)).is) }
        ensures state { OnOk result (state_of self.new ≡ (valued (expressions.delegate line (carrier over)) (state_of self.old)).state) }
    {
        let next = self.room()?;
        let made = delegate(self.alloc, over, line, next)?;
        Ok(self.settled(made))
    }

    pub fn on_one(&mut self, line: u32, op: Op, x: Part) -> Result<Part, AllocError>
        ensures is { IfOk result (λ p. carrier p ≡ (valued (expressions.operate line op (carrier x ∷ [])) (state_of self.old)).is) }
        ensures state { OnOk result (state_of self.new ≡ (valued (expressions.operate line op (carrier x ∷ [])) (state_of self.old)).state) }
    {
        let mut parts = Vec::new(self.alloc);
        parts.push(x)?;
        self.operated(line, op, parts)
    }

    pub fn on_two(&mut self, line: u32, op: Op, x: Part, y: Part) -> Result<Part, AllocError>
        ensures is { IfOk result (λ p. carrier p ≡ (valued (expressions.operate line op (carrier x ∷ carrier y ∷ [])) (state_of self.old)).is) }
        ensures state { OnOk result (state_of self.new ≡ (valued (expressions.operate line op (carrier x ∷ carrier y ∷ [])) (state_of self.old)).state) }
    {
        let mut parts = Vec::new(self.alloc);
        parts.push(x)?;
        parts.push(y)?;
        self.operated(line, op, parts)
    }

    /// A slice, of what is sliced, the bounds and the step.
    pub fn sliced(
        &mut self,
        line: u32,
        x: Part,
        lower: Part,
        upper: Part,
        step: Part,
    ) -> Result<Part, AllocError>
        ensures is { IfOk result (λ p. carrier p ≡ (valued (expressions.operate line op_named.Slice (carrier x ∷ carrier lower ∷ carrier upper ∷ carrier step ∷ [])) (state_of self.old)).is) }
        ensures state { OnOk result (state_of self.new ≡ (valued (expressions.operate line op_named.Slice (carrier x ∷ carrier lower ∷ carrier upper ∷ carrier step ∷ [])) (state_of self.old)).state) }
    {
        let mut parts = Vec::new(self.alloc);
        parts.push(x)?;
        parts.push(lower)?;
        parts.push(upper)?;
        parts.push(step)?;
        self.operated(line, Op::Slice, parts)
    }

    /// Whether `not` holds of what is true or false by itself.
    pub fn negated(&mut self, line: u32, x: Part) -> Result<Part, AllocError>
        ensures is { IfOk result (λ p. carrier p ≡ (and_then (valued (expressions.operate line op_named.Truth (carrier x ∷ []))) (λ t. valued (expressions.operate line op_named.Not (t ∷ []))) (state_of self.old)).is) }
        ensures state { OnOk result (state_of self.new ≡ (and_then (valued (expressions.operate line op_named.Truth (carrier x ∷ []))) (λ t. valued (expressions.operate line op_named.Not (t ∷ []))) (state_of self.old)).state) }
    {
        let truth = self.on_one(line, Op::Truth, x)?;
        self.on_one(line, Op::Not, truth)
    }

    pub fn attribute(&mut self, line: u32, x: Part, name: RcStr) -> Result<Part, AllocError>
        ensures is { IfOk result (λ p. carrier p ≡ (valued (expressions.operate line op_named.Attr (carrier x ∷ spec.text name ∷ [])) (state_of self.old)).is) }
        ensures state { OnOk result (state_of self.new ≡ (valued (expressions.operate line op_named.Attr (carrier x ∷ spec.text name ∷ [])) (state_of self.old)).state) }
    {
        let name = constant(self.alloc, Const::Str(name));
        self.on_two(line, Op::Attr, x, name)
    }

    /// A chain. Without a comparison it is what it begins with.
    pub fn compared(&mut self, line: u32, first: Part, links: Vec<Link>) -> Result<Part, AllocError>
        ensures is { IfOk result (λ p. carrier p ≡ (spec.chained line (carrier first) (map linked_of links.items) (state_of self.old)).is) }
        ensures state { OnOk result (state_of self.new ≡ (spec.chained line (carrier first) (map linked_of links.items) (state_of self.old)).state) }
    {
        if links.is_empty() {
            return Ok(first);
        }
        self.chained(line, first, links)
    }

    /// A list or a tuple, with or without a star in it.
    pub fn displayed(
        &mut self,
        line: u32,
        op: Op,
        tuple: bool,
        has_star: bool,
        items: Vec<Item>,
    ) -> Result<Part, AllocError>
        ensures is { IfOk result (λ p. carrier p ≡ (valued (spec.displayed line op tuple has_star (map item_of items.items)) (state_of self.old)).is) }
        ensures state { OnOk result (state_of self.new ≡ (valued (spec.displayed line op tuple has_star (map item_of items.items)) (state_of self.old)).state) }
    {
        if has_star {
            return self.starred(line, tuple, items);
        }
        let parts = item_parts(self.alloc, items)?;
        self.operated(line, op, parts)
    }

    /// A call, with positional arguments alone or not.
    pub fn passed(
        &mut self,
        line: u32,
        function: Part,
        plain: bool,
        args: Vec<Passed>,
    ) -> Result<Part, AllocError>
        ensures is { IfOk result (λ p. carrier p ≡ (valued (spec.passed line (carrier function) plain (map passed_of args.items)) (state_of self.old)).is) }
        ensures state { OnOk result (state_of self.new ≡ (valued (spec.passed line (carrier function) plain (map passed_of args.items)) (state_of self.old)).state) }
    {
        if !plain {
            return self.called(line, function, args);
        }
        let parts = passed_parts(self.alloc, function, args)?;
        self.operated(line, Op::Call, parts)
    }
}
