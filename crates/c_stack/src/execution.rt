//! Where a run stands, and what its plain statements do to it.

ghost use Rattle.std.specs.Prelude.{◌≡◌, ◌+◌, ◌<◌, ◌^◌, Some, IfOk, IsOk, ℕ, Option, slice_get, slice_set, false, true};
ghost use Rattle.std.specs.Option.{option_flatten};
ghost use Rattle.op_rules.specs.TableRules.{table_rules};
ghost use Rattle.nu_value.specs.declared.value.Value.TheVariants as value;
ghost use Rattle.c_meaning.specs.declared.code.Code as code;
ghost use Rattle.c_meaning.specs.Step as meaning;
ghost use Rattle.c_meaning.specs.State as states;
ghost use Rattle.c_stack.specs.Light.{is_light_store, saves_text};
ghost use Rattle.c_stack.specs.Standing.{Outside, state_of, follows};
ghost use Rattle.c_stack.specs.Values.{takes_text, waits};

use crate::kept::Seats;
use crate::stack::Stack;
use crate::values::{held, truth, value_at};
use c_meaning::{Activation, CEnd, Operand, Purpose, Stored, Uncaught};
use nu_value::{Object, Value};
use op_forms::World;
use std::alloc::AllocError;

/// The function that runs and those that wait, what paused generators keep, the world of operations, and an exception that
/// nothing caught, while its text is asked for.
#[derive(Drop)]
pub struct Execution {
    pub running: Activation,
    pub below: Stack,
    pub kept: Seats,
    pub world: World,
    pub uncaught: Option<Uncaught>,
}

impl Execution {
    /// Nothing is said of this statement.
    #[cold]
    #[inline(never)]
    pub fn undefined(&self) -> Option<CEnd>
        ensures { (w : Outside) → states.undefined (state_of self.now w) ≡ follows result self.now w }
    {
        Some(CEnd::Undefined {
            function: self.running.function,
            statement: self.running.place,
        })
    }

    /// A register has a value.
    #[inline]
    pub fn put(&mut self, to: u64, value: Value)
        ensures { self.new ≡ record self.old { running = states.register_set self.old.running to value } }
    {
        let to = to as usize;
        if to < self.running.registers.len() {
            self.running.registers.set(to, Some(value));
        }
    }

    /// A register gets a value, if there is one.
    #[inline]
    pub fn store(&mut self, to: u64, value: Option<Value>) -> Option<CEnd>
        requires { self.old.running.place + 1 < 2 ^ 64 }
        ensures { (w : Outside) → meaning.stores (state_of self.old w) to value ≡ follows result self.new w }
    {
        match value {
            Some(value) => {
                self.put(to, value);
                self.running.place += 1;
                None
            }
            None => self.undefined(),
        }
    }

    /// The run goes on where a label leads.
    #[inline]
    pub fn jump(&mut self, goal: Option<u64>) -> Option<CEnd>
        ensures { (w : Outside) → states.jumps (state_of self.old w) goal ≡ follows result self.new w }
    {
        match goal {
            Some(place) => {
                self.running.place = place;
                None
            }
            None => self.undefined(),
        }
    }

    /// The run goes on where a label leads if an operand holds True, and at the next statement if it holds False.
    #[inline(never)]
    #[tactic(auto, using(crate::proofs::Plain::branches_by))]
    pub fn branch(&mut self, goal: Option<u64>, test: &Operand) -> Option<CEnd>
        requires { self.old.running.place + 1 < 2 ^ 64 }
        ensures { (w : Outside) → meaning.branches (state_of self.old w) goal (meaning.operand_value self.old.running.registers test.now) ≡ follows result self.new w }
    {
        match truth(&self.running.registers, test) {
            Some(true) => self.jump(goal),
            Some(false) => {
                self.running.place += 1;
                None
            }
            None => self.undefined(),
        }
    }

    // The pending exception is taken.
    #[inline(never)]
    fn take(&mut self, to: u64) -> Option<CEnd>
        requires { self.old.running.place + 1 < 2 ^ 64 }
        ensures { (w : Outside) → meaning.takes (state_of self.old w) to self.old.running.pending ≡ follows result self.new w }
    {
        match self.running.pending {
            Some(exception) => {
                self.running.pending = None;
                self.put(to, Value::Obj(exception));
                self.running.place += 1;
                None
            }
            None => self.undefined(),
        }
    }

    /// An exception is pending, without an entry.
    #[inline(never)]
    pub fn again(&mut self, goal: Option<u64>, value: Option<Value>) -> Option<CEnd>
        ensures { (w : Outside) → meaning.again (state_of self.old w) goal value ≡ follows result self.new w }
    {
        let Some(Value::Obj(exception)) = value else {
            return self.undefined();
        };
        match self.world.heap.get(exception) {
            Some(Object::Exception { .. }) => {
                self.running.pending = Some(exception);
                self.jump(goal)
            }
            _ => self.undefined(),
        }
    }

    /// A slot of the generator gets what an operand holds.
    #[inline(never)]
    #[tactic(auto, using(crate::proofs::Plain::saves_nowhere))]
    pub fn save(&mut self, slot: u64, value: &Operand) -> Result<Option<CEnd>, AllocError>
        requires { self.old.running.place + 1 < 2 ^ 64 }
        ensures sure { saves_text self.old.running slot (meaning.operand_value self.old.running.registers value.now) ≡ false → IsOk result }
        ensures saves { IfOk result (λ end. (w : Outside) → meaning.saves (state_of self.old w) slot (meaning.operand_value self.old.running.registers value.now) ≡ follows end self.new w) }
    {
        let slot = slot as usize;
        if self.running.slots.len() <= slot {
            return Ok(self.undefined());
        }
        let Some(value) = held(&self.running.registers, value)? else {
            return Ok(self.undefined());
        };
        self.running.slots.set(slot, Some(value));
        self.running.place += 1;
        Ok(None)
    }

    // What a slot of the generator has, if it has a value.
    fn saved(&self, slot: u64) -> Result<Option<Value>, AllocError>
        ensures same { IfOk result (λ v. v ≡ option_flatten (slice_get self.now.running.slots slot)) }
        ensures sure { takes_text (option_flatten (slice_get self.now.running.slots slot)) ≡ false → IsOk result }
    {
        match self.running.slots.get(slot as usize) {
            Some(Some(value)) => Ok(Some(value.copy()?)),
            _ => Ok(None),
        }
    }

    /// The resume number leads to a case.
    #[inline(never)]
    pub fn switch(&mut self, cases: &[Option<u64>]) -> Option<CEnd>
        ensures { (w : Outside) → meaning.switches (state_of self.old w) cases.now (meaning.number_of self.old.running.purpose) ≡ follows result self.new w }
    {
        let Purpose::Resume { number, .. } = &self.running.purpose else {
            return self.undefined();
        };
        match cases.get(*number as usize) {
            Some(goal) => {
                let goal = *goal;
                self.jump(goal)
            }
            None => self.undefined(),
        }
    }

    /// A store of what is no operation and nothing sent.
    #[inline(never)]
    pub fn stored(&mut self, to: u64, what: &Stored) -> Result<Option<CEnd>, AllocError>
        requires small { self.old.running.place + 1 < 2 ^ 64 }
        requires other { waits what.now ≡ false }
        ensures sure { is_light_store self.old.running what.now ≡ true → IsOk result }
        ensures stores { IfOk result (λ end. (code : code.Code) (goal : Option ℕ) (w : Outside) → meaning.stored_step table_rules code (state_of self.old w) to what.now goal ≡ follows end self.new w) }
    {
        match what {
            Stored::Value(operand) => {
                let value = held(&self.running.registers, operand)?;
                Ok(self.store(to, value))
            }
            Stored::Unset => Ok(self.store(to, Some(Value::Unset))),
            Stored::Caught => Ok(self.take(to)),
            Stored::Parameter(place) => {
                let value = value_at(&self.running.arguments, *place)?;
                Ok(self.store(to, value))
            }
            Stored::Free(place) => {
                let value = value_at(&self.running.cells, *place)?;
                Ok(self.store(to, value))
            }
            Stored::Load(slot) => {
                let value = self.saved(*slot)?;
                Ok(self.store(to, value))
            }
            Stored::Sent { .. } | Stored::Operation { .. } => unreachable!(),
        }
    }
}
