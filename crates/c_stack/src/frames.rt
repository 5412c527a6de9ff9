//! Functions begin, wait and go on.

ghost use Rattle.std.specs.Prelude.{◌≡◌, ◌+◌, ◌<◌, ◌^◌, ◌∷◌, [], IfOk, MatchOption, OnSome, length, nat_le, option_copied, slice_get};
ghost use Rattle.std.specs.Option.{option_map};
ghost use Rattle.op_rules.specs.Start as starts;
ghost use Rattle.op_rules.specs.TableRules.{table_rules};
ghost use Rattle.nu_calls.specs.Ends as ends;
ghost use Rattle.c_meaning.specs.State as states;
ghost use Rattle.c_meaning.specs.Step as meaning;
ghost use Rattle.c_stack.specs.Frames.{GoesBack, first_execution, site};
ghost use Rattle.c_stack.specs.Standing.{Outside, state_of, follows};

use crate::execution::Execution;
use crate::kept::Seats;
use crate::stack::Stack;
use c_meaning::{Activation, Body, CEnd, Code, Placed, Purpose, Statement, Stored};
use nu_value::{Codes, Items, Slots};
use op_forms::World;
use op_rules::first_heap;
use std::alloc::{AllocError, Global};
use std::mem;

// The names of the script's module.
const SCRIPT_NAMES: u64 = 61;

// The built-in names.
const BUILT_IN_NAMES: u64 = 37;

/// Where a statement's value goes, its line, and where an exception that it raises leads.
#[derive(Clone, Copy)]
pub struct Site {
    pub to: u64,
    pub line: u32,
    pub goal: Option<u64>,
}

impl Execution {
    /// Before any function has begun.
    pub fn new(alloc: Global, codes: Codes) -> Result<Execution, AllocError>
        ensures { IfOk result (λ x. x ≡ first_execution codes) }
    {
        let world = World {
            heap: first_heap(alloc)?,
            module: SCRIPT_NAMES,
            builtins: BUILT_IN_NAMES,
            codes,
        };
        let below = Stack::new(alloc)?;
        let running = Activation {
            function: 0,
            place: 0,
            registers: Slots::new(alloc),
            slots: Slots::new(alloc),
            arguments: Items::new(alloc),
            cells: Items::new(alloc),
            pending: None,
            purpose: Purpose::Module,
        };
        Ok(Execution {
            running,
            below,
            kept: Seats::new(alloc),
            world,
            uncaught: None,
        })
    }

    /// The next statement, if there is one.
    #[inline]
    pub fn statement<'a>(&self, code: &'a Code) -> Option<&'a Placed>
        ensures value { option_copied result ≡ meaning.placed_at code.now self.now.running }
        ensures small { OnSome result (self.now.running.place + 1 < 2 ^ 64) }
    {
        match code.bodies.get(self.running.function as usize) {
            Some(body) => statement_at(body.statements.as_slice(), self.running.place),
            None => None,
        }
    }

    /// The names that are looked up are those of a function's module.
    #[inline]
    pub fn look_up_for(&mut self, code: &Code, function: u32)
        ensures { self.new ≡ record self.old { world = ends.world_of table_rules code.now.scripts self.old.world function } }
    {
        self.world.module = if function < code.scripts {
            SCRIPT_NAMES
        } else {
            self.world.builtins
        };
    }

    /// Whether 1,000 frames are live.
    pub fn is_full(&self) -> bool
        ensures { nat_le 1000 (length self.now.below + 1) ≡ result }
    {
        1000 <= self.below.len() + 1
    }

    /// A function that begins, with these slots.
    pub fn fresh(
        &mut self,
        alloc: Global,
        body: &Body,
        number: u32,
        given: Items,
        cells: Items,
        slots: Slots,
        purpose: Purpose,
    ) -> Result<Activation, AllocError>
        ensures value { IfOk result (λ a. a ≡ states.fresh number body.now given cells slots purpose) }
        ensures same { self.new ≡ self.old }
    {
        let registers = self.below.registers(alloc, body.registers)?;
        Ok(Activation {
            function: number,
            place: 0,
            registers,
            slots,
            arguments: given,
            cells,
            pending: None,
            purpose,
        })
    }

    /// A function runs, with none below it.
    pub fn run_alone(&mut self, code: &Code, activation: Activation)
        ensures { self.new ≡ record self.old { running = activation; below = []; world = ends.world_of table_rules code.now.scripts self.old.world activation.function } }
    {
        let function = activation.function;
        self.below.clear();
        self.running = activation;
        self.look_up_for(code, function);
    }

    /// A function begins, and the running one waits for it.
    #[inline(never)]
    pub fn begin_body(
        &mut self,
        alloc: Global,
        code: &Code,
        number: u32,
        given: Items,
        cells: Items,
        slots: Slots,
        purpose: Purpose,
    ) -> Result<Option<CEnd>, AllocError>
        ensures { IfOk result (λ end. (w : Outside) → meaning.begins_body table_rules code.now (state_of self.old w) number given cells slots purpose (self.old.running ∷ self.old.below) (slice_get code.now.bodies number) ≡ follows end self.new w) }
    {
        let Some(body) = code.bodies.get(number as usize) else {
            return Ok(self.undefined());
        };
        let activation = self.fresh(alloc, body, number, given, cells, slots, purpose)?;
        let waiting = mem::replace(&mut self.running, activation);
        self.below.push(waiting)?;
        self.look_up_for(code, number);
        Ok(None)
    }

    /// Where the running function waits.
    pub fn site(&self, code: &Code) -> Option<Site>
        ensures site { option_map (λ s. site s) result ≡ meaning.site_in (meaning.placed_at code.now self.now.running) }
        ensures small { OnSome result (self.now.running.place + 1 < 2 ^ 64) }
    {
        let placed = self.statement(code)?;
        let Statement::Store { to, what } = &placed.statement else {
            return None;
        };
        match what {
            Stored::Operation { line, .. } | Stored::Sent { line, .. } => Some(Site {
                to: *to,
                line: *line,
                goal: placed.goal,
            }),
            _ => None,
        }
    }

    /// The function that waits runs again, if there is one; the one that ran is answered.
    pub fn go_back(&mut self, code: &Code) -> Option<Activation>
        ensures { MatchOption result ((self.old.below ≡ []) × (self.new ≡ self.old)) (λ ended. (ended ≡ self.old.running) × GoesBack code.now self.old self.new) }
    {
        let waiting = self.below.pop()?;
        let function = waiting.function;
        let ended = mem::replace(&mut self.running, waiting);
        self.look_up_for(code, function);
        Some(ended)
    }
}

// The statement at a place, if there is one.
#[inline]
fn statement_at(statements: &[Placed], place: u64) -> Option<&Placed>
    ensures value { option_copied result ≡ slice_get statements.now place }
    ensures small { OnSome result (place + 1 < 2 ^ 64) }
{
    if place < statements.len() as u64 {
        statements.get(place as usize)
    } else {
        None
    }
}
