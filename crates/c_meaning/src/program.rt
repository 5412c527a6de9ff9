//! Programs of the C text.

use code_forms::{Argument, Operand};
use nu_text::RcStr;
use nu_value::Header;
use op_forms::Op;
use sqlite_items::Items;

/// What a statement stores in a register.
#[derive(Drop)]
pub enum Stored {
    /// `A`
    Value(Operand),
    /// `nu_unset`: no value of the script.
    Unset,
    /// `nu_arg(fr, I)`: the parameter of this number.
    Parameter(u64),
    /// `nu_free(fr, I)`: the free cell of this number.
    Free(u64),
    /// `nu_load(fr, I)`: what the slot has.
    Load(u64),
    /// `nu_caught(fr)`: the pending exception, which is pending no longer.
    Caught,
    /// `nu_sent(fr, LINE); if (nu_bad(fr)) goto LK;`: the value sent, or the exception thrown is raised.
    Sent {
        line: u32,
        fail: u64,
    },
    /// `nu_OP(fr, LINE, ARGS); if (nu_bad(fr)) goto LK;`
    Operation {
        op: Op,
        line: u32,
        arguments: Items<Argument>,
        fail: u64,
    },
}

/// A statement of a function.
#[derive(Drop)]
pub enum Statement {
    /// `rD = ..`
    Store { to: u64, what: Stored },
    /// `goto LK;`
    Goto(u64),
    /// `if (nu_is(A)) goto LK;` jumps where A is True and goes on where it is False.
    Branch { test: Operand, label: u64 },
    /// `nu_again(fr, A); goto LK;` makes exception A pending, without an entry, and jumps.
    Again { exception: Operand, label: u64 },
    /// `return nu_give(fr, A);`
    Give(Operand),
    /// `return nu_end(fr);` returns None.
    End,
    /// `return nu_fail(fr);`: the pending exception leaves.
    Fail,
    /// `switch (nu_resume(fr)) { case 0: goto LA; case 1: goto LB; }` jumps by the resume number.
    Switch(Items<u64>),
    /// `nu_save(fr, I, A);`
    Save { slot: u64, value: Operand },
    /// `return nu_pause(fr, N, A);` pauses with resume number N and yields A.
    Pause { number: u64, value: Operand },
}

/// A line of a function's body. Labels are no statements: they have no number.
#[derive(Drop)]
pub enum Line {
    Do(Statement),
    Label(u64),
}

/// A function: its registers are numbered from 0, its statements from 0 without the labels.
#[derive(Drop)]
pub struct Function {
    pub header: Header,
    /// How many values a paused generator keeps.
    pub slots: u64,
    pub registers: u64,
    pub body: Items<Line>,
}

/// A program: the name of the script's file, how many functions are the script's and how many the built-in text's, and
/// all of them, numbered from 0.
#[derive(Drop)]
pub struct CProgram {
    pub name: RcStr,
    pub scripts: u32,
    pub builtins: u32,
    pub functions: Items<Function>,
}
