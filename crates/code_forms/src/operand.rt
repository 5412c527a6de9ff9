//! What statements read.

ghost use Rattle.std.specs.Prelude.{◌≡◌, IfOk};
ghost use Rattle.std.specs.List.{AllByRecursion};
ghost use Rattle.code_forms.specs.Fits.{OperandFits, ArgumentFits};

use crate::constant::{share_constant, share_text};
use nu_text::RcStr;
use op_forms::Const;
use sqlite_items::Items;
use std::alloc::{AllocError, Global};

/// What a statement reads.
#[derive(Drop)]
pub enum Operand {
    /// The temporary of this number: in flat code and in C programs, the register.
    Temp(u64),
    Const(Const),
}

impl Operand {
    /// The same operand for one owner more, whose constant is a value of its type.
    pub fn share(&self) -> Result<Operand, AllocError>
        ensures is { IfOk result (λ copy. copy ≡ self.now) }
        ensures fits { IfOk result (λ copy. OperandFits self.now) }
    {
        match self {
            Operand::Temp(temp) => Ok(Operand::Temp(*temp)),
            Operand::Const(constant) => Ok(Operand::Const(share_constant(constant)?)),
        }
    }
}

/// What an operation takes.
#[derive(Drop)]
pub enum Argument {
    Value(Operand),
    /// A bare name.
    Name(RcStr),
}

impl Argument {
    /// The same argument for one owner more, whose constant or name is a value of its type.
    pub fn share(&self) -> Result<Argument, AllocError>
        ensures is { IfOk result (λ copy. copy ≡ self.now) }
        ensures fits { IfOk result (λ copy. ArgumentFits self.now) }
    {
        match self {
            Argument::Value(operand) => Ok(Argument::Value(operand.share()?)),
            Argument::Name(name) => Ok(Argument::Name(share_text(name)?)),
        }
    }
}

/// The same arguments, as `Argument::share` gives each.
pub fn share_arguments(alloc: Global, arguments: &[Argument]) -> Result<Items<Argument>, AllocError>
    ensures is { IfOk result (λ copy. copy ≡ arguments.now) }
    ensures fits { IfOk result (λ copy. AllByRecursion ArgumentFits arguments.now) }
{
    let mut copy = Items::new(alloc);
    for argument in arguments {
        copy.push(argument.share()?)?;
    }
    Ok(copy)
}
