//! Arguments of operations.

ghost use Rattle.std.specs.Prelude.{◌≡◌, ◌++◌, ℕ, List, [], IfOk, IfSome, IfNone, false, codes};
ghost use Rattle.nu_text.specs.Decimals.{starts_digit};
ghost use Rattle.op_forms.specs.Signature.{arguments, further};
ghost use Rattle.code_forms.specs.declared.operand.Argument.{Argument};
ghost use Rattle.code_forms.specs.Taking.{takes, all_taken};
ghost use Rattle.c_reader.specs.Statements.{BareArgumentStands, ArgumentStands, ArgumentsStand};

use crate::number::{after, begins_with_digit};
use crate::operand::operand;
use crate::spelling::string;
use c_meaning::Argument;
use nu_text::is_built_in_name;
use op_forms::{ArgumentKind, Op};
use sqlite_items::Items;
use std::alloc::{AllocError, Global};

// The argument at the front of the text behind its comma, and what follows.
fn bare_argument(
    alloc: Global,
    text: &[u8],
    registers: u64,
) -> Result<Option<(Argument, &[u8])>, AllocError>
    ensures some { IfOk result (λ read. IfSome read
        (λ found. BareArgumentStands registers (codes ", " ++ text.now) found.0 found.1.now)) }
    ensures none { IfOk result (λ read. IfNone read ((a : Argument) (rest : List ℕ)
        → BareArgumentStands registers (codes ", " ++ text.now) a rest → ⊥)) }
{
    if let Some((name, rest)) = string(alloc, text)? {
        return Ok(Some((Argument::Name(name), rest)));
    }
    if let Some((value, rest)) = operand(alloc, text, registers)? {
        return Ok(Some((Argument::Value(value), rest)));
    }
    Ok(None)
}

// The same where no digit follows, as none does in a text.
fn argument(
    alloc: Global,
    text: &[u8],
    registers: u64,
) -> Result<Option<(Argument, &[u8])>, AllocError>
    ensures some { IfOk result (λ read. IfSome read
        (λ found. ArgumentStands registers (codes ", " ++ text.now) found.0 found.1.now)) }
    ensures none { IfOk result (λ read. IfNone read ((a : Argument) (rest : List ℕ)
        → ArgumentStands registers (codes ", " ++ text.now) a rest → ⊥)) }
{
    let Some((argument, rest)) = bare_argument(alloc, text, registers)? else {
        return Ok(None);
    };
    if begins_with_digit(rest) {
        return Ok(None);
    }
    Ok(Some((argument, rest)))
}

/// All arguments at the front of the text, each behind its comma, and what follows.
pub(crate) fn arguments(
    alloc: Global,
    text: &[u8],
    registers: u64,
) -> Result<Option<(Items<Argument>, &[u8])>, AllocError>
    requires { starts_digit text.now ≡ false }
    ensures some { IfOk result (λ read. IfSome read
        (λ found. ArgumentsStand registers text.now found.0 found.1.now)) }
    ensures none { IfOk result (λ read. IfNone read ((given : List Argument) (rest : List ℕ)
        → ArgumentsStand registers text.now given rest → ⊥)) }
{
    let mut given = Items::new(alloc);
    let mut rest = text;
    while let Some(behind) = after(rest, b", ") {
        let Some((one, behind)) = argument(alloc, behind, registers)? else {
            return Ok(None);
        };
        given.push(one)?;
        rest = behind;
    }
    Ok(Some((given, rest)))
}

// Whether the argument is of this kind: a name, or a value.
fn takes(kind: ArgumentKind, argument: &Argument) -> bool
    ensures { result ≡ takes kind argument.now }
{
    match (kind, argument) {
        (ArgumentKind::Name, Argument::Name(_)) => true,
        (ArgumentKind::Name, Argument::Value(_)) => false,
        (ArgumentKind::BuiltinName, Argument::Name(name)) => is_built_in_name(name.as_str()),
        (ArgumentKind::BuiltinName, Argument::Value(_)) => false,
        (_, Argument::Value(_)) => true,
        (_, Argument::Name(_)) => false,
    }
}

// Whether the arguments behind the first places are all of this kind; without a kind there are none.
fn further_taken(further: Option<ArgumentKind>, given: &[Argument]) -> bool
    ensures { result ≡ all_taken [] further given.now }
{
    let Some(kind) = further else {
        return given.is_empty();
    };
    for argument in given {
        if !takes(kind, argument) {
            return false;
        }
    }
    true
}

// Whether the arguments at the first places are of these kinds, and those behind them of the kind that follows.
fn all_taken(kinds: &[ArgumentKind], further: Option<ArgumentKind>, given: &[Argument]) -> bool
    ensures { result ≡ all_taken kinds.now further given.now }
{
    let mut left = given;
    for kind in kinds {
        let [argument, behind @ ..] = left else {
            return false;
        };
        if !takes(*kind, argument) {
            return false;
        }
        left = behind;
    }
    further_taken(further, left)
}

/// Whether the operation takes these arguments.
pub(crate) fn takes_all(op: Op, given: &[Argument]) -> bool
    ensures { result ≡ all_taken (arguments op) (further op) given.now }
{
    all_taken(op.arguments(), op.further(), given)
}
