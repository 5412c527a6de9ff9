//! The first lines of statements.

ghost use Rattle.std.specs.Prelude.{◌≡◌, [], ◌∷◌, ◌++◌, OnOk, codes, decimal, string_bytes};
ghost use Rattle.std.specs.List.{flat_map};
ghost use Rattle.nu_text.specs.Pieces.{joined};
ghost use Rattle.op_forms.specs.Names.{op_name};
ghost use Rattle.node_tree.specs.Blocks as tree;
ghost use Rattle.node_text.specs.Text.{head_pieces, operand_text};

use crate::operands::{push_arguments, push_constant, push_operand, push_operands};
use node_tree::{Argument, Operand};
use op_forms::{Const, Op};
use std::alloc::AllocError;

pub(crate) fn push_constant_line(
    text: &mut String,
    to: u64,
    value: &Const,
) -> Result<(), AllocError>
    ensures { OnOk result (string_bytes text.new ≡ string_bytes text.old ++ joined (head_pieces (tree.Constant to value.now))) }
{
    write!(text, "const t{to} ")?;
    push_constant(text, value)?;
    text.push_str("\n")
}

pub(crate) fn push_copy(text: &mut String, to: u64, from: u64) -> Result<(), AllocError>
    ensures { OnOk result (string_bytes text.new ≡ string_bytes text.old ++ joined (head_pieces (tree.Copy to from))) }
{
    write!(text, "copy t{to} t{from}\n")
}

// An operation as far as its name.
fn push_name(text: &mut String, to: u64, line: u32, op: Op) -> Result<(), AllocError>
    ensures { OnOk result (string_bytes text.new ≡ string_bytes text.old ++ joined (codes "do t" ∷ decimal to ∷ codes " " ∷ decimal line ∷ codes " " ∷ op_name op ∷ [])) }
{
    let name = op.name();
    write!(text, "do t{to} {line} {name}")
}

pub(crate) fn push_do(
    text: &mut String,
    to: u64,
    line: u32,
    op: Op,
    args: &[Argument],
) -> Result<(), AllocError>
    ensures { OnOk result (string_bytes text.new ≡ string_bytes text.old ++ joined (head_pieces (tree.Do to line op args.now))) }
{
    push_name(text, to, line, op)?;
    push_arguments(text, args)?;
    text.push_str("\n")
}

// A call as far as its function.
fn push_function(
    text: &mut String,
    to: u64,
    line: u32,
    function: &Operand,
) -> Result<(), AllocError>
    ensures { OnOk result (string_bytes text.new ≡ string_bytes text.old ++ joined (codes "call t" ∷ decimal to ∷ codes " " ∷ decimal line ∷ codes " " ∷ operand_text function.now ∷ [])) }
{
    write!(text, "call t{to} {line} ")?;
    push_operand(text, function)
}

pub(crate) fn push_call(
    text: &mut String,
    to: u64,
    line: u32,
    function: &Operand,
    args: &[Operand],
) -> Result<(), AllocError>
    ensures { OnOk result (string_bytes text.new ≡ string_bytes text.old ++ joined (head_pieces (tree.Call to line function.now args.now))) }
{
    push_function(text, to, line, function)?;
    push_operands(text, args)?;
    text.push_str("\n")
}

pub(crate) fn push_yield(
    text: &mut String,
    to: u64,
    line: u32,
    value: &Operand,
) -> Result<(), AllocError>
    ensures { OnOk result (string_bytes text.new ≡ string_bytes text.old ++ joined (head_pieces (tree.Yield to line value.now))) }
{
    write!(text, "yield t{to} {line} ")?;
    push_operand(text, value)?;
    text.push_str("\n")
}

/// A word and an operand.
pub(crate) fn push_valued(text: &mut String, word: &str, value: &Operand) -> Result<(), AllocError>
    ensures { OnOk result (string_bytes text.new ≡ string_bytes text.old ++ joined (word.now ∷ operand_text value.now ∷ codes "\n" ∷ [])) }
{
    text.push_str(word)?;
    push_operand(text, value)?;
    text.push_str("\n")
}

/// A word and a number.
pub(crate) fn push_numbered(text: &mut String, word: &str, number: u64) -> Result<(), AllocError>
    ensures { OnOk result (string_bytes text.new ≡ string_bytes text.old ++ joined (word.now ∷ decimal number ∷ codes "\n" ∷ [])) }
{
    write!(text, "{word}{number}\n")
}
