//! Operands and arguments.

ghost use Rattle.std.specs.Prelude.{◌≡◌, [], ◌∷◌, ◌++◌, OnOk, codes, string_bytes};
ghost use Rattle.std.specs.List.{flat_map};
ghost use Rattle.nu_text.specs.Strings.{string_text};
ghost use Rattle.op_forms.specs.declared.constant.Const.TheVariants as const;
ghost use Rattle.node_text.specs.Text.{constant_text, operand_text, spaced_text, argument_text};

use c_emit::{push_form, push_string};
use node_tree::{Argument, Operand};
use op_forms::Const;
use std::alloc::AllocError;

pub(crate) fn push_constant(text: &mut String, constant: &Const) -> Result<(), AllocError>
    ensures { OnOk result (string_bytes text.new ≡ string_bytes text.old ++ constant_text constant.now) }
{
    match constant {
        Const::None => push_form(text, "none"),
        Const::Bool(true) => push_form(text, "true"),
        Const::Bool(false) => push_form(text, "false"),
        Const::Int(number) => write!(text, "int {number}"),
        Const::Str(bytes) => push_text_constant(text, bytes.as_str().as_bytes()),
    }
}

fn push_text_constant(text: &mut String, bytes: &[u8]) -> Result<(), AllocError>
    ensures { OnOk result (string_bytes text.new ≡ string_bytes text.old ++ constant_text (const.Str bytes.now)) }
{
    text.push_str("str ")?;
    push_string(text, bytes)
}

pub(crate) fn push_operand(text: &mut String, operand: &Operand) -> Result<(), AllocError>
    ensures { OnOk result (string_bytes text.new ≡ string_bytes text.old ++ operand_text operand.now) }
{
    match operand {
        Operand::Temp(number) => write!(text, "t{number}"),
        Operand::Const(constant) => push_constant(text, constant),
    }
}

/// The operands, each behind a space.
pub(crate) fn push_operands(text: &mut String, operands: &[Operand]) -> Result<(), AllocError>
    ensures { OnOk result (string_bytes text.new ≡ string_bytes text.old ++ flat_map spaced_text operands.now) }
{
    for operand in operands {
        text.push_str(" ")?;
        push_operand(text, operand)?;
    }
    Ok(())
}

// An argument, behind a space.
fn push_argument(text: &mut String, argument: &Argument) -> Result<(), AllocError>
    ensures { OnOk result (string_bytes text.new ≡ string_bytes text.old ++ argument_text argument.now) }
{
    text.push_str(" ")?;
    match argument {
        Argument::Value(operand) => push_operand(text, operand),
        Argument::Name(name) => push_string(text, name.as_str().as_bytes()),
    }
}

/// The arguments, each behind a space.
pub(crate) fn push_arguments(text: &mut String, arguments: &[Argument]) -> Result<(), AllocError>
    ensures { OnOk result (string_bytes text.new ≡ string_bytes text.old ++ flat_map argument_text arguments.now) }
{
    for argument in arguments {
        push_argument(text, argument)?;
    }
    Ok(())
}
