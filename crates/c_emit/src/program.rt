//! Programs and their functions.

ghost use Rattle.std.specs.Prelude.{◌≡◌, [], ◌∷◌, ◌++◌, IfOk, OnOk, codes, decimal, string_bytes};
ghost use Rattle.std.specs.List.{flat_map};
ghost use Rattle.nu_text.specs.Pieces.{joined};
ghost use Rattle.nu_text.specs.Strings.{string_text};
ghost use Rattle.c_meaning.specs.Written.{IsProgram, IsText};
ghost use Rattle.c_meaning.specs.Text.{numbered, line_text, declaration_text, kind_text, code_pieces, header_pieces, function_text, heading_pieces, program_text};

use crate::params::push_params;
use crate::pieces::{push_form, push_string};
use crate::statements::push_line;
use c_meaning::{CProgram, Function};
use nu_value::Header;
use std::alloc::{AllocError, Global};

/// The text of a program, in UTF-8: lines, each ended by LF, in the one spelling of each form.
pub fn emit(alloc: Global, program: &CProgram) -> Result<Vec<u8>, AllocError>
    requires { IsProgram program.now }
    ensures { IfOk result (λ bytes. IsText bytes.items program.now) }
{
    let text = written(alloc, program)?;
    Ok(text.into_bytes())
}

fn written(alloc: Global, program: &CProgram) -> Result<String, AllocError>
    ensures { IfOk result (λ text. string_bytes text ≡ program_text program.now) }
{
    let mut text = String::new(alloc);
    push_heading(&mut text, program)?;
    push_functions(alloc, &mut text, program.functions.as_slice())?;
    Ok(text)
}

// The first lines.
fn push_heading(text: &mut String, program: &CProgram) -> Result<(), AllocError>
    ensures { OnOk result (string_bytes text.new ≡ string_bytes text.old ++ joined (heading_pieces program.now)) }
{
    push_form(text, "/* nuit C 1 */\n#include \"nuit1.h\"\nNU_SCRIPT(")?;
    push_string(text, program.name.as_str().as_bytes())?;
    push_counts(text, program.scripts, program.builtins)
}

// The numbers of functions, behind the script's name.
fn push_counts(text: &mut String, scripts: u32, builtins: u32) -> Result<(), AllocError>
    ensures { OnOk result (string_bytes text.new ≡ string_bytes text.old ++ joined (codes ", " ∷ decimal scripts ∷ codes ", " ∷ decimal builtins ∷ codes ")\n" ∷ [])) }
{
    write!(text, ", {scripts}, {builtins})\n")
}

#[tactic(auto, using(crate::proofs::Pushes::sequences))]
fn push_functions(
    alloc: Global,
    text: &mut String,
    functions: &[Function],
) -> Result<(), AllocError>
    ensures { OnOk result (string_bytes text.new ≡ string_bytes text.old ++ numbered function_text 0 functions.now) }
{
    for (number, function) in functions.iter().enumerate() {
        push_function(alloc, text, number, function)?;
    }
    Ok(())
}

// The function of this number.
fn push_function(
    alloc: Global,
    text: &mut String,
    number: usize,
    function: &Function,
) -> Result<(), AllocError>
    ensures { OnOk result (string_bytes text.new ≡ string_bytes text.old ++ function_text number function.now) }
{
    push_header(alloc, text, number, &function.header, function.slots)?;
    push_declaration(text, function.registers)?;
    for line in function.body.as_slice() {
        push_line(text, line)?;
    }
    text.push_str("}\n")
}

// All that stands before the declaration.
fn push_header(
    alloc: Global,
    text: &mut String,
    number: usize,
    header: &Header,
    slots: u64,
) -> Result<(), AllocError>
    ensures { OnOk result (string_bytes text.new ≡ string_bytes text.old ++ joined (header_pieces number header.now slots)) }
{
    push_code(alloc, text, number, header, slots)?;
    push_opening(text, number)
}

// The first line of a function.
fn push_code(
    alloc: Global,
    text: &mut String,
    number: usize,
    header: &Header,
    slots: u64,
) -> Result<(), AllocError>
    ensures { OnOk result (string_bytes text.new ≡ string_bytes text.old ++ joined (code_pieces number header.now slots)) }
{
    write!(text, "NU_CODE({number}, ")?;
    push_string(text, header.scope.as_str().as_bytes())?;
    text.push_str(", ")?;
    push_params(alloc, text, &header.params)?;
    push_layout(text, header.generator, slots, header.line)
}

// The function's kind, slots and line.
fn push_layout(text: &mut String, generator: bool, slots: u64, line: u32) -> Result<(), AllocError>
    ensures { OnOk result (string_bytes text.new ≡ string_bytes text.old ++ joined (codes ", " ∷ kind_text generator ∷ codes ", " ∷ decimal slots ∷ codes ", " ∷ decimal line ∷ codes ")\n" ∷ [])) }
{
    let kind = kind_of(generator);
    write!(text, ", {kind}, {slots}, {line})\n")
}

// The lines that open a function.
fn push_opening(text: &mut String, number: usize) -> Result<(), AllocError>
    ensures { OnOk result (string_bytes text.new ≡ string_bytes text.old ++ joined (codes "nu nu_code_" ∷ decimal number ∷ codes "(nu_frame *fr)\n{\n" ∷ [])) }
{
    write!(text, "nu nu_code_{number}(nu_frame *fr)\n{{\n")
}

// 1 for a generator.
fn kind_of(generator: bool) -> &'static str
    ensures { result.now ≡ kind_text generator }
{
    if generator { "1" } else { "0" }
}

// The declaration of all registers, if there is one.
#[tactic(auto, using(crate::proofs::Pushes::declaration))]
fn push_declaration(text: &mut String, registers: u64) -> Result<(), AllocError>
    ensures { OnOk result (string_bytes text.new ≡ string_bytes text.old ++ declaration_text registers) }
{
    if registers == 0 {
        return Ok(());
    }
    text.push_str("  nu r0")?;
    for register in 1..registers {
        write!(text, ", r{register}")?;
    }
    text.push_str(";\n")
}
