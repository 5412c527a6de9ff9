//! Statements with their blocks, codes and trees.

ghost use Rattle.std.specs.Prelude.{◌≡◌, ◌≤◌, [], ◌∷◌, ◌++◌, IfOk, OnOk, codes, decimal, length, string_bytes};
ghost use Rattle.nu_text.specs.Pieces.{joined};
ghost use Rattle.c_meaning.specs.Text.{numbered};
ghost use Rattle.node_tree.specs.Tree.{form, block};
ghost use Rattle.node_text.specs.Text.{inner, block_text, form_text, kind_text, header_pieces, code_text, builtins, heading_pieces, node_text};

use crate::lines::{
    push_call, push_constant_line, push_copy, push_do, push_numbered, push_valued, push_yield,
};
use c_emit::{push_form, push_params, push_string};
use node_tree::{Node, NodeCode, NodeScript};
use nu_value::Header;
use std::alloc::{AllocError, Global};

// The indentation of blocks within lines of this one.
fn deeper(alloc: Global, indent: &str) -> Result<String, AllocError>
    ensures { IfOk result (λ deeper. string_bytes deeper ≡ inner indent.now) }
{
    let mut deeper = String::new(alloc);
    deeper.push_str(indent)?;
    deeper.push_str("  ")?;
    Ok(deeper)
}

// The line between two blocks of a statement, or behind the last one.
fn push_closing(text: &mut String, indent: &str, word: &str) -> Result<(), AllocError>
    ensures { OnOk result (string_bytes text.new ≡ string_bytes text.old ++ joined (indent.now ∷ word.now ∷ [])) }
{
    text.push_str(indent)?;
    text.push_str(word)
}

// The lines of a block of this indentation.
#[cycle(printing)]
fn push_nodes(
    alloc: Global,
    text: &mut String,
    indent: &str,
    nodes: &[Node],
) -> Result<(), AllocError>
    ensures { OnOk result (string_bytes text.new ≡ string_bytes text.old ++ block_text indent.now (block nodes.now)) }
{
    let within = deeper(alloc, indent)?;
    for node in nodes {
        text.push_str(indent)?;
        push_node(alloc, text, indent, within.as_str(), node)?;
    }
    Ok(())
}

// A statement behind the indentation of its first line.
#[cycle(printing)]
fn push_node(
    alloc: Global,
    text: &mut String,
    indent: &str,
    within: &str,
    node: &Node,
) -> Result<(), AllocError>
    requires { within.now ≡ inner indent.now }
    ensures { OnOk result (string_bytes text.new ≡ string_bytes text.old ++ form_text indent.now (form node.now)) }
{
    match node {
        Node::Constant { to, value } => push_constant_line(text, *to, value),
        Node::Copy { to, from } => push_copy(text, *to, *from),
        Node::Do { to, line, op, args } => push_do(text, *to, *line, *op, args.as_slice()),
        Node::Call {
            to,
            line,
            function,
            args,
        } => push_call(text, *to, *line, function, args.as_slice()),
        Node::Yield { to, line, value } => push_yield(text, *to, *line, value),
        Node::If { test, yes, no } => {
            push_valued(text, "if ", test)?;
            push_nodes(alloc, text, within, yes.as_slice())?;
            push_closing(text, indent, "else\n")?;
            push_nodes(alloc, text, within, no.as_slice())?;
            push_closing(text, indent, "end\n")
        }
        Node::Loop { body } => {
            push_form(text, "loop\n")?;
            push_nodes(alloc, text, within, body.as_slice())?;
            push_closing(text, indent, "end\n")
        }
        Node::Leave { levels } => push_numbered(text, "leave ", *levels),
        Node::Catch { to, body, handler } => {
            push_numbered(text, "catch t", *to)?;
            push_nodes(alloc, text, within, body.as_slice())?;
            push_closing(text, indent, "handler\n")?;
            push_nodes(alloc, text, within, handler.as_slice())?;
            push_closing(text, indent, "end\n")
        }
        Node::Return { value } => push_valued(text, "return ", value),
        Node::Raise { value } => push_valued(text, "raise ", value),
        Node::Unset { to } => push_numbered(text, "unset t", *to),
    }
}

fn kind_of(generator: bool) -> &'static str
    ensures { result.now ≡ kind_text generator }
{
    if generator { "generator" } else { "plain" }
}

// The kind, the number of free cells and the line, to the end of the line.
fn push_layout(text: &mut String, generator: bool, free: u64, line: u32) -> Result<(), AllocError>
    ensures { OnOk result (string_bytes text.new ≡ string_bytes text.old ++ joined (codes " " ∷ kind_text generator ∷ codes " " ∷ decimal free ∷ codes " " ∷ decimal line ∷ codes "\n" ∷ [])) }
{
    let kind = kind_of(generator);
    write!(text, " {kind} {free} {line}\n")
}

// The first line of the code of this number.
fn push_header(
    alloc: Global,
    text: &mut String,
    number: usize,
    header: &Header,
    free: u64,
) -> Result<(), AllocError>
    ensures { OnOk result (string_bytes text.new ≡ string_bytes text.old ++ joined (header_pieces number header.now free)) }
{
    write!(text, "code {number} ")?;
    push_string(text, header.scope.as_str().as_bytes())?;
    text.push_str(" ")?;
    push_params(alloc, text, &header.params)?;
    push_layout(text, header.generator, free, header.line)
}

// The code of this number.
fn push_code(
    alloc: Global,
    text: &mut String,
    number: usize,
    code: &NodeCode,
) -> Result<(), AllocError>
    ensures { OnOk result (string_bytes text.new ≡ string_bytes text.old ++ code_text number code.now) }
{
    push_header(alloc, text, number, &code.header, code.free)?;
    push_nodes(alloc, text, "  ", code.body.as_slice())
}

#[tactic(auto, using(crate::proofs::Printed::sequences))]
fn push_codes(alloc: Global, text: &mut String, codes: &[NodeCode]) -> Result<(), AllocError>
    ensures { OnOk result (string_bytes text.new ≡ string_bytes text.old ++ numbered code_text 0 codes.now) }
{
    for (number, code) in codes.iter().enumerate() {
        push_code(alloc, text, number, code)?;
    }
    Ok(())
}

// How many codes belong to the built-in text.
fn builtins_of(script: &NodeScript) -> u64
    requires { script.now.scripts ≤ length script.now.codes }
    ensures { result ≡ builtins script.now }
{
    script.codes.len() as u64 - u64::from(script.scripts)
}

// The numbers of codes, behind the script's name.
fn push_counts(text: &mut String, scripts: u32, builtins: u64) -> Result<(), AllocError>
    ensures { OnOk result (string_bytes text.new ≡ string_bytes text.old ++ joined (codes " " ∷ decimal scripts ∷ codes " " ∷ decimal builtins ∷ codes "\n" ∷ [])) }
{
    write!(text, " {scripts} {builtins}\n")
}

// The first lines.
fn push_heading(text: &mut String, script: &NodeScript) -> Result<(), AllocError>
    requires { script.now.scripts ≤ length script.now.codes }
    ensures { OnOk result (string_bytes text.new ≡ string_bytes text.old ++ joined (heading_pieces script.now)) }
{
    push_form(text, "nodes 1\nscript ")?;
    push_string(text, script.name.as_str().as_bytes())?;
    push_counts(text, script.scripts, builtins_of(script))
}

/// The text of a node tree, in UTF-8: lines, each ended by LF, in the one spelling of each form.
pub fn print(alloc: Global, script: &NodeScript) -> Result<String, AllocError>
    requires { script.now.scripts ≤ length script.now.codes }
    ensures { IfOk result (λ text. string_bytes text ≡ node_text script.now) }
{
    let mut text = String::new(alloc);
    push_heading(&mut text, script)?;
    push_codes(alloc, &mut text, script.codes.as_slice())?;
    Ok(text)
}
