//! Prints the statements of the script on the standard input, the kind of each with its line, or why it has no tree. The scripts
//! under checks/ and bench/ compare and time the parser with it.
#![tactic(auto)]

use py_ast::{Script, Stmt};
use py_lexer::lex;
use py_parser::{ParseEnd, parse};
use std::alloc::Global;
use std::io;
use std::io::{BufWriter, Read, Write};

const LONGEST_SCRIPT: u64 = 262_144;

/// Why a text has no tree.
enum End {
    Tokens,
    Grammar(u32),
    Depth(u32),
    Memory,
}

fn main(rt: HostRuntime) -> io::Result<()> {
    let alloc = rt.alloc();
    let mut text = Vec::new(alloc);
    rt.stdin().take(LONGEST_SCRIPT).read_to_end(&mut text)?;
    let mut out = BufWriter::new(alloc, rt.stdout())?;
    match script(alloc, &text) {
        Ok(script) => {
            for statement in script.statements.as_slice() {
                let (line, kind) = described(statement);
                writeln!(out, "{line} {kind}")?;
            }
        }
        Err(End::Tokens) => writeln!(out, "no tokens")?,
        Err(End::Grammar(line)) => writeln!(out, "Grammar {line}")?,
        Err(End::Depth(line)) => writeln!(out, "Depth {line}")?,
        Err(End::Memory) => writeln!(out, "Memory")?,
    }
    out.flush()
}

// The tree of a text that isn't too long.
fn script(alloc: Global, text: &[u8]) -> Result<Script, End> {
    if text.len() as u64 > LONGEST_SCRIPT {
        return Err(End::Memory);
    }
    let Ok(tokens) = lex(alloc, text) else {
        return Err(End::Tokens);
    };
    match parse(alloc, &tokens) {
        Ok(script) => Ok(script),
        Err(ParseEnd::Grammar { line }) => Err(End::Grammar(line)),
        Err(ParseEnd::Depth { line }) => Err(End::Depth(line)),
        Err(ParseEnd::Memory) => Err(End::Memory),
    }
}

fn described(statement: &Stmt) -> (u32, &'static str) {
    match statement {
        Stmt::Expr(line, _) => (*line, "expression"),
        Stmt::Assign(line, _, _) => (*line, "assign"),
        Stmt::Augment(line, _, _, _) => (*line, "augment"),
        Stmt::Pass(line) => (*line, "pass"),
        Stmt::Break(line) => (*line, "break"),
        Stmt::Continue(line) => (*line, "continue"),
        Stmt::Return(line, _) => (*line, "return"),
        Stmt::Raise(line, _) => (*line, "raise"),
        Stmt::Del(line, _) => (*line, "del"),
        Stmt::Assert(line, _, _) => (*line, "assert"),
        Stmt::Global(line, _) => (*line, "global"),
        Stmt::Nonlocal(line, _) => (*line, "nonlocal"),
        Stmt::If(line, _, _) => (*line, "if"),
        Stmt::While(line, _, _, _) => (*line, "while"),
        Stmt::For(line, _, _, _, _) => (*line, "for"),
        Stmt::Try(line, _, _, _, _) => (*line, "try"),
        Stmt::With(line, _, _) => (*line, "with"),
        Stmt::Def(line, _, _, _, _) => (*line, "def"),
        Stmt::Class(line, _, _, _, _) => (*line, "class"),
    }
}
