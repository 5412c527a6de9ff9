//! Prints the tokens of the script on the standard input, a line each, or why it has none; with the word `count` it prints only how
//! many there are. The scripts under checks/ and bench/ compare and time the lexer with it.
#![tactic(auto)]

use py_ast::{Token, TokenKind};
use py_lexer::{LexEnd, lex};
use std::alloc::{AllocGlobal, Global};
use std::io::{BufWriter, Read, Write};
use std::{env, io};

const LONGEST_SCRIPT: u64 = 262_144;

fn main(rt: HostRuntime) -> io::Result<()> {
    let alloc = rt.alloc();
    let mut text = Vec::new(alloc);
    rt.stdin().take(LONGEST_SCRIPT).read_to_end(&mut text)?;
    let mut out = BufWriter::new(alloc, rt.stdout())?;
    match tokens(alloc, &text) {
        Ok(tokens) if counts(&rt) => writeln!(out, "{}", tokens.len())?,
        Ok(tokens) => {
            for token in &tokens {
                write_token(&mut out, token)?;
            }
        }
        Err(LexEnd::Utf8) => writeln!(out, "Utf8 1")?,
        Err(LexEnd::Token { line }) => writeln!(out, "Token {line}")?,
        Err(LexEnd::Indent { line }) => writeln!(out, "Indent {line}")?,
        Err(LexEnd::Number { line }) => writeln!(out, "Number {line}")?,
        Err(LexEnd::Memory) => writeln!(out, "Memory")?,
    }
    out.flush()
}

// The tokens of a text that isn't too long.
fn tokens(alloc: Global, text: &[u8]) -> Result<Vec<Token>, LexEnd> {
    if text.len() as u64 > LONGEST_SCRIPT {
        return Err(LexEnd::Memory);
    }
    lex(alloc, text)
}

// Whether the first word is `count`.
fn counts(rt: &(impl env::Env + AllocGlobal)) -> bool {
    let Ok(mut args) = env::args(rt) else {
        return false;
    };
    match args.nth(1) {
        Some(word) => word.as_str() == "count",
        None => false,
    }
}

fn write_token<W: Write>(out: &mut W, token: &Token) -> io::Result<()> {
    let line = token.line;
    match &token.kind {
        TokenKind::Name(name) => writeln!(out, "{line} name {:?}", name.as_str().as_bytes()),
        TokenKind::Keyword(word) => writeln!(out, "{line} keyword {:?}", word.spelling()),
        TokenKind::Number(number) => writeln!(out, "{line} number {number}"),
        TokenKind::Text(text) => writeln!(out, "{line} text {:?}", text.as_str().as_bytes()),
        TokenKind::Sign(sign) => writeln!(out, "{line} sign {:?}", sign.spelling()),
        TokenKind::Newline => writeln!(out, "{line} newline"),
        TokenKind::Indent => writeln!(out, "{line} indent"),
        TokenKind::Dedent => writeln!(out, "{line} dedent"),
    }
}
