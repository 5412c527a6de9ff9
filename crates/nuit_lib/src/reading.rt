//! From the bytes of a script to its scopes: tokens, tree, static rules.

ghost use Rattle.std.specs.Prelude.{◌≡◌, ◌≤◌, length, MatchResult};
ghost use Rattle.nuit_lib.specs.Reading as spec;
ghost use Rattle.nuit_lib.specs.Scripts.{IsScript};

use crate::refusal::Kind;
use py_ast::Scoped;
use py_lexer::{LexEnd, lex};
use py_parser::{ParseEnd, parse};
use py_scopes::{ScopeEnd, resolve};
use std::alloc::Global;

/// Why there is no script of the profile.
#[derive(Clone, Copy)]
pub(crate) enum ReadEnd {
    Refused { kind: Kind, line: u32 },
    Memory,
}

/// The script, with its scopes.
pub(crate) fn read(alloc: Global, text: &[u8]) -> Result<Scoped, ReadEnd>
    requires { length text.now ≤ 262144 }
    ensures { MatchResult result (IsScript text.now) (spec.Refuses text.now) }
{
    let tokens = match lex(alloc, text) {
        Ok(tokens) => tokens,
        Err(end) => return Err(of_lexer(end)),
    };
    let script = match parse(alloc, &tokens) {
        Ok(script) => script,
        Err(end) => return Err(of_parser(end)),
    };
    match resolve(alloc, script) {
        Ok(scoped) => Ok(scoped),
        Err(end) => Err(of_scopes(end)),
    }
}

fn of_lexer(end: LexEnd) -> ReadEnd
    ensures { result ≡ spec.of_lexer end }
{
    match end {
        LexEnd::Utf8 => ReadEnd::Refused {
            kind: Kind::Utf8,
            line: 1,
        },
        LexEnd::Token { line } => ReadEnd::Refused {
            kind: Kind::Token,
            line,
        },
        LexEnd::Indent { line } => ReadEnd::Refused {
            kind: Kind::Indent,
            line,
        },
        LexEnd::Number { line } => ReadEnd::Refused {
            kind: Kind::Number,
            line,
        },
        LexEnd::Memory => ReadEnd::Memory,
    }
}

fn of_parser(end: ParseEnd) -> ReadEnd
    ensures { result ≡ spec.of_parser end }
{
    match end {
        ParseEnd::Depth { line } => ReadEnd::Refused {
            kind: Kind::Depth,
            line,
        },
        ParseEnd::Grammar { line } => ReadEnd::Refused {
            kind: Kind::Grammar,
            line,
        },
        ParseEnd::Memory => ReadEnd::Memory,
    }
}

fn of_scopes(end: ScopeEnd) -> ReadEnd
    ensures { result ≡ spec.of_scopes end }
{
    let (kind, line) = match end {
        ScopeEnd::Target { line } => (Kind::Target, line),
        ScopeEnd::Loop { line } => (Kind::Loop, line),
        ScopeEnd::Function { line } => (Kind::Function, line),
        ScopeEnd::Declare { line } => (Kind::Declare, line),
        ScopeEnd::Name { line } => (Kind::Name, line),
        ScopeEnd::Raise { line } => (Kind::Raise, line),
        ScopeEnd::Repeat { line } => (Kind::Repeat, line),
        ScopeEnd::Memory => return ReadEnd::Memory,
    };
    ReadEnd::Refused { kind, line }
}
