//! A cursor over tokens, which contracts see as the tokens that are left.

ghost use Rattle.std.specs.Prelude.{◌≡◌, [], length};
ghost use Rattle.py_grammar.specs.Levels as level;
ghost use Rattle.py_grammar.specs.Parse as spec;
ghost use Rattle.py_grammar.specs.Parse.{Reads};

use nu_text::RcStr;
use py_ast::{Sign, Token, TokenKind, Word};
use py_grammar::{Mark, ParseEnd};
use std::alloc::Global;
use std::marker::Model;

/// The tokens that are left.
#[derive(Drop)]
pub struct Cursor<'a> {
    rest: &'a [Token],
    /// The line of the token that was taken last, on which the list ends.
    last: u32,
}

impl<'a> Model for Cursor<'a> {
    ghost use Rattle.std.specs.Prelude.{List};
    ghost use Rattle.py_ast.specs.declared.token.Token.{Token};

    ghost Value = { List Token };

    ghost view = { λ c. c.rest.now };
}

fn mark_of(kind: &TokenKind) -> Mark
    ensures { result ≡ level.mark_of kind.now }
{
    match kind {
        TokenKind::Name(_) => Mark::Name,
        TokenKind::Keyword(word) => Mark::Keyword(*word),
        TokenKind::Number(_) => Mark::Number,
        TokenKind::Text(_) => Mark::Text,
        TokenKind::Sign(sign) => Mark::Sign(*sign),
        TokenKind::Newline => Mark::Newline,
        TokenKind::Indent => Mark::Indent,
        TokenKind::Dedent => Mark::Dedent,
    }
}

impl<'a> Cursor<'a> {
    pub fn new(rest: &'a [Token]) -> Cursor<'a>
        ensures { result ≡ rest.now }
    {
        Cursor { rest, last: 1 }
    }

    /// The tokens that are left.
    pub fn rest(&self) -> &'a [Token]
        ensures { result.now ≡ self.now }
    {
        self.rest
    }

    /// How many tokens are left.
    pub fn len(&self) -> usize
        ensures { result ≡ length self.now }
    {
        self.rest.len()
    }

    /// What the next token is.
    pub fn mark(&self) -> Mark
        ensures { result ≡ level.mark self.now }
    {
        match self.rest {
            [] => Mark::End,
            [first, ..] => mark_of(&first.kind),
        }
    }

    /// The line of the next token, or 0 where none is left.
    pub fn line(&self) -> u32
        ensures { result ≡ level.line self.now }
    {
        match self.rest {
            [] => 0,
            [first, ..] => first.line,
        }
    }

    /// Goes past the next token, and answers its line.
    pub fn take(&mut self) -> u32
        ensures line { result ≡ level.line self.old }
        ensures next { self.new ≡ level.next self.old }
    {
        match self.rest {
            [] => 0,
            [first, rest @ ..] => {
                self.rest = rest;
                self.last = first.line;
                first.line
            }
        }
    }

    /// Whether the next token is this sign.
    #[tactic(auto, unfolding(py_grammar::specs::Parse::sees))]
    pub fn sees(&self, sign: Sign) -> bool
        ensures { result ≡ spec.sees sign self.now }
    {
        match self.mark() {
            Mark::Sign(other) => other == sign,
            _ => false,
        }
    }

    /// Whether the next token is this word.
    #[tactic(auto, unfolding(py_grammar::specs::Parse::sees_word))]
    pub fn sees_word(&self, word: Word) -> bool
        ensures { result ≡ spec.sees_word word self.now }
    {
        match self.mark() {
            Mark::Keyword(other) => other == word,
            _ => false,
        }
    }

    /// Whether a name and `=` come next.
    #[tactic(auto, unfolding(py_grammar::specs::Parse::sees_keyword, py_grammar::specs::Parse::sees))]
    pub fn sees_keyword(&self) -> bool
        ensures { result ≡ spec.sees_keyword self.now }
    {
        match self.rest {
            [
                Token {
                    kind: TokenKind::Name(_),
                    ..
                },
                Token {
                    kind: TokenKind::Sign(sign),
                    ..
                },
                ..
            ] => *sign == Sign::Equal,
            _ => false,
        }
    }

    /// Goes past a token of this sign, if it comes next.
    #[tactic(auto, unfolding(py_grammar::specs::Parse::after))]
    pub fn eat(&mut self, sign: Sign) -> bool
        ensures found { result ≡ spec.sees sign self.old }
        ensures after { self.new ≡ spec.after sign self.old }
    {
        let found = self.sees(sign);
        if found {
            self.take();
        }
        found
    }

    /// No production goes on at the next token.
    pub fn refuse(&self) -> ParseEnd
        ensures { spec.Refuses {A = Unit {0}} None result }
    {
        match self.rest {
            [] => ParseEnd::Grammar { line: self.last },
            [first, ..] => ParseEnd::Grammar { line: first.line },
        }
    }

    /// Goes past a token of this sign.
    #[tactic(auto, unfolding(py_grammar::specs::Parse::expect))]
    pub fn expect(&mut self, sign: Sign) -> Result<(), ParseEnd>
        ensures { Reads (spec.expect sign self.old) result self.new }
    {
        if !self.sees(sign) {
            return Err(self.refuse());
        }
        self.take();
        Ok(())
    }

    /// Goes past this word.
    #[tactic(auto, unfolding(py_grammar::specs::Parse::expect_word))]
    pub fn expect_word(&mut self, word: Word) -> Result<(), ParseEnd>
        ensures { Reads (spec.expect_word word self.old) result self.new }
    {
        if !self.sees_word(word) {
            return Err(self.refuse());
        }
        self.take();
        Ok(())
    }

    /// Goes past a name.
    #[tactic(auto, unfolding(py_grammar::specs::Parse::name))]
    pub fn name(&mut self) -> Result<RcStr, ParseEnd>
        ensures { Reads (spec.name self.old) result self.new }
    {
        match self.rest {
            [
                Token {
                    kind: TokenKind::Name(text),
                    line,
                },
                rest @ ..,
            ] => {
                let name = text.share()?;
                self.rest = rest;
                self.last = *line;
                Ok(name)
            }
            _ => Err(self.refuse()),
        }
    }

    /// Goes past a number.
    #[tactic(auto, unfolding(py_grammar::specs::Parse::number))]
    pub fn number(&mut self) -> Result<i128, ParseEnd>
        ensures { Reads (spec.number self.old) result self.new }
    {
        match self.rest {
            [
                Token {
                    kind: TokenKind::Number(value),
                    line,
                },
                rest @ ..,
            ] => {
                self.rest = rest;
                self.last = *line;
                Ok(*value)
            }
            _ => Err(self.refuse()),
        }
    }

    /// Goes past adjacent string literals, and answers them as one text.
    #[tactic(auto, unfolding(py_grammar::specs::Parse::texts_from))]
    pub fn texts(&mut self, alloc: Global) -> Result<RcStr, ParseEnd>
        ensures { Reads (spec.texts_from [] self.old) result self.new }
    {
        let mut joined = String::new(alloc);
        while self.rest.len() > 0 {
            match &self.rest[0].kind {
                TokenKind::Text(text) => joined.push_str(text.as_str())?,
                _ => break,
            }
            self.take();
        }
        Ok(RcStr::from_str(alloc, &joined)?)
    }
}
