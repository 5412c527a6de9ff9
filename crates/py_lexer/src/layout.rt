//! Pieces laid out in logical lines.

ghost use Rattle.std.specs.Prelude.{◌≡◌, reverse, Ok, IfErr};

use crate::brackets::{Bracket, turn};
use crate::levels::{Start, dedent, enter};
use crate::pieces::Piece;
use crate::refusals::LexEnd;
use py_ast::{Token, TokenKind};
use std::alloc::Global;

/// The tokens so far, with the levels and brackets that are open.
#[derive(Drop)]
pub struct Layout<'a> {
    tokens: Vec<Token>,
    /// The line of the last token.
    last: u32,
    /// Levels of indentation, the outermost first.
    levels: Vec<&'a [char]>,
    brackets: Vec<Bracket>,
    /// No token of the logical line was read yet.
    fresh: bool,
    /// The logical line's start, once its first piece was read.
    start: Option<Start<'a>>,
}

impl<'a> Layout<'a> {
    ghost use Rattle.py_lexer.specs.Pieces as pieces;
    ghost use Rattle.py_lexer.specs.Machine as machine;
    ghost use Rattle.py_lexer.specs.Seen.{state, Leaves, Gives};
    ghost use Rattle.py_lexer.specs.Seen as seen;

    pub fn new(alloc: Global) -> Self
        ensures { state result ≡ machine.initial }
    {
        Layout {
            tokens: Vec::new(alloc),
            last: 1,
            levels: Vec::new(alloc),
            brackets: Vec::new(alloc),
            fresh: true,
            start: None,
        }
    }

    /// A token on the line comes next: the first of a logical line compares its indentation.
    /// Where its indentation is refused, it is still to come.
    pub fn begin(&mut self, line: u32) -> Result<(), LexEnd>
        ensures value { Leaves (state self.new) result (machine.entered line (state self.old)) }
        ensures fresh { IfErr result (λ _. self.new.fresh ≡ self.old.fresh) }
    {
        if !self.fresh {
            return Ok(());
        }
        let start = self.start.unwrap_or(Start { line, blank: &[] });
        enter(&mut self.levels, &mut self.tokens, start, line)?;
        self.fresh = false;
        Ok(())
    }

    fn token(&mut self, line: u32, kind: TokenKind) -> Result<(), LexEnd>
        ensures { Leaves (state self.new) result (machine.with_token (pieces.Token kind) line (state self.old)) }
    {
        self.begin(line)?;
        if let TokenKind::Sign(sign) = kind {
            if !turn(&mut self.brackets, sign)? {
                return Err(LexEnd::Token { line });
            }
        }
        self.tokens.push(Token { line, kind })?;
        self.last = line;
        Ok(())
    }

    /// A line ends, and the logical line with it outside brackets.
    fn end_line(&mut self) -> Result<(), LexEnd>
        ensures { Leaves (state self.new) result (Ok (machine.at_line_end (reverse self.old.brackets.items) (state self.old))) }
    {
        if !self.brackets.is_empty() {
            return Ok(());
        }
        if !self.fresh {
            self.tokens.push(Token {
                line: self.last,
                kind: TokenKind::Newline,
            })?;
            self.fresh = true;
        }
        self.start = None;
        Ok(())
    }

    /// Takes the next piece, which stands on the line.
    pub fn accept(&mut self, line: u32, piece: Piece<'a>) -> Result<(), LexEnd>
        ensures { Leaves (state self.new) result (machine.accept (seen.piece piece.entry) line (state self.old)) }
    {
        match piece {
            Piece::Blank(blank) => {
                self.start = Some(self.start.unwrap_or(Start { line, blank }));
                Ok(())
            }
            Piece::Comment | Piece::Joint => {
                self.start = Some(self.start.unwrap_or(Start { line, blank: &[] }));
                Ok(())
            }
            Piece::LineEnd => self.end_line(),
            Piece::Token(kind) => self.token(line, kind),
        }
    }

    /// The tokens of the whole text, which ends on the line.
    pub fn finish(self, line: u32) -> Result<Vec<Token>, LexEnd>
        ensures { Gives (λ v. v.items) result (machine.finish line (state self.entry)) }
    {
        let Layout {
            mut tokens,
            last,
            levels,
            brackets,
            fresh,
            start: _,
        } = self;
        if !fresh {
            if !brackets.is_empty() {
                return Err(LexEnd::Token { line });
            }
            tokens.push(Token {
                line: last,
                kind: TokenKind::Newline,
            })?;
        }
        dedent(&mut tokens, levels.len(), last)?;
        Ok(tokens)
    }
}
