//! The input, by lines.

ghost use Rattle.std.specs.Prelude.{◌≡◌, ◌++◌, ◌<◌, ◌⊎◌, [], IfErr, IfOk, List, MatchOption, OnOk, ℕ, length, false, true};
ghost use Rattle.nu_calls.specs.Lines as lines;
ghost use Rattle.c_input.specs.declared.input.Short.TheVariants as short;
ghost use Rattle.c_input.specs.Lines.{CountsIn, Fills, IsNext, is_good, is_whole};

use nu_base::Source;
use nu_run::Text;
use nu_text::RcStr;
use std::alloc::{AllocError, Global};

/// How long a line is that is too long.
const LIMIT: usize = 1_048_576;

/// Why no line could be read.
#[derive(Clone, Copy)]
pub enum Short {
    Memory,
    /// The input failed, and counted it.
    Failed,
}

/// Bytes that were taken of the input and belong to no line yet, and whether the input has ended.
#[derive(Drop)]
pub struct Buffer {
    pub left: Text,
    pub ended: bool,
}

/// The next line of the input.
#[derive(Drop)]
pub enum Line {
    /// There is none.
    None,
    Text(RcStr),
    /// It is too long, or isn't UTF-8.
    Bad,
}

// How many bytes stand before the first LF.
#[tactic(auto, using(crate::proofs::Lined::before_most, crate::proofs::Lined::before_front, crate::proofs::Lined::before_on, crate::proofs::Lined::before_here))]
fn line_length(bytes: &[u8]) -> usize
    ensures count { result ≡ length (lines.before_lf bytes.now) }
{
    for place in 0..bytes.len() {
        if bytes[place] == b'\n' {
            return place;
        }
    }
    bytes.len()
}

// The bytes before the first LF.
#[tactic(auto, using(crate::proofs::Lined::before_most, crate::proofs::Lined::before_front))]
fn first_line(bytes: &[u8]) -> &[u8]
    ensures { result.now ≡ lines.before_lf bytes.now }
{
    let count = line_length(bytes);
    &bytes[..count]
}

// The text of a line, if it is one.
fn text_of(line: &[u8]) -> Option<&str>
    ensures { MatchOption result (is_good line.now ≡ false) (λ text. (text.now ≡ line.now) × (is_good line.now ≡ true)) }
{
    if LIMIT <= line.len() {
        return None;
    }
    match str::from_utf8(line) {
        Ok(text) => Some(text),
        Err(_) => None,
    }
}

// Without one CR at the end.
#[tactic(auto, using(crate::proofs::Lined::without_last, crate::proofs::Lined::with_last))]
fn without_cr(line: &str) -> &str
    ensures { result.now ≡ lines.without_cr line.now }
{
    match line.as_bytes() {
        [.., b'\r'] => &line[..line.len() - 1],
        _ => line,
    }
}

impl Buffer {
    pub fn new(alloc: Global) -> Buffer
        ensures { result ≡ record { left = []; ended = false } }
    {
        Buffer {
            left: Text::new(alloc),
            ended: false,
        }
    }

    // Whether the next line stands in it whole, or is too long.
    fn has_line(&self) -> bool
        ensures { result ≡ is_whole self.now.left }
    {
        let bytes = self.left.as_slice();
        LIMIT <= bytes.len() || line_length(bytes) < bytes.len()
    }

    // Takes at most 4,096 bytes more, and remembers the end.
    fn fetch<I: Source>(&mut self, alloc: Global, input: &mut I) -> Result<(), Short>
        requires going { self.old.ended ≡ false }
        requires part { is_whole self.old.left ≡ false }
        ensures fills { Fills input.old input.new (I.left input.old) (I.left input.new) self.old self.new result }
        ensures more { OnOk result ((self.new.ended ≡ true) ⊎ (length self.old.left < length self.new.left)) }
        ensures count { CountsIn (I.faults input.old) (I.faults input.new) result }
    {
        let mut chunk = [0u8; 4096];
        let Ok(count) = input.take(&mut chunk) else {
            return Err(Short::Failed);
        };
        if count == 0 {
            self.ended = true;
            return Ok(());
        }
        self.add(alloc, &chunk[..count])
    }

    fn add(&mut self, alloc: Global, bytes: &[u8]) -> Result<(), Short>
        ensures ok { OnOk result (self.new.left ≡ self.old.left ++ bytes.now) }
        ensures ended { self.new.ended ≡ self.old.ended }
        ensures short { IfErr result (λ e. e ≡ short.Memory) }
    {
        let Ok(more) = Text::from_slice(alloc, bytes) else {
            return Err(Short::Memory);
        };
        match self.left.append(more) {
            Ok(()) => Ok(()),
            Err(_) => Err(Short::Memory),
        }
    }

    /// Takes of the input until the next line stands in it whole, or the input ends; nothing where one of both is so already.
    pub fn fill<I: Source>(&mut self, alloc: Global, input: &mut I) -> Result<(), Short>
        ensures fills { Fills input.old input.new (I.left input.old) (I.left input.new) self.old self.new result }
        ensures whole { OnOk result ((self.new.ended ≡ true) ⊎ (is_whole self.new.left ≡ true)) }
        ensures count { CountsIn (I.faults input.old) (I.faults input.new) result }
    {
        while !self.ended && !self.has_line() {
            self.fetch(alloc, input)?;
        }
        Ok(())
    }

    /// The next line, which is no longer left.
    #[tactic(auto, using(crate::proofs::Lined::line_none, crate::proofs::Lined::line_bad, crate::proofs::Lined::line_last, crate::proofs::Lined::line_first, crate::proofs::Lined::before_most))]
    pub fn next_line(&mut self, alloc: Global) -> Result<Line, AllocError>
        ensures line { IfOk result (λ line. (rest : List ℕ) → (is_whole self.old.left ≡ false → rest ≡ []) → IsNext line (self.old.left ++ rest) (self.new.left ++ rest)) }
        ensures ended { self.new.ended ≡ self.old.ended }
    {
        let bytes = self.left.as_slice();
        if bytes.is_empty() {
            return Ok(Line::None);
        }
        let first = first_line(bytes);
        let Some(line) = text_of(first) else {
            return Ok(Line::Bad);
        };
        let count = first.len();
        if count == bytes.len() {
            let line = RcStr::from_str(alloc, line)?;
            self.left = Text::new(alloc);
            return Ok(Line::Text(line));
        }
        let line = RcStr::from_str(alloc, without_cr(line))?;
        let left = Text::from_slice(alloc, &bytes[count + 1..])?;
        self.left = left;
        Ok(Line::Text(line))
    }
}
