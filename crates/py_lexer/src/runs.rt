//! Runs of characters at the front of a text, and line ends.

ghost use Rattle.std.specs.Prelude.{◌≡◌, ◌≤◌, ◌∷◌, true, length, take, IfOk, IsTrue, MatchOption};
ghost use Rattle.std.specs.Str.{bytes_eq};
ghost use Rattle.py_lexer.specs.Characters as spec;
ghost use Rattle.py_lexer.specs.PhysicalLines as lines;

use std::alloc::{AllocError, Global};

/// What a run consists of.
#[derive(Clone, Copy)]
pub enum Class {
    Blank,
    Comment,
    Word,
    Numeral,
}

fn belongs(class: Class, c: char) -> bool
    ensures { result ≡ spec.belongs class c }
{
    match class {
        Class::Blank => c == ' ' || c == '\t',
        Class::Comment => !(c == '\n' || c == '\r'),
        Class::Word => unicode_ident::is_xid_continue(c),
        Class::Numeral => c.is_ascii_alphanumeric() || c == '_' || c == '.',
    }
}

/// How many characters at the front are of the class.
pub fn run(class: Class, text: &[char]) -> usize
    ensures value { result ≡ spec.run_length class text.now }
    ensures within { result ≤ length text.now }
{
    text.iter().take_while(|c| belongs(class, **c)).count()
}

/// The characters at the front that are of the class.
pub fn gather(alloc: Global, class: Class, text: &[char]) -> Result<Vec<char>, AllocError>
    ensures value { IfOk result (λ v. v.items ≡ take (spec.run_length class text.now) text.now) }
    ensures within { IfOk result (λ v. length v.items ≤ length text.now) }
{
    text.iter()
        .copied()
        .take_while(|c| belongs(class, *c))
        .collect(alloc)
}

/// The character at the front, if it is of the class, and what comes behind it.
pub fn split_first_of(class: Class, text: &[char]) -> Option<(char, &[char])>
    ensures { MatchOption result (spec.run_length class text.now ≡ 0) (λ r. (text.now ≡ r.0 ∷ r.1.now) × (spec.belongs class r.0 ≡ true)) }
{
    let (c, rest) = text.split_first()?;
    if belongs(class, *c) {
        Some((*c, rest))
    } else {
        None
    }
}

/// Whether the text is spelled so.
pub fn is_spelled(text: &[char], spelling: &[u8]) -> bool
    ensures { result ≡ bytes_eq text.now spelling.now }
{
    if text.len() != spelling.len() {
        return false;
    }
    for (i, c) in text.iter().enumerate() {
        if *c != char::from(spelling[i]) {
            return false;
        }
    }
    true
}

/// Whether the text begins so.
pub fn begins(text: &[char], spelling: &[u8]) -> bool
    ensures value { result ≡ spec.begins text.now spelling.now }
    ensures within { IsTrue result → length spelling.now ≤ length text.now }
{
    spelling.len() <= text.len() && is_spelled(&text[..spelling.len()], spelling)
}

/// The length of the line end at the front, or 0.
#[tactic(auto, unfolding(crate::specs::PhysicalLines::line_end))]
pub fn line_end(text: &[char]) -> usize
    ensures value { result ≡ lines.line_end text.now }
    ensures within { result ≤ length text.now }
{
    match text {
        ['\n', ..] => 1,
        ['\r', '\n', ..] => 2,
        ['\r', ..] => 1,
        _ => 0,
    }
}
