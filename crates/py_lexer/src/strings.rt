//! String literals (reference, section 2.4.1).

ghost use Rattle.std.specs.Prelude.{◌≡◌, ◌<◌, ◌≤◌, ◌+◌, ◌++◌, length, OnOk, IfOk, IfSome, IsTrue, MatchOption, true, take, encode_utf8_all, string_bytes, slice_index};
ghost use Rattle.py_lexer.specs.Characters.{begins};
ghost use Rattle.py_lexer.specs.PhysicalLines as physical;
ghost use Rattle.py_lexer.specs.Strings as spec;
ghost use Rattle.py_lexer.specs.Seen as seen;

use crate::runs::line_end;
use std::alloc::{AllocError, Global};

/// What an escape or another character of a literal stands for.
#[derive(Clone, Copy)]
pub enum Stands {
    Nothing,
    One(char),
    /// A backslash and the character.
    Kept(char),
}

/// A part of a literal that doesn't close it.
#[derive(Clone, Copy)]
pub struct Taken {
    /// What it stands for, unless it is an escape that is refused.
    pub stands: Option<Stands>,
    pub length: usize,
    /// How many line ends it has.
    pub lines: u32,
}

/// How a literal is written.
#[derive(Clone, Copy)]
pub struct Literal {
    pub quote: char,
    pub triple: bool,
    pub raw: bool,
}

/// A literal that was read.
#[derive(Drop)]
pub struct Read {
    /// What it stands for, without the escapes that are refused.
    pub text: String,
    /// How many lines below its start the first refused escape is.
    pub refused: Option<u32>,
    pub length: usize,
    /// How many line ends it has.
    pub lines: u32,
}

#[tactic(auto, unfolding(crate::specs::Strings::simple_escape))]
fn simple_escape(c: char) -> Option<char>
    ensures { result ≡ spec.simple_escape c }
{
    match c {
        '\\' | '\'' | '"' => Some(c),
        'a' => Some('\x07'),
        'b' => Some('\x08'),
        'f' => Some('\x0c'),
        'n' => Some('\n'),
        'r' => Some('\r'),
        't' => Some('\t'),
        'v' => Some('\x0b'),
        _ => None,
    }
}

#[tactic(auto, unfolding(crate::specs::Strings::hex_length))]
fn hex_length(c: char) -> Option<usize>
    ensures value { result ≡ spec.hex_length c }
    ensures within { IfSome result (λ n. n ≤ 8) }
{
    match c {
        'x' => Some(2),
        'u' => Some(4),
        'U' => Some(8),
        _ => None,
    }
}

/// The character that the digits name.
#[tactic(auto, unfolding(crate::specs::Strings::scalar_of))]
fn scalar_of(base: u32, digits: &[char]) -> Option<char>
    requires low { 2 ≤ base }
    requires high { base ≤ 16 }
    ensures { result ≡ spec.scalar_of base digits.now }
{
    let mut code: u32 = 0;
    for c in digits {
        let digit = c.to_digit(base)?;
        if code > 0x10_ffff {
            return None;
        }
        code = code * base + digit;
    }
    char::from_u32(code)
}

#[tactic(auto, unfolding(crate::specs::Strings::hex))]
fn hex(n: usize, text: &[char]) -> Option<(Stands, usize)>
    requires { n ≤ 8 }
    ensures value { seen.escape result ≡ spec.hex n text.now }
    ensures within { IfSome result (λ i. (0 < i.1) × (i.1 ≤ length text.now + 2)) }
{
    if text.len() < n {
        return None;
    }
    let c = scalar_of(16, &text[..n])?;
    Some((Stands::One(c), n + 2))
}

/// The octal digit at the front, and what comes behind it.
fn split_octal(text: &[char]) -> Option<(u32, &[char])>
    ensures { MatchOption result (spec.octal_run text.now ≡ 0) (λ r. seen.StartsWith r.0 r.1.now text.now) }
{
    let (c, rest) = text.split_first()?;
    let digit = c.to_digit(8)?;
    Some((digit, rest))
}

/// The number that the octal digits at the front name, three at most, and how many they are.
fn octal_number(text: &[char]) -> (u32, usize)
    ensures value { result.0 ≡ spec.number 8 0 (take (spec.octal_length text.now) text.now) }
    ensures digits { spec.all_digits 8 (take (spec.octal_length text.now) text.now) ≡ true }
    ensures length { result.1 ≡ spec.octal_length text.now }
    ensures within { result.1 ≤ length text.now }
{
    let mut number = 0;
    let mut length = 0;
    let mut rest = if text.len() < 3 { text } else { &text[..3] };
    'digits: while let Some((digit, after)) = split_octal(rest) {
        number = number * 8 + digit;
        length += 1;
        rest = after;
    }
    (number, length)
}

#[tactic(auto, unfolding(crate::specs::Strings::octal, crate::specs::Strings::scalar_of))]
fn octal(text: &[char]) -> Option<(Stands, usize)>
    ensures value { seen.escape result ≡ spec.octal text.now }
    ensures within { IfSome result (λ i. (0 < i.1) × (i.1 ≤ length text.now + 1)) }
{
    let (number, length) = octal_number(text);
    let c = char::from_u32(number)?;
    Some((Stands::One(c), length + 1))
}

/// An escape other than of a line end, from behind its backslash, and its length.
#[tactic(auto, unfolding(crate::specs::Strings::escape))]
fn escape(text: &[char]) -> Option<(Stands, usize)>
    requires { physical.line_end text.now ≡ 0 }
    ensures value { seen.escape result ≡ spec.escape text.now }
    ensures within { IfSome result (λ i. (0 < i.1) × (i.1 ≤ length text.now + 1)) }
{
    let [c, rest @ ..] = text else {
        return None;
    };
    if let Some(stands) = simple_escape(*c) {
        return Some((Stands::One(stands), 2));
    }
    if c.is_digit(8) {
        return octal(text);
    }
    match hex_length(*c) {
        Some(n) => hex(n, rest),
        None => None,
    }
}

/// What stands behind a backslash, which is never a literal's last character.
#[tactic(auto, unfolding(crate::specs::Strings::escape, crate::specs::Strings::raw_escape))]
fn at_backslash(literal: Literal, text: &[char]) -> Option<Taken>
    ensures value { seen.item result ≡ spec.at_backslash literal text.now }
    ensures within { IfSome result (λ i. (0 < i.length) × (i.length ≤ length text.now + 1)) }
    ensures lines { IfSome result (λ i. i.lines ≡ seen.lines_at text.now) }
{
    let [c, ..] = text else {
        return None;
    };
    let end = line_end(text);
    if end > 0 {
        let stands = if literal.raw {
            Stands::Kept('\n')
        } else {
            Stands::Nothing
        };
        return Some(Taken {
            stands: Some(stands),
            length: end + 1,
            lines: 1,
        });
    }
    let read = if literal.raw {
        Some((Stands::Kept(*c), 2))
    } else {
        escape(text)
    };
    let (stands, length) = match read {
        Some((stands, n)) => (Some(stands), n),
        None => (None, 2),
    };
    Some(Taken {
        stands,
        length,
        lines: 0,
    })
}

/// What stands at a place that doesn't close the literal, if the literal goes on there.
#[tactic(auto, unfolding(crate::specs::Strings::item))]
fn item(literal: Literal, text: &[char]) -> Option<Taken>
    ensures value { seen.item result ≡ spec.item literal text.now }
    ensures within { IfSome result (λ i. (0 < i.length) × (i.length ≤ length text.now)) }
    ensures lines { IfSome result (λ i. i.lines ≡ seen.lines_in text.now) }
{
    let [c, rest @ ..] = text else {
        return None;
    };
    let end = line_end(text);
    if end > 0 {
        if !literal.triple {
            return None;
        }
        return Some(Taken {
            stands: Some(Stands::One('\n')),
            length: end,
            lines: 1,
        });
    }
    if *c != '\\' {
        return Some(Taken {
            stands: Some(Stands::One(*c)),
            length: 1,
            lines: 0,
        });
    }
    at_backslash(literal, rest)
}

/// How many quotes open the literal, and as many close it.
fn quotes(literal: Literal) -> usize
    ensures { result ≡ length (spec.closing literal) }
{
    if literal.triple { 3 } else { 1 }
}

/// Whether the literal's quotes stand at the front.
fn at_quotes(literal: Literal, text: &[char]) -> bool
    ensures value { result ≡ begins text.now (spec.closing literal) }
    ensures within { IsTrue result → length (spec.closing literal) ≤ length text.now }
{
    let q = literal.quote;
    if literal.triple {
        matches!(text, [a, b, c, ..] if *a == q && *b == q && *c == q)
    } else {
        matches!(text, [a, ..] if *a == q)
    }
}

fn push(out: &mut String, stands: Option<Stands>) -> Result<(), AllocError>
    ensures { OnOk result (string_bytes out.new ≡ string_bytes out.old ++ encode_utf8_all (seen.characters_or_none stands)) }
{
    match stands {
        None | Some(Stands::Nothing) => Ok(()),
        Some(Stands::One(c)) => out.push(c),
        Some(Stands::Kept(c)) => {
            out.push('\\')?;
            out.push(c)
        }
    }
}

/// The line of the first refused escape, before an item on this line or with it.
fn first_refused(before: Option<u32>, line: u32, stands: Option<Stands>) -> Option<u32>
    ensures { result ≡ spec.earlier before line (seen.refused_by stands) }
{
    match (before, stands) {
        (None, None) => Some(line),
        _ => before,
    }
}

/// A body with its closing quotes, if it is closed.
fn body(alloc: Global, literal: Literal, text: &[char]) -> Result<Option<Read>, AllocError>
    requires quote { IsTrue (spec.is_quote literal.quote) }
    requires short { length text.now ≤ 262144 }
    ensures value { IfOk result (λ found. seen.read found ≡ seen.counted (seen.encoded (spec.body literal 0 text.now)) text.now) }
    ensures within { IfOk result (λ found. IfSome found (λ r. r.length ≤ length text.now)) }
    ensures near { IfOk result (λ found. IfSome found (λ r. IfSome r.refused (λ n. n ≤ length text.now))) }
{
    let quotes = quotes(literal);
    let mut out = String::new(alloc);
    let mut refused = None;
    let mut at = 0;
    let mut lines = 0;
    while at < text.len() {
        let (_, rest) = text.split_at(at);
        if at_quotes(literal, rest) {
            return Ok(Some(Read {
                text: out,
                refused,
                length: at + quotes,
                lines,
            }));
        }
        let Some(item) = item(literal, rest) else {
            return Ok(None);
        };
        push(&mut out, item.stands)?;
        refused = first_refused(refused, lines, item.stands);
        at += item.length;
        lines += item.lines;
    }
    Ok(None)
}

/// The literal that starts at a quote, if it is closed.
#[tactic(auto, unfolding(crate::specs::Strings::literal))]
pub fn read_literal(alloc: Global, raw: bool, text: &[char]) -> Result<Option<Read>, AllocError>
    requires there { 0 < length text.now }
    requires quote { IsTrue (spec.is_quote (slice_index text.now 0)) }
    requires short { length text.now ≤ 262144 }
    ensures value { IfOk result (λ found. seen.read found ≡ seen.counted (seen.encoded (spec.literal raw text.now)) text.now) }
    ensures within { IfOk result (λ found. IfSome found (λ r. (0 < r.length) × (r.length ≤ length text.now))) }
    ensures near { IfOk result (λ found. IfSome found (λ r. IfSome r.refused (λ n. n ≤ length text.now))) }
{
    let quote = text[0];
    let triple = at_quotes(
        Literal {
            quote,
            triple: true,
            raw,
        },
        text,
    );
    let literal = Literal { quote, triple, raw };
    let quotes = quotes(literal);
    let (_, inner) = text.split_at(quotes);
    match body(alloc, literal, inner)? {
        Some(
            Read {
                text,
                refused,
                length,
                lines,
            },
        ) => Ok(Some(Read {
            text,
            refused,
            length: quotes + length,
            lines,
        })),
        None => Ok(None),
    }
}

pub fn is_quote(text: &[char]) -> bool
    ensures value { result ≡ spec.is_quote (slice_index text.now 0) }
    ensures there { IsTrue result → 0 < length text.now }
{
    matches!(text, ['\'' | '"', ..])
}

/// Whether the word is the prefix of a raw string.
pub fn is_raw(word: &[char], rest: &[char]) -> bool
    ensures value { result ≡ spec.is_raw word.now rest.now }
    ensures front { IsTrue result → length word.now ≡ 1 }
    ensures there { IsTrue result → 0 < length rest.now }
    ensures quote { IsTrue result → IsTrue (spec.is_quote (slice_index rest.now 0)) }
{
    matches!(word, ['r' | 'R']) && is_quote(rest)
}
