//! Identifiers and keywords (reference, section 2.3).

ghost use Rattle.std.specs.Prelude.{◌≡◌, ◌≤◌, ◌==◌, ◌||◌, length, take, IsTrue, IfOk};
ghost use Rattle.unicode_ident.specs.Ident.{is_xid_continue};
ghost use Rattle.py_ast.specs.Spelled.{words};
ghost use Rattle.py_lexer.specs.declared.runs.Class.TheVariants as class;
ghost use Rattle.py_lexer.specs.Characters.{run_length};
ghost use Rattle.py_lexer.specs.Words as spec;

use crate::runs::{Class, gather, is_spelled};
use nu_text::RcStr;
use py_ast::{TokenKind, WORDS, Word};
use std::alloc::{AllocError, Global};
use unicode_normalization::slice::extend_nfkc;

pub fn begins_word(c: char) -> bool
    ensures value { result ≡ spec.begins_word c }
    ensures goes_on { IsTrue result → IsTrue (is_xid_continue c) }
{
    unicode_ident::is_xid_start(c) || c == '_'
}

/// The characters of the word at the front, of which keywords and normal forms are then told.
pub fn take_word(alloc: Global, text: &[char]) -> Result<Vec<char>, AllocError>
    ensures value { IfOk result (λ word. word.items ≡ take (run_length class.Word text.now) text.now) }
    ensures size { IfOk result (λ word. length word.items ≡ run_length class.Word text.now) }
    ensures within { IfOk result (λ word. length word.items ≤ length text.now) }
{
    let word = gather(alloc, Class::Word, text)?;
    Ok(word)
}

/// The keyword of the table that the word is.
fn keyword_in(table: &[Word], word: &[char]) -> Option<Word>
    ensures { result ≡ spec.word_of table.now word.now }
{
    for keyword in table {
        if is_spelled(word, keyword.spelling()) {
            return Some(*keyword);
        }
    }
    None
}

/// The name with this normal form, unless that is empty or has a space.
fn name_of(alloc: Global, form: &[char]) -> Result<Option<TokenKind>, AllocError>
    ensures { IfOk result (λ token. token ≡ spec.name_of form.now) }
{
    if form.is_empty() || form.contains(&' ') {
        return Ok(None);
    }
    let name: String = form.iter().copied().collect(alloc)?;
    Ok(Some(TokenKind::Name(RcStr::from_str(alloc, &name)?)))
}

/// The keyword or name that the word is.
#[tactic(auto, unfolding(crate::specs::Words::word_token))]
pub fn word_token(alloc: Global, word: &[char]) -> Result<Option<TokenKind>, AllocError>
    ensures { IfOk result (λ token. token ≡ spec.word_token word.now) }
{
    if let Some(keyword) = keyword_in(&WORDS, word) {
        return Ok(Some(TokenKind::Keyword(keyword)));
    }
    let mut form = Vec::new(alloc);
    extend_nfkc(&mut form, word)?;
    name_of(alloc, &form)
}
