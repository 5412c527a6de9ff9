//! Laws of the rows, in the words of characters and pieces.

ghost use Rattle.rt_text.specs.Laws.{CutTextsJoinAgain, TextsAreCharacters};

/// A text has as many characters as were written in UTF-8, and texts are ordered as their characters are.
pub fn texts_are_characters()
    ensures { TextsAreCharacters }
{}

/// What `split` gives, joined by the separator, is the text; replacing a part by itself changes nothing; `find` gives the first
/// place.
pub fn cut_texts_join_again()
    ensures { CutTextsJoinAgain }
{}
