//! Laws of the rows, in the words of dicts.

ghost use Rattle.rt_dict.specs.Laws.{CopiesAreTheSame, KeysKeepTheirPlaces, MembersAreKeys};

/// `x in d` is true exactly where `d[x]` gives a value.
pub fn members_are_keys()
    ensures { MembersAreKeys }
{}

/// A key keeps its place and the value that was first given for it when another value is put under it; a new key comes last. Then it
/// maps to that value, and every other key to what it did.
pub fn keys_keep_their_places()
    ensures { KeysKeepTheirPlaces }
{}

/// A copy of a dict, of which no key stands twice, has the same pairs.
pub fn copies_are_the_same()
    ensures { CopiesAreTheSame }
{}
