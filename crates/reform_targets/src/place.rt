//! Targets.

ghost use Rattle.std.specs.Prelude.{◌≡◌, reverse};

use nu_text::RcStr;
use reform_base::Part;
use reform_names::Home;

/// A target whose parts are evaluated, with the line of its expression (reference, section 7.2).
#[derive(Drop)]
pub enum Place {
    Name {
        line: u32,
        home: Home,
    },
    Attribute {
        line: u32,
        part: Part,
        name: RcStr,
    },
    Index {
        line: u32,
        part: Part,
        at: Part,
    },
    /// A list of targets.
    Each {
        line: u32,
        places: Vec<Place>,
    },
    /// One with a star before a target in the middle.
    Starred {
        line: u32,
        before: Vec<Place>,
        star: Box<Place>,
        behind: Vec<Place>,
    },
    Nothing,
}

/// The same targets the other way round: the first of them is taken off the end.
pub fn turned(places: Vec<Place>) -> Vec<Place>
    ensures { result.items ≡ reverse places.items }
{
    let mut left = places;
    left.reverse();
    left
}
