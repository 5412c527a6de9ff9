//! Why a script is refused.

ghost use Rattle.std.specs.Prelude.{◌≡◌};
ghost use Rattle.nuit_lib.specs.Replies.{kind_name};

/// Why a script lies outside the profile, in the order in which the reasons count.
///
/// Of `Token`, `Indent` and `Number` the first in the text's order counts. `Unbuilt` is what the profile has and this stage does
/// not build yet.
#[derive(Clone, Copy)]
pub(crate) enum Kind {
    Utf8,
    Token,
    Indent,
    Number,
    Depth,
    Grammar,
    Target,
    Loop,
    Function,
    Declare,
    Name,
    Raise,
    Repeat,
    Unbuilt,
}

impl Kind {
    pub(crate) fn name(self) -> &'static str
        ensures { result.now ≡ kind_name self }
    {
        match self {
            Kind::Utf8 => "Utf8",
            Kind::Token => "Token",
            Kind::Indent => "Indent",
            Kind::Number => "Number",
            Kind::Depth => "Depth",
            Kind::Grammar => "Grammar",
            Kind::Target => "Target",
            Kind::Loop => "Loop",
            Kind::Function => "Function",
            Kind::Declare => "Declare",
            Kind::Name => "Name",
            Kind::Raise => "Raise",
            Kind::Repeat => "Repeat",
            Kind::Unbuilt => "Unbuilt",
        }
    }
}
