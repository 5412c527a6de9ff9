//! What is assigned to.

ghost use Rattle.std.specs.Prelude.{◌≡◌};
ghost use Rattle.reform_unpack.specs.Places.{line_of, home_in};

use reform_expr::Home;

/// A target of an assignment (reference, section 7.2).
#[derive(Drop)]
pub enum Place {
    /// A name, with the line of its expression.
    Name(Home, u32),
}

impl Place {
    pub fn line(&self) -> u32
        ensures { result ≡ line_of self.now }
    {
        match self {
            Place::Name(_, line) => *line,
        }
    }

    pub fn home(&self) -> &Home
        ensures { result.now ≡ home_in self.now }
    {
        match self {
            Place::Name(home, _) => home,
        }
    }
}
