//! Where names live.

ghost use Rattle.std.specs.Prelude.{◌≡◌};
ghost use Rattle.py_meaning.specs.Scopes.{home_of};
ghost use Rattle.carried_codes.specs.Seats.{seat};
ghost use Rattle.reform_names.specs.Homes.{seat_of};
ghost use Rattle.walk_laws.specs.Contexts.{homes_in};

use crate::locals::{home_in, is_class};
use crate::place::Place;
use nu_text::RcStr;
use reform_names::Home;

impl<'a> Place<'a> {
    /// Where a name lives that stands here, as it counts here.
    pub fn seat(&self, word: RcStr) -> Home
        ensures { seat_of result ≡ seat (homes_in self.now) (home_of self.now.scopes self.now.this self.now.parameters word) }
    {
        let this = self.this;
        let home = home_in(&self.homes, &word);
        if home == 0 {
            return Home::Module(word);
        }
        if home != this {
            let at = self.free_cell(&word);
            return Home::Free(at, word);
        }
        if is_class(self.scope.kind) {
            let at = self.space();
            return Home::Space(at, word);
        }
        if self.captured.contains(&word) {
            let at = self.own_cell(&word);
            return Home::Own(at, word);
        }
        let at = self.local(&word);
        Home::Local(at, word)
    }
}
