//! What a walk has made so far.

ghost use Rattle.std.specs.Prelude.{◌≡◌, ◌<◌, ◌^◌, IfOk};
ghost use Rattle.walk_laws.specs.States.{at};
ghost use Rattle.reform_blocks.specs.Parts.{carrier};
ghost use Rattle.reform_walk.specs.States.{state_of};

use node_tree::NodeCode;
use reform_base::Part;
use reform_values::Valued;
use sqlite_items::Items;
use std::alloc::{AllocError, Global};

/// The next temporary, the number of the next scope, and the codes of the scopes so far.
#[derive(Drop)]
pub struct Walk {
    pub alloc: Global,
    pub next: u64,
    pub scope: usize,
    pub codes: Items<NodeCode>,
}

impl Walk {
    /// The next temporary. For 2^63 of them memory is wanting.
    pub fn room(&self) -> Result<u64, AllocError>
        ensures is { IfOk result (λ next. next ≡ self.now.next) }
        ensures room { IfOk result (λ next. next < 2 ^ 63) }
    {
        if self.next < 1 << 63 {
            Ok(self.next)
        } else {
            Err(AllocError)
        }
    }

    /// A construct draws its temporaries.
    pub fn settled(&mut self, made: Valued) -> Part
        ensures is { carrier result ≡ carrier made.part }
        ensures state { state_of self.new ≡ at made.next (state_of self.old) }
    {
        let Valued { part, next } = made;
        self.next = next;
        part
    }
}
