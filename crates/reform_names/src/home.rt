//! Where names live.

ghost use Rattle.std.specs.Prelude.{◌≡◌, IfOk};

use nu_text::RcStr;
use std::alloc::AllocError;

/// Where a name lives, with the temporary that it has there (reference, section 4.2).
#[derive(Drop)]
pub enum Home {
    /// A local variable.
    Local(u64, RcStr),
    /// A cell of the frame, which an inner scope uses too.
    Own(u64, RcStr),
    /// A cell of an enclosing function.
    Free(u64, RcStr),
    /// In the module.
    Module(RcStr),
    /// In the class whose block runs; the temporary has the class's names.
    Space(u64, RcStr),
}

impl Home {
    /// The same home for one owner more.
    pub fn share(&self) -> Result<Home, AllocError>
        ensures { IfOk result (λ h. h ≡ self.now) }
    {
        match self {
            Home::Local(at, name) => Ok(Home::Local(*at, name.share()?)),
            Home::Own(at, name) => Ok(Home::Own(*at, name.share()?)),
            Home::Free(at, name) => Ok(Home::Free(*at, name.share()?)),
            Home::Module(name) => Ok(Home::Module(name.share()?)),
            Home::Space(at, name) => Ok(Home::Space(*at, name.share()?)),
        }
    }
}
