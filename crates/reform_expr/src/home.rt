//! Where names live.

ghost use Rattle.std.specs.Prelude.{◌≡◌, IfOk};

use nu_text::RcStr;
use std::alloc::AllocError;

/// Where a name lives (reference, section 4.2).
#[derive(Drop)]
pub enum Home {
    /// In the module.
    Module(RcStr),
}

impl Home {
    /// The same home for one owner more.
    pub fn share(&self) -> Result<Home, AllocError>
        ensures { IfOk result (λ h. h ≡ self.now) }
    {
        match self {
            Home::Module(name) => Ok(Home::Module(name.share()?)),
        }
    }
}
