//! A text that several owners share.

ghost use Rattle.std.specs.Prelude.{◌≡◌, IfOk};
ghost use Rattle.nu_text.specs.Characters as spec;
ghost use Rattle.std.specs.Str.{bytes_eq};
ghost use Rattle.std.specs.Hash as fed;
ghost use Rattle.std.specs.Cmp.{partial_equiv_from_equiv};
ghost use Rattle.std.specs.Cmp.Lexicographic.{bytes_decides, nat_list_eq_equiv};
ghost use Rattle.std.proofs.Common.{ap};

use crate::lengths::characters;
use std::alloc::{AllocError, Global};
use std::hash::{Hash, Hasher};
use std::marker::Model;

/// A text in UTF-8 that several owners share, seen in contracts as the list of its bytes. It knows how many characters it has.
#[derive(Drop)]
pub struct RcStr {
    shared: std::rc::RcStr,
    length: usize,
}

impl Model for RcStr {
    ghost use Rattle.std.specs.Prelude.{◌≡◌, ℕ, List};
    ghost use Rattle.std.specs.Rc.{rc_str_bytes};

    ghost Value = { List ℕ };

    ghost use Rattle.nu_text.specs.Characters.{characters};

    ghost view = { λ t. rc_str_bytes t.shared };

    ghost invariant = { λ t. t.length ≡ characters (rc_str_bytes t.shared) };
}

impl RcStr {
    /// A copy of this text.
    pub fn from_str(alloc: Global, text: &str) -> Result<RcStr, AllocError>
        ensures { IfOk result (λ t. t ≡ text.now) }
    {
        Ok(RcStr {
            shared: std::rc::RcStr::from_str(alloc, text)?,
            length: characters(text.as_bytes()),
        })
    }

    /// The same text for one owner more.
    pub fn share(&self) -> Result<RcStr, AllocError>
        ensures { IfOk result (λ t. t ≡ self.now) }
    {
        Ok(RcStr {
            shared: self.shared.clone()?,
            length: self.length,
        })
    }

    /// How many characters this text has.
    pub fn length(&self) -> usize
        ensures { result ≡ spec.characters self.now }
    {
        self.length
    }

    pub fn as_str(&self) -> &str
        ensures { result.now ≡ self.now }
    {
        &self.shared
    }

    /// Whether both have the same bytes.
    pub fn is_same(&self, other: &RcStr) -> bool
        ensures { result ≡ bytes_eq self.now other.now }
    {
        self.shared == other.shared
    }
}

impl PartialEq for RcStr {
    ghost eq = { bytes_eq };

    ghost laws = { partial_equiv_from_equiv nat_list_eq_equiv };

    fn eq(&self, other: &RcStr) -> bool {
        self.shared == other.shared
    }
}

impl Eq for RcStr {
    ghost laws = { nat_list_eq_equiv };
}

impl Hash for RcStr {
    ghost hash_input = { fed.str };

    ghost respects_eq = { λ a b h. ap fed.str ((bytes_decides a b).0 h) };

    fn hash<H: Hasher>(&self, state: &mut H) {
        self.shared.hash(state);
    }
}
