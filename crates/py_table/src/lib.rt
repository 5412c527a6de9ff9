//! The table of operations keeps law: under it no run of lawful codes ends Undefined.
#![tactic(auto)]

ghost use Rattle.py_table.specs.Laws.{TheTableKeepsLaw};

use op_forms::doings_keep_sound;
use op_rules::{finishing_keeps_sound, the_start_is_sound};

/// The table of operations keeps law.
pub fn the_table_keeps_law()
    ensures { TheTableKeepsLaw }
{
    doings_keep_sound();
    finishing_keeps_sound();
    the_start_is_sound();
}
