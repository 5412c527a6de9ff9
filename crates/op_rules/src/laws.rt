//! Laws of the table of operations.

ghost use Rattle.op_rules.specs.Laws.{FinishingKeepsSound, RowsKeepSound, TheStartIsSound};

use op_forms::doings_keep_sound;

/// Every operation leads from a sound world to a sound world, and ends with objects of it.
pub fn rows_keep_sound()
    ensures { RowsKeepSound }
{
    doings_keep_sound();
}

/// What becomes of the value of an asked function leads from a sound world to a sound world, and ends with objects of it.
pub fn finishing_keeps_sound()
    ensures { FinishingKeepsSound }
{
    doings_keep_sound();
}

/// The world in which a run begins is sound.
pub fn the_start_is_sound()
    ensures { TheStartIsSound }
{}
