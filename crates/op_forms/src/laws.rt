//! Laws of what operations do.

ghost use Rattle.op_forms.specs.Laws.{DoingsKeepSound};

/// What uses only values that are there keeps a sound world sound.
pub fn doings_keep_sound()
    ensures { DoingsKeepSound }
{}
