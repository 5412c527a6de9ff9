//! The laws of the text relation.

ghost use Rattle.node_reader.specs.Laws.{OneTree, OneText};

/// A text is that of one tree at most.
pub fn one_tree()
    ensures { OneTree }
{}

/// A tree has one text at most.
pub fn one_text()
    ensures { OneText }
{}
