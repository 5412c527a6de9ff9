//! Laws of the rows, in the words of places.

ghost use Rattle.rt_seq.specs.Laws.{SlicesAreItems, SortingIsStable, WritesAreRead};

/// A slice has an item for each of its places, in their order: the item that stands there.
pub fn slices_are_items()
    ensures { SlicesAreItems }
{}

/// What is written at an index of a list is read there; at other places all stays.
pub fn writes_are_read()
    ensures { WritesAreRead }
{}

/// Where `<` orders the items of a list, their order is stable, and each item stands in it once.
pub fn sorting_is_stable()
    ensures { SortingIsStable }
{}
