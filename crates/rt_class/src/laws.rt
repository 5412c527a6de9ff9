//! Laws of the rows, in the words of classes.

ghost use Rattle.rt_class.specs.Laws.{ClassesAreOrdered, FoundIsNearest};

/// What is found on a class is what the nearest class outward has; `isinstance` goes by the classes outward from a value's own
/// (reference, section 3.3.2; library reference, `isinstance`).
pub fn found_is_nearest()
    ensures { FoundIsNearest }
{}

/// In a sound heap classes are ordered by what stands under what (library reference, `issubclass`).
pub fn classes_are_ordered()
    ensures { ClassesAreOrdered }
{}
