//! Laws of the rows, in the words of arithmetic.

ghost use Rattle.rt_int.specs.Laws.{DivisionIsFloored, ComparisonsAreTheOrder};

/// The quotient times the divisor and the rest make the dividend; the rest has the divisor's sign and is smaller.
pub fn division_is_floored()
    ensures { DivisionIsFloored }
{}

/// `<`, `<=`, `>` and `>=` are the order of the integers.
pub fn integers_are_ordered()
    ensures { ComparisonsAreTheOrder }
{}
