//! Laws of binding.

ghost use Rattle.rt_call.specs.Laws.{EachArgumentHasItsParameter};

/// A binding gives each parameter one value, and each argument goes to one parameter: a positional one to that of its place or to the
/// star, a keyword to the parameter that it names or to the double star. A parameter to which none goes has its default.
pub fn each_argument_has_its_parameter()
    ensures { EachArgumentHasItsParameter }
{}
