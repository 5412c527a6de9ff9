//! Names of attributes: those between double underscores, and those of the methods that no script made.

ghost use Rattle.std.specs.Prelude.{◌≡◌};
ghost use Rattle.nu_text.specs.Names as tables;
ghost use Rattle.op_rules.specs.Attributes as spec;

use nu_text::is_among;

/// The identifiers between double underscores that a script may have (reference, section 3.3).
pub const SPECIAL_NAMES: [&str; 16] = [
    "__init__",
    "__str__",
    "__repr__",
    "__len__",
    "__bool__",
    "__iter__",
    "__next__",
    "__enter__",
    "__exit__",
    "__call__",
    "__getitem__",
    "__setitem__",
    "__delitem__",
    "__contains__",
    "__name__",
    "__class__",
];

/// The methods of lists (library reference, "Mutable Sequence Types").
pub const LIST_METHODS: [&str; 11] = [
    "append", "pop", "insert", "extend", "remove", "index", "count", "reverse", "clear", "copy",
    "sort",
];

/// The methods of tuples (library reference, "Common Sequence Operations").
pub const TUPLE_METHODS: [&str; 2] = ["index", "count"];

/// The methods of dicts (library reference, "Mapping Types").
pub const DICT_METHODS: [&str; 9] = [
    "get",
    "keys",
    "values",
    "items",
    "pop",
    "setdefault",
    "update",
    "clear",
    "copy",
];

/// The methods of texts (library reference, "String Methods").
pub const TEXT_METHODS: [&str; 11] = [
    "join",
    "split",
    "strip",
    "startswith",
    "endswith",
    "replace",
    "find",
    "count",
    "upper",
    "lower",
    "isdigit",
];

/// The methods of generators (reference, section 6.2.9.1).
pub const GENERATOR_METHODS: [&str; 3] = ["send", "close", "throw"];

#[tactic(auto, unfolding(crate::specs::Attributes::special_names))]
fn is_special(name: &str) -> bool
    ensures { result ≡ tables.is_among spec.special_names name.now }
{
    is_among(&SPECIAL_NAMES, name)
}

/// Whether an identifier of five or more characters stands between double underscores and is none that a script may have.
pub fn is_unwritten(name: &str) -> bool
    ensures { result ≡ spec.is_unwritten name.now }
{
    let bytes = name.as_bytes();
    bytes.starts_with(b"__") && bytes.ends_with(b"__") && bytes.len() >= 5 && !is_special(name)
}

/// Whether lists have a method of this name.
#[tactic(auto, unfolding(crate::specs::Attributes::list_methods))]
pub fn is_list_method(name: &str) -> bool
    ensures { result ≡ tables.is_among spec.list_methods name.now }
{
    is_among(&LIST_METHODS, name)
}

/// Whether tuples have a method of this name.
#[tactic(auto, unfolding(crate::specs::Attributes::tuple_methods))]
pub fn is_tuple_method(name: &str) -> bool
    ensures { result ≡ tables.is_among spec.tuple_methods name.now }
{
    is_among(&TUPLE_METHODS, name)
}

/// Whether dicts have a method of this name.
#[tactic(auto, unfolding(crate::specs::Attributes::dict_methods))]
pub fn is_dict_method(name: &str) -> bool
    ensures { result ≡ tables.is_among spec.dict_methods name.now }
{
    is_among(&DICT_METHODS, name)
}

/// Whether texts have a method of this name.
#[tactic(auto, unfolding(crate::specs::Attributes::text_methods))]
pub fn is_text_method(name: &str) -> bool
    ensures { result ≡ tables.is_among spec.text_methods name.now }
{
    is_among(&TEXT_METHODS, name)
}

/// Whether generators have a method of this name.
#[tactic(auto, unfolding(crate::specs::Attributes::generator_methods))]
pub fn is_generator_method(name: &str) -> bool
    ensures { result ≡ tables.is_among spec.generator_methods name.now }
{
    is_among(&GENERATOR_METHODS, name)
}
