//! Names in tables: the built-in names, and the natives of the built-in text.

ghost use Rattle.std.specs.Prelude.{◌≡◌, map};
ghost use Rattle.nu_text.specs.Names as spec;

/// The names that stand behind those of the module: classes, exception classes and functions (Library Reference,
/// "Built-in Functions", "Built-in Types" and "Built-in Exceptions").
pub const BUILT_IN_NAMES: [&str; 54] = [
    "object",
    "type",
    "int",
    "bool",
    "str",
    "list",
    "tuple",
    "dict",
    "range",
    "BaseException",
    "Exception",
    "GeneratorExit",
    "ArithmeticError",
    "ZeroDivisionError",
    "AssertionError",
    "AttributeError",
    "EOFError",
    "LookupError",
    "IndexError",
    "KeyError",
    "NameError",
    "UnboundLocalError",
    "RuntimeError",
    "NotImplementedError",
    "StopIteration",
    "TypeError",
    "ValueError",
    "len",
    "isinstance",
    "issubclass",
    "callable",
    "setattr",
    "ord",
    "chr",
    "print",
    "input",
    "repr",
    "iter",
    "next",
    "getattr",
    "hasattr",
    "abs",
    "divmod",
    "sum",
    "any",
    "all",
    "min",
    "max",
    "sorted",
    "enumerate",
    "zip",
    "map",
    "filter",
    "reversed",
];

/// The native functions that only the built-in text may name: what its functions are written with. They have no place in
/// the reference.
pub const TEXT_NATIVES: [&str; 15] = [
    "_nu_write",
    "_nu_line",
    "_nu_kind",
    "_nu_text",
    "_nu_quote",
    "_nu_special",
    "_nu_args",
    "_nu_order",
    "_nu_next",
    "_nu_iter",
    "_nu_getattr",
    "_nu_exc",
    "_nu_nextable",
    "_nu_resume",
    "_nu_unbuilt",
];

/// Whether the table has the name.
pub fn is_among(table: &[&str], name: &str) -> bool
    ensures { result ≡ spec.is_among (map (λ entry. entry.now) table.now) name.now }
{
    for entry in table {
        if *entry == name {
            return true;
        }
    }
    false
}

/// Whether it is a built-in name (Library Reference, "Built-in Functions", "Built-in Types" and "Built-in Exceptions").
#[tactic(auto, unfolding(crate::specs::Names::built_in_names))]
pub fn is_built_in_name(name: &str) -> bool
    ensures { result ≡ spec.is_among spec.built_in_names name.now }
{
    is_among(&BUILT_IN_NAMES, name)
}

/// Whether it is a native of the built-in text alone.
#[tactic(auto, unfolding(crate::specs::Names::text_natives))]
pub fn is_text_native(name: &str) -> bool
    ensures { result ≡ spec.is_among spec.text_natives name.now }
{
    is_among(&TEXT_NATIVES, name)
}
