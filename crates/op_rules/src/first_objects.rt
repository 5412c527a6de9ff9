//! The objects with which a run begins: behind the native classes the built-in names, their native functions, and the names of the
//! module.

ghost use Rattle.std.specs.Prelude.{◌≡◌, ◌+◌, ◌<◌, ◌^◌, ◌++◌, [], IfOk, OnOk, length, map};
ghost use Rattle.nu_value.specs.declared.value.Value.TheVariants as value;
ghost use Rattle.nu_value.specs.Natives.{native_classes};
ghost use Rattle.op_rules.specs.Start as spec;

use nu_text::RcStr;
use nu_value::{Heap, Names, Object, Value};
use std::alloc::{AllocError, Global};

/// The built-in names of classes, with the numbers of these (library reference, "Built-in Types" and "Built-in Exceptions").
pub const CLASS_NAMES: [(&str, u64); 27] = [
    ("object", 0),
    ("type", 11),
    ("int", 3),
    ("bool", 2),
    ("str", 4),
    ("list", 6),
    ("tuple", 5),
    ("dict", 7),
    ("range", 8),
    ("BaseException", 19),
    ("Exception", 20),
    ("GeneratorExit", 21),
    ("ArithmeticError", 22),
    ("ZeroDivisionError", 23),
    ("AssertionError", 24),
    ("AttributeError", 25),
    ("EOFError", 26),
    ("LookupError", 27),
    ("IndexError", 28),
    ("KeyError", 29),
    ("NameError", 30),
    ("UnboundLocalError", 31),
    ("RuntimeError", 32),
    ("NotImplementedError", 33),
    ("StopIteration", 34),
    ("TypeError", 35),
    ("ValueError", 36),
];

/// The native functions: those that a script may name (library reference, "Built-in Functions"), and those that only the built-in
/// text names. Their objects stand behind the built-in names in this order.
pub const NATIVE_FUNCTIONS: [&str; 23] = [
    "len",
    "isinstance",
    "issubclass",
    "callable",
    "setattr",
    "ord",
    "chr",
    "print",
    "_nu_write",
    "_nu_line",
    "_nu_kind",
    "_nu_text",
    "_nu_quote",
    "_nu_special",
    "_nu_args",
    "_nu_order",
    "_nu_next",
    "_nu_iter",
    "_nu_getattr",
    "_nu_exc",
    "_nu_nextable",
    "_nu_resume",
    "_nu_unbuilt",
];

// Names of classes get these as their values.
fn name_classes(alloc: Global, names: &mut Names, classes: &[(&str, u64)]) -> Result<(), AllocError>
    ensures { OnOk result (names.new ≡ spec.with_all names.old (map (λ c. (c.0.now, value.Obj c.1)) classes.now)) }
{
    match classes {
        [] => Ok(()),
        [class, classes @ ..] => {
            names.set(RcStr::from_str(alloc, class.0)?, Value::Obj(class.1))?;
            name_classes(alloc, names, classes)
        }
    }
}

// Names of native functions get the objects from this number on as their values.
fn name_natives(
    alloc: Global,
    names: &mut Names,
    number: u64,
    natives: &[&str],
) -> Result<(), AllocError>
    requires { number + length natives.now < 2 ^ 63 }
    ensures { OnOk result (names.new ≡ spec.with_all names.old (spec.numbered number (map (λ n. n.now) natives.now))) }
{
    match natives {
        [] => Ok(()),
        [name, natives @ ..] => {
            names.set(RcStr::from_str(alloc, name)?, Value::Obj(number))?;
            name_natives(alloc, names, number + 1, natives)
        }
    }
}

// The native functions.
fn make_natives(alloc: Global, heap: &mut Heap, natives: &[&str]) -> Result<(), AllocError>
    ensures { OnOk result (heap.new ≡ heap.old ++ spec.builtins_of (map (λ n. n.now) natives.now)) }
{
    match natives {
        [] => Ok(()),
        [name, natives @ ..] => {
            heap.make(Object::Builtin {
                name: RcStr::from_str(alloc, name)?,
                receiver: Value::Unset,
            })?;
            make_natives(alloc, heap, natives)
        }
    }
}

// The names of classes and of native functions.
fn names_of(alloc: Global, classes: &[(&str, u64)], natives: &[&str]) -> Result<Names, AllocError>
    requires { 38 + length natives.now < 2 ^ 63 }
    ensures { IfOk result (λ names. names ≡ spec.with_all (spec.with_all [] (map (λ c. (c.0.now, value.Obj c.1)) classes.now)) (spec.numbered 38 (map (λ n. n.now) natives.now))) }
{
    let mut names = Names::new(alloc);
    name_classes(alloc, &mut names, classes)?;
    name_natives(alloc, &mut names, 38, natives)?;
    Ok(names)
}

fn built_in_names(alloc: Global) -> Result<Names, AllocError>
    ensures { IfOk result (λ names. names ≡ spec.built_in_names) }
{
    names_of(alloc, &CLASS_NAMES, &NATIVE_FUNCTIONS)
}

fn module_names(alloc: Global) -> Result<Names, AllocError>
    ensures { IfOk result (λ names. names ≡ spec.module_names) }
{
    let mut names = Names::new(alloc);
    let main = Value::Str(RcStr::from_str(alloc, "__main__")?);
    names.set(RcStr::from_str(alloc, "__name__")?, main)?;
    Ok(names)
}

/// The heap with which a run begins.
pub fn first_heap(alloc: Global) -> Result<Heap, AllocError>
    ensures { IfOk result (λ heap. heap ≡ native_classes ++ spec.first_objects) }
{
    let mut heap = Heap::new(alloc)?;
    heap.make(Object::Space(built_in_names(alloc)?))?;
    make_natives(alloc, &mut heap, &NATIVE_FUNCTIONS)?;
    heap.make(Object::Space(module_names(alloc)?))?;
    Ok(heap)
}
