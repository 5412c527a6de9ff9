//! What the operations take: a kind for each place, and for further places.

ghost use Rattle.std.specs.Prelude.{◌≡◌};
ghost use Rattle.op_forms.specs.Signature.{arguments, further};
ghost use Rattle.op_forms.specs.Signs.{sign_of};

use crate::op::Op;

/// What an operation takes at a place.
#[derive(Clone, Copy)]
pub enum ArgumentKind {
    /// A bare name.
    Name,
    /// A bare name of the built-in table.
    BuiltinName,
    /// Any value but Unset.
    Value,
    /// Any value, Unset too.
    Any,
    Cell,
    Space,
    /// The number of a function of the program.
    Code,
    Tuple,
    List,
    Dict,
    /// A dict whose keys are texts.
    Keywords,
    Bool,
    Exception,
}

static NAME: [ArgumentKind; 1] = [ArgumentKind::Name];

static NAME_VALUE: [ArgumentKind; 2] = [ArgumentKind::Name, ArgumentKind::Value];

static ANY_NAME: [ArgumentKind; 2] = [ArgumentKind::Any, ArgumentKind::Name];

static NOTHING: [ArgumentKind; 0] = [];

static CELL_VALUE: [ArgumentKind; 2] = [ArgumentKind::Cell, ArgumentKind::Value];

static CELL_NAME: [ArgumentKind; 2] = [ArgumentKind::Cell, ArgumentKind::Name];

static SPACE_NAME: [ArgumentKind; 2] = [ArgumentKind::Space, ArgumentKind::Name];

static SPACE_NAME_VALUE: [ArgumentKind; 3] = [
    ArgumentKind::Space,
    ArgumentKind::Name,
    ArgumentKind::Value,
];

static BUILTIN_NAME: [ArgumentKind; 1] = [ArgumentKind::BuiltinName];

static CODE_TUPLE_KEYWORDS: [ArgumentKind; 3] = [
    ArgumentKind::Code,
    ArgumentKind::Tuple,
    ArgumentKind::Keywords,
];

static NAME_VALUE_SPACE: [ArgumentKind; 3] = [
    ArgumentKind::Name,
    ArgumentKind::Value,
    ArgumentKind::Space,
];

static LIST_VALUE: [ArgumentKind; 2] = [ArgumentKind::List, ArgumentKind::Value];

static DICT_VALUE_VALUE: [ArgumentKind; 3] = [
    ArgumentKind::Dict,
    ArgumentKind::Value,
    ArgumentKind::Value,
];

static DICT_VALUE: [ArgumentKind; 2] = [ArgumentKind::Dict, ArgumentKind::Value];

static VALUE_VALUE: [ArgumentKind; 2] = [ArgumentKind::Value, ArgumentKind::Value];

static VALUE: [ArgumentKind; 1] = [ArgumentKind::Value];

static BOOL: [ArgumentKind; 1] = [ArgumentKind::Bool];

static VALUE_VALUE_VALUE: [ArgumentKind; 3] = [
    ArgumentKind::Value,
    ArgumentKind::Value,
    ArgumentKind::Value,
];

static VALUE_VALUE_VALUE_VALUE: [ArgumentKind; 4] = [
    ArgumentKind::Value,
    ArgumentKind::Value,
    ArgumentKind::Value,
    ArgumentKind::Value,
];

static VALUE_NAME: [ArgumentKind; 2] = [ArgumentKind::Value, ArgumentKind::Name];

static VALUE_NAME_VALUE: [ArgumentKind; 3] = [
    ArgumentKind::Value,
    ArgumentKind::Name,
    ArgumentKind::Value,
];

static VALUE_LIST_KEYWORDS: [ArgumentKind; 3] = [
    ArgumentKind::Value,
    ArgumentKind::List,
    ArgumentKind::Keywords,
];

static EXCEPTION: [ArgumentKind; 1] = [ArgumentKind::Exception];

static EXCEPTION_VALUE: [ArgumentKind; 2] = [ArgumentKind::Exception, ArgumentKind::Value];

impl Op {
    /// What the operation takes at its first places.
    pub fn arguments(self) -> &'static [ArgumentKind]
        ensures { result.now ≡ arguments self }
    {
        match self {
            Op::Global | Op::DelGlobal => &NAME,
            Op::SetGlobal => &NAME_VALUE,
            Op::Local => &ANY_NAME,
            Op::Cell | Op::Space | Op::Tuple | Op::List | Op::Dict => &NOTHING,
            Op::CellSet => &CELL_VALUE,
            Op::CellGet | Op::CellDel | Op::FreeGet | Op::FreeDel => &CELL_NAME,
            Op::SpaceGet | Op::SpaceDel => &SPACE_NAME,
            Op::SpaceSet => &SPACE_NAME_VALUE,
            Op::Native => &BUILTIN_NAME,
            Op::Func => &CODE_TUPLE_KEYWORDS,
            Op::Class => &NAME_VALUE_SPACE,
            Op::Push | Op::Extend => &LIST_VALUE,
            Op::Put | Op::KeyPut => &DICT_VALUE_VALUE,
            Op::Merge | Op::KeyMerge => &DICT_VALUE,
            Op::Add
            | Op::Sub
            | Op::Mul
            | Op::FloorDiv
            | Op::Mod
            | Op::Pow
            | Op::LShift
            | Op::RShift
            | Op::And
            | Op::Or
            | Op::Xor
            | Op::IAdd
            | Op::IMul
            | Op::Eq
            | Op::Ne
            | Op::Lt
            | Op::Le
            | Op::Gt
            | Op::Ge
            | Op::Is
            | Op::IsNot
            | Op::In
            | Op::Index
            | Op::DelIndex
            | Op::Unpack => &VALUE_VALUE,
            Op::Neg
            | Op::Pos
            | Op::Inv
            | Op::Truth
            | Op::Iter
            | Op::Next
            | Op::Call
            | Op::Exc
            | Op::ClassOf => &VALUE,
            Op::Not => &BOOL,
            Op::SetIndex | Op::UnpackStar => &VALUE_VALUE_VALUE,
            Op::Slice => &VALUE_VALUE_VALUE_VALUE,
            Op::Attr | Op::DelAttr | Op::Find | Op::Manager => &VALUE_NAME,
            Op::SetAttr => &VALUE_NAME_VALUE,
            Op::CallX => &VALUE_LIST_KEYWORDS,
            Op::Raise | Op::Trace => &EXCEPTION,
            Op::Match => &EXCEPTION_VALUE,
        }
    }

    /// What the operation takes at any number of further places, if it takes any.
    pub fn further(self) -> Option<ArgumentKind>
        ensures { result ≡ further self }
    {
        match self {
            Op::Func => Some(ArgumentKind::Cell),
            Op::Tuple | Op::List | Op::Call => Some(ArgumentKind::Value),
            _ => None,
        }
    }

    /// The sign of the operation in a script, where it has one.
    pub fn sign(self) -> &'static str
        ensures { result.now ≡ sign_of self }
    {
        match self {
            Op::Add | Op::Pos | Op::IAdd => "+",
            Op::Sub | Op::Neg => "-",
            Op::Mul | Op::IMul => "*",
            Op::FloorDiv => "//",
            Op::Mod => "%",
            Op::Pow => "**",
            Op::LShift => "<<",
            Op::RShift => ">>",
            Op::And => "&",
            Op::Or => "|",
            Op::Xor => "^",
            Op::Inv => "~",
            Op::Lt => "<",
            Op::Le => "<=",
            Op::Gt => ">",
            Op::Ge => ">=",
            _ => "",
        }
    }
}
