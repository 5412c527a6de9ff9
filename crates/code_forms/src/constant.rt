//! Constants and texts.

ghost use Rattle.std.specs.Prelude.{◌≡◌, IfOk, IsUtf8};
ghost use Rattle.code_forms.specs.Fits.{ConstFits};

use nu_text::RcStr;
use op_forms::Const;
use std::alloc::AllocError;

/// The same text for one owner more; it is UTF-8.
pub fn share_text(text: &RcStr) -> Result<RcStr, AllocError>
    ensures is { IfOk result (λ copy. copy ≡ text.now) }
    ensures fits { IfOk result (λ copy. IsUtf8 copy) }
{
    let _characters = text.as_str();
    text.share()
}

/// The same constant for one owner more, which is a value of its type.
pub fn share_constant(constant: &Const) -> Result<Const, AllocError>
    ensures is { IfOk result (λ copy. copy ≡ constant.now) }
    ensures fits { IfOk result (λ copy. ConstFits constant.now) }
{
    match constant {
        Const::None => Ok(Const::None),
        Const::Bool(truth) => Ok(Const::Bool(*truth)),
        Const::Int(number) => Ok(Const::Int(*number)),
        Const::Str(text) => Ok(Const::Str(share_text(text)?)),
    }
}
