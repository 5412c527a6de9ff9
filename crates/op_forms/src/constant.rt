//! Constants.

use nu_text::RcStr;

/// A constant of the C text.
#[derive(Drop)]
pub enum Const {
    None,
    Bool(bool),
    Int(i128),
    Str(RcStr),
}
