//! Values, objects and the heap: what a running script computes with.
#![tactic(auto)]

mod boxed;
mod entries;
mod header;
mod heap;
mod integer;
mod key;
mod keyed;
mod link;
mod names;
mod natives;
mod object;
mod pairs;
mod ranges;
mod same;
mod sequence;
mod value;

pub use boxed::Boxed;
pub use entries::{Entries, Entry};
pub use header::{Codes, Header, ParamKind, Shape};
pub use heap::Heap;
pub use integer::Integer;
pub use key::{Atom, Key};
pub use keyed::{KeyEnd, key_of};
pub use link::Link;
pub use names::Names;
pub use natives::{NATIVES, Native};
pub use object::{GenState, Object, ViewKind};
pub use pairs::Pairs;
pub use ranges::range_len;
pub use same::{Sameness, equality_is_an_equivalence, object_of, same_value, same_within};
pub use sequence::{Items, Sequence, Slots};
pub use value::Value;
