//! What operations are, whatever they do: their names, what they take, the world that they work on and how they end; and
//! which worlds are sound.
#![tactic(auto)]

mod constant;
mod end;
mod laws;
mod op;
mod signature;
mod world;

pub use constant::Const;
pub use end::{After, How, OpEnd};
pub use laws::doings_keep_sound;
pub use op::{OPS, Op};
pub use signature::ArgumentKind;
pub use world::World;
