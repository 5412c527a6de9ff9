//! The rows of the table on texts: operators, characters, slices and parts; the methods of texts, and natives on texts.
#![tactic(auto)]

mod apply;
mod calls;
mod items;
mod joins;
mod laws;
mod methods;
mod numerals;
mod parts;
mod quoting;
mod rows;

pub use apply::apply_text;
pub use calls::call_text;
pub use items::text_item;
pub use joins::join_after;
pub use laws::{cut_texts_join_again, texts_are_characters};
pub use quoting::show_call;
