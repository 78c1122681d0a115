//! The owners that all data of the repository is made of: a [`Sequence`] of items, a [`Text`], which is a sequence of
//! bytes, and a [`Boxed`] value. Contracts see a sequence as the list of its items and a box as the value in it, with
//! no capacity and no pointer, so that a contract can say that data equals what a definition computes.
//!
//! This is the lowest crate: it stands on std alone.
#![tactic(auto)]

mod boxed;
mod copies;
mod or_no_memory;
mod ordered_map;
mod overlay;
mod sequence;
mod text_map;

pub use boxed::Boxed;
pub use copies::{ExactClone, copied};
pub use or_no_memory::OrNoMemory;
pub use ordered_map::OrderedMap;
pub use overlay::Marking;
pub use sequence::{Sequence, Text};
pub use text_map::{TextMap, TextSet};
