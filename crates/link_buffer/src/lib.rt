//! Links that read ahead. A link that doesn't see the bytes ahead is read byte by byte by `next_line` of dio_core. Over it,
//! one that reads ahead costs a call of the link below for many bytes, and not for each, and gives a line in pieces.
//!
//! Read `specs/Ahead.antt` first: what such a link holds, and what one read gives of it.
#![tactic(auto)]

mod link;
mod listening;

pub use link::{BufferedLink, READ_AHEAD};
pub use listening::BufferedListening;
