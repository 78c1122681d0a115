//! Who is linked to what: edges of a subscriber and a place, each in two doubly linked lists by index. So a pair is linked
//! and unlinked at a cost that doesn't grow with what else is linked, and a walk sees the linked pairs of its place or its
//! subscriber alone, in the order of linking.
//!
//! Read first `specs/Edges.antt` (what contracts see, and what each call does to it) and `specs/Laws.antt` (the walks are
//! exactly the pairs that were linked and not unlinked). The lists themselves are `specs/Chains.antt`.
#![tactic(auto)]

mod chains;
mod edges;
mod laws;
mod links;
mod walk;

pub use edges::EdgeSlab;
pub use laws::{drops_keep_order, links_keep_order, unlinks_keep_order};
pub use walk::Walk;
