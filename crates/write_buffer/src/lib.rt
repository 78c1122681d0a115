//! What a body has written, as one delta for each address, and what its reads answer over that. A read looks at what was
//! written first, and then at a value that it is lent. It stands on `conflict_table`, whose laws say that one delta decides,
//! observes and leaves what the body's own operations do; `txn_eval` runs bodies over it.
//!
//! Read first `specs/Asking.antt`: what a read answers, and when it needs the value.
#![tactic(auto)]

mod answering;
mod asked;
mod buffer;
mod keys;
mod observing;

pub use asked::Asked;
pub use buffer::Buffer;
