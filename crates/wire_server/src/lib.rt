//! Clients far from a store are served over links. The requests of one client (`remote_wire`) come in frames (`wire_frames`) of a
//! link; a service (`remote_service`) answers each by at most one call of the client's backend, and the answer goes out as a frame
//! before the next request is read.
//!
//! Read `specs/Talking.antt` first, which says what it is that requests are answered one after another, and then `Promises` of
//! `specs/Promises.antt`, which says what is promised at each status.
#![tactic(auto)]

mod link;
mod serving;
mod serving_all;
mod status;

pub use serving::serve_wire;
pub use serving_all::{Requests, serve_all_wire};
pub use status::{MALFORMED, MOST_REQUESTS, TOO_MANY_REQUESTS};
