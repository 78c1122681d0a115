//! A client far from its store, as a backend: each of its calls is a request, which a caller has answered.
//!
//! Read `specs/Standing.antt` first: what a remote client is, what it stands for, and by what its calls go. `specs/Through.antt`
//! has the law that follows: what a client does over it, it does by its caller's steps.
#![tactic(auto)]

mod asked;
mod given;
mod greeting;
mod laws;
mod remote;

pub use laws::{lost_clients_stay_lost, programs_go_through};
pub use remote::Remote;
