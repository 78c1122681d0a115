//! The store's side of a remote client: it answers the bytes of requests by calls of a backend, and by no more than what each
//! request means.
//!
//! Read first `specs/Malformed.antt` (what a request means, or that it is malformed), `specs/Anew.antt` (what is handed on of an
//! append: its body is run again), and `specs/Serving.antt` (what is promised of each answer), and then `Service::answer`.
#![tactic(auto)]

mod anew;
mod answer;
mod body;
mod error;
mod forms;
mod handing;
mod keeping;
mod kept;
mod refusing;
mod responding;
mod service;
mod telling;
mod valid;

pub use error::ServiceError;
pub use kept::{KeptFront, KeptSnap};
pub use service::Service;
