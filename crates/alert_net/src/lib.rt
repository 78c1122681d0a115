//! A network whose connections look for bytes some times before their thread sleeps.
//!
//! Who talks to a client that answers at once finds its next bytes by one of these looks. To sleep and be woken takes longer
//! than that, and whoever wakes a thread pays for it, too.
#![tactic(auto)]

mod listener;
mod net;
mod stream;

pub use listener::AlertListener;
pub use net::AlertNet;
pub use stream::AlertStream;
