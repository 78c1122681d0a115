//! Ends of links of a program that serves nobody: its own streams as one end, and a listener that gives the one link which was
//! connected.
#![tactic(auto)]

mod connecting;
mod joined;
mod naming;

pub use connecting::Connecting;
pub use joined::Joined;
pub use naming::Naming;
