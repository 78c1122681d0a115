//! Cases of the journal in a file: what bytes it has, what sessions say over it and at which calls the disk fails. Files are
//! recovered here, over a disk in memory that gives each image which a crash may leave, and fails at named calls.

mod attempt;
mod case;
mod difference;
mod lines;
mod reading;
mod recovering;
mod refusing;
mod row;
mod session;
mod stage;
mod talk;

pub use attempt::Attempt;
pub use case::Case;
pub use difference::{Difference, Found};
pub use reading::Reading;
pub use recovering::as_it_reads;
pub use refusing::Refused;
pub use row::Act;
pub use session::{Aim, Session};
pub use stage::{Stage, WORDS};
pub use talk::Talk;
