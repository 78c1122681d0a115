//! Cases of audits: lists of commits, which are audited here, and files.

mod auditing;
mod case;
mod commits;
mod reading;
mod row;

pub use auditing::{Ended, Ending, Found};
pub use case::{Case, Given};
pub use reading::Reading;
pub use row::Act;
