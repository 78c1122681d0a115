//! Cases of scripts: lines with their replies.

mod case;
mod difference;
mod reading;
mod row;

pub use case::Case;
pub use difference::{Difference, find_difference};
pub use reading::{Reading, ends_case};
