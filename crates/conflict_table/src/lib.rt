//! What a read of a value answers, and what it observes: the part of a value that its answer rests on; and which deltas
//! clash with an observation, so that a commit beside it is refused. It stands on `rdt_types`, and all that runs bodies or
//! validates commits stands on it.
//!
//! Read first `specs/Clashes.antt`, the table of clashes with one line a row, and `specs/Laws.antt`, what the table
//! promises. `specs/Observing.antt` says what an observation answers, `specs/Parts.antt` which part of a delta is named
//! where it clashes, and `specs/Reads.antt` which reads a body's own writes decide, and what the others observe.
#![tactic(auto)]

mod answer;
mod laws;
mod lent;
mod naming;
mod observation;
mod observing;
mod read;
mod steps;
mod table;

pub use answer::Answer;
pub use laws::{
    clashes_have_parts, clashes_show_changes, compositions_clash_by_parts, fits_again,
    no_clash_no_change, parts_clash_alone, reads_go_by_compositions, reads_rest_on_observations,
};
pub use lent::{Part, copy_part};
pub use naming::part;
pub use observation::Obs;
pub use observing::{counter_in, has_element, is_over, observe, peak_in};
pub use read::ReadOp;
pub use steps::Steps;
pub use table::clash;
