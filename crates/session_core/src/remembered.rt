//! What is known of the run of an attempt that goes on.

use txn_eval::Pause;
use txn_lang::Run;

/// What is known of an attempt's run between its events, so that nothing of its body is run again.
#[derive(Drop)]
pub(crate) struct Remembered {
    /// The run, where it is done.
    pub ran: Option<Run>,
    /// Where the run has paused.
    pub pause: Pause,
}
