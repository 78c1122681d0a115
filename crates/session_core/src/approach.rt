//! Where the events of an attempt come to, short of its append.

use abort_witness::BasedList;
use session_text::Reply;
use txn_lang::Run;

/// The run of an attempt whose append is next.
#[derive(Drop)]
pub(crate) struct LastRun {
    pub run: Run,
    /// All that it observed, with bases, where that is at hand.
    pub based: Option<BasedList>,
}

/// Where an attempt has come to.
#[derive(Drop)]
pub(crate) enum Approach {
    /// It has ended with this reply.
    End(Reply),
    /// The append of this run is next.
    Append(LastRun),
}
