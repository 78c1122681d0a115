//! What a line is answered.

use client_watches::ReplyList;

/// What a line is answered.
#[derive(Debug, Drop, PartialEq, Eq)]
pub enum Turn {
    /// Nothing: the line is blank, or a remark.
    Quiet,
    /// These replies.
    Replies(ReplyList),
    /// The line is to wait, and there is no commit past those that were seen. Once there is one, `Session::waited` does the rest.
    WaitWanted,
    /// These replies, and the session has ended: it is to have no further line.
    Ended(ReplyList),
}
