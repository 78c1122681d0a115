//! What a line asks for.

use plain_data::Text;
use session_text::Why;
use txn_lang::Checked;

/// What a line asks for, with its body where it has one.
#[derive(Debug, Drop)]
pub enum Line {
    /// Nothing: it is blank, or a remark.
    Quiet,
    /// Nothing that can be done, for this reason.
    Refused(Why),
    /// Opens an attempt.
    Begin(Checked),
    /// One event of the open attempt.
    Step,
    /// Events of the open attempt until its end.
    Go,
    /// So many attempts at most, one after another, until one doesn't end in an abort.
    Try(u8, Checked),
    /// Gives the open attempt up.
    Drop,
    /// A run on all that is seen.
    Look(Checked),
    /// A run on the first so many commits.
    At(u64, Checked),
    /// How many commits were seen.
    Seen,
    /// Watches a body by a name.
    Watch(Text, Checked),
    /// Forgets the watch of a name.
    Unwatch(Text),
    /// Brings all watches up to date.
    Sync,
    /// The same, once there is a commit past those that are seen.
    Wait,
    /// The session's end.
    Quit,
}
