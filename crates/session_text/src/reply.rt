//! What a session answers.

use abort_witness::Witness;
use plain_data::Text;
use rdt_types::{Address, Outcome};

/// A reply to a line.
#[derive(Debug, Drop, PartialEq, Eq)]
pub enum Reply {
    /// The body was committed with this number and outcome.
    Commit(u64, Outcome),
    /// An earlier commit changed what the body saw.
    Abort(Witness),
    /// The address was read as it was after so many commits.
    Read(Address, u64),
    /// The shard was validated up to a front.
    Prepared(u8, u64),
    /// The shard was followed up to a front.
    Followed(u8, u64),
    /// A body that only reads, on the state after so many commits.
    At(u64, Outcome),
    /// A watch ran, on the state after so many commits.
    Ran(Text, u64, Outcome),
    /// All watches hold after so many commits.
    Current(u64),
    /// There is nothing to wait for.
    Idle,
    /// So many commits were seen.
    Seen(u64),
    /// The first number is below the horizon, which is the second.
    Late(u64, u64),
    /// The first number is above the second, which was seen.
    Ahead(u64, u64),
    /// A hold of the client bars the commit: the hold is the commit of this number.
    Held(u32, u64),
    /// The journal holds as many commits as it may.
    Full(u32),
    /// The disk refused the commit.
    Disk,
    /// The attempt or the watch has ended.
    Dropped,
    /// The line is refused.
    Refused(Why),
}

/// Why a line is refused.
#[derive(Clone, Copy, Debug, PartialEq, Eq)]
pub enum Why {
    /// It is too long.
    Long,
    /// It names no client, or one that has quit.
    Client,
    /// It has none of the forms.
    Verb,
    /// Its body is refused by the grammar, at this column.
    Syntax(u32),
    /// Its body is refused by the types, at this column.
    BadType(u32),
    /// Its body writes, at this column, and may only read.
    Writes(u32),
    /// No watch has the name, or one has it already.
    Name,
    /// An attempt is open.
    Busy,
    /// No attempt is open.
    NoAttempt,
}
