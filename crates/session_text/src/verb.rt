//! What a line asks for.

use plain_data::Text;

/// What a line asks for. A body is the text from its first byte that is no blank to the line's end, blanks at its end
/// included, since columns count them; a line whose body is missing has an empty one.
#[derive(Debug, Drop, PartialEq, Eq)]
pub enum Verb {
    /// Runs a body and commits it.
    Do(Text),
    /// The same, in up to so many attempts.
    Try(u8, Text),
    /// Opens an attempt with a body.
    Begin(Text),
    /// Takes the next step of the attempt.
    Step,
    /// Takes all steps of the attempt.
    Go,
    /// Ends the attempt.
    Drop,
    /// Brings the watches up to date.
    Sync,
    /// The same, once there is something new.
    Wait,
    /// Asks for the number that was seen.
    Seen,
    /// Ends the session.
    Quit,
    /// Runs a body that only reads.
    Look(Text),
    /// The same, on the state after so many commits.
    At(u64, Text),
    /// Watches a body by a name.
    Watch(Text, Text),
    /// Ends the watch of a name.
    Unwatch(Text),
}

/// Why a line was not read.
#[derive(Clone, Copy, Debug, PartialEq, Eq)]
pub enum VerbError {
    /// It has none of the forms.
    BadVerb,
    NoMemory,
}
