//! What a line asks for, before its body is read.

use crate::line::Line;
use plain_data::Text;

/// What the body of a line is for.
#[derive(Debug, Drop)]
pub(crate) enum Purpose {
    /// `begin`.
    Begin,
    /// `do` and `try`: so many attempts at most.
    Try(u8),
    /// `look`.
    Look,
    /// `at` a number.
    At(u64),
    /// `watch` by a name.
    Watch(Text),
}

/// What a line asks for, before its body is read.
#[derive(Debug, Drop)]
pub(crate) enum Form {
    /// What needs no body.
    Plain(Line),
    /// What needs one, which is this text.
    WithBody(Purpose, Text),
}
