//! What an event makes of an attempt.

use docc_prepare::Attempt;
use session_text::Reply;

/// An attempt after an event, and the reply that shows it.
#[derive(Debug, Drop)]
pub enum Moved {
    /// The attempt goes on.
    More(Attempt, Reply),
    /// It has ended.
    End(Attempt, Reply),
}
