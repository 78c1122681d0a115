//! What the journal decides, with the witness of a clash.

ghost use Rattle.std.specs.Prelude.{◌≡◌};
ghost use Rattle.diamond_store.specs.Books.{denials_after};

use abort_witness::Witness;
use journal_core::Barred;

/// The journal's decision. The tests stand in the order clash, held, full, denied; a number is what is left.
#[derive(Debug, Drop)]
pub enum Decision {
    /// The commit was added, and has this number.
    Number(u64),
    /// A commit past the prepared fronts clashes with an observation.
    Clash(Witness),
    /// A live hold of another client bars the commit.
    Held(Barred),
    /// The journal has as many commits as its limit, which is named.
    Full(u32),
    /// The keeper failed, and counted it.
    Denied,
}

/// A count of denials after a decision.
pub(crate) fn counted(decision: &Decision, denials: u64) -> u64
    ensures { result ≡ denials_after denials decision.now }
{
    match decision {
        Decision::Denied => denials.saturating_add(1),
        _ => denials,
    }
}
