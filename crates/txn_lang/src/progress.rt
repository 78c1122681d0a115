//! A run under way: what stops it, and how far it has come. The rules are stated over these types, and what runs bodies
//! keeps them.

ghost use Rattle.std.specs.Prelude.{◌≡◌};

use plain_data::Text;
use rdt_types::{Address, ItemList};
use std::alloc::AllocError;

/// What ends a run before its end.
#[derive(Debug, Drop)]
pub enum Stop {
    /// The value at an address is wanted.
    Need(Address),
    /// The body fails with this text.
    Fail(Text),
    /// The ticks are spent.
    Spent,
    /// Something is too large.
    Big,
    /// No rule says this: the code has no memory to go on.
    NoMemory,
}

impl From<AllocError> for Stop {
    ghost use Rattle.std.specs.Prelude.{◌≡◌};
    ghost use Rattle.txn_lang.specs.declared.progress.Stop.TheVariants.{NoMemory};

    ghost from_gives = { λ _ stop. stop ≡ NoMemory };

    fn from(_error: AllocError) -> Stop {
        Stop::NoMemory
    }
}

/// How far a run has come. What it has read and written is in its memory.
#[derive(Debug, Drop)]
pub struct Progress<M> {
    pub memory: M,
    pub emitted: ItemList,
    /// The ticks that were charged.
    pub ticks: u64,
    /// What was emitted and written, as it counts towards the limit.
    pub load: u64,
}
