//! Tokens.
ghost use Rattle.std.specs.Prelude.{◌≡◌, length};
ghost use Rattle.plain_data.specs.Histories.{IsLawful};

use crate::naming::Naming;
use crate::stands::Stands;
use crate::view::View;
use atomic_table::Seat;
use std::marker::{Model, PhantomData};

/// A token of the lock of the name N: what its holder knows of the lock, whatever others do.
///
/// Contracts see it as a `Known`. Beside three numbers it takes no bytes.
#[derive(Drop)]
pub struct Front<T: Stands, N: Naming> {
    pub(crate) seat: Seat<T, View<T::Entry>>,
    pub(crate) count: u64,
    pub(crate) draws: u64,
    pub(crate) entries: u64,
    pub(crate) lock: PhantomData<N>,
}

impl<T: Stands, N: Naming> Model for Front<T, N> {
    ghost use Rattle.history_lock.specs.declared.known.Known.{Known};

    ghost Value = { Known T.Entry };

    ghost use Rattle.history_lock.specs.Fronts.{IsFront};

    ghost view = { λ f. f.seat.me.0.known };

    ghost invariant = { λ f. IsFront T.may_follow N.lock f.seat f.count f.draws f.entries };
}

impl<T: Stands, N: Naming> Front<T, N> {
    /// How long the prefix seen is.
    pub fn entries(&self) -> u64
        ensures { result ≡ length self.now.seen }
    {
        self.entries
    }

    /// The count known.
    pub fn count(&self) -> u64
        ensures count { result ≡ self.now.count }

        // The prefix of every token is lawful.
        ensures lawful { IsLawful T.may_follow N.lock.base self.now.seen }
    {
        self.count
    }
}
