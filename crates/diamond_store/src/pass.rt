//! What a client carries.

ghost use Rattle.std.specs.Prelude.{◌≡◌, ◌≤◌, length};
ghost use Rattle.rdt_types.specs.declared.limits.TheConstants.{LEAST_SHARDS, MOST_SHARDS};
ghost use Rattle.plain_data.specs.Histories.{IsLawful};
ghost use Rattle.txn_lang.specs.Journals.{IsLegal};
ghost use Rattle.diamond_store.specs.Following.{Follows};

use crate::book::Book;
use history_lock::{Front, Naming};
use journal_core::Keep;
use rdt_types::{Address, Settings};
use std::collections::BTreeSet;
use std::marker::Model;

/// A client's number, its token of the journal, how much of that it has seen, and to what it is subscribed. Contracts see it
/// as a `Passed`.
#[derive(Drop)]
pub struct Pass<K: Keep, N: Naming> {
    pub(crate) client: u32,
    pub(crate) front: Front<Book<K>, N>,
    pub(crate) seen: u64,
    pub(crate) subscribed: BTreeSet<Address>,
    pub(crate) taken: u64,
    pub(crate) denied: u64,
    pub(crate) settings: Settings,
}

impl<K: Keep, N: Naming> Model for Pass<K, N> {
    ghost use Rattle.txn_lang.specs.contracts.commit.Commit as commit;
    ghost use Rattle.rdt_types.specs.contracts.address.Address as address;
    ghost use Rattle.diamond_store.specs.Passes.{Passed, passed_code, passed, IsPass};

    ghost Value = { Passed };

    ghost coded = { passed_code commit.the_row.coded address.the_row.coded };

    ghost view = { λ p. passed N.lock.base p.client p.front p.seen p.subscribed.keys p.taken p.denied p.settings };

    ghost invariant = { λ p. IsPass N.lock.origin N.lock.base p.client p.front p.seen p.taken p.settings };
}

impl<K: Keep, N: Naming> Pass<K, N> {
    /// The client's number.
    pub fn client(&self) -> u32
        ensures { result ≡ self.now.client }
    {
        self.client
    }

    /// How many commits the client has seen. What each pass knows of the journal has the commits with which the store was made,
    /// and each of its commits may follow those before it in a store.
    pub fn seen(&self) -> u64
        ensures seen { result ≡ self.now.seen }
        ensures within { self.now.seen ≤ length self.now.journal }
        ensures legal { IsLegal self.now.trusted self.now.journal }
        ensures kept { self.now.trusted ≤ length self.now.journal }
        ensures lawful { IsLawful Follows self.now.trusted self.now.journal }
    {
        let _known = self.front.count();
        self.seen
    }

    /// How many shards hold the data.
    pub fn shards(&self) -> u8
        ensures shards { result ≡ self.now.shards }
        ensures in_range { (LEAST_SHARDS ≤ result) × (result ≤ MOST_SHARDS) }
    {
        self.settings.shards
    }
}
