//! A store's journal before its lock has a name.

ghost use Rattle.std.specs.Prelude.{◌≡◌, ◌+◌, ◌<◌, ◌≤◌, max, length, IfOk, IfSome};
ghost use Rattle.history_lock.specs.declared.limits.TheConstants.{LAST_FIRST};
ghost use Rattle.history_lock.specs.Entries.{NamesBelow};
ghost use Rattle.history_lock.specs.Tokens.{newborn};
ghost use Rattle.plain_data.specs.Histories.{IsLawful};
ghost use Rattle.diamond_store.specs.Appending.{client_of};
ghost use Rattle.diamond_store.specs.Following.{Follows};
ghost use Rattle.diamond_store.specs.Numbers.{faults_in, from_in, home_in, HasSettings};
ghost use Rattle.diamond_store.specs.Opening as opening;
ghost use Rattle.diamond_store.specs.Opening.{AreClients};

use crate::book::Book;
use history_lock::Opened;
use journal_core::Keep;
use rdt_types::Settings;
use std::alloc::{AllocError, Global};
use txn_lang::{Commit, CommitList};

/// A number that is past a client, and no less than another number.
fn past_both(past: u32, client: u32) -> u32
    requires room { client < LAST_FIRST }
    requires small { past ≤ LAST_FIRST }
    ensures greater { result ≡ max past (client + 1) }
    ensures past { past ≤ result }
    ensures client { client < result }
    ensures small { result ≤ LAST_FIRST }
{
    if client < past { past } else { client + 1 }
}

/// The number past the clients of some commits, or 0.
fn past_clients(kept: &[Commit]) -> u32
    requires { AreClients kept.now }
    ensures greatest { result ≡ opening.past_clients kept.now }
    ensures below { NamesBelow client_of result kept.now }
    ensures small { result ≤ LAST_FIRST }
{
    let mut past = 0;
    for commit in kept {
        past = past_both(past, commit.client);
    }
    past
}

/// The journal of a store, of the commits that its keeper has kept, under a lock that has no name yet. Pass it, with `Brand` as
/// the name, to a function that makes the `Store`. New clients are numbered past those of the kept commits.
pub fn open<K: Keep>(
    alloc: Global,
    settings: &Settings,
    keeper: K,
    kept: CommitList,
) -> Result<Opened<Book<K>>, AllocError>
    requires lawful { IsLawful Follows (length kept) kept }
    requires clients { AreClients kept }
    requires told { IfSome (K.kept keeper) (λ list. list ≡ kept) }
    ensures front { IfOk result (λ opened. opened.front ≡ newborn kept 0) }
    ensures base { IfOk result (λ opened. opened.lock.base ≡ length kept) }
    ensures settings { IfOk result (λ opened. HasSettings opened.lock.origin settings.now) }
    ensures from { IfOk result (λ opened. from_in opened.lock.origin ≡ opened.lock.base) }
    ensures faults { IfOk result (λ opened. faults_in opened.lock.origin ≡ K.keep_faults keeper) }
    ensures home { IfOk result (λ opened. home_in opened.lock.origin ≡ K.home keeper) }
    ensures first { IfOk result (λ opened. opened.lock.first ≡ opening.past_clients kept) }
    ensures clients { IfOk result (λ opened. NamesBelow client_of opened.lock.first kept) }
{
    let first = past_clients(kept.as_slice());
    let book = Book::new(alloc, settings, keeper, kept)?;
    Opened::new(alloc, book, first)
}
