//! The registry of a world: who is told of which changes of the journal.

ghost use Rattle.std.specs.Prelude.{◌≡◌, ℕ, ◌<◌, ◌≤◌, Some, ◌==◌, true, false, if◌then◌else◌, length, IfOk, OnOk, OnErr};
ghost use Rattle.rdt_types.specs.declared.address.Address.{Address};
ghost use Rattle.txn_lang.specs.Journals.{IsLegal};
ghost use Rattle.reactive_registry.specs.Registered.{Kept, kept_of, is_subscribed};
ghost use Rattle.docc_prepare.specs.declared.limits.TheConstants.{CLIENTS};
ghost use Rattle.local_world.specs.Stored.{taken_by};
ghost use Rattle.local_world.specs.Standing.{IsFollowing, IsFedBy, with_told};

use change_feed::Feed;
use journal_core::{Journal, MemKeep};
use rdt_types::Address;
use reactive_registry::Registry;
use std::alloc::AllocError;

/// Lets the registry follow the journal to its end. For want of memory all is as before.
fn follow_all(journal: &Journal<MemKeep>, registry: &mut Registry) -> Result<(), AllocError>
    requires legal { IsLegal 0 journal.now.commits }
    requires following { IsFollowing journal.now.commits registry.old }
    ensures following { IsFollowing journal.now.commits registry.new }
    ensures told { (client : ℕ) (a : Address) → is_subscribed registry.new client a ≡ is_subscribed registry.old client a }
    ensures taken { (client : ℕ) → taken_by registry.new client ≡ taken_by registry.old client }
    ensures ok { OnOk result (registry.new.front ≡ length journal.now.commits) }
    ensures as_before { OnErr result (registry.new.front ≡ registry.old.front) }
    ensures err { OnErr result ((client : ℕ) → kept_of registry.new client ≡ kept_of registry.old client) }
{
    let tail = journal.tail_all(registry.front(), journal.length())?;
    registry.follow(&tail)
}

/// Takes what changed at a client's addresses since it took last, up to the journal's end.
pub(crate) fn take_all(
    journal: &Journal<MemKeep>,
    registry: &mut Registry,
    client: u32,
) -> Result<Feed, AllocError>
    requires legal { IsLegal 0 journal.now.commits }
    requires following { IsFollowing journal.now.commits registry.old }
    requires client { client < CLIENTS }
    ensures following { IsFollowing journal.now.commits registry.new }
    ensures told { (c : ℕ) (a : Address) → is_subscribed registry.new c a ≡ is_subscribed registry.old c a }
    ensures feed { IfOk result (λ feed. IsFedBy journal.now.commits registry.old client feed) }
    ensures taken { OnOk result ((c : ℕ) → taken_by registry.new c ≡ (if c == client then length journal.now.commits else taken_by registry.old c)) }
    ensures err { OnErr result ((c : ℕ) → taken_by registry.new c ≡ taken_by registry.old c) }
{
    follow_all(journal, registry)?;
    let feed = registry.take(client)?;
    let _rising = feed.changes().as_slice();
    Ok(feed)
}

/// Up to which commit a client has taken, or the front where it isn't entered.
fn last_taken(registry: &Registry, client: u32) -> u64
    requires { (kept : Kept) → kept_of registry.now client ≡ Some kept → kept.taken ≤ registry.now.front }
    ensures within { result ≤ registry.now.front }
    ensures taken { (kept : Kept) → kept_of registry.now client ≡ Some kept → result ≡ kept.taken }
{
    match registry.taken(client) {
        Some(taken) => taken,
        None => registry.front(),
    }
}

/// Has the changes at an address told to a client, and those since it took last. For want of memory the same are told as
/// before.
pub(crate) fn tell(
    journal: &Journal<MemKeep>,
    registry: &mut Registry,
    client: u32,
    address: &Address,
) -> Result<(), AllocError>
    requires legal { IsLegal 0 journal.now.commits }
    requires following { IsFollowing journal.now.commits registry.old }
    requires client { client < CLIENTS }
    ensures following { IsFollowing journal.now.commits registry.new }
    ensures taken { (c : ℕ) → taken_by registry.new c ≡ taken_by registry.old c }
    ensures told { OnOk result ((c : ℕ) (a : Address) → is_subscribed registry.new c a ≡ with_told registry.old client address.now true c a) }
    ensures err { OnErr result ((c : ℕ) (a : Address) → is_subscribed registry.new c a ≡ is_subscribed registry.old c a) }
{
    let front = registry.front();
    let taken = last_taken(registry, client);
    let missed = journal.tail_of(address, taken, front)?;
    registry.subscribe(client, address, &missed)
}

/// Has the changes at an address told to a client no longer. It is never refused for want of memory.
pub(crate) fn hush(
    journal: &Journal<MemKeep>,
    registry: &mut Registry,
    client: u32,
    address: &Address,
)
    requires following { IsFollowing journal.now.commits registry.old }
    ensures following { IsFollowing journal.now.commits registry.new }
    ensures taken { (c : ℕ) → taken_by registry.new c ≡ taken_by registry.old c }
    ensures told { (c : ℕ) (a : Address) → is_subscribed registry.new c a ≡ with_told registry.old client address.now false c a }
{
    registry.unsubscribe(client, address);
}
