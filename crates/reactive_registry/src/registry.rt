//! Who is subscribed to what, and what is pending for whom.

ghost use Rattle.std.specs.Prelude.{◌≡◌, ℕ, true, false, Some, None, IsSome, option_map, IfOk, OnOk, OnErr};
ghost use Rattle.reactive_registry.specs.Registered as spec;
ghost use Rattle.reactive_registry.specs.Registered.{is_address, kept_of, is_subscribed, pending_of, subscribed, Brings, Keeps, DoesTo, DoesToAll, SettlesPair};
ghost use Rattle.reactive_registry.specs.Places.{links, SettlesLink, KeepsLinks};

use crate::maps::put;
use crate::places::Places;
use crate::subscriber::Subscriber;
use crate::telling::tell_or_undo;
use change_feed::{ChangeList, Feed, Tail};
use rdt_types::Address;
use std::alloc::{AllocError, Global};
use std::collections::BTreeMap;
use std::marker::Model;

/// Who is subscribed to what, and what is pending for whom, up to a front.
#[derive(Drop)]
pub struct Registry {
    alloc: Global,
    front: u64,
    subscribers: BTreeMap<u32, Subscriber>,
    places: Places,
}

impl Model for Registry {
    ghost use Rattle.reactive_registry.specs.contracts.subscriber.Subscriber as subscriber;
    ghost use Rattle.reactive_registry.specs.Registered.{Registered, registered_code};
    ghost use Rattle.reactive_registry.specs.Places.{AreLinked};

    ghost Value = { Registered };

    ghost coded = { registered_code subscriber.the_row.coded };

    ghost view = { λ r. record { front = r.front; subscribers = r.subscribers.entries } };

    ghost invariant = { λ r. AreLinked r.front r.subscribers.entries r.places };
}

/// Subscribes in both directions. For want of memory neither changes.
fn subscribe_pair(
    kept: &mut Subscriber,
    places: &mut Places,
    subscriber: u32,
    address: &Address,
    missed: &ChangeList,
) -> Result<(), AllocError>
    requires { links places.old address.now subscriber ≡ is_address kept.old address.now }
    ensures kept { OnOk result (kept.new ≡ spec.subscribed address.now missed.now kept.old) }
    ensures has { OnOk result (spec.SettlesAddress address.now true kept.old kept.new) }
    ensures places { OnOk result (SettlesLink address.now subscriber true places.old places.new) }
    ensures as_kept { OnErr result (kept.new ≡ kept.old) }
    ensures as_placed { OnErr result (KeepsLinks places.old places.new) }
{
    if kept.has(address) {
        return Ok(());
    }
    places.link(address, subscriber)?;
    let added = kept.subscribe(address, missed);
    if added.is_err() {
        places.unlink(address, subscriber);
    }
    added
}

impl Registry {
    /// Nobody has entered. It is never refused for want of memory.
    pub fn new(alloc: Global, front: u64) -> Registry
        ensures { result ≡ spec.empty front }
    {
        Registry {
            alloc,
            front,
            subscribers: BTreeMap::new(alloc),
            places: Places::new(alloc),
        }
    }

    /// The number up to which it has followed the journal.
    pub fn front(&self) -> u64
        ensures { result ≡ self.now.front }
    {
        self.front
    }

    /// The number up to which a subscriber has taken, or that of its entry; nothing exactly where it isn't entered.
    pub fn taken(&self, subscriber: u32) -> Option<u64>
        ensures { result ≡ option_map (λ kept. kept.taken) (kept_of self.now subscriber) }
    {
        match self.subscribers.get(&subscriber) {
            Some(kept) => Some(kept.taken()),
            None => None,
        }
    }

    /// Whether a subscriber is subscribed to an address.
    pub fn has(&self, subscriber: u32, address: &Address) -> bool
        ensures { result ≡ is_subscribed self.now subscriber address.now }
    {
        match self.subscribers.get(&subscriber) {
            Some(kept) => kept.has(address),
            None => false,
        }
    }

    /// Enters a subscriber without addresses, which is told of what comes past the answered number.
    pub fn enter(&mut self, subscriber: u32) -> Result<u64, AllocError>
        requires { kept_of self.old subscriber ≡ None }
        ensures answer { IfOk result (λ n. n ≡ self.old.front) }
        ensures front { self.new.front ≡ self.old.front }
        ensures ok { OnOk result (Keeps subscriber (Some (spec.entered self.old.front)) self.old self.new) }
        ensures err { OnErr result (self.new ≡ self.old) }
    {
        let kept = Subscriber::new(self.alloc, self.front);
        put(&mut self.subscribers, subscriber, kept)?;
        Ok(self.front)
    }

    /// Lets a subscriber go, with all that was kept of it. It is never refused for want of memory.
    pub fn leave(&mut self, subscriber: u32)
        ensures front { self.new.front ≡ self.old.front }
        ensures gone { Keeps subscriber None self.old self.new }
    {
        if let Some(gone) = self.subscribers.remove(&subscriber) {
            self.places.drop_subscriber(gone.addresses(), subscriber);
        }
    }

    /// Subscribes to an address, of which the subscriber missed changes since the number that it took last. Where it is
    /// subscribed, nothing changes.
    pub fn subscribe(
        &mut self,
        subscriber: u32,
        address: &Address,
        missed: &Tail,
    ) -> Result<(), AllocError>
        requires entered { IsSome (kept_of self.old subscriber) }
        requires missed { missed.now.to ≡ self.old.front }
        ensures front { self.new.front ≡ self.old.front }
        ensures ok { OnOk result (DoesTo subscriber
            (subscribed address.now missed.now.changes) self.old self.new) }
        ensures told { OnOk result (SettlesPair subscriber address.now true self.old self.new) }
        ensures err { OnErr result ((s : ℕ) → kept_of self.new s ≡ kept_of self.old s) }
    {
        match self.subscribers.get_mut(&subscriber) {
            None => Ok(()),
            Some(kept) => subscribe_pair(
                kept,
                &mut self.places,
                subscriber,
                address,
                &missed.changes,
            ),
        }
    }

    /// Unsubscribes from an address, and forgets what is pending there. It answers whether the pair was there, and takes no
    /// memory.
    pub fn unsubscribe(&mut self, subscriber: u32, address: &Address) -> bool
        ensures answer { result ≡ is_subscribed self.old subscriber address.now }
        ensures told { SettlesPair subscriber address.now false self.old self.new }
        ensures front { self.new.front ≡ self.old.front }
        ensures gone { DoesTo subscriber (spec.unsubscribed address.now) self.old self.new }
    {
        match self.subscribers.get_mut(&subscriber) {
            None => false,
            Some(kept) => {
                let was = kept.has(address);
                kept.unsubscribe(address);
                self.places.unlink(address, subscriber);
                was
            }
        }
    }

    /// Follows the journal from the front to where a tail goes: each subscriber has the tail's changes at its addresses to
    /// take, after those that it had. The cost is that of the changes times the subscribers of their addresses.
    pub fn follow(&mut self, tail: &Tail) -> Result<(), AllocError>
        requires { tail.now.from ≡ self.old.front }
        ensures front { OnOk result (self.new.front ≡ tail.now.to) }
        ensures ok { OnOk result (DoesToAll (spec.told tail.now.changes) self.old self.new) }
        ensures as_before { OnErr result (self.new.front ≡ self.old.front) }
        ensures err { OnErr result ((s : ℕ) → kept_of self.new s ≡ kept_of self.old s) }
    {
        tell_or_undo(
            &mut self.subscribers,
            &self.places,
            &tail.changes,
            self.front,
        )?;
        self.front = tail.to;
        Ok(())
    }

    /// What is pending for a subscriber up to the front, which counts as taken then.
    pub fn take(&mut self, subscriber: u32) -> Result<Feed, AllocError>
        requires { IsSome (kept_of self.old subscriber) }
        ensures to { IfOk result (λ feed. feed.to ≡ self.old.front) }
        ensures pending { IfOk result (λ feed. Brings feed (pending_of self.old subscriber)) }
        ensures front { self.new.front ≡ self.old.front }
        ensures ok { OnOk result (DoesTo subscriber (spec.emptied self.old.front) self.old self.new) }
        ensures err { OnErr result ((s : ℕ) → kept_of self.new s ≡ kept_of self.old s) }
    {
        let Some(kept) = self.subscribers.get_mut(&subscriber) else {
            return Ok(Feed::new(self.alloc, self.front));
        };
        let feed = kept.feed(self.alloc, self.front)?;
        kept.empty(self.front);
        Ok(feed)
    }
}
