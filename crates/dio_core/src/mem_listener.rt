//! A listener in memory, which tells the links that are left and those that were given back.

ghost use Rattle.std.specs.Prelude.{◌≡◌, [], OnOk, OnErr, Some};
ghost use Rattle.dio_core.specs.Listeners.{Accepts, accept_failed};
ghost use Rattle.dio_core.specs.Listening.{Hands, with_back};
ghost use Rattle.dio_core.specs.Memory.{plan_of, CountsIn};

use crate::listener::{Accepted, Listener};
use crate::memory::{FaultPlan, MemLink};
use plain_data::Sequence;
use std::alloc::{AllocError, Global};
use std::marker::Model;

/// Links in memory, in their order.
pub type MemLinks = Sequence<MemLink>;

/// Links that were given back, each with its status.
pub type MemBacks = Sequence<(MemLink, u8)>;

/// Hands links out in order, and keeps what is given back.
#[derive(Drop)]
pub struct MemListener {
    left: MemLinks,
    back: MemBacks,
    plan: FaultPlan,
}

impl Model for MemListener {
    ghost use Rattle.dio_core.specs.Listening.{Hall};
    ghost use Rattle.dio_core.specs.declared.memory.MemLink.{MemLink};

    ghost Value = { Hall MemLink };

    ghost view = { λ l. record { left = l.left; back = l.back; plan = l.plan } };
}

impl MemListener {
    /// A listener for these links, which never fails.
    pub fn new(alloc: Global, links: MemLinks) -> MemListener
        ensures left { result.left ≡ links }
        ensures back { result.back ≡ [] }
        ensures plan { result.plan ≡ plan_of [] }
    {
        MemListener::failing(alloc, links, FaultPlan::never(alloc))
    }

    /// A listener for these links, whose accepts fail as the plan says.
    pub fn failing(alloc: Global, links: MemLinks, plan: FaultPlan) -> MemListener
        ensures left { result.left ≡ links }
        ensures back { result.back ≡ [] }
        ensures plan { result.plan ≡ plan }
    {
        MemListener {
            left: links,
            back: MemBacks::new(alloc),
            plan,
        }
    }

    /// The links that were given back, in the order of giving.
    pub fn back(&self) -> &MemBacks
        ensures { result.now ≡ self.now.back }
    {
        &self.back
    }
}

impl Listener for MemListener {
    type Link = MemLink;

    ghost links = { λ l. Some l.left };

    ghost given_back = { λ l. Some l.back };

    ghost accept_faults = { λ l. l.plan.faults };

    fn accept(&mut self) -> Accepted<MemLink>
        ensures accepts { Accepts result (Some self.old.left) (Some self.new.left) }
        ensures same { Some self.new.back ≡ Some self.old.back }
        ensures counted { CountsIn (accept_failed result) self.old.plan self.new.plan }
        ensures exact { Hands result self.old self.new }
    {
        if self.plan.begin_call() {
            return Accepted::Failed;
        }
        if self.left.is_empty() {
            return Accepted::NoMore;
        }
        Accepted::Link(self.left.remove(0))
    }

    fn give_back(&mut self, link: MemLink, status: u8) -> Result<(), AllocError>
        ensures ok { OnOk result (self.new ≡ with_back link status self.old) }
        ensures err { OnErr result (self.new ≡ self.old) }
    {
        self.back.push((link, status))
    }

    fn accept_faults(&self) -> u64 {
        self.plan.faults()
    }
}
