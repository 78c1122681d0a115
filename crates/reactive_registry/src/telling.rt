//! The walk over changes and the subscribers of their addresses.

ghost use Rattle.std.specs.Prelude.{◌≡◌, ℕ, OnOk, OnErr};
ghost use Rattle.std.specs.Ordering.{nat_cmp};
ghost use Rattle.std.specs.BTreeMap.{is_at};
ghost use Rattle.edge_slab.specs.Edges.{is_linked as has_edge};
ghost use Rattle.reactive_registry.specs.Registered.{kept_in};
ghost use Rattle.reactive_registry.specs.Places.{links, HaveFollowed};
ghost use Rattle.reactive_registry.specs.code.Telling.{told_where, ArePast, AllSame, SameBut, SameElsewhere, SameBefore, SameBeforeAll, CutWhere, AreTold, AreCut};

use crate::places::Places;
use crate::subscriber::Subscriber;
use change_feed::{Change, ChangeList};
use edge_slab::EdgeSlab;
use std::alloc::AllocError;
use std::collections::BTreeMap;

/// Tells one subscriber of a change.
fn tell_one(
    subscribers: &mut BTreeMap<u32, Subscriber>,
    subscriber: u32,
    change: &Change,
) -> Result<(), AllocError>
    ensures ok { OnOk result ((q : ℕ) → kept_in subscribers.new.entries q
        ≡ told_where (is_at (nat_cmp subscriber) q) change.now (kept_in subscribers.old.entries q)) }
    ensures err { OnErr result (AllSame subscribers.old subscribers.new) }
{
    match subscribers.get_mut(&subscriber) {
        Some(kept) => kept.push(change),
        None => Ok(()),
    }
}

/// Forgets the changes past a front that one subscriber was told.
fn cut_one(subscribers: &mut BTreeMap<u32, Subscriber>, subscriber: u32, front: u64)
    ensures { CutWhere (is_at (nat_cmp subscriber)) front subscribers.old subscribers.new }
{
    if let Some(kept) = subscribers.get_mut(&subscriber) {
        kept.cut(front);
    }
}

/// Tells each subscriber that is linked to a number of a change. For want of memory some may be told and others not.
fn tell_number(
    subscribers: &mut BTreeMap<u32, Subscriber>,
    edges: &EdgeSlab,
    number: u32,
    change: &Change,
) -> Result<(), AllocError>
    ensures ok { OnOk result ((q : ℕ) → kept_in subscribers.new.entries q
        ≡ told_where (has_edge edges.now q number) change.now (kept_in subscribers.old.entries q)) }
    ensures behind { SameBefore change.now subscribers.old subscribers.new }
    ensures elsewhere { SameBut (λ q. has_edge edges.now q number) subscribers.old subscribers.new }
{
    for subscriber in edges.walk_address(number) {
        tell_one(subscribers, subscriber, change)?;
    }
    Ok(())
}

/// Forgets the changes past a front that the subscribers that are linked to a number were told.
fn cut_number(
    subscribers: &mut BTreeMap<u32, Subscriber>,
    edges: &EdgeSlab,
    number: u32,
    front: u64,
)
    ensures { CutWhere (λ q. has_edge edges.now q number) front subscribers.old subscribers.new }
{
    for subscriber in edges.walk_address(number) {
        cut_one(subscribers, subscriber, front);
    }
}

/// Tells the subscribers of a change's address of it. For want of memory some may be told and others not.
fn tell_linked(
    subscribers: &mut BTreeMap<u32, Subscriber>,
    places: &Places,
    change: &Change,
) -> Result<(), AllocError>
    ensures ok { OnOk result ((q : ℕ) → kept_in subscribers.new.entries q
        ≡ told_where (links places.now change.now.address q) change.now (kept_in subscribers.old.entries q)) }
    ensures behind { SameBefore change.now subscribers.old subscribers.new }
    ensures elsewhere { SameBut (links places.now change.now.address) subscribers.old subscribers.new }
{
    match places.number(&change.address) {
        Some(number) => tell_number(subscribers, places.edges(), number, change),
        None => Ok(()),
    }
}

/// Forgets the changes past a front that the subscribers of a change's address were told.
fn cut_linked(
    subscribers: &mut BTreeMap<u32, Subscriber>,
    places: &Places,
    change: &Change,
    front: u64,
)
    ensures { CutWhere (links places.now change.now.address) front subscribers.old subscribers.new }
{
    if let Some(number) = places.number(&change.address) {
        cut_number(subscribers, places.edges(), number, front);
    }
}

/// Tells each subscriber of those of a piece of changes that are at its addresses. For want of memory some may be told and others not.
fn tell_piece(
    subscribers: &mut BTreeMap<u32, Subscriber>,
    places: &Places,
    piece: &[Change],
) -> Result<(), AllocError>
    ensures ok { OnOk result (AreTold places.now piece.now subscribers.old subscribers.new) }
    ensures behind { SameBeforeAll piece.now subscribers.old subscribers.new }
    ensures elsewhere { SameElsewhere places.now piece.now subscribers.old subscribers.new }
{
    for change in piece {
        tell_linked(subscribers, places, change)?;
    }
    Ok(())
}

/// Forgets the changes past a front that the subscribers of the addresses of a piece of changes were told.
fn cut_piece(
    subscribers: &mut BTreeMap<u32, Subscriber>,
    places: &Places,
    piece: &[Change],
    front: u64,
)
    ensures { AreCut places.now front piece.now subscribers.old subscribers.new }
{
    for change in piece {
        cut_linked(subscribers, places, change, front);
    }
}

/// Tells each subscriber of the changes at its addresses. For want of memory some may be told and others not.
fn tell_all(
    subscribers: &mut BTreeMap<u32, Subscriber>,
    places: &Places,
    changes: &ChangeList,
) -> Result<(), AllocError>
    ensures ok { OnOk result (AreTold places.now changes.now subscribers.old subscribers.new) }
    ensures behind { SameBeforeAll changes.now subscribers.old subscribers.new }
    ensures elsewhere { SameElsewhere places.now changes.now subscribers.old subscribers.new }
{
    let mut rest = changes.lend();
    while let Some(piece) = rest.next_piece() {
        tell_piece(subscribers, places, piece)?;
    }
    Ok(())
}

/// Forgets the changes past a front that the subscribers of some changes' addresses were told.
fn cut_all(
    subscribers: &mut BTreeMap<u32, Subscriber>,
    places: &Places,
    changes: &ChangeList,
    front: u64,
)
    ensures { AreCut places.now front changes.now subscribers.old subscribers.new }
{
    let mut rest = changes.lend();
    while let Some(piece) = rest.next_piece() {
        cut_piece(subscribers, places, piece, front);
    }
}

/// Tells each subscriber of the changes at its addresses, all past a front. For want of memory all is as before.
pub(crate) fn tell_or_undo(
    subscribers: &mut BTreeMap<u32, Subscriber>,
    places: &Places,
    changes: &ChangeList,
    front: u64,
) -> Result<(), AllocError>
    requires past { ArePast front changes.now }
    requires followed { HaveFollowed front subscribers.old.entries }
    ensures ok { OnOk result (AreTold places.now changes.now subscribers.old subscribers.new) }
    ensures err { OnErr result (AllSame subscribers.old subscribers.new) }
{
    let told = tell_all(subscribers, places, changes);
    if told.is_err() {
        cut_all(subscribers, places, changes, front);
    }
    told
}
