//! Subscribers that come, take and go at different times, with ample memory. A test is a list of moves, each of which answers
//! whether it went as it should.

ghost use Rattle.std.specs.Prelude.{◌≡◌, ◌≤◌, ◌+◌, IfOk};

use change_feed::{Change, ChangeList, Feed, Tail};
use plain_data::Text;
use rdt_types::{Address, Delta, KeyedDelta, Kind};
use reactive_registry::Registry;
use std::alloc::{AllocError, Global};

/// What a commit does: to the counter `x` it adds, and in the set `s` it marks an element as there, or clears.
#[derive(Clone, Copy)]
enum Write {
    Add(i64),
    Mark(&'static [u8]),
    Clear,
}

/// What is done with a registry, or seen of it.
#[derive(Clone, Copy)]
enum Move {
    /// A subscriber comes, if it isn't there, and subscribes to the counter.
    Watch(u32),
    /// The same to the set.
    WatchSet(u32),
    /// A commit adds to the counter, or in the set marks an element, or clears.
    Add(i64),
    Mark(&'static [u8]),
    Clear,
    /// A subscriber takes this addition to the counter, or none.
    Takes(u32, Option<i64>),
    /// A subscriber takes a clear of the set, and then the addition of this element alone.
    TakesClearAnd(u32, &'static [u8]),
    /// Whether a subscriber has the counter.
    Has(u32, bool),
    /// Whether the counter was there to be unsubscribed.
    Unsubscribe(u32, bool),
    Leave(u32),
    /// Up to which number a subscriber that is there took last.
    Taken(u32, Option<u64>),
    Front(u64),
}

/// The counter `x` or the set `s`.
fn address_of(alloc: Global, kind: Kind) -> Result<Address, AllocError> {
    let key = match kind {
        Kind::Counter => b"x".as_slice(),
        _ => b"s".as_slice(),
    };
    Ok(Address {
        kind,
        key: Text::from_slice(alloc, key)?,
    })
}

fn kind_of(write: Write) -> Kind {
    match write {
        Write::Add(_) => Kind::Counter,
        Write::Mark(_) | Write::Clear => Kind::Set,
    }
}

fn delta_of(alloc: Global, write: Write) -> Result<Delta, AllocError> {
    Ok(match write {
        Write::Add(by) => Delta::AddCounter(by),
        Write::Mark(element) => {
            let element = Text::from_slice(alloc, element)?;
            Delta::Set(KeyedDelta::marking(alloc, &element, true)?)
        }
        Write::Clear => Delta::Set(KeyedDelta::clearing(alloc)),
    })
}

/// What the commit of a number does.
fn change_of(alloc: Global, number: u64, write: Write) -> Result<Change, AllocError>
    ensures { IfOk result (λ change. change.number ≡ number) }
{
    let address = address_of(alloc, kind_of(write))?;
    Ok(Change {
        number,
        address,
        delta: delta_of(alloc, write)?,
    })
}

/// The tail of the commit behind a number.
fn tail_of(alloc: Global, from: u64, write: Write) -> Result<Tail, AllocError>
    requires { from ≤ 100 }
    ensures { IfOk result (λ tail. tail.from ≡ from) }
{
    let to = from + 1;
    let mut changes = ChangeList::new(alloc);
    changes.push(change_of(alloc, to, write)?)?;
    Ok(Tail { from, to, changes })
}

fn commit(registry: &mut Registry, alloc: Global, write: Write) -> bool {
    let from = registry.front();
    if from > 100 {
        return false;
    }
    match tail_of(alloc, from, write) {
        Ok(tail) => registry.follow(&tail).is_ok(),
        Err(_) => false,
    }
}

/// Whether a subscriber is there, or comes.
fn is_there(registry: &mut Registry, subscriber: u32) -> bool {
    registry.taken(subscriber).is_some() || registry.enter(subscriber).is_ok()
}

fn watch(registry: &mut Registry, alloc: Global, subscriber: u32, kind: Kind) -> bool {
    let Ok(address) = address_of(alloc, kind) else {
        return false;
    };
    if !is_there(registry, subscriber) || registry.taken(subscriber).is_none() {
        return false;
    }
    let missed = Tail::none(alloc, registry.front());
    registry.subscribe(subscriber, &address, &missed).is_ok()
}

/// What a subscriber takes, if it is there.
fn feed_of(registry: &mut Registry, subscriber: u32) -> Option<Feed> {
    if registry.taken(subscriber).is_none() {
        return None;
    }
    registry.take(subscriber).ok()
}

/// Whether a feed has this addition to the counter, or none.
fn adds(alloc: Global, feed: &Feed, wanted: Option<i64>) -> bool {
    let Ok(address) = address_of(alloc, Kind::Counter) else {
        return false;
    };
    match feed.changes().get(&address) {
        Some(Delta::AddCounter(by)) => wanted == Some(*by),
        Some(_) => false,
        None => wanted.is_none(),
    }
}

/// Whether a feed has a clear of the set, and then the addition of this element alone.
fn clears_and_adds(alloc: Global, feed: &Feed, element: &[u8]) -> bool {
    let (Ok(address), Ok(element)) = (
        address_of(alloc, Kind::Set),
        Text::from_slice(alloc, element),
    ) else {
        return false;
    };
    match feed.changes().get(&address) {
        Some(Delta::Set(d)) => {
            d.cleared() && d.marks().len() == 1 && d.marks().contains(&element)
        }
        _ => false,
    }
}

fn has(registry: &Registry, alloc: Global, subscriber: u32) -> Option<bool> {
    match address_of(alloc, Kind::Counter) {
        Ok(address) => Some(registry.has(subscriber, &address)),
        Err(_) => None,
    }
}

fn unsubscribe(registry: &mut Registry, alloc: Global, subscriber: u32) -> Option<bool> {
    match address_of(alloc, Kind::Counter) {
        Ok(address) => Some(registry.unsubscribe(subscriber, &address)),
        Err(_) => None,
    }
}

/// Makes one move, and answers whether it went as it should.
fn goes(registry: &mut Registry, alloc: Global, step: Move) -> bool {
    match step {
        Move::Watch(subscriber) => watch(registry, alloc, subscriber, Kind::Counter),
        Move::WatchSet(subscriber) => watch(registry, alloc, subscriber, Kind::Set),
        Move::Add(by) => commit(registry, alloc, Write::Add(by)),
        Move::Mark(element) => commit(registry, alloc, Write::Mark(element)),
        Move::Clear => commit(registry, alloc, Write::Clear),
        Move::Takes(subscriber, wanted) => match feed_of(registry, subscriber) {
            Some(feed) => adds(alloc, &feed, wanted),
            None => false,
        },
        Move::TakesClearAnd(subscriber, element) => match feed_of(registry, subscriber) {
            Some(feed) => clears_and_adds(alloc, &feed, element),
            None => false,
        },
        Move::Has(subscriber, wanted) => has(registry, alloc, subscriber) == Some(wanted),
        Move::Unsubscribe(subscriber, wanted) => {
            unsubscribe(registry, alloc, subscriber) == Some(wanted)
        }
        Move::Leave(subscriber) => {
            registry.leave(subscriber);
            true
        }
        Move::Taken(subscriber, wanted) => registry.taken(subscriber) == wanted,
        Move::Front(wanted) => registry.front() == wanted,
    }
}

/// Makes moves from where nobody has subscribed. It answers how many went as they should.
fn play(alloc: Global, front: u64, moves: &[Move]) -> usize {
    let mut registry = Registry::new(alloc, front);
    for (place, step) in moves.iter().enumerate() {
        if !goes(&mut registry, alloc, *step) {
            return place;
        }
    }
    moves.len()
}

/// Two take at different times.
static TWO: [Move; 9] = [
    Move::Watch(1),
    Move::Watch(2),
    Move::Add(2),
    Move::Takes(1, Some(2)),
    Move::Add(-2),
    Move::Takes(1, Some(-2)),
    Move::Takes(2, Some(0)),
    Move::Takes(2, None),
    Move::Front(5),
];

fn two() -> &'static [Move] {
    &TWO
}

/// One comes between, and one comes again.
static AGAIN: [Move; 17] = [
    Move::Watch(1),
    Move::Add(2),
    Move::Watch(2),
    Move::Add(5),
    Move::Has(1, true),
    Move::Unsubscribe(1, true),
    Move::Has(1, false),
    Move::Unsubscribe(1, false),
    Move::Watch(1),
    Move::Takes(1, None),
    Move::Takes(2, Some(5)),
    Move::Taken(1, Some(5)),
    Move::Taken(2, Some(5)),
    Move::Add(7),
    Move::Leave(2),
    Move::Taken(2, None),
    Move::Takes(1, Some(7)),
];

fn again() -> &'static [Move] {
    &AGAIN
}

/// A clear between two marks drops the first.
static CLEARED: [Move; 5] = [
    Move::WatchSet(1),
    Move::Mark(b"a"),
    Move::Clear,
    Move::Mark(b"b"),
    Move::TakesClearAnd(1, b"b"),
];

fn cleared() -> &'static [Move] {
    &CLEARED
}

#[test]
fn subscribers_take_as_they_should(rt: HostRuntime) {
    for (front, moves) in [(3, two()), (3, again()), (0, cleared())] {
        let count = play(rt.alloc(), front, moves);
        assert!(rt; count == moves.len(), "move {count} of {}", moves.len());
    }
}
