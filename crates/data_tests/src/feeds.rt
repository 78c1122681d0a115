//! Each call once, with ample memory. What feeds of counters come to are worked lines in `specs/Feeds` of change_feed.

use crate::given::{Write, address, delta, is_pair};
use change_feed::{Change, Feed, Tail};
use rdt_types::{Address, Delta, Kind, SetDelta};
use std::alloc::{AllocError, Global};

/// Whether a delta that was made is added to a feed.
fn adds(feed: &mut Feed, address: &Address, delta: &Result<Delta, AllocError>) -> bool {
    match delta {
        Ok(delta) => feed.add(address, delta).is_ok(),
        Err(_) => false,
    }
}

/// Whether a set's delta clears, and then adds `b` alone.
fn is_b_alone(delta: &SetDelta) -> bool {
    match delta.marks().as_slice() {
        [(element, _)] => delta.cleared() && element.as_slice() == b"b".as_slice(),
        _ => false,
    }
}

/// Whether the one change of a feed does so.
fn clears_and_adds(feed: &Feed) -> bool {
    match feed.changes().as_slice() {
        [(_, Delta::Set(delta))] => is_b_alone(delta),
        _ => false,
    }
}

/// Whether a feed in which the set at an address is cleared between two additions drops the first.
fn drops_the_first(alloc: Global, address: &Address) -> bool {
    let mut feed = Feed::new(alloc, 0);
    for (write, at) in [
        (Write::SetAdd, b"a"),
        (Write::SetClear, b"a"),
        (Write::SetAdd, b"b"),
    ] {
        if !adds(&mut feed, address, &delta(alloc, write, at.as_slice())) {
            return false;
        }
    }
    clears_and_adds(&feed)
}

#[test]
fn a_clear_between_two_marks_drops_the_first(rt: HostRuntime) {
    let set = address(rt.alloc(), Kind::Set, b"s");
    assert!(rt; matches!(&set, Ok(set) if drops_the_first(rt.alloc(), set)));
}

/// Whether a feed up to a number, with one change of a counter, is joined to an earlier one.
fn joins(
    alloc: Global,
    feed: &mut Feed,
    to: u64,
    counter: &Result<Address, AllocError>,
    change: &Delta,
) -> bool {
    let mut later = Feed::new(alloc, to);
    match counter {
        Ok(counter) => later.add(counter, change).is_ok() && feed.join(&later).is_ok(),
        Err(_) => false,
    }
}

/// Whether a feed up to 6 puts the one counter and adds to the other.
fn puts_and_adds(feed: &Feed) -> bool {
    match feed.changes().as_slice() {
        [x, y] => {
            feed.to() == 6
                && is_pair(x, b"x", &Delta::PutCounter(7))
                && is_pair(y, b"y", &Delta::AddCounter(2))
        }
        _ => false,
    }
}

#[test]
fn a_later_feed_goes_after_the_earlier(rt: HostRuntime) {
    let x = address(rt.alloc(), Kind::Counter, b"x");
    let y = address(rt.alloc(), Kind::Counter, b"y");
    let mut feed = Feed::new(rt.alloc(), 0);
    assert!(rt; joins(rt.alloc(), &mut feed, 2, &x, &Delta::AddCounter(1)));
    assert!(rt; joins(rt.alloc(), &mut feed, 5, &x, &Delta::PutCounter(7)));
    assert!(rt; joins(rt.alloc(), &mut feed, 6, &y, &Delta::AddCounter(2)));
    assert!(rt; puts_and_adds(&feed));
}

/// A change of a counter.
fn change(alloc: Global) -> Result<Change, AllocError> {
    Ok(Change {
        number: 4,
        address: address(alloc, Kind::Counter, b"x")?,
        delta: Delta::AddCounter(1),
    })
}

/// Whether a copy of a change equals it.
fn is_copied(change: &Change) -> bool {
    let copy: Result<Change, AllocError> = change.clone();
    matches!(&copy, Ok(copy) if *copy == *change)
}

/// Whether a tail is of no commit behind a number.
fn is_none_at(tail: &Tail, at: u64) -> bool {
    let mut changes = tail.changes.lend();
    tail.from == at && tail.to == at && changes.next_piece().is_none()
}

#[test]
fn a_tail_keeps_its_numbers(rt: HostRuntime) {
    assert!(rt; is_none_at(&Tail::none(rt.alloc(), 3), 3));
    assert!(rt; matches!(&change(rt.alloc()), Ok(made) if is_copied(made)));
}
