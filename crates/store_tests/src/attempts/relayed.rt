//! Tails of a relay that has followed a journal in steps: they have what the commits did, wherever they begin and end.

use super::appending::journal_of;
use super::segments::{are_of, grows, has_so_many, numbers};
use change_feed::Tail;
use journal_core::{Journal, MemKeep};
use journal_relay::{Relay, part_at, part_in_shard};
use plain_data::Text;
use rdt_types::{Address, Kind};
use std::alloc::{AllocError, Global};
use txn_lang::CommitList;

/// A relay follows a journal to a number.
fn follows(relay: &mut Relay, journal: &Journal<MemKeep>, to: u64) -> bool {
    let from = relay.to();
    if from > to || to > journal.length() {
        return false;
    }
    match journal.tail_all(from, to) {
        Ok(tail) => tail.from == from && relay.follow(&tail).is_ok() && relay.to() == to,
        Err(_) => false,
    }
}

/// A relay of a journal, which it has followed from one of the numbers to the next.
fn relay_of(alloc: Global, journal: &Journal<MemKeep>) -> Option<Relay> {
    let mut relay = Relay::new(alloc);
    for to in numbers() {
        if !follows(&mut relay, journal, *to) {
            return None;
        }
    }
    Some(relay)
}

/// The counter that each commit changes first.
fn first_counter(alloc: Global) -> Result<Address, AllocError> {
    Ok(Address {
        kind: Kind::Counter,
        key: Text::from_slice(alloc, b"a")?,
    })
}

/// Whether one of a tail's changes a commit is at an address.
fn has_one_each(alloc: Global, tail: &Tail, address: &Address) -> bool {
    match part_at(alloc, tail, address) {
        Ok(part) => {
            let commits = tail.to.saturating_sub(tail.from) as usize;
            (part.from, part.to) == (tail.from, tail.to)
                && has_so_many(part.changes.lend(), commits)
        }
        Err(_) => false,
    }
}

/// Whether all of a tail's changes are in the only shard, and none in a shard that there isn't.
fn is_in_one_shard(alloc: Global, journal: &Journal<MemKeep>, tail: &Tail) -> bool {
    let (inside, outside) = (
        part_in_shard(alloc, tail, 1, 0),
        part_in_shard(alloc, tail, 1, 1),
    );
    match (inside, outside) {
        (Ok(inside), Ok(outside)) => {
            are_of(inside.changes.lend(), journal, tail.from, tail.to)
                && has_so_many(outside.changes.lend(), 0)
        }
        _ => false,
    }
}

/// The relay's tail between two numbers.
fn tail_between(relay: &Relay, from: u64, to: u64) -> Option<Tail> {
    if from > to || to > relay.to() {
        return None;
    }
    relay.tail_all(from, to).ok()
}

/// Whether a tail is right, and its parts.
fn is_right(alloc: Global, journal: &Journal<MemKeep>, tail: &Tail, address: &Address) -> bool {
    are_of(tail.changes.lend(), journal, tail.from, tail.to)
        && is_in_one_shard(alloc, journal, tail)
        && has_one_each(alloc, tail, address)
}

/// Whether all tails between the numbers are right.
fn are_right(alloc: Global, relay: &Relay, journal: &Journal<MemKeep>, address: &Address) -> bool {
    for from in numbers() {
        for to in numbers() {
            if from > to {
                continue;
            }
            match tail_between(relay, *from, *to) {
                Some(tail) if (tail.from, tail.to) == (*from, *to) => {
                    if !is_right(alloc, journal, &tail, address) {
                        return false;
                    }
                }
                _ => return false,
            }
        }
    }
    true
}

/// Whether that is so of a journal of one shard, and the relay's tails share segments.
fn is_relayed(alloc: Global) -> bool {
    let journal = journal_of(alloc, MemKeep, CommitList::new(alloc), 1, 99);
    let (Ok(mut journal), Ok(address)) = (journal, first_counter(alloc)) else {
        return false;
    };
    if !grows(alloc, &mut journal) {
        return false;
    }
    match relay_of(alloc, &journal) {
        Some(relay) => are_right(alloc, &relay, &journal, &address),
        None => false,
    }
}

#[test]
fn a_relay_has_what_the_commits_did_around_the_ends_of_segments(rt: HostRuntime) {
    assert!(rt; is_relayed(rt.alloc()));
}
