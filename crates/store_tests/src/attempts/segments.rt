//! Tails of a journal that has many changes in one shard: they have what the commits did, wherever they begin and end.

use super::appending::{End, added, journal_of};
use change_feed::{Change, Changes};
use journal_core::{Journal, MemKeep};
use rdt_types::{Address, Delta};
use std::alloc::Global;
use txn_lang::CommitList;

/// A body that changes five counters.
const CHANGES_FIVE: &[u8] =
    br#"counter("a").add(1); counter("b").add(2); counter("c").add(3); counter("d").add(4); counter("e").add(5);"#;

/// How many commits there are. Each segment is sealed behind thirteen of them, since it has 65 changes then.
const COMMITS: u64 = 45;

/// Numbers before, at and behind the ends of segments, and those of the first commit and the last.
static NUMBERS: [u64; 12] = [0, 1, 12, 13, 14, 25, 26, 27, 38, 39, 40, COMMITS];

pub(super) fn numbers() -> &'static [u64] {
    &NUMBERS
}

/// The change at a place, if there is one. There are few pieces.
fn change_at(mut changes: Changes<'_>, place: usize) -> Option<&Change> {
    let mut left = place;
    for _ in 0..9 {
        let piece = changes.next_piece()?;
        if left < piece.len() {
            return Some(&piece[left]);
        }
        left -= piece.len();
    }
    None
}

/// Whether there are so many changes.
pub(super) fn has_so_many(changes: Changes<'_>, count: usize) -> bool {
    change_at(changes, count).is_none() && (count == 0 || change_at(changes, count - 1).is_some())
}

/// Whether a change is what the commit of a number did at an address.
fn is_by(change: Option<&Change>, number: u64, address: &Address, delta: &Delta) -> bool {
    match change {
        Some(change) => {
            change.number == number && change.address == *address && change.delta == *delta
        }
        None => false,
    }
}

/// Whether changes are what the commits past one number and up to another did.
pub(super) fn are_of(changes: Changes<'_>, journal: &Journal<MemKeep>, from: u64, to: u64) -> bool {
    let mut place: usize = 0;
    for number in from..to {
        let Some(commit) = journal.commit(number + 1) else {
            return false;
        };
        for (address, delta) in commit.deltas.as_slice() {
            if !is_by(change_at(changes, place), number + 1, address, delta) {
                return false;
            }
            place = place.saturating_add(1);
        }
    }
    change_at(changes, place).is_none()
}

/// Whether a tail between two numbers and a lent one are so.
fn is_right(journal: &Journal<MemKeep>, from: u64, to: u64) -> bool {
    if from > to || to > journal.length() {
        return false;
    }
    match journal.tail(0, from, to) {
        Ok(tail) => {
            let lent = journal.lend_tail(0, from, to);
            are_of(tail.changes.lend(), journal, from, to)
                && are_of(lent.changes.pieces(), journal, from, to)
        }
        Err(_) => false,
    }
}

/// Whether all tails between these numbers are so.
fn are_right(journal: &Journal<MemKeep>) -> bool {
    for from in numbers() {
        for to in numbers() {
            if *from <= *to && !is_right(journal, *from, *to) {
                return false;
            }
        }
    }
    true
}

/// How many segments the tail of all commits shares.
fn shared(journal: &Journal<MemKeep>) -> usize {
    match journal.tail(0, 0, journal.length()) {
        Ok(tail) => tail.changes.lend().sealed.len(),
        Err(_) => 0,
    }
}

/// Adds the commits to a journal.
pub(super) fn grows(alloc: Global, journal: &mut Journal<MemKeep>) -> bool {
    for number in 0..COMMITS {
        match added(alloc, journal, 0, CHANGES_FIVE, 0) {
            Ok(end) if end == End::Number(number + 1) => {}
            _ => return false,
        }
    }
    true
}

/// Whether that is so of a journal of one shard, whose first 39 commits stand in three segments.
fn tails_are_right(alloc: Global) -> bool {
    match journal_of(alloc, MemKeep, CommitList::new(alloc), 1, 99) {
        Ok(mut journal) => {
            grows(alloc, &mut journal) && shared(&journal) == 3 && are_right(&journal)
        }
        Err(_) => false,
    }
}

#[test]
fn tails_have_what_the_commits_did_around_the_ends_of_segments(rt: HostRuntime) {
    assert!(rt; tails_are_right(rt.alloc()));
}
