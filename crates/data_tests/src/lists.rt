//! Lists of changes in pieces, each read as the one list that it is. Its rows are of counters, named by their commits.

ghost use Rattle.std.specs.Prelude.{◌≡◌, ◌<◌};

use crate::given::address;
use abort_witness::{Based, first_clash_in};
use change_feed::{Change, ChangeList, Changes, Segment};
use conflict_table::{Obs, Steps};
use rdt_types::{Delta, Kind};
use std::alloc::{AllocError, Global};
use std::marker::Brand;
use std::sync::ledger::{Blank, Ledger};

/// More pieces than any list here has.
const MOST_PIECES: usize = 8;

/// An addition to a counter by the commit of a number.
fn change(alloc: Global, number: u64) -> Result<Change, AllocError> {
    Ok(Change {
        number,
        address: address(alloc, Kind::Counter, b"x")?,
        delta: Delta::AddCounter(1),
    })
}

/// Such changes by the commits of these numbers.
fn changes_of(alloc: Global, numbers: &[u64]) -> Result<Vec<Change>, AllocError> {
    let mut changes = Vec::new(alloc);
    for number in numbers {
        changes.push(change(alloc, *number)?)?;
    }
    Ok(changes)
}

/// They are sealed, and stand behind the segments that are there.
fn add_segment(segments: &mut Vec<Segment>, changes: Result<Vec<Change>, AllocError>) -> bool {
    let Ok(changes) = changes else {
        return false;
    };
    match Segment::seal(changes) {
        Ok(segment) => segments.push(segment).is_ok(),
        Err(_) => false,
    }
}

/// Whether changes are by the commits of these numbers, in order.
fn reads(mut changes: Changes<'_>, numbers: &[u64]) -> bool {
    let mut left = numbers;
    for _ in 0..MOST_PIECES {
        let Some(piece) = changes.next_piece() else {
            return left.is_empty();
        };
        for change in piece {
            match left {
                [number, rest @ ..] if *number == change.number => left = rest,
                _ => return false,
            }
        }
    }
    false
}

/// Whether a list reads so, and one that shares its segments, too.
fn is_shared(alloc: Global, list: &Result<ChangeList, AllocError>, numbers: &[u64]) -> bool {
    let Ok(list) = list else {
        return false;
    };
    match list.lend().share(alloc) {
        Ok(again) => reads(list.lend(), numbers) && reads(again.lend(), numbers),
        Err(_) => false,
    }
}

/// Segments but for the first change of the first, and then some more.
fn but_for_one<'a>(sealed: &'a [Segment], last: &'a [Change]) -> Changes<'a> {
    match sealed {
        [first, ..] if !first.as_slice().is_empty() => Changes {
            skipped: 1,
            sealed,
            last,
        },
        _ => Changes::of(last),
    }
}

/// The first clash of an observation of the counter at a number with changes that are lent.
fn clash_past<L: Ledger>(
    blank: Blank,
    alloc: Global,
    base: u64,
    changes: Changes<'_>,
) -> Result<Option<u64>, AllocError>
    requires name { blank.name ≡ L.name }
    requires parts { blank.parts ≡ L.parts }
    requires some { 0 < L.parts }
{
    let based = Based {
        address: address(alloc, Kind::Counter, b"x")?,
        obs: Obs::CounterIs,
        base,
    };
    Ok(first_clash_in(&based, changes, &mut Steps::<L>::new(blank)))
}

/// Whether what was observed at 2 clashes with commit 3 first.
fn clashes_at_three(alloc: Global, changes: Changes<'_>) -> bool {
    clash_past::<Brand>(Blank::new(1), alloc, 2, changes) == Ok(Some(3))
}

/// Whether segments are read without their first change, with some changes behind them, also where they are
/// shared; and whether a clash is found in them.
fn skips_one(
    alloc: Global,
    sealed: &[Segment],
    last: &Result<Vec<Change>, AllocError>,
    numbers: &[u64],
) -> bool {
    let Ok(last) = last else {
        return false;
    };
    let changes = but_for_one(sealed, last.as_slice());
    reads(changes, numbers)
        && is_shared(alloc, &changes.share(alloc), numbers)
        && clashes_at_three(alloc, changes)
}

#[test]
fn segments_and_a_last_piece_are_one_list(rt: HostRuntime) {
    let mut sealed = Vec::new(rt.alloc());
    assert!(rt; add_segment(&mut sealed, changes_of(rt.alloc(), &[1, 2])));
    assert!(rt; add_segment(&mut sealed, changes_of(rt.alloc(), &[3])));
    let last = changes_of(rt.alloc(), &[4]);
    assert!(rt; skips_one(rt.alloc(), sealed.as_slice(), &last, &[2, 3, 4]));
}

/// A list of a `Vec`, with a change behind it.
fn with_one_more(
    alloc: Global,
    changes: Result<Vec<Change>, AllocError>,
    number: u64,
) -> Result<ChangeList, AllocError> {
    let mut list = ChangeList::from_vec(changes?);
    list.push(change(alloc, number)?)?;
    Ok(list)
}

#[test]
fn a_list_grows_at_its_end(rt: HostRuntime) {
    let list = with_one_more(rt.alloc(), changes_of(rt.alloc(), &[1, 2]), 3);
    assert!(rt; is_shared(rt.alloc(), &list, &[1, 2, 3]));
    assert!(rt; reads(ChangeList::new(rt.alloc()).lend(), &[]) && reads(Changes::none(), &[]));
}
