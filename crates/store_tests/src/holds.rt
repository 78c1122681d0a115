//! A book of holds beside commits, with ample memory. A test is a list of moves, each of which answers whether it went as it
//! should.

ghost use Rattle.std.specs.Prelude.{◌≡◌, ◌<◌, ◌+◌, IfOk};

use conflict_table::{Obs, Steps};
use hold_core::{HoldBook, IndexedSeen, copy_seen, seen_to_hold};
use journal_core::Barred;
use plain_data::Text;
use rdt_types::{Address, Delta, DeltaMap, Item, ItemList, Kind, Outcome};
use std::alloc::{AllocError, Global};
use std::marker::Brand;
use std::sync::ledger::{Blank, Ledger};
use txn_lang::{Commit, Run, Seen, SeenList};

/// What is done beside a book, or seen of it. Counters are named by one byte each.
#[derive(Clone, Copy)]
enum Move {
    /// A client's commit says hold, and has read these counters.
    Hold(u32, &'static [u8]),
    /// One adds to these counters, and reads none.
    Adds(u32, &'static [u8]),
    /// So many that do nothing.
    Pass(u32, u64),
    /// A client's additions to these counters are barred by the hold of a client, at a number, or by none.
    Bars(u32, &'static [u8], Option<(u32, u64)>),
}

/// A book, and how long its journal is.
#[derive(Drop)]
struct Beside {
    book: HoldBook,
    length: u64,
    ghost counted: { length ≡ book.length },
}

/// The counter of a byte.
fn counter(alloc: Global, byte: u8) -> Result<Address, AllocError> {
    Ok(Address {
        kind: Kind::Counter,
        key: Text::from_slice(alloc, &[byte])?,
    })
}

/// That these counters were read.
fn seen_at(alloc: Global, keys: &[u8]) -> Result<SeenList, AllocError> {
    let mut seen = SeenList::new(alloc);
    for key in keys {
        seen.push(Seen {
            address: counter(alloc, *key)?,
            obs: Obs::CounterIs,
        })?;
    }
    Ok(seen)
}

/// An addition to each of these counters.
fn added_to(alloc: Global, keys: &[u8]) -> Result<DeltaMap, AllocError> {
    let mut deltas = DeltaMap::new(alloc);
    for key in keys {
        deltas.insert(counter(alloc, *key)?, Delta::AddCounter(1))?;
    }
    Ok(deltas)
}

/// Ok, with a text that was emitted.
fn emitting(alloc: Global, text: &[u8]) -> Result<Outcome, AllocError> {
    let mut items = ItemList::new(alloc);
    items.push(Item::Text(Text::from_slice(alloc, text)?))?;
    Ok(Outcome::Ok(items))
}

/// A run that emits a text, reads counters, and adds to others.
fn run_of(alloc: Global, text: &[u8], read: &[u8], written: &[u8]) -> Result<Run, AllocError> {
    let outcome = emitting(alloc, text)?;
    let observations = seen_at(alloc, read)?;
    Ok(Run {
        outcome,
        deltas: added_to(alloc, written)?,
        observations,
    })
}

/// The commit of a number that is made of a run, which no longer serves.
fn commit_of(number: u64, client: u32, body: Text, run: Run) -> Commit
    ensures { result.number ≡ number }
{
    let Run {
        outcome,
        deltas,
        ..
    } = run;
    Commit {
        number,
        client,
        seq: 1,
        body,
        outcome,
        deltas,
    }
}

/// The next commit, made of a run.
fn add(beside: &mut Beside, alloc: Global, client: u32, run: Result<Run, AllocError>) -> bool {
    let Ok(run) = run else {
        return false;
    };
    let Ok(seen) = seen_to_hold(alloc, &run) else {
        return false;
    };
    if beside.length > 1000 {
        return false;
    }
    let number = beside.length + 1;
    let commit = commit_of(number, client, Text::new(alloc), run);
    beside.book.added(&commit, seen);
    beside.length = number;
    true
}

/// So many commits that do nothing.
fn pass(beside: &mut Beside, alloc: Global, client: u32, count: u64) -> bool {
    for _ in 0..count {
        if !add(beside, alloc, client, run_of(alloc, b"", b"", b"")) {
            return false;
        }
    }
    true
}

/// The hold that bars a client's deltas, if there is one.
fn bar<L: Ledger>(blank: Blank, book: &HoldBook, client: u32, deltas: &DeltaMap) -> Option<Barred>
    requires name { blank.name ≡ L.name }
    requires parts { blank.parts ≡ L.parts }
    requires some { 0 < L.parts }
{
    book.bars(client, deltas, &mut Steps::<L>::new(blank))
}

/// Whether additions are barred by this hold, or by none.
fn is_barred(
    book: &HoldBook,
    alloc: Global,
    client: u32,
    keys: &[u8],
    wanted: Option<(u32, u64)>,
) -> bool {
    let Ok(deltas) = added_to(alloc, keys) else {
        return false;
    };
    match (bar::<Brand>(Blank::new(1), book, client, &deltas), wanted) {
        (Some(barred), Some((client, at))) => barred.client == client && barred.at == at,
        (None, None) => true,
        _ => false,
    }
}

/// Makes one move, and answers whether it went as it should.
fn goes(beside: &mut Beside, alloc: Global, step: Move) -> bool {
    match step {
        Move::Hold(client, read) => {
            add(beside, alloc, client, run_of(alloc, b"hold", read, b""))
        }
        Move::Adds(client, written) => add(beside, alloc, client, run_of(alloc, b"", b"", written)),
        Move::Pass(client, count) => pass(beside, alloc, client, count),
        Move::Bars(client, keys, wanted) => { is_barred(&beside.book, alloc, client, keys, wanted) }
    }
}

/// A book beside no commits.
fn empty(alloc: Global) -> Result<Beside, AllocError> {
    Ok(Beside {
        book: HoldBook::new(alloc, 0)?,
        length: 0,
    })
}

/// Whether moves from no commit on all go as they should.
fn all_go(alloc: Global, moves: &[Move]) -> bool {
    let Ok(mut beside) = empty(alloc) else {
        return false;
    };
    for step in moves {
        if !goes(&mut beside, alloc, *step) {
            return false;
        }
    }
    true
}

/// Behind 64 commits the hold at 1 bars still, and behind 65 no longer.
fn ages() -> &'static [Move] {
    &[
        Move::Hold(0, b"x"),
        Move::Bars(1, b"x", Some((0, 1))),
        Move::Bars(1, b"y", None),
        Move::Bars(0, b"x", None),
        Move::Pass(1, 62),
        Move::Bars(1, b"x", Some((0, 1))),
        Move::Pass(1, 1),
        Move::Bars(1, b"x", Some((0, 1))),
        Move::Pass(1, 1),
        Move::Bars(1, b"x", None),
    ]
}

/// The least hold bars, and whoever has it is barred by none; once it is gone, the other bars.
fn two_holders() -> &'static [Move] {
    &[
        Move::Hold(0, b"x"),
        Move::Hold(2, b"x"),
        Move::Bars(1, b"x", Some((0, 1))),
        Move::Bars(2, b"x", Some((0, 1))),
        Move::Bars(0, b"x", None),
        Move::Adds(0, b"y"),
        Move::Bars(1, b"x", Some((2, 2))),
        Move::Bars(0, b"xy", Some((2, 2))),
        Move::Bars(2, b"x", None),
    ]
}

/// What disturbs one of two observations ends the hold, and what writes beside them doesn't.
fn disturbed() -> &'static [Move] {
    &[
        Move::Hold(0, b"xy"),
        Move::Adds(1, b"z"),
        Move::Bars(1, b"y", Some((0, 1))),
        Move::Adds(1, b"yz"),
        Move::Bars(1, b"x", None),
    ]
}

/// What was read in another order than that of addresses, and some of it twice, is found at each address, and nothing beside.
fn unsorted() -> &'static [Move] {
    &[
        Move::Hold(0, b"dbfbhd"),
        Move::Bars(1, b"b", Some((0, 1))),
        Move::Bars(1, b"d", Some((0, 1))),
        Move::Bars(1, b"f", Some((0, 1))),
        Move::Bars(1, b"h", Some((0, 1))),
        Move::Bars(1, b"aceg", None),
        Move::Bars(1, b"aceh", Some((0, 1))),
        Move::Bars(1, b"i", None),
        Move::Adds(1, b"acegi"),
        Move::Bars(1, b"d", Some((0, 1))),
        Move::Adds(1, b"aef"),
        Move::Bars(1, b"d", None),
    ]
}

#[test]
fn what_was_read_in_any_order_is_found(rt: HostRuntime) {
    assert!(rt; all_go(rt.alloc(), unsorted()));
}

#[test]
fn a_hold_lasts_for_64_commits(rt: HostRuntime) {
    assert!(rt; all_go(rt.alloc(), ages()));
}

#[test]
fn the_least_hold_of_two_on_one_counter_bars(rt: HostRuntime) {
    assert!(rt; all_go(rt.alloc(), two_holders()));
}

#[test]
fn a_disturbed_hold_bars_nobody(rt: HostRuntime) {
    assert!(rt; all_go(rt.alloc(), disturbed()));
}

/// Whether there are so many observations.
fn are(seen: &Result<SeenList, AllocError>, count: usize) -> bool {
    match seen {
        Ok(seen) => seen.len() == count,
        Err(_) => false,
    }
}

/// Whether there are so many, with their index.
fn are_indexed(seen: &Result<IndexedSeen, AllocError>, count: usize) -> bool {
    match seen {
        Ok(seen) => seen.as_slice().len() == count,
        Err(_) => false,
    }
}

/// Whether of a run that emits a text and reads two counters so many observations are copied.
fn copies(alloc: Global, text: &[u8], count: usize) -> bool {
    match run_of(alloc, text, b"xy", b"") {
        Ok(run) => {
            are_indexed(&seen_to_hold(alloc, &run), count) && are(&copy_seen(&run.observations), 2)
        }
        Err(_) => false,
    }
}

/// Whether observations are given an index.
fn indexes(alloc: Global, keys: &[u8]) -> bool {
    match seen_at(alloc, keys) {
        Ok(seen) => are_indexed(&IndexedSeen::new(alloc, seen), keys.len()),
        Err(_) => false,
    }
}

#[test]
fn observations_are_indexed(rt: HostRuntime) {
    assert!(rt; indexes(rt.alloc(), b"yxy"));
    assert!(rt; IndexedSeen::none(rt.alloc()).as_slice().is_empty());
}

#[test]
fn only_what_says_hold_is_copied(rt: HostRuntime) {
    assert!(rt; copies(rt.alloc(), b"hold", 2));
    assert!(rt; copies(rt.alloc(), b"held", 0));
}
