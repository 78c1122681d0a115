//! Watches that are made, told, run anew and forgotten, with ample memory. What runs come to was worked out by hand. A test is a
//! list of moves, each of which answers whether it went as it should: so no driver lives across a `?`.

use crate::bodies::checked;
use change_feed::Feed;
use client_cache::Cache;
use plain_data::Text;
use rdt_types::{Address, Delta, Item, Kind, Outcome, Value};
use rerun_driver::{Driver, Rerun, run_on};
use std::alloc::{AllocError, Global};
use txn_eval::Step;
use txn_lang::{Checked, Run};

/// What is done with the watches of a driver, or seen of them.
#[derive(Clone, Copy)]
enum Move {
    /// A watch more, by a name that isn't in use: its body runs for the first time.
    Watch(&'static [u8], &'static [u8]),
    /// A counter's value is held.
    Fill(&'static [u8], i64),
    /// An addition to a counter is told.
    Add(&'static [u8], i64),
    /// The next rerun is that of a name and gives a number. It is reported, after the memory for that was taken.
    Runs(&'static [u8], i64),
    /// The next rerun is reported, though no memory was taken for that.
    Settles,
    /// The next rerun needs the value of a counter.
    Needs(&'static [u8]),
    /// No watch is stale.
    Current,
    /// Whether a last run observed a counter.
    Observes(&'static [u8], bool),
    /// Whether a watch of the name was there to be forgotten.
    Unwatch(&'static [u8], bool),
}

fn counter(alloc: Global, key: &[u8]) -> Result<Address, AllocError> {
    Ok(Address {
        kind: Kind::Counter,
        key: Text::from_slice(alloc, key)?,
    })
}

/// The first run of a body, where it needs no value more.
fn first_run(alloc: Global, body: &Checked, cache: &Cache) -> Option<Run> {
    match run_on(alloc, body, cache) {
        Ok(Step::Done(run)) => Some(run),
        _ => None,
    }
}

/// A watch more, unless its name is in use.
fn put(driver: &mut Driver, name: Text, body: Checked, number: u64, run: Run) -> bool {
    if driver.has(&name) {
        return false;
    }
    driver.watch(name, body, number, run).is_ok()
}

/// A body is watched by a name from its first run on.
fn watch(driver: &mut Driver, alloc: Global, cache: &Cache, name: &[u8], source: &[u8]) -> bool {
    let Ok(body) = checked(alloc, source, true) else {
        return false;
    };
    let Some(run) = first_run(alloc, &body, cache) else {
        return false;
    };
    match Text::from_slice(alloc, name) {
        Ok(name) => put(driver, name, body, cache.at(), run),
        Err(_) => false,
    }
}

fn fill(cache: &mut Cache, alloc: Global, key: &[u8], value: i64) -> bool {
    match counter(alloc, key) {
        Ok(address) => cache.fill(address, Value::Counter(value)).is_ok(),
        Err(_) => false,
    }
}

/// A feed up to a number, of one addition to a counter.
fn addition(alloc: Global, to: u64, key: &[u8], by: i64) -> Result<Feed, AllocError> {
    let mut feed = Feed::new(alloc, to);
    feed.add(&counter(alloc, key)?, &Delta::AddCounter(by))?;
    Ok(feed)
}

/// A feed goes into a cache and to a driver.
fn tell(driver: &mut Driver, cache: &mut Cache, feed: &Feed) -> bool {
    if cache.at() > feed.to() || cache.advance(feed).is_err() {
        return false;
    }
    driver.advance(feed);
    true
}

fn add(driver: &mut Driver, alloc: Global, cache: &mut Cache, key: &[u8], by: i64) -> bool {
    if cache.at() >= 100 {
        return false;
    }
    match addition(alloc, cache.at() + 1, key, by) {
        Ok(feed) => tell(driver, cache, &feed),
        Err(_) => false,
    }
}

/// Whether a run is done with one number.
fn gives(run: &Run, number: i64) -> bool {
    match &run.outcome {
        Outcome::Ok(items) => {
            items.len() == 1 && items.get(0).is_some_and(|item| *item == Item::Int(number))
        }
        _ => false,
    }
}

/// A report goes to the watch of a name.
fn settle(driver: &mut Driver, name: &Text, number: u64, run: Run) -> bool {
    if !driver.has(name) {
        return false;
    }
    driver.settle(name, number, run);
    true
}

/// The next rerun, if it is done.
fn next_run(driver: &Driver, cache: &Cache) -> Option<(Text, Run)> {
    match driver.run_next(cache) {
        Ok(Rerun::Ran(name, run)) => Some((name, run)),
        _ => None,
    }
}

fn runs(driver: &mut Driver, cache: &Cache, name: &[u8], number: i64) -> bool {
    let Some((ran, run)) = next_run(driver, cache) else {
        return false;
    };
    if ran.as_slice() != name || !gives(&run, number) || driver.reserve(&run).is_err() {
        return false;
    }
    settle(driver, &ran, cache.at(), run)
}

fn settles(driver: &mut Driver, cache: &Cache) -> bool {
    match next_run(driver, cache) {
        Some((ran, run)) => settle(driver, &ran, cache.at(), run),
        None => false,
    }
}

fn needs(driver: &Driver, cache: &Cache, key: &[u8]) -> bool {
    match driver.run_next(cache) {
        Ok(Rerun::Need(address)) => address.key.as_slice() == key,
        _ => false,
    }
}

fn is_current(driver: &Driver, cache: &Cache) -> bool {
    matches!(driver.run_next(cache), Ok(Rerun::NoneLeft))
}

fn observes(driver: &Driver, alloc: Global, key: &[u8], wanted: bool) -> bool {
    match counter(alloc, key) {
        Ok(address) => driver.observes(&address) == wanted,
        Err(_) => false,
    }
}

/// A watch is forgotten: its name is free then, whether or not it was in use.
fn unwatch(driver: &mut Driver, alloc: Global, name: &[u8], wanted: bool) -> bool {
    match Text::from_slice(alloc, name) {
        Ok(name) => driver.unwatch(&name) == wanted && !driver.has(&name),
        Err(_) => false,
    }
}

/// Makes one move, and answers whether it went as it should.
fn goes(driver: &mut Driver, alloc: Global, cache: &mut Cache, step: Move) -> bool {
    match step {
        Move::Watch(name, source) => watch(driver, alloc, cache, name, source),
        Move::Fill(key, value) => fill(cache, alloc, key, value),
        Move::Add(key, by) => add(driver, alloc, cache, key, by),
        Move::Runs(name, number) => runs(driver, cache, name, number),
        Move::Settles => settles(driver, cache),
        Move::Needs(key) => needs(driver, cache, key),
        Move::Current => is_current(driver, cache),
        Move::Observes(key, wanted) => observes(driver, alloc, key, wanted),
        Move::Unwatch(name, wanted) => unwatch(driver, alloc, name, wanted),
    }
}

/// Makes moves from where nothing is watched and the counters `x` and `y` are 1 and 2. It answers how many went as they should.
fn play(alloc: Global, moves: &[Move]) -> usize {
    let mut cache = Cache::new(alloc, 0);
    let mut driver = Driver::new(alloc);
    if !fill(&mut cache, alloc, b"x", 1) || !fill(&mut cache, alloc, b"y", 2) {
        return 0;
    }
    for (place, step) in moves.iter().enumerate() {
        if !goes(&mut driver, alloc, &mut cache, *step) {
            return place;
        }
    }
    moves.len()
}

/// Touched watches run in the order of their making.
static TOUCHED: [Move; 12] = [
    Move::Watch(b"b", br#"emit counter("x").get() + counter("y").get();"#),
    Move::Watch(b"n", b"emit 5;"),
    Move::Watch(b"a", br#"emit counter("x").get();"#),
    Move::Current,
    Move::Add(b"y", 0),
    Move::Add(b"x", 10),
    Move::Runs(b"b", 13),
    Move::Runs(b"a", 11),
    Move::Current,
    Move::Add(b"y", 0),
    Move::Runs(b"b", 13),
    Move::Current,
];

fn touched() -> &'static [Move] {
    &TOUCHED
}

/// The counter `y` while `x` is 1, and `z` then.
const BRANCHING: &[u8] =
    br#"if counter("x").get() == 1 { emit counter("y").get(); } else { emit counter("z").get(); }"#;

/// A rerun observes other addresses.
static OBSERVING: [Move; 13] = [
    Move::Watch(b"w", BRANCHING),
    Move::Observes(b"x", true),
    Move::Observes(b"z", false),
    Move::Add(b"x", 1),
    Move::Needs(b"z"),
    Move::Fill(b"z", 9),
    Move::Runs(b"w", 9),
    Move::Observes(b"z", true),
    Move::Observes(b"y", false),
    Move::Add(b"y", 1),
    Move::Current,
    Move::Add(b"z", 1),
    Move::Runs(b"w", 10),
];

fn observing() -> &'static [Move] {
    &OBSERVING
}

/// A report without memory is found all the same.
static REPORTED: [Move; 15] = [
    Move::Fill(b"z", 9),
    Move::Watch(b"w", BRANCHING),
    Move::Add(b"x", 1),
    Move::Settles,
    Move::Observes(b"z", true),
    Move::Observes(b"x", true),
    Move::Current,
    Move::Add(b"y", 1),
    Move::Current,
    Move::Add(b"z", 1),
    Move::Runs(b"w", 10),
    Move::Add(b"z", 1),
    Move::Observes(b"z", true),
    Move::Observes(b"y", false),
    Move::Runs(b"w", 11),
];

fn reported() -> &'static [Move] {
    &REPORTED
}

/// A forgotten watch leaves its name.
static FORGOTTEN: [Move; 9] = [
    Move::Watch(b"w", br#"emit counter("x").get();"#),
    Move::Watch(b"v", br#"emit counter("x").get();"#),
    Move::Unwatch(b"w", true),
    Move::Unwatch(b"w", false),
    Move::Watch(b"w", br#"emit counter("x").get() * 2;"#),
    Move::Add(b"x", 1),
    Move::Runs(b"v", 2),
    Move::Runs(b"w", 4),
    Move::Current,
];

fn forgotten() -> &'static [Move] {
    &FORGOTTEN
}

#[test]
fn watches_go_as_they_should(rt: HostRuntime) {
    for moves in [touched(), observing(), reported(), forgotten()] {
        let count = play(rt.alloc(), moves);
        assert!(rt; count == moves.len(), "move {count} of {}", moves.len());
    }
}
