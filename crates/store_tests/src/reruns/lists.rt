//! Lists of stale watches that are run anew. What they come to was worked out by hand.

use crate::reruns::drivers::{counter, put, touch_all};
use client_cache::Cache;
use plain_data::Text;
use rdt_types::{Address, Item, Kind, Outcome, Value};
use rerun_driver::{Driver, StaleWatch};
use std::alloc::Global;
use txn_lang::{Checked, Run, check};
use txn_parse::parse;
use watch_reruns::{One, Rerunner, Reruns, RunList, WatchRun, run_watch};

/// A watch's name and body.
pub(crate) type Watch = (&'static [u8], &'static [u8]);

pub(crate) const X: Watch = (b"x", br#"emit counter("x").get();"#);

pub(crate) const Y: Watch = (b"y", br#"emit counter("y").get() + 1;"#);

pub(crate) const FIVE: Watch = (b"five", b"emit 5;");

pub(crate) const SPENT: Watch = (
    b"spent",
    br#"let t = ["","","","","","","","","",""]; for a in t { for b in t { for c in t { for d in t { } } } }"#,
);

/// What a run comes to: it emits a number, or spends its ticks.
#[derive(Clone, Copy)]
pub(crate) enum Came {
    Emitted(i64),
    Spent,
}

/// What the reruns of a list come to.
#[derive(Clone, Copy)]
pub(crate) enum Want {
    /// The value of a counter is needed.
    Need(&'static [u8]),
    /// All have run.
    All(&'static [Came]),
}

/// Watches, the counters whose values are held (each is 7), and what is wanted.
#[derive(Clone, Copy)]
struct Row {
    watches: &'static [Watch],
    held: &'static [&'static [u8]],
    want: Want,
}

static ROWS: [Row; 8] = [
    Row {
        watches: &[],
        held: &[],
        want: Want::All(&[]),
    },
    Row {
        watches: &[X],
        held: &[b"x"],
        want: Want::All(&[Came::Emitted(7)]),
    },
    Row {
        watches: &[X],
        held: &[],
        want: Want::Need(b"x"),
    },
    // In the order of the list.
    Row {
        watches: &[Y, FIVE, X],
        held: &[b"x", b"y"],
        want: Want::All(&[Came::Emitted(8), Came::Emitted(5), Came::Emitted(7)]),
    },
    // Of two that need a value the first tells which.
    Row {
        watches: &[FIVE, Y, X],
        held: &[],
        want: Want::Need(b"y"),
    },
    Row {
        watches: &[FIVE, X, Y],
        held: &[b"x"],
        want: Want::Need(b"y"),
    },
    Row {
        watches: &[X, SPENT, FIVE],
        held: &[b"x"],
        want: Want::All(&[Came::Emitted(7), Came::Spent, Came::Emitted(5)]),
    },
    Row {
        watches: &[SPENT, X],
        held: &[],
        want: Want::Need(b"x"),
    },
];

fn rows() -> &'static [Row] {
    &ROWS
}

/// A body that only reads, of a line's length at most.
pub(crate) fn checked(alloc: Global, source: &[u8]) -> Option<Checked> {
    if source.len() > 4_096 {
        return None;
    }
    let body = parse(alloc, source).ok()?;
    let text = Text::from_slice(alloc, source).ok()?;
    check(alloc, body, text, true).ok()
}

/// A cache that holds 7 at each of some counters.
pub(crate) fn held(alloc: Global, keys: &[&[u8]]) -> Option<Cache> {
    let mut cache = Cache::new(alloc, 3);
    for key in keys {
        cache.fill(counter(alloc, key)?, Value::Counter(7)).ok()?;
    }
    Some(cache)
}

/// A driver of a row's watches, all of them stale.
fn driver(alloc: Global, row: &Row) -> Option<Driver> {
    let mut driver = Driver::new(alloc);
    for (name, source) in row.watches {
        let name = Text::from_slice(alloc, name).ok()?;
        put(&mut driver, alloc, name, checked(alloc, source)?)?;
    }
    touch_all(&mut driver, alloc)?;
    Some(driver)
}

/// Whether a run came to this.
pub(crate) fn has_come(run: &Run, came: Came) -> bool {
    match (&run.outcome, came) {
        (Outcome::Ok(items), Came::Emitted(number)) => {
            items.len() == 1 && items.get(0).is_some_and(|item| *item == Item::Int(number))
        }
        (Outcome::Spent, Came::Spent) => true,
        _ => false,
    }
}

/// Whether a list has each watch's name and run in its place.
fn are_all(row: &Row, list: &RunList, wanted: &[Came]) -> bool {
    if list.len() != row.watches.len() || wanted.len() != row.watches.len() {
        return false;
    }
    for ((watch, came), (name, run)) in row.watches.iter().zip(wanted).zip(list.as_slice()) {
        if name.as_slice() != watch.0 || !has_come(run, *came) {
            return false;
        }
    }
    true
}

/// Whether an address is that of a counter.
pub(crate) fn is_counter(address: &Address, key: &[u8]) -> bool {
    address.kind == Kind::Counter && address.key.as_slice() == key
}

/// Whether reruns came to what is wanted of a row.
fn is_as_wanted(row: &Row, all: &Reruns) -> bool {
    match (all, row.want) {
        (Reruns::Need(address), Want::Need(key)) => is_counter(address, key),
        (Reruns::Ran(list), Want::All(wanted)) => are_all(row, list, wanted),
        _ => false,
    }
}

/// What the reruns of a row come to.
fn reruns(alloc: Global, row: &Row) -> Option<Reruns> {
    let driver = driver(alloc, row)?;
    let cache = held(alloc, row.held)?;
    One.rerun(alloc, &driver, &cache).ok()
}

#[test]
fn lists_run_as_they_should(rt: HostRuntime) {
    for (place, row) in rows().iter().enumerate() {
        let is_right = reruns(rt.alloc(), row).is_some_and(|all| is_as_wanted(row, &all));
        assert!(rt; is_right, "row {place}");
    }
}

/// The rerun of one watch of whose counter nothing is held, and then 7.
fn needs_and_runs(alloc: Global) -> Option<bool> {
    let body = checked(alloc, X.1)?;
    let watch = StaleWatch {
        name: X.0,
        body: &body,
    };
    let mut cache = Cache::new(alloc, 3);
    let WatchRun::Need(address) = run_watch(alloc, &watch, &cache).ok()? else {
        return Some(false);
    };
    cache.fill(address, Value::Counter(7)).ok()?;
    match run_watch(alloc, &watch, &cache).ok()? {
        WatchRun::Done(name, run) => {
            Some(name.as_slice() == X.0 && has_come(&run, Came::Emitted(7)))
        }
        WatchRun::Need(_) => Some(false),
    }
}

#[test]
fn a_watch_needs_a_value_and_runs_on_it(rt: HostRuntime) {
    assert_eq!(rt; needs_and_runs(rt.alloc()), Some(true));
}
