//! Lists of stale watches that workers run anew, in parts. What they come to was worked out by hand.

use crate::reruns::drivers::{put, touch_all};
use crate::reruns::lists::{
    Came, FIVE, SPENT, Want, Watch, X, Y, checked, has_come, held, is_counter,
};
use par_rerun::{Meet, NoMeet, Parallel};
use plain_data::Text;
use rerun_driver::Driver;
use std::alloc::Global;
use std::sync::atomic::{AtomicU64, Ordering};
use std::thread::Threads;
use watch_reruns::{Rerunner, Reruns, RunList};

/// A list of watches that emit 5 but at some places, the counters whose values are held (each is 7), and what is wanted. Where all
/// run, it says what the watches at these places come to, in their order.
#[derive(Clone, Copy)]
struct Long {
    count: usize,
    others: &'static [(usize, Watch)],
    held: &'static [&'static [u8]],
    want: Want,
}

static LONG: [Long; 11] = [
    Long {
        count: 0,
        others: &[],
        held: &[],
        want: Want::All(&[]),
    },
    Long {
        count: 1,
        others: &[(0, X)],
        held: &[b"x"],
        want: Want::All(&[Came::Emitted(7)]),
    },
    Long {
        count: 1,
        others: &[(0, X)],
        held: &[],
        want: Want::Need(b"x"),
    },
    Long {
        count: 2_200,
        others: &[],
        held: &[],
        want: Want::All(&[]),
    },
    // The first and the last, and a number of watches that no number of parts divides.
    Long {
        count: 2_209,
        others: &[(0, X), (2_208, Y)],
        held: &[b"x", b"y"],
        want: Want::All(&[Came::Emitted(7), Came::Emitted(8)]),
    },
    // A need in the middle.
    Long {
        count: 2_200,
        others: &[(1_100, X)],
        held: &[],
        want: Want::Need(b"x"),
    },
    // Of several the first tells which: in the parts of a list, and within one.
    Long {
        count: 2_200,
        others: &[(1_100, X), (2_199, Y)],
        held: &[],
        want: Want::Need(b"x"),
    },
    Long {
        count: 2_200,
        others: &[(0, X), (1, Y), (2_199, X)],
        held: &[b"x"],
        want: Want::Need(b"y"),
    },
    Long {
        count: 2_200,
        others: &[(2_198, Y), (2_199, X)],
        held: &[],
        want: Want::Need(b"y"),
    },
    // A body that spends its ticks in the middle of the list, and in front of one that needs a value.
    Long {
        count: 2_200,
        others: &[(1_100, SPENT)],
        held: &[],
        want: Want::All(&[Came::Spent]),
    },
    Long {
        count: 2_200,
        others: &[(900, SPENT), (1_300, X)],
        held: &[],
        want: Want::Need(b"x"),
    },
];

fn long_lists() -> &'static [Long] {
    &LONG
}

/// A long list's names, and a driver of its watches, all of them stale.
#[derive(Drop)]
struct Prepared {
    names: Vec<Text>,
    driver: Driver,
}

/// The source of the body at a place.
fn source_at(long: &Long, place: usize) -> &'static [u8] {
    for (at, watch) in long.others {
        if *at == place {
            return watch.1;
        }
    }
    FIVE.1
}

/// The names of a long list, each of which tells its place, and a driver of its watches.
fn prepare(alloc: Global, long: &Long) -> Option<Prepared> {
    let mut names = Vec::new(alloc);
    let mut driver = Driver::new(alloc);
    for place in 0..long.count {
        let name = format!(in alloc; "w{place}").ok()?;
        let name = Text::from_slice(alloc, name.as_bytes()).ok()?;
        names.push(name.clone().ok()?).ok()?;
        put(
            &mut driver,
            alloc,
            name,
            checked(alloc, source_at(long, place))?,
        )?;
    }
    touch_all(&mut driver, alloc)?;
    Some(Prepared { names, driver })
}

/// What the watch at a place comes to, where those at the other places come to this.
fn came_at(long: &Long, place: usize, others: &[Came]) -> Came {
    for ((at, _), came) in long.others.iter().zip(others) {
        if *at == place {
            return *came;
        }
    }
    Came::Emitted(5)
}

/// Whether a list has each watch's name and run in its place.
fn are_all(long: &Long, made: &Prepared, list: &RunList, others: &[Came]) -> bool {
    if list.len() != long.count || made.names.len() != long.count {
        return false;
    }
    for (place, (name, run)) in list.as_slice().iter().enumerate() {
        let is_named = made.names.get(place).is_some_and(|wanted| wanted == name);
        if !is_named || !has_come(run, came_at(long, place, others)) {
            return false;
        }
    }
    true
}

/// Whether workers' reruns of a long list come to what is wanted.
fn is_as_wanted<M: Meet + Sync + Drop>(
    rt: &(impl Threads + Sync),
    alloc: Global,
    long: &Long,
    meet: M,
) -> Option<bool> {
    let made = prepare(alloc, long)?;
    let cache = held(alloc, long.held)?;
    let all = Parallel::new(rt, meet)
        .rerun_told(alloc, &made.driver, &cache)
        .ok()?;
    Some(match (&all, long.want) {
        (Reruns::Need(address), Want::Need(key)) => is_counter(address, key),
        (Reruns::Ran(list), Want::All(others)) => are_all(long, &made, list, others),
        _ => false,
    })
}

#[test]
fn workers_run_long_lists_as_they_should(rt: HostRuntime) {
    for (place, long) in long_lists().iter().enumerate() {
        assert_eq!(rt;
            is_as_wanted(&rt, rt.alloc(), long, NoMeet),
            Some(true),
            "list {place}"
        );
    }
}

/// The reruns of a long list that needs no value, by any rerunner.
fn run_all<W: Rerunner>(reruns: &W, alloc: Global, long: &Long) -> Option<usize> {
    let made = prepare(alloc, long)?;
    let cache = held(alloc, long.held)?;
    match reruns.rerun(alloc, &made.driver, &cache).ok()? {
        Reruns::Ran(list) => Some(list.len()),
        Reruns::Need(_) => None,
    }
}

#[test]
fn workers_are_rerunners(rt: HostRuntime) {
    let workers = Parallel::new(&rt, NoMeet);
    assert_eq!(rt; run_all(&workers, rt.alloc(), &MANY), Some(4_096));
}

/// How often the first and the last place look for one another before they give up.
const TURNS: u32 = 100_000_000;

/// Whether the first place of a list was called, and the last, and whether one of them waited in vain.
#[derive(Drop)]
struct Meeting {
    first: AtomicU64,
    last: AtomicU64,
    was_missed: AtomicU64,
}

/// The first place and the last of a list each wait for the other's call.
#[derive(Clone, Copy)]
struct Ends<'m> {
    meeting: &'m Meeting,
    last: u32,
}

/// Tells of one call, and answers whether the other came in time.
fn has_met(own: &AtomicU64, other: &AtomicU64) -> bool {
    own.store(1, Ordering::SeqCst);
    for _ in 0..TURNS {
        if other.load(Ordering::SeqCst) == 1 {
            return true;
        }
    }
    false
}

impl Meet for Ends<'_> {
    fn at(&self, place: u32) {
        let meeting = self.meeting;
        let was_met = if place == 0 {
            has_met(&meeting.first, &meeting.last)
        } else if place == self.last {
            has_met(&meeting.last, &meeting.first)
        } else {
            true
        };
        if !was_met {
            meeting.was_missed.store(1, Ordering::SeqCst);
        }
    }
}

/// 4,096 watches that need no value.
const MANY: Long = Long {
    count: 4_096,
    others: &[],
    held: &[],
    want: Want::All(&[]),
};

#[test]
fn two_reruns(rt: HostRuntime) {
    let meeting = Meeting {
        first: AtomicU64::new(0),
        last: AtomicU64::new(0),
        was_missed: AtomicU64::new(0),
    };
    let ends = Ends {
        meeting: &meeting,
        last: 4_095,
    };
    assert_eq!(rt; is_as_wanted(&rt, rt.alloc(), &MANY, ends), Some(true));
    assert_eq!(rt; meeting.first.load(Ordering::SeqCst), 1);
    assert_eq!(rt; meeting.last.load(Ordering::SeqCst), 1);
    assert_eq!(rt;
        meeting.was_missed.load(Ordering::SeqCst),
        0,
        "it wants two processors"
    );
}
