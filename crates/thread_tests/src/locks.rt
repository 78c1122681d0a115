//! Each call of a lock, by generic callers, and by two threads at once.

ghost use Rattle.std.specs.Prelude.{◌≡◌, [], ◌∷◌, None};
ghost use mathlib.Core.List.{IsPrefix};

use history_lock::{Author, Drawn, Front, HistoryLock, Naming, Opened, Stands};
use std::alloc::{AllocError, Global};
use std::marker::Brand;
use std::process::Abort;
use std::sync::Wait;
use std::thread::{Threads, join};

/// An author's number, and how many entries the author had added before.
#[derive(Clone, Copy)]
struct Mark {
    author: u32,
    turn: usize,
}

/// A list of marks, in which every mark may follow, a count, and a limit that it keeps for good.
#[derive(Drop)]
struct Roll {
    marks: Vec<Mark>,
    count: u64,
    limit: u64,
}

impl Stands for Roll {
    type Entry = Mark;

    ghost list = { λ r. r.marks.items };

    ghost count = { λ r. r.count };

    ghost use Rattle.std.specs.Prelude.{[], ◌∷◌};

    ghost origin = { λ r. r.limit ∷ [] };

    ghost names = { λ mark. mark.author };

    ghost may_follow = { λ _ _ _. Unit {0} };

    fn entries(&self) -> u64 {
        self.marks.len() as u64
    }

    fn count(&self) -> u64 {
        self.count
    }
}

fn empty_roll(alloc: Global) -> Roll
    ensures { result.marks.items ≡ [] }
{
    Roll {
        marks: Vec::new(alloc),
        count: 0,
        limit: 9,
    }
}

/// The author adds a mark.
fn add<N: Naming, R: Wait>(
    rt: &R,
    lock: &HistoryLock<Roll, N>,
    author: &mut Author<Roll, N>,
    turn: usize,
) -> Result<(), AllocError>
    ensures { IsPrefix author.old.front.seen author.new.front.seen }
{
    let mut guard = lock.enter(rt, &mut author.front);
    let mark = Mark {
        author: author.number,
        turn,
    };
    let done = guard.value.marks.push(mark);
    lock.leave(rt, &mut author.front, guard);
    match done {
        Ok(()) => Ok(()),
        Err(_) => Err(AllocError),
    }
}

/// The author raises the count to 1.
fn raise<N: Naming, R: Wait>(rt: &R, lock: &HistoryLock<Roll, N>, author: &mut Author<Roll, N>) {
    let mut section = lock.enter(rt, &mut author.front);
    if section.value.count < 1 {
        section.value.count = 1;
    }
    lock.leave(rt, &mut author.front, section);
}

/// The limit, which is what it was when the lock was made.
fn limit<N: Naming, R: Wait>(rt: &R, lock: &HistoryLock<Roll, N>, front: &mut Front<Roll, N>) -> u64
    ensures { result ∷ [] ≡ N.lock.origin }
{
    let section = lock.enter(rt, front);
    let limit = section.value.limit;
    lock.leave(rt, front, section);
    limit
}

fn author_of<N: Naming, R: Abort>(
    rt: &R,
    lock: &HistoryLock<Roll, N>,
    front: Front<Roll, N>,
) -> Author<Roll, N>
    requires { front.author ≡ None }
{
    match lock.draw_author(front) {
        Drawn::Author(author) => author,
        Drawn::Spent(_, _) => panic!(rt; "no number is left"),
    }
}

/// Whether the author has added so many marks, in order.
fn has_turns(roll: &Roll, author: u32, turns: usize) -> bool {
    let mut next: usize = 0;
    for mark in &roll.marks {
        if mark.author == author {
            if mark.turn != next || next == turns {
                return false;
            }
            next = next.saturating_add(1);
        }
    }
    next == turns
}

#[test]
fn calls_of_two_authors(rt: HostRuntime) {
    match Opened::new(rt.alloc(), empty_roll(rt.alloc()), 0) {
        Ok(opened) => two_authors::<Brand, _>(&rt, opened),
        Err(_) => assert!(rt; false),
    }
}

/// A generic caller, which takes the lock and the tokens by value.
fn close_by_both<T: Stands + Drop, N: Naming, R: Wait>(
    rt: &R,
    lock: HistoryLock<T, N>,
    mut mine: Front<T, N>,
    other: Front<T, N>,
) -> T
    ensures mine { IsPrefix mine.seen (T.list result) }
    ensures other { IsPrefix other.seen (T.list result) }
{
    lock.meet(&mut mine, other);
    lock.close(rt, mine)
}

fn two_authors<N: Naming, R: Wait + Abort>(rt: &R, opened: Opened<Roll>)
    requires named { opened.lock ≡ N.lock }
{
    let (lock, mut front) = opened.named::<N>();
    assert_eq!(rt; lock.length(&mut front), 0);
    assert_eq!(rt; limit(rt, &lock, &mut front), 9);
    let other = lock.split(&mut front);
    let mut zero = author_of(rt, &lock, other);
    let other = lock.split(&mut front);
    let mut one = author_of(rt, &lock, other);
    assert_eq!(rt; (zero.number, one.number), (0, 1));

    let early = lock.split(&mut zero.front);
    assert!(rt; add(rt, &lock, &mut zero, 0).is_ok());
    assert_eq!(rt; lock.length(&mut one.front), 1);
    let mut late = lock.split(&mut zero.front);
    lock.meet(&mut late, early);
    assert_eq!(rt; (late.entries(), lock.length(&mut late)), (1, 1));

    raise(rt, &lock, &mut one);
    assert_eq!(rt; zero.front.count(), 0);
    let told = lock.split(&mut one.front);
    lock.meet(&mut zero.front, told);
    assert_eq!(rt; zero.front.count(), 1);
    let roll = close_by_both(rt, lock, zero.front, one.front);
    assert_eq!(rt; (roll.marks.len(), roll.count), (1, 1));
    assert!(rt; has_turns(&roll, 0, 1));
}

/// How many entries each of two threads adds.
const ADDED: usize = 1_000;

#[test]
fn two_threads_add_entries(rt: HostRuntime) {
    match Opened::new(rt.alloc(), empty_roll(rt.alloc()), 0) {
        Ok(opened) => two_threads::<Brand, _>(&rt, opened),
        Err(_) => assert!(rt; false),
    }
}

fn add_many<N: Naming, R: Wait>(
    rt: &R,
    lock: &HistoryLock<Roll, N>,
    mut author: Author<Roll, N>,
) -> Result<Author<Roll, N>, AllocError> {
    for turn in 0..ADDED {
        add(rt, lock, &mut author, turn)?;
    }
    Ok(author)
}

fn two_threads<N: Naming + Send + Sync, R: Threads + Wait + Abort + Sync>(
    rt: &R,
    opened: Opened<Roll>,
)
    requires named { opened.lock ≡ N.lock }
    requires author { opened.front.author ≡ None }
{
    let (lock, mut front) = opened.named::<N>();
    let other = lock.split(&mut front);
    let zero = author_of(rt, &lock, other);
    let one = author_of(rt, &lock, front);
    let (zero, one) = join(
        rt,
        || add_many(rt, &lock, zero),
        || add_many(rt, &lock, one),
    );
    assert!(rt; zero.is_ok());
    match one {
        Ok(one) => {
            let roll = lock.close(rt, one.front);
            assert_eq!(rt; roll.marks.len(), 2 * ADDED);
            assert!(rt; has_turns(&roll, 0, ADDED) && has_turns(&roll, 1, ADDED));
        }
        Err(_) => assert!(rt; false),
    }
}
