//! Sessions of two clients on one store, each in a thread of its own.

ghost use Rattle.std.specs.Prelude.{◌≡◌, None};
ghost use Rattle.diamond_store.specs.Numbers.{from_in, HasSettings};

use crate::meeting::{new_client, reply_to_new_client};
use diamond_store::{Book, Open, open};
use docc_prepare::StoreError;
use history_lock::{Naming, Opened};
use journal_core::MemKeep;
use plain_data::Text;
use rdt_types::Settings;
use session_core::{SessionError, Turn};
use session_text::Reply;
use std::alloc::{AllocError, Global};
use std::marker::Brand;
use std::process::Abort;
use std::sync::Wait;
use std::thread::{Threads, join};
use store_talkers::{Founder, Newcomer, Talker, TestPass, TestStore};
use txn_lang::CommitList;

/// How many lines were answered by a commit, and how many by an abort.
#[derive(Clone, Copy)]
struct Tally {
    commits: u64,
    aborts: u64,
}

impl Tally {
    /// With one line more.
    fn with(self, turn: &Turn) -> Tally {
        let Turn::Replies(replies) = turn else {
            return self;
        };
        match replies.get(0) {
            Some(Reply::Commit(_, _)) => Tally {
                commits: self.commits.saturating_add(1),
                aborts: self.aborts,
            },
            Some(Reply::Abort(_)) => Tally {
                commits: self.commits,
                aborts: self.aborts.saturating_add(1),
            },
            _ => self,
        }
    }
}

/// A line that a client says again and again.
#[derive(Clone, Copy)]
struct Refrain {
    line: &'static [u8],
    times: u64,
}

/// A client says a line again and again.
fn repeat<N: Naming, R: Wait>(
    alloc: Global,
    talker: &mut Talker<'_, N, R>,
    refrain: Refrain,
) -> Result<Tally, SessionError> {
    let mut tally = Tally {
        commits: 0,
        aborts: 0,
    };
    for _ in 0..refrain.times {
        let turn = talker.say(alloc, refrain.line)?;
        tally = tally.with(&turn);
    }
    Ok(tally)
}

/// The same, of a new client in a thread of its own. It gives its pass back.
fn work<N: Naming, R: Wait>(
    rt: &R,
    alloc: Global,
    store: &TestStore<N>,
    newcomer: Newcomer<N>,
    refrain: Refrain,
) -> (TestPass<N>, Result<Tally, SessionError>) {
    let mut talker = Talker::new(rt, alloc, store, newcomer);
    let tally = repeat(alloc, &mut talker, refrain);
    (talker.into_pass(), tally)
}

/// What two clients were answered that said a line again and again, and what a third sees then.
#[derive(Drop)]
struct Done {
    zero: Tally,
    one: Tally,
    seen: Text,
}

/// Two clients say a line again and again, each in a thread of its own. A third has met both.
fn both_work<N: Naming + Send + Sync, R: Threads + Wait + Abort + Sync>(
    rt: &R,
    alloc: Global,
    store: &TestStore<N>,
    mut first: Founder<N>,
    refrain: Refrain,
) -> Result<Done, AllocError> {
    let zero = new_client(rt, store, &mut first);
    let one = new_client(rt, store, &mut first);
    let ((zero, of_zero), (one, of_one)) = join(
        rt,
        || work(rt, alloc, store, zero, refrain),
        || work(rt, alloc, store, one, refrain),
    );
    let (Ok(of_zero), Ok(of_one)) = (of_zero, of_one) else {
        panic!(rt; "a session ended by an error");
    };
    first.learn_from(store, zero);
    first.learn_from(store, one);
    let look = b"look emit counter(\"x\").get();";
    let seen = reply_to_new_client(rt, alloc, store, &mut first, look)?;
    Ok(Done {
        zero: of_zero,
        one: of_one,
        seen,
    })
}

/// The same on a store of its own.
fn in_two_threads<N: Naming + Send + Sync, R: Threads + Wait + Abort + Sync>(
    rt: &R,
    alloc: Global,
    opened: Opened<Book<MemKeep>>,
    settings: &Settings,
    refrain: Refrain,
) -> Result<Done, AllocError>
    requires lock { opened.lock ≡ N.lock }
    requires settings { HasSettings opened.lock.origin settings.now }
    requires from { from_in opened.lock.origin ≡ opened.lock.base }
    requires author { opened.front.author ≡ None }
{
    let (store, first) = TestStore::<N>::new(alloc, settings, opened, Open)?;
    both_work(rt, alloc, &store, Founder::new(first), refrain)
}

/// The same on a new store.
fn two_work<R: Threads + Wait + Abort + Sync>(
    rt: &R,
    alloc: Global,
    refrain: Refrain,
) -> Result<Done, AllocError> {
    let settings = Settings::standard();
    let opened = open(alloc, &settings, MemKeep, CommitList::new(alloc))?;
    in_two_threads::<Brand, _>(rt, alloc, opened, &settings, refrain)
}

/// Whether a third client saw so many commits, and the counter raised by one by each.
fn is_raised(alloc: Global, done: &Done, commits: u64) -> bool {
    match format!(in alloc; "at {commits} ok {commits}") {
        Ok(wanted) => done.seen.as_slice() == wanted.as_bytes(),
        Err(_) => false,
    }
}

#[test]
fn additions_of_two_threads_all_count(rt: HostRuntime) {
    let line = b"do counter(\"x\").add(1);";
    match two_work(&rt, rt.alloc(), Refrain { line, times: 200 }) {
        Ok(done) => {
            assert_eq!(rt; (done.zero.commits, done.one.commits), (200, 200));
            assert!(rt; is_raised(rt.alloc(), &done, 400));
        }
        Err(_) => assert!(rt; false),
    }
}

#[test]
fn what_two_threads_raise_counts_their_commits(rt: HostRuntime) {
    let line = b"do counter(\"x\").put(counter(\"x\").get() + 1);";
    match two_work(&rt, rt.alloc(), Refrain { line, times: 100 }) {
        Ok(done) => {
            let commits = done.zero.commits.saturating_add(done.one.commits);
            let aborts = done.zero.aborts.saturating_add(done.one.aborts);
            assert_eq!(rt; commits.saturating_add(aborts), 200);
            assert!(rt; commits >= 100 && is_raised(rt.alloc(), &done, commits));
        }
        Err(_) => assert!(rt; false),
    }
}

/// A client that has seen nothing waits, until there are so many commits. It answers how many there are then.
fn awaited<N: Naming, R: Wait>(
    rt: &R,
    store: &TestStore<N>,
    newcomer: Newcomer<N>,
    commits: u64,
) -> Result<u64, StoreError> {
    let mut pass = newcomer.into_pass();
    for _ in 0..commits {
        if store.length(&mut pass) >= commits {
            break;
        }
        store.wait(rt, &mut pass)?;
    }
    Ok(store.length(&mut pass))
}

/// Two clients wait, each in a thread of its own, while another says a line so many times.
fn wait_and_work<N: Naming + Send + Sync, R: Threads + Wait + Abort + Sync>(
    rt: &R,
    alloc: Global,
    store: &TestStore<N>,
    mut first: Founder<N>,
    refrain: Refrain,
) {
    let times = refrain.times;
    let waiter = new_client(rt, store, &mut first);
    let other = new_client(rt, store, &mut first);
    let writer = new_client(rt, store, &mut first);
    let (waited, (other, (_pass, tally))) = join(
        rt,
        || awaited(rt, store, waiter, times),
        || {
            join(
                rt,
                || awaited(rt, store, other, times),
                || work(rt, alloc, store, writer, refrain),
            )
        },
    );
    assert!(rt; tally.is_ok_and(|tally| tally.commits == times));
    assert!(rt; waited.is_ok_and(|length| length == times));
    assert!(rt; other.is_ok_and(|length| length == times));
}

/// The same on a store of its own.
fn wait_on_its_own<N: Naming + Send + Sync, R: Threads + Wait + Abort + Sync>(
    rt: &R,
    alloc: Global,
    opened: Opened<Book<MemKeep>>,
    settings: &Settings,
    refrain: Refrain,
)
    requires lock { opened.lock ≡ N.lock }
    requires settings { HasSettings opened.lock.origin settings.now }
    requires from { from_in opened.lock.origin ≡ opened.lock.base }
    requires author { opened.front.author ≡ None }
{
    match TestStore::<N>::new(alloc, settings, opened, Open) {
        Ok((store, first)) => {
            wait_and_work(rt, alloc, &store, Founder::new(first), refrain);
        }
        Err(_) => assert!(rt; false),
    }
}

/// Two wait while another adds so many times.
fn wait_for<R: Threads + Wait + Abort + Sync>(rt: &R, alloc: Global, times: u64) {
    let settings = Settings::standard();
    let line = b"do counter(\"x\").add(1);";
    let refrain = Refrain { line, times };
    match open(alloc, &settings, MemKeep, CommitList::new(alloc)) {
        Ok(opened) => wait_on_its_own::<Brand, _>(rt, alloc, opened, &settings, refrain),
        Err(_) => assert!(rt; false),
    }
}

#[test]
fn one_commit_wakes_all_who_wait(rt: HostRuntime) {
    wait_for(&rt, rt.alloc(), 1);
}

#[test]
fn no_commit_comes_unheard(rt: HostRuntime) {
    wait_for(&rt, rt.alloc(), 300);
}
