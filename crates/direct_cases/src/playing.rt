//! A case is played by two clients of a store of its own.

ghost use Rattle.std.specs.Prelude.{◌≡◌, None};
ghost use Rattle.diamond_store.specs.Numbers.{from_in, HasSettings};

use crate::case::{Outcome, Replies, Row};
use crate::far::Far;
use diamond_store::{Book, Open, Served, open};
use docc_prepare::{Backend, Waiter};
use history_lock::{Naming, Opened};
use journal_core::MemKeep;
use rdt_types::Settings;
use std::alloc::{AllocError, Global};
use std::marker::Brand;
use std::sync::Wait;
use store_talkers::{Newcomer, TestStore};
use txn_lang::CommitList;

/// Two clients of one store.
#[derive(Drop)]
struct Both<B: Waiter + Drop> {
    first: Far<B>,
    second: Far<B>,
}

/// What one of them says comes to its replies.
fn say<B: Waiter + Drop>(
    alloc: Global,
    both: &mut Both<B>,
    is_second: bool,
    line: &[u8],
    replies: &mut Replies,
) -> Result<(), AllocError> {
    let said = if is_second {
        both.second.say(alloc, line)?
    } else {
        both.first.say(alloc, line)?
    };
    replies.come(said.as_slice())
}

/// Plays a row. Whether it is of a form.
fn play_row<B: Waiter + Drop>(
    alloc: Global,
    both: &mut Both<B>,
    row: &str,
    replies: &mut Replies,
) -> Result<bool, AllocError> {
    match Row::read(row) {
        None => return Ok(false),
        Some(Row::Remark) => {}
        Some(Row::Reply(reply)) => replies.want(reply)?,
        Some(
            Row::Line {
                is_second,
                line,
                reply,
            },
        ) => {
            replies.want_first(reply)?;
            say(alloc, both, is_second, line.as_bytes(), replies)?;
        }
    }
    Ok(true)
}

/// Plays the rows of a case, of which the first line is its name.
fn play<B: Waiter + Drop>(
    alloc: Global,
    both: &mut Both<B>,
    case: &str,
) -> Result<Outcome, AllocError> {
    let mut replies = Replies::new(alloc);
    for row in case.lines().skip(1) {
        if !play_row(alloc, both, row, &mut replies)? {
            return Ok(Outcome::NoForm);
        }
    }
    replies.outcome(alloc)
}

/// The client of a pass, far from its store.
fn far_client<'a, N: Naming, R: Wait>(
    rt: &'a R,
    alloc: Global,
    store: &'a TestStore<N>,
    newcomer: Newcomer<N>,
) -> Result<Far<Served<'a, MemKeep, Open, N, R>>, AllocError> {
    let pass = newcomer.into_pass();
    let _known = pass.seen();
    let served = Served { store, pass, rt };
    let _seen = served.seen();
    match Far::new(alloc, served) {
        Some(client) => Ok(client),
        None => Err(AllocError),
    }
}

/// Plays a case over a store that was just opened. The case is bytes, since a caller can name the lock of no callee that takes a `&str`.
fn played<N: Naming, R: Wait>(
    rt: &R,
    alloc: Global,
    opened: Opened<Book<MemKeep>>,
    settings: &Settings,
    case: &[u8],
) -> Result<Outcome, AllocError>
    requires lock { opened.lock ≡ N.lock }
    requires settings { HasSettings opened.lock.origin settings.now }
    requires author { opened.front.author ≡ None }
    requires from { from_in opened.lock.origin ≡ opened.lock.base }
{
    let Ok(case) = str::from_utf8(case) else {
        return Ok(Outcome::NoForm);
    };
    let (store, mut pass) = TestStore::<N>::new(alloc, settings, opened, Open)?;
    let Ok(other) = store.join(&mut pass) else {
        return Err(AllocError);
    };
    let mut both = Both {
        first: far_client(rt, alloc, &store, Newcomer::new(pass))?,
        second: far_client(rt, alloc, &store, Newcomer::new(other))?,
    };
    play(alloc, &mut both, case)
}

/// Plays a case over a new store.
pub(crate) fn play_anew<R: Wait>(rt: &R, alloc: Global, case: &str) -> Result<Outcome, AllocError> {
    let settings = Settings::standard();
    let opened = open(alloc, &settings, MemKeep, CommitList::new(alloc))?;
    played::<Brand, _>(rt, alloc, opened, &settings, case.as_bytes())
}
