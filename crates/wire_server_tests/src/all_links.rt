//! Tests of all links of a listener.

ghost use Rattle.std.specs.Prelude.{◌≡◌, None, []};
ghost use Rattle.txn_lang.specs.Journals.{own};
ghost use Rattle.diamond_store.specs.Numbers.{from_in, HasSettings};

use diamond_server::{Tally, serve_session};
use diamond_store::{Book, JoinError, Open, Served, open};
use dio_core::{End, MemLink, MemLinks, MemListener};
use history_lock::{Naming, Opened};
use journal_core::MemKeep;
use rdt_types::Settings;
use script_runner::WHOLE;
use std::alloc::{AllocError, Global};
use std::marker::Brand;
use std::process::Abort;
use std::sync::Wait;
use std::thread::{Threads, join};
use store_talkers::{TestPass, TestStore};
use txn_lang::CommitList;
use wire_server::{MALFORMED, serve_all_wire};

/// How many commits each client makes.
const EACH: usize = 2;

/// Two commits of a client far away, and the bytes of their answers: two frames of 21 bytes.
const WIRE: &[u8] =
    b"\x00\x00\x00\x18\x05\x00\x00\x00\x00\x00\x00\x00\x01\x00\x00\x00\x07emit 7;\x00\x00\x00\x00\x00\x00\x00\x18\x05\x00\x00\x00\x00\x00\x00\x00\x02\x00\x00\x00\x07emit 8;\x00\x00\x00\x00";

const WIRE_ANSWERED: usize = 42;

/// Two commits of a session of lines.
const LINES: &[u8] = b"do emit 7;\ndo emit 8;\n";

/// Serves a session of lines of a new client.
pub(crate) fn serve_lines<K: End, N: Naming, R: Wait>(
    rt: &R,
    alloc: Global,
    store: &TestStore<N>,
    pass: TestPass<N>,
    link: &mut K,
) -> u8
    requires none { own pass.client pass.journal ≡ [] }
{
    let mut served = Served { store, pass, rt };
    serve_session(alloc, &mut served, link)
}

/// A session of lines that goes into a thread, and comes back as its status and its link.
fn lines_served<N: Naming, R: Wait>(
    rt: &R,
    alloc: Global,
    store: &TestStore<N>,
    pass: TestPass<N>,
    mut link: MemLink,
) -> (u8, MemLink)
    requires none { own pass.client pass.journal ≡ [] }
{
    let status = serve_lines(rt, alloc, store, pass, &mut link);
    (status, link)
}

/// The links of clients far away, in threads; what came of them, the listener and the pass.
fn links_served<N: Naming + Send + Sync, R: Threads + Wait + Sync>(
    rt: &R,
    alloc: Global,
    store: &TestStore<N>,
    mut pass: TestPass<N>,
    mut listener: MemListener,
) -> Option<(Tally, MemListener, TestPass<N>)> {
    match serve_all_wire(rt, alloc, &mut listener, store, &mut pass, 3) {
        Ok(tally) => Some((tally, listener, pass)),
        Err(_) => None,
    }
}

/// Whether a link was given back whole, with as many bytes of answers as two commits have.
fn is_whole(pair: &(MemLink, u8)) -> bool {
    pair.1 == WHOLE && pair.0.sink.taken().len() == WIRE_ANSWERED
}

/// Whether two links came back whole, and a third was refused.
fn came_back(listener: &MemListener) -> bool {
    match listener.back().as_slice() {
        [one, two, three] => is_whole(one) && is_whole(two) && three.1 == MALFORMED,
        _ => false,
    }
}

/// Whether three links were accepted, of which one was faulted.
fn is_told(tally: &Tally) -> bool {
    (tally.accepted, tally.faulted, tally.failed) == (3, 1, false)
}

/// The links of clients far away, and that of a session of lines.
#[derive(Drop)]
struct Racing {
    listener: MemListener,
    lines: MemLink,
}

/// Two clients far away, one that sends what is no request, and a session of lines race over one store: each commits twice, and
/// there are as many commits then.
fn all_race<N: Naming + Send + Sync, R: Threads + Wait + Abort + Sync>(
    rt: &R,
    alloc: Global,
    opened: Opened<Book<MemKeep>>,
    settings: &Settings,
    racing: Racing,
) -> Result<bool, AllocError>
    requires lock { opened.lock ≡ N.lock }
    requires settings { HasSettings opened.lock.origin settings.now }
    requires author { opened.front.author ≡ None }
    requires from { from_in opened.lock.origin ≡ opened.lock.base }
{
    let (store, mut first) = TestStore::<N>::new(alloc, settings, opened, Open)?;
    let other = match store.join(&mut first) {
        Ok(other) => other,
        Err(JoinError::NoMemory) => return Err(AllocError),
        Err(JoinError::Clients(_)) => panic!(rt; "no client's number is left"),
    };
    let Racing { listener, lines } = racing;
    let ((status, _link), back) = join(
        rt,
        || lines_served(rt, alloc, &store, other, lines),
        || links_served(rt, alloc, &store, first, listener),
    );
    match back {
        Some((tally, listener, pass)) => {
            let closed = store.close(rt, pass);
            Ok(
                status == WHOLE
                    && is_told(&tally)
                    && came_back(&listener)
                    && closed.commits.len() == 3 * EACH,
            )
        }
        None => Ok(false),
    }
}

/// The same over a store of its own.
fn is_raced<R: Threads + Wait + Abort + Sync>(rt: &R, alloc: Global) -> Result<bool, AllocError> {
    let mut links = MemLinks::new(alloc);
    links.push(MemLink::new(alloc, WIRE, 16, &[], &[])?)?;
    links.push(MemLink::new(alloc, WIRE, 16, &[], &[])?)?;
    links.push(MemLink::new(alloc, b"\x00\x00\x00\x01\x63", 16, &[], &[])?)?;
    let racing = Racing {
        listener: MemListener::new(alloc, links),
        lines: MemLink::new(alloc, LINES, 16, &[], &[])?,
    };
    let settings = Settings::standard();
    let opened = open(alloc, &settings, MemKeep, CommitList::new(alloc))?;
    all_race::<Brand, _>(rt, alloc, opened, &settings, racing)
}

#[test]
fn all_links_are_served_beside_a_session(rt: HostRuntime) {
    assert!(rt; is_raced(&rt, rt.alloc()) == Ok(true));
}
