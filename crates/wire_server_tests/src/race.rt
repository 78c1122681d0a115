//! Two clients far away and a session of lines race over one store, each in a thread of its own. What they were told is held
//! against the journal that is left.

ghost use Rattle.std.specs.Prelude.{◌≡◌, None};
ghost use Rattle.diamond_store.specs.Numbers.{from_in, HasSettings};

use crate::all_links::serve_lines;
use crate::journal::{Additions, is_answered, is_replied, reply_of};
use crate::serving::serve_new;
use diamond_store::{Book, Open, open};
use dio_core::{MemLink, MemSink, MemSource, NEWLINE};
use history_lock::{Naming, Opened};
use journal_core::MemKeep;
use plain_data::Text;
use rdt_types::{Address, Kind, Settings};
use remote_wire::{BaseList, Request, WireAnswer, decode_answer, encode_request};
use script_runner::WHOLE;
use session_text::Reply;
use std::alloc::{AllocError, Global};
use std::marker::Brand;
use std::process::Abort;
use std::sync::Wait;
use std::thread::{Threads, map_vec};
use store_talkers::{Founder, Newcomer, TestStore};
use txn_lang::{Commit, CommitList};
use wire_frames::{Frame, read_frame, write_frame};

/// How many commits each client far away makes, and how many lines of each form the session has.
const EACH: u32 = 40;

/// What a client far away commits.
const BODY: &[u8] = b"counter(\"x\").add(3);";

/// Two lines of the session. The first commits what it has seen, or is aborted.
const LINES: &[u8] =
    b"do emit counter(\"x\").get(); counter(\"x\").add(5);\nlook emit counter(\"x\").get();\n";

/// How many bytes an answer has at most here.
const LONGEST_ANSWER: u32 = 64;

// ---- what they say

/// The counter to which all add.
fn counter(alloc: Global) -> Result<Address, AllocError> {
    let key = Text::from_slice(alloc, b"x".as_slice())?;
    Ok(Address {
        kind: Kind::Counter,
        key,
    })
}

/// What a client far away asks: how long the journal is, the counter, and a commit, again and again.
fn requests(alloc: Global) -> Result<Vec<Request>, AllocError> {
    let mut all = Vec::new(alloc);
    for before in 0..EACH {
        let seq = u64::from(before) + 1;
        let body = Text::from_slice(alloc, BODY)?;
        all.push(Request::Refresh)?;
        all.push(Request::Read(counter(alloc)?))?;
        all.push(Request::Append(seq, body, BaseList::new(alloc)))?;
    }
    Ok(all)
}

/// Their frames.
fn frames(alloc: Global, requests: &[Request]) -> Result<Vec<u8>, AllocError> {
    let mut sink = MemSink::new(alloc, 4096, &[])?;
    for request in requests {
        let bytes = encode_request(alloc, request)?;
        if bytes.len() > 4096 || !write_frame(&mut sink, bytes.as_slice()) {
            return Err(AllocError);
        }
    }
    Ok(Vec::from_slice(alloc, sink.taken())?)
}

/// The lines of the session.
fn lines(alloc: Global) -> Result<Vec<u8>, AllocError> {
    let mut all = Vec::new(alloc);
    for _ in 0..EACH {
        all.extend_from_slice(LINES)?;
    }
    Ok(all)
}

// ---- what they are told

/// The next answer, which is to be one to this request.
fn next_answer(alloc: Global, source: &mut MemSource, asked: &Request) -> Option<WireAnswer> {
    match read_frame(alloc, source, LONGEST_ANSWER) {
        Ok(Frame::Bytes(bytes)) => decode_answer(alloc, asked, bytes.as_slice()).ok(),
        _ => None,
    }
}

/// Whether a client far away was answered all its requests, as the journal has it, and nothing more.
fn answers_stand(
    alloc: Global,
    journal: Additions<'_>,
    client: u32,
    requests: &[Request],
    answers: &[u8],
) -> bool {
    let Ok(mut source) = MemSource::new(alloc, answers, 4096, &[]) else {
        return false;
    };
    let mut told: u64 = 0;
    for asked in requests {
        match next_answer(alloc, &mut source, asked) {
            Some(answer) if is_answered(journal, client, asked, &answer, told) => {}
            _ => return false,
        }
        if matches!(asked, Request::Append(_, _, _)) {
            told = told.saturating_add(1);
        }
    }
    matches!(
        read_frame(alloc, &mut source, LONGEST_ANSWER),
        Ok(Frame::End)
    )
}

/// How many commits the session was told, where each of its lines is answered as the journal has it.
fn told_in(alloc: Global, journal: Additions<'_>, client: u32, replies: &[u8]) -> Option<u64> {
    let mut told: u64 = 0;
    let mut count: u32 = 0;
    for line in replies.split(|byte| *byte == NEWLINE) {
        if line.is_empty() {
            continue;
        }
        let reply = reply_of(alloc, line)?;
        if !is_replied(journal, client, &reply, told) {
            return None;
        }
        if matches!(reply, Reply::Commit(_, _)) {
            told = told.saturating_add(1);
        }
        count = count.saturating_add(1);
    }
    if count == 2 * EACH { Some(told) } else { None }
}

// ---- the race

/// A new client with its link: one far away, or a session of lines.
#[derive(Drop)]
struct Racer<N: Naming> {
    newcomer: Newcomer<N>,
    link: MemLink,
    is_far: bool,
}

/// The link of a new client is served to its end. The link, and the status.
fn served<N: Naming, R: Wait>(
    rt: &R,
    alloc: Global,
    store: &TestStore<N>,
    racer: Racer<N>,
) -> (MemLink, u8) {
    let Racer {
        newcomer,
        mut link,
        is_far,
    } = racer;
    let pass = newcomer.into_pass();
    let status = if is_far {
        serve_new(rt, alloc, store, pass, &mut link).0
    } else {
        serve_lines(rt, alloc, store, pass, &mut link)
    };
    (link, status)
}

/// What the link of a client gives, who is far away or has a session of lines.
#[derive(Clone, Copy)]
struct Given<'b> {
    bytes: &'b [u8],
    is_far: bool,
}

/// A new client with a link that gives this. There are numbers for a few.
fn new_racer<N: Naming, R: Abort>(
    rt: &R,
    alloc: Global,
    store: &TestStore<N>,
    first: &mut Founder<N>,
    given: Given<'_>,
) -> Result<Racer<N>, AllocError> {
    let Some(newcomer) = first.join(store) else {
        panic!(rt; "no client's number is left");
    };
    let link = MemLink::new(alloc, given.bytes, 16, &[], &[])?;
    Ok(Racer {
        newcomer,
        link,
        is_far: given.is_far,
    })
}

/// The clients 1 and 2, far away, and the session of the client 3.
fn racers<N: Naming, R: Abort>(
    rt: &R,
    alloc: Global,
    store: &TestStore<N>,
    first: &mut Founder<N>,
    frames: &[u8],
) -> Result<Vec<Racer<N>>, AllocError> {
    let lines = lines(alloc)?;
    let requests = Given {
        bytes: frames,
        is_far: true,
    };
    let session = Given {
        bytes: lines.as_slice(),
        is_far: false,
    };
    let mut all = Vec::new(alloc);
    all.push(new_racer(rt, alloc, store, first, requests)?)?;
    all.push(new_racer(rt, alloc, store, first, requests)?)?;
    all.push(new_racer(rt, alloc, store, first, session)?)?;
    Ok(all)
}

/// The links with their statuses, and the journal that is left.
#[derive(Drop)]
struct Raced {
    links: Vec<(MemLink, u8)>,
    commits: CommitList,
}

/// All race over a store of their own, which is closed then.
fn all_race<N: Naming + Send + Sync, R: Threads + Wait + Abort + Sync>(
    rt: &R,
    alloc: Global,
    opened: Opened<Book<MemKeep>>,
    settings: &Settings,
    frames: &[u8],
) -> Result<Raced, AllocError>
    requires lock { opened.lock ≡ N.lock }
    requires settings { HasSettings opened.lock.origin settings.now }
    requires author { opened.front.author ≡ None }
    requires from { from_in opened.lock.origin ≡ opened.lock.base }
{
    let (store, first) = TestStore::<N>::new(alloc, settings, opened, Open)?;
    let mut first = Founder::new(first);
    let racers = racers(rt, alloc, &store, &mut first, frames)?;
    let links = map_vec(rt, racers, &|racer| served(rt, alloc, &store, racer))?;
    let closed = store.close(rt, first.into_pass());
    Ok(Raced {
        links,
        commits: closed.commits,
    })
}

/// The same on a new store.
fn run_race<R: Threads + Wait + Abort + Sync>(
    rt: &R,
    alloc: Global,
    frames: &[u8],
) -> Result<Raced, AllocError> {
    let settings = Settings::standard();
    let opened = open(alloc, &settings, MemKeep, CommitList::new(alloc))?;
    all_race::<Brand, _>(rt, alloc, opened, &settings, frames)
}

/// Whether the link of a client far away came to its end, and was told what the journal has.
fn is_far_told(
    alloc: Global,
    journal: Additions<'_>,
    client: u32,
    requests: &[Request],
    raced: &(MemLink, u8),
) -> bool {
    raced.1 == WHOLE && answers_stand(alloc, journal, client, requests, raced.0.sink.taken())
}

/// Whether all three were told what the journal has, and it has no other commit.
fn is_explained(
    alloc: Global,
    journal: Additions<'_>,
    requests: &[Request],
    links: &[(MemLink, u8)],
) -> bool {
    let [one, two, lines] = links else {
        return false;
    };
    let told = told_in(alloc, journal, 3, lines.0.sink.taken());
    let all = told.map(|told| told.saturating_add(2 * u64::from(EACH)));
    is_far_told(alloc, journal, 1, requests, one)
        && is_far_told(alloc, journal, 2, requests, two)
        && lines.1 == WHOLE
        && all == Some(journal.commits.len() as u64)
}

/// A race, and whether it is explained.
fn race_is_explained<R: Threads + Wait + Abort + Sync>(
    rt: &R,
    alloc: Global,
) -> Result<bool, AllocError> {
    let requests = requests(alloc)?;
    let frames = frames(alloc, requests.as_slice())?;
    let raced = run_race(rt, alloc, frames.as_slice())?;
    let counter = counter(alloc)?;
    let journal = Additions {
        commits: raced.commits.as_slice(),
        counter: &counter,
    };
    Ok(is_explained(alloc, journal, requests.as_slice(), raced.links.as_slice()))
}

#[test]
fn what_racers_are_told_one_journal_explains(rt: HostRuntime) {
    assert!(rt; race_is_explained(&rt, rt.alloc()) == Ok(true));
}
