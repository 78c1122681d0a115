//! Tests of links and disks that count, over those in memory, and of the line that tells the counts.

use crate::moves::{Move, all_go};
use commit_file::MemDisk;
use dio_core::{Accepted, Disk, End, Listener, MemLink, MemLinks, MemListener};
use serve_status::{CountedDisk, CountedListening, Counts, Seen, tell};
use std::alloc::{AllocError, Global};
use std::cell::Cell;
use std::fmt::Display;
use std::io;
use std::io::{Eprint, ErrorKind};
use std::sync::Arc;
use std::time::{Clock, Duration};

/// What a session of one link does: it reads a line, says how many commits there are in pieces of three bytes, and fails once.
static SESSION: [Move; 8] = [
    Move::Next(b"one"),
    Move::Ahead(None),
    Move::Writes(
        b"commit 120 ok 300\nabort counter(\"x\") whole base 1 clash whole commit 400\n",
        true,
    ),
    Move::Writes(b"held 7 commit 500\ncommit 9 ok\n", true),
    Move::Flushes(true),
    Move::Next(b"two"),
    Move::Ends,
    Move::Faults(0, 0),
];

fn session() -> &'static [Move] {
    &SESSION
}

/// Two links, which give and take three bytes at a time.
fn two_links(alloc: Global) -> Result<MemLinks, AllocError> {
    let mut links = MemLinks::new(alloc);
    links.push(MemLink::new(alloc, b"one\ntwo\n", 3, &[], &[])?)?;
    links.push(MemLink::new(alloc, b"", 3, &[], &[])?)?;
    Ok(links)
}

/// Whether there were so many sessions and commits, of which no number is known before links are accepted.
fn seen_are(counts: &Counts, sessions: u64, commits: Option<u64>) -> bool {
    counts.seen() == Seen { sessions, commits }
}

/// Whether there were so many sessions and commits.
fn counts_are(counts: &Counts, sessions: u64, commits: u64) -> bool {
    seen_are(counts, sessions, Some(commits))
}

/// Whether the session of the next link goes as over the link below, and is counted until its end, once.
fn serves<N: Listener>(alloc: Global, listener: &mut N, counts: &Counts) -> bool {
    let Accepted::Link(mut link) = listener.accept() else {
        return false;
    };
    let goes = counts_are(counts, 1, 0)
        && all_go(alloc, &mut link, session())
        && counts_are(counts, 1, 120);
    link.end();
    let ended = counts_are(counts, 0, 120);
    goes && ended && listener.give_back(link, 3).is_ok() && counts_are(counts, 0, 120)
}

/// Whether a link that is given back without an end is counted no longer.
fn gives_back<N: Listener>(listener: &mut N, counts: &Counts) -> bool {
    let Accepted::Link(link) = listener.accept() else {
        return false;
    };
    let counted = counts_are(counts, 1, 120);
    counted && listener.give_back(link, 13).is_ok() && counts_are(counts, 0, 120)
}

/// Whether what was given back took just what was written.
fn took_all(below: &MemListener) -> bool {
    let back = below.back().as_slice();
    back.len() == 2 && back[0].0.sink.taken().len() == 103 && back[0].1 == 3 && back[1].1 == 13
}

/// Whether the sessions of two links are counted.
fn counts_two(alloc: Global, below: MemListener) -> Result<bool, AllocError> {
    let counts = Arc::new(alloc, Counts::new())?;
    let mut listener = CountedListening::new(below, Arc::try_clone(&counts)?);
    Ok(
        seen_are(&counts, 0, None)
            && serves(alloc, &mut listener, &counts)
            && gives_back(&mut listener, &counts)
            && matches!(listener.accept(), Accepted::NoMore)
            && counts_are(&counts, 0, 120)
            && took_all(&listener.below),
    )
}

#[test]
fn sessions_and_commits_are_counted_and_nothing_else_changes(rt: HostRuntime) {
    match two_links(rt.alloc()) {
        Ok(links) => {
            let below = MemListener::new(rt.alloc(), links);
            assert!(rt; matches!(counts_two(rt.alloc(), below), Ok(true)));
        }
        Err(_) => assert!(rt; false),
    }
}

/// A file of version 1: commits of one byte and of none, a mark, a commit of two bytes, and one that isn't whole.
static FILE: [u8; 37] =
    *b"DIAMONDJ\0\0\0\x01\x01\0\0\0\x01a\x01\0\0\0\0\x02\x01\0\0\0\x02bc\x01\0\0\0\x09d";

fn file() -> &'static [u8] {
    &FILE
}

/// The reads of seven bytes, of which the second fails: from where, how many bytes each gives, and how many commits are counted then.
/// What was read already isn't counted once more.
static READS: [(u64, Option<usize>, u64); 10] = [
    (0, Some(7), 0),
    (7, None, 0),
    (7, Some(7), 0),
    (14, Some(7), 1),
    (21, Some(7), 2),
    (14, Some(7), 2),
    (28, Some(7), 3),
    (35, Some(2), 3),
    (37, Some(0), 3),
    (0, Some(7), 3),
];

fn reads() -> &'static [(u64, Option<usize>, u64)] {
    &READS
}

/// Whether the reads of a disk go so, and count.
fn all_read<D: Disk>(disk: &mut D, counts: &Counts) -> bool {
    for (at, count, commits) in reads() {
        let given = disk.read(*at, &mut [0; 7]).ok() == *count;
        if !given || !counts_are(counts, 0, *commits) {
            return false;
        }
    }
    disk.disk_faults() == 1
}

/// Whether the commits of a file are counted as it is read.
fn counts_file(alloc: Global) -> Result<bool, AllocError> {
    let counts = Arc::new(alloc, Counts::new())?;
    let mut disk = MemDisk::new(alloc, file(), &[1])?;
    counts.begin();
    let mut counted = CountedDisk::new(&mut disk, Arc::try_clone(&counts)?);
    Ok(all_read(&mut counted, &counts))
}

#[test]
fn the_commits_of_a_file_are_counted_as_it_is_read(rt: HostRuntime) {
    assert!(rt; matches!(counts_file(rt.alloc()), Ok(true)));
}

/// A terminal, whose pauses take no time: a session begins in the 5th, links are accepted in the 15th, and the serving is over in the
/// 25th.
#[derive(Drop)]
struct Terminal<'a> {
    alloc: Global,
    counts: &'a Counts,
    pauses: Cell<u32>,
    prints: Cell<u32>,
    first: Cell<Option<String>>,
    second: Cell<Option<String>>,
}

impl Clock for Terminal<'_> {
    fn monotonic(&self) -> io::Result<Duration> {
        Err(ErrorKind::Unsupported.into())
    }

    fn since_1970(&self) -> io::Result<Duration> {
        Err(ErrorKind::Unsupported.into())
    }

    fn sleep(&self, _duration: Duration) {
        let pauses = self.pauses.get().saturating_add(1);
        self.pauses.set(pauses);
        match pauses {
            5 => self.counts.begin_session(),
            15 => self.counts.begin(),
            25 => self.counts.end(),
            _ => {}
        }
    }
}

impl Eprint for Terminal<'_> {
    fn eprint<D: Display + Drop>(&self, value: D) -> io::Result<()> {
        let text = Some(format!(in self.alloc; "{value}")?);
        match self.prints.get() {
            0 => self.first.set(text),
            1 => self.second.set(text),
            _ => {}
        }
        self.prints.set(self.prints.get().saturating_add(1));
        Ok(())
    }

    fn eprintln<D: Display + Drop>(&self, _value: D) -> io::Result<()> {
        Err(ErrorKind::Unsupported.into())
    }
}

/// Whether this text was told.
fn was_told(told: &Cell<Option<String>>, wanted: &str) -> bool {
    match told.take() {
        Some(text) => text.as_str() == wanted,
        None => false,
    }
}

/// Whether each change is told once, behind a second, and what was told is taken away at the end.
fn tells_once(alloc: Global) -> bool {
    let counts = Counts::new();
    let terminal = Terminal {
        alloc,
        counts: &counts,
        pauses: Cell::new(0),
        prints: Cell::new(0),
        first: Cell::new(None),
        second: Cell::new(None),
    };
    tell(&terminal, &counts);
    was_told(&terminal.first, "diamond: 1 sessions   \r")
        && was_told(&terminal.second, "diamond: 1 sessions, 0 commits   \r")
        && terminal.pauses.get() == 25
        && terminal.prints.get() == 3
}

#[test]
fn each_change_is_told_once_a_second_until_the_serving_is_over(rt: HostRuntime) {
    assert!(rt; tells_once(rt.alloc()));
}
