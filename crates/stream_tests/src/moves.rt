//! What is done with a link, or seen of it. A test is a list of moves, each of which answers whether it went as it should.

use crate::lines::{breaks, ends, is_next};
use dio_core::{End, Got, Source, write_all};
use std::alloc::{AllocError, Global};

/// A move; a buffer that is read into is `...` before.
#[derive(Clone, Copy)]
pub enum Move {
    /// The next line.
    Next(&'static [u8]),
    /// A read fails in the next line.
    Breaks,
    /// There is no line more.
    Ends,
    /// How many bytes a read gives, and the buffer behind it.
    Gives(usize, [u8; 3]),
    /// The same of a read up to a newline.
    GivesThrough(usize, [u8; 3]),
    /// The end is read.
    GivesEnd,
    /// The line that is at hand, if one is and it has four bytes at most.
    Ahead(Option<&'static [u8]>),
    /// Whether all of this is written.
    Writes(&'static [u8], bool),
    /// Whether what was written is passed on.
    Flushes(bool),
    /// The link is ended.
    End,
    /// How many reads and writes have failed.
    Faults(u64, u64),
}

/// Whether a read gives so many bytes, with this buffer behind it.
fn gives<K: End>(link: &mut K, count: usize, wanted: [u8; 3]) -> bool {
    let mut buf = *b"...";
    link.read(&mut buf) == Got::Bytes(count) && buf == wanted
}

/// The same of a read up to a newline.
fn gives_through<K: End>(link: &mut K, count: usize, wanted: [u8; 3]) -> bool {
    let mut buf = *b"...";
    link.read_through(b'\n', &mut buf) == Got::Bytes(count) && buf == wanted
}

/// Whether this line is at hand, or none is.
fn is_ahead<K: End>(link: &mut K, wanted: Option<&[u8]>) -> bool {
    let mut buf = [0; 4];
    match (link.line_ahead(&mut buf), wanted) {
        (Some(length), Some(line)) => &buf[..length] == line,
        (None, None) => true,
        _ => false,
    }
}

/// Makes a move, and answers whether it went as it should.
fn goes<K: End>(alloc: Global, link: &mut K, step: Move) -> bool {
    match step {
        Move::Next(line) => is_next(alloc, link, line),
        Move::Breaks => breaks(alloc, link),
        Move::Ends => ends(alloc, link),
        Move::Gives(count, buf) => gives(link, count, buf),
        Move::GivesThrough(count, buf) => gives_through(link, count, buf),
        Move::GivesEnd => link.read(&mut [0; 3]) == Got::End,
        Move::Ahead(line) => is_ahead(link, line),
        Move::Writes(bytes, all) => write_all(link, bytes) == all,
        Move::Flushes(is_passed_on) => link.flush() == is_passed_on,
        Move::End => {
            link.end();
            true
        }
        Move::Faults(reads, writes) => link.read_faults() == reads && link.write_faults() == writes,
    }
}

/// Whether each of some moves goes as it should.
pub fn all_go<K: End>(alloc: Global, link: &mut K, moves: &[Move]) -> bool {
    for step in moves {
        if !goes(alloc, link, *step) {
            return false;
        }
    }
    true
}

/// The same with a link that was made.
pub fn go_all<K: End + Drop>(alloc: Global, link: Result<K, AllocError>, moves: &[Move]) -> bool {
    match link {
        Ok(mut link) => all_go(alloc, &mut link, moves),
        Err(_) => false,
    }
}
