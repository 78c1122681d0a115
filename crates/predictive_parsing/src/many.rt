//! Many items, one after another: the one loop that readers of lists share.

ghost use Rattle.std.specs.Prelude.{◌≡◌, Bool, List, Option, Result};
ghost use Rattle.predictive_parsing.specs.Reading as read;
ghost use Rattle.predictive_parsing.specs.Reading.{next};
ghost use Rattle.predictive_parsing.specs.Reads.{Reads};

use crate::cursor::Cursor;
use crate::refused::Refused;
use plain_data::{OrNoMemory, Sequence};
use std::alloc::Global;

/// What is read many times in a row: of which item it begins, and how one is read.
pub trait Reading<I, A> {
    /// Whether one begins with what is ahead.
    ghost starts: { Self → Option I → Bool };

    /// How one is read.
    ghost reader: { Self → List I → Result (A × List I) (List I) };

    /// Whether one begins here.
    fn begins(&self, cursor: &Cursor<I>) -> bool
        ensures { result ≡ starts self.now (next cursor.now) };

    /// Reads one.
    fn read(&self, alloc: Global, cursor: &mut Cursor<I>) -> Result<A, OrNoMemory<Refused>>
        ensures { Reads (reader self.now cursor.old) result cursor.new };
}

/// As many as begin: each takes an item at least, so there are not more of them than items.
pub fn read_many<I, A: Drop, R: Reading<I, A>>(
    alloc: Global,
    reading: &R,
    cursor: &mut Cursor<I>,
) -> Result<Sequence<A>, OrNoMemory<Refused>>
    ensures { Reads (read.many (R.starts reading.now) (R.reader reading.now) cursor.old) result cursor.new }
{
    let mut found = Sequence::new(alloc);
    for _ in 0..cursor.len() {
        if !reading.begins(cursor) {
            return Ok(found);
        }
        let item = reading.read(alloc, cursor)?;
        found.push(item)?;
    }
    Ok(found)
}
