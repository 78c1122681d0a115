//! The numbers of commits in the bytes of replies, in whatever pieces these are written.

ghost use Rattle.std.specs.Prelude.{◌≡◌, fold};
ghost use Rattle.serve_status.specs.Replies as spec;

use dio_core::NEWLINE;

/// What the reply to a commit begins with. The number of the commit stands behind it.
const WORD: &[u8] = b"commit ";

/// Where in a line the bytes so far end.
#[derive(Clone, Copy, Debug, PartialEq, Eq)]
pub enum Place {
    /// In `commit `, of which so many bytes were written, and nothing else of the line.
    Word(usize),
    /// In the number behind that word. Its digits so far come to this.
    Number(u64),
    /// Where no number of a commit follows in the line.
    Rest,
}

/// What the bytes so far tell.
#[derive(Clone, Copy, Debug, PartialEq, Eq)]
pub struct Reading {
    place: Place,
    commits: u64,
}

impl Reading {
    /// Nothing was written yet.
    pub fn new() -> Reading
        ensures { result ≡ spec.unread }
    {
        Reading {
            place: Place::Word(0),
            commits: 0,
        }
    }

    /// The greatest number of a commit so far, or 0.
    pub fn commits(self) -> u64
        ensures { result ≡ self.commits }
    {
        self.commits
    }

    /// What these bytes tell behind those so far.
    pub fn behind(self, bytes: &[u8]) -> Reading
        ensures { result ≡ fold spec.with_byte self bytes.now }
    {
        let mut reading = self;
        for byte in bytes {
            reading = reading.with_byte(*byte);
        }
        reading
    }

    /// What one more byte tells. A number that isn't whole yet is no greater than the whole.
    fn with_byte(self, byte: u8) -> Reading
        ensures { result ≡ spec.with_byte self byte }
    {
        let place = place_after(self.place, byte);
        Reading {
            place,
            commits: self.commits.max(number_at(place)),
        }
    }
}

/// Where one more byte ends. A newline begins a line.
fn place_after(place: Place, byte: u8) -> Place
    ensures { result ≡ spec.place_after place byte }
{
    if byte == NEWLINE {
        return Place::Word(0);
    }
    match place {
        Place::Word(count) if is_next(count, byte) => behind_letters(count + 1),
        Place::Number(number) if byte.is_ascii_digit() => with_digit(number, byte - b'0'),
        _ => Place::Rest,
    }
}

/// Whether this is the byte of the word behind so many.
fn is_next(count: usize, byte: u8) -> bool
    ensures { result ≡ spec.is_next count byte }
{
    count < WORD.len() && WORD[count] == byte
}

/// Behind so many bytes of the word.
fn behind_letters(count: usize) -> Place
    ensures { result ≡ spec.behind_letters count }
{
    if count == WORD.len() {
        Place::Number(0)
    } else {
        Place::Word(count)
    }
}

/// Behind one more digit.
fn with_digit(number: u64, digit: u8) -> Place
    ensures { result ≡ spec.with_digit number digit }
{
    Place::Number(number.saturating_mul(10).saturating_add(u64::from(digit)))
}

/// The number that the bytes end in, as far as it was written, or 0.
fn number_at(place: Place) -> u64
    ensures { result ≡ spec.number_at place }
{
    match place {
        Place::Number(number) => number,
        _ => 0,
    }
}
