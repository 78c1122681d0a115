//! One of several words.

ghost use Rattle.std.specs.Prelude.{◌≡◌, ◌<◌, nat_eq, length};
ghost use Rattle.std.specs.List.{common_prefix_len};
ghost use Rattle.predictive_parsing.specs.Choices as spec;
ghost use Rattle.predictive_parsing.specs.Reads.{Reads, OnlyRefuses};

use crate::cursor::Cursor;
use crate::refused::Refused;
use plain_data::OrNoMemory;

/// What is spelled by a word.
pub trait Spelled: Copy {
    ghost use Rattle.std.specs.Prelude.{true};
    ghost use Rattle.plain_data.specs.Texts.{Bytes};

    /// The bytes of the word.
    ghost spelled: { Self → Bytes };

    /// The bytes of the word.
    fn bytes(self) -> &'static [u8]
        ensures { result.now ≡ spelled self };

    /// Each number of a word is a byte.
    ghost all_bytes: { (word : Self) → spec.are_bytes (spelled word) ≡ true };
}

/// How many bytes at the front a word has in common with others.
fn shared(word: &[u8], bytes: &[u8]) -> usize
    ensures { result ≡ spec.shared word.now bytes.now }
{
    for (at, byte) in word.iter().enumerate() {
        if at >= bytes.len() {
            return at;
        }
        if bytes[at] != *byte {
            return at;
        }
    }
    word.len()
}

/// The one of two words that has more in common with the bytes, with how much that is. Of the first it is known already.
fn closer<W: Spelled>(bytes: &[u8], best: (W, usize), word: W) -> (W, usize)
    requires { best.1 ≡ spec.shared (W.spelled best.0) bytes.now }
    ensures word { result.0 ≡ spec.closer W.spelled bytes.now best.0 word }
    ensures count { result.1 ≡ spec.shared (W.spelled result.0) bytes.now }
{
    let count = shared(word.bytes(), bytes);
    if best.1 < count { (word, count) } else { best }
}

/// The one of some words that has most in common with the bytes.
fn closest<W: Spelled>(bytes: &[u8], first: W, others: &[W]) -> W
    ensures { result ≡ spec.closest W.spelled bytes.now first others.now }
{
    let mut best = (first, shared(first.bytes(), bytes));
    for word in others {
        best = closer(bytes, best, *word);
    }
    best.0
}

impl<'a> Cursor<'a, u8> {
    /// Takes one of some words, none of which begins another.
    #[tactic(auto, unfolding(crate::specs::Choices::one_of))]
    pub fn one_of<W: Spelled>(&mut self, first: W, others: &[W]) -> Result<W, OrNoMemory<Refused>>
        ensures reads { Reads (spec.one_of W.spelled first others.now self.old) result self.new }
        ensures refusal { OnlyRefuses result }
    {
        let word = closest(self.as_slice(), first, others);
        self.word(word.bytes())?;
        Ok(word)
    }
}
