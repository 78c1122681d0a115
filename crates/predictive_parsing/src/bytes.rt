//! Cursors over bytes: one byte, and words.

ghost use Rattle.std.specs.Prelude.{◌≡◌};
ghost use Rattle.predictive_parsing.specs.Bytes as spec;
ghost use Rattle.predictive_parsing.specs.Reading.{next};
ghost use Rattle.predictive_parsing.specs.Reads.{Reads, OnlyRefuses};

use crate::cursor::Cursor;
use crate::refused::Refused;
use plain_data::OrNoMemory;

/// Something of this byte, and nothing of another.
fn exactly(wanted: u8, byte: u8) -> Option<()>
    ensures { result ≡ spec.exactly wanted byte }
{
    if byte == wanted { Some(()) } else { None }
}

impl<'a> Cursor<'a, u8> {
    /// Whether this byte is ahead.
    pub fn sees_byte(&self, wanted: u8) -> bool
        ensures { result ≡ spec.sees wanted (next self.now) }
    {
        self.sees(|byte| *byte == wanted)
    }

    /// Takes this byte.
    #[tactic(auto, unfolding(crate::specs::Bytes::byte))]
    pub fn byte(&mut self, wanted: u8) -> Result<(), OrNoMemory<Refused>>
        ensures reads { Reads (spec.byte wanted self.old) result self.new }
        ensures refusal { OnlyRefuses result }
    {
        self.take(|byte| exactly(wanted, *byte))
    }

    /// Takes these bytes.
    pub fn word(&mut self, word: &[u8]) -> Result<(), OrNoMemory<Refused>>
        ensures reads { Reads (spec.word word.now self.old) result self.new }
        ensures refusal { OnlyRefuses result }
    {
        for byte in word {
            self.byte(*byte)?;
        }
        Ok(())
    }
}
