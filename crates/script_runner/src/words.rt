//! The words of a line that are read before a session reads the rest.

ghost use Rattle.std.specs.Prelude.{◌≡◌, ◌≤◌, ◌<◌, length, IfSome};
ghost use Rattle.script_runner.specs.Words as spec;

use dtext::is_blank;
use predictive_parsing::prefix_len;
use session_core::{trimmed_end, trimmed_start};

/// The last client of a script. The first is 0.
pub const LAST_CLIENT: u32 = 63;

/// The first word of a text that begins with no blank, and what comes behind it and its blanks.
pub fn split_word(text: &[u8]) -> (&[u8], &[u8])
    ensures word { result.0.now ≡ spec.first_word text.now }
    ensures behind { result.1.now ≡ spec.after_word text.now }
    ensures shorter { length result.1.now ≤ length text.now }
{
    let (word, behind) = text.split_at(prefix_len(text, |byte| !is_blank(*byte)));
    (word, trimmed_start(behind))
}

/// A number of one digit or two, without a leading zero.
fn small_number(word: &[u8]) -> Option<u32>
    ensures { result ≡ spec.small_number word.now }
{
    match word {
        [units] if units.is_ascii_digit() => Some(u32::from(units - b'0')),
        [tens @ b'1'..=b'9', units] if units.is_ascii_digit() => {
            Some(u32::from(tens - b'0') * 10 + u32::from(units - b'0'))
        }
        _ => None,
    }
}

/// The client that a word names: a number from 0 to [`LAST_CLIENT`], without a leading zero.
pub fn client_named(word: &[u8]) -> Option<u32>
    ensures value { result ≡ spec.client_named word.now }
    ensures small { IfSome result (λ client. client ≤ LAST_CLIENT) }
{
    match small_number(word) {
        Some(client) if client <= LAST_CLIENT => Some(client),
        _ => None,
    }
}

/// The shard that a text names, of so many.
pub fn shard_named(shards: u8, text: &[u8]) -> Option<u8>
    ensures value { result ≡ spec.shard_named shards text.now }
    ensures below { IfSome result (λ shard. shard < shards) }
{
    match small_number(trimmed_end(text)) {
        Some(shard) if shard < u32::from(shards) => Some(shard as u8),
        _ => None,
    }
}
