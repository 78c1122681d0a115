//! Which shard holds the value at an address.

ghost use Rattle.std.specs.Prelude.{◌≡◌, ◌≤◌, fold};
ghost use Rattle.rdt_types.specs.Printed.{spelled, spelling_of as spelling, printed_text, word_of};
ghost use Rattle.rdt_types.specs.Shards as spec;

use crate::address::{Address, Kind};
use crate::limits::{LEAST_SHARDS, MOST_SHARDS};
use crate::printed::{Spelling, spelling_of};

/// One byte more, in 32 bits.
fn hashed(hash: u32, byte: u8) -> u32
    ensures { result ≡ spec.hashed hash byte }
{
    hash.wrapping_mul(31).wrapping_add(u32::from(byte))
}

/// Some bytes more.
fn hashed_all(hash: u32, bytes: &[u8]) -> u32
    ensures { result ≡ fold spec.hashed hash bytes.now }
{
    bytes.iter().fold(hash, |hash, byte| hashed(hash, *byte))
}

/// The bytes of a spelling more.
fn hashed_spelling(hash: u32, spelling: Spelling) -> u32
    ensures { result ≡ fold spec.hashed hash (spelled spelling) }
{
    match spelling {
        Spelling::Plain(byte) => hashed(hash, byte),
        Spelling::Escaped(byte) => hashed(hashed(hash, b'\\'), byte),
        Spelling::Hexadecimal(high, low) => {
            let begun = hashed_all(hash, b"\\x".as_slice());
            hashed(hashed(begun, high), low)
        }
    }
}

/// A printed text more.
fn hashed_text(hash: u32, text: &[u8]) -> u32
    ensures { result ≡ fold spec.hashed hash (printed_text text.now) }
{
    let mut hash = hashed(hash, b'"');
    for byte in text {
        hash = hashed_spelling(hash, spelling_of(*byte));
    }
    hashed(hash, b'"')
}

/// The word of a kind and what opens its key. Each word stands in its own arm, so that its bytes are hashed when this is built.
fn hashed_kind(kind: Kind) -> u32
    ensures { result ≡ spec.hashed (fold spec.hashed 0 (word_of kind)) 40 }
{
    match kind {
        Kind::Bool => hashed_all(0, b"bool(".as_slice()),
        Kind::Counter => hashed_all(0, b"counter(".as_slice()),
        Kind::Text => hashed_all(0, b"text(".as_slice()),
        Kind::Set => hashed_all(0, b"set(".as_slice()),
        Kind::Hash => hashed_all(0, b"hash(".as_slice()),
        Kind::List => hashed_all(0, b"list(".as_slice()),
        Kind::Peak => hashed_all(0, b"peak(".as_slice()),
    }
}

/// The shard of an address among as many as there are: begun with 0, each byte of the printed address makes
/// 31 times what was there and itself, in 32 bits, and the rest of that by the number of shards is the answer.
pub fn shard_of(address: &Address, shards: u8) -> u8
    requires { (LEAST_SHARDS ≤ shards) × (shards ≤ MOST_SHARDS) }
    ensures { result ≡ spec.shard_of address.now shards }
{
    let begun = hashed_kind(address.kind);
    let key = hashed_text(begun, address.key.as_slice());
    (hashed(key, b')') % u32::from(shards)) as u8
}
