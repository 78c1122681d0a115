//! Each function of predictive_parsing, by a small reader of digits and commas.

ghost use Rattle.std.specs.Prelude.{◌≡◌};
ghost use Rattle.predictive_parsing.specs.Bytes as bytes;
ghost use Rattle.predictive_parsing.specs.Digits as spec;
ghost use Rattle.predictive_parsing.specs.Reading.{one};
ghost use Rattle.predictive_parsing.specs.Reads.{Reads};

use plain_data::OrNoMemory;
use predictive_parsing::{Cursor, Reading, Refused, Spelled, prefix_len, read_many};
use std::alloc::Global;

fn digit(byte: u8) -> Option<u8>
    ensures { result ≡ spec.digit byte }
{
    if byte.is_ascii_digit() {
        Some(byte - b'0')
    } else {
        None
    }
}

/// Digits behind commas.
struct Others;

impl Reading<u8, u8> for Others {
    ghost starts = { λ _. bytes.sees 44 };

    ghost reader = { λ _. spec.another };

    fn begins(&self, cursor: &Cursor<u8>) -> bool {
        cursor.sees_byte(b',')
    }

    #[tactic(auto, unfolding(predictive_parsing::specs::Digits::another))]
    fn read(&self, _alloc: Global, cursor: &mut Cursor<u8>) -> Result<u8, OrNoMemory<Refused>> {
        cursor.byte(b',')?;
        cursor.take(|byte| digit(*byte))
    }
}

#[test]
fn many_are_read(rt: HostRuntime) {
    let mut cursor = Cursor::new(b",1,2;".as_slice());
    let found = read_many(rt.alloc(), &Others, &mut cursor);
    assert!(rt; matches!(&found, Ok(found) if found.as_slice() == [1, 2].as_slice()));
    assert!(rt; cursor.len() == 1);
}

#[test]
fn what_begins_and_does_not_fit_is_refused(rt: HostRuntime) {
    let mut cursor = Cursor::new(b",1,x".as_slice());
    let found = read_many(rt.alloc(), &Others, &mut cursor);
    assert!(rt; matches!(found, Err(OrNoMemory::Cause(Refused))));
    assert!(rt; cursor.sees_byte(b'x'));
}

#[test]
fn words_and_runs(rt: HostRuntime) {
    let mut cursor = Cursor::new(b"on 12a".as_slice());
    assert!(rt; cursor.word(b"on ").is_ok());
    assert!(rt; cursor.sees(|byte| byte.is_ascii_digit()));
    assert!(rt; cursor.run(|byte| byte.is_ascii_digit()) == b"12".as_slice());
    assert!(rt; cursor.peek() == Some(&b'a'));
    cursor.skip();
    assert!(rt; cursor.peek().is_none());
    assert!(rt; cursor.byte(b'a') == Err(OrNoMemory::Cause(Refused)));
}

#[test]
fn prefixes(rt: HostRuntime) {
    assert!(rt; prefix_len(&[1, 2, 9, 3], |item| *item < 5) == 2);
    assert!(rt; prefix_len(&[1, 2], |item| *item < 5) == 2);
}

/// One of two words that begin alike: `see` where it is true, and else `set`.
#[derive(Clone, Copy, Debug, PartialEq, Eq)]
struct Alike(bool);

impl Spelled for Alike {
    ghost use Rattle.predictive_parsing.specs.Choices.{alike, alike_bytes};

    ghost spelled = { λ word. alike word.0 };

    fn bytes(self) -> &'static [u8] {
        if self.0 {
            b"see".as_slice()
        } else {
            b"set".as_slice()
        }
    }

    ghost all_bytes = { λ word. alike_bytes word.0 };
}

#[test]
fn one_of_two_words(rt: HostRuntime) {
    let mut cursor = Cursor::new(b"setting".as_slice());
    assert!(rt; cursor.one_of(Alike(true), &[Alike(false)]) == Ok(Alike(false)));
    assert!(rt; cursor.run_up_to(2, |byte| *byte == b't') == b"t".as_slice());
    assert!(rt; cursor.run_up_to(2, |byte| *byte != b't') == b"in".as_slice());
    assert!(rt; cursor.as_slice() == b"g".as_slice());
}

#[test]
fn other_words_are_refused_where_they_differ(rt: HostRuntime) {
    let mut cursor = Cursor::new(b"sew".as_slice());
    assert!(rt; cursor.one_of(Alike(true), &[Alike(false)]).is_err());
    assert!(rt; cursor.as_slice() == b"w".as_slice());
}
