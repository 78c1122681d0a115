//! Every byte inside a text, the kinds of parts, numbers without a sign, and the classes of bytes.

use dtext::{
    is_blank, is_digit, is_letter, is_word, next_natural, next_part, next_positive, print_part,
    print_text, read_part, read_text,
};
use plain_data::Text;
use predictive_parsing::Cursor;
use rdt_types::{Kind, WriteOp};
use std::alloc::{AllocError, Global};

/// No text here has as many bytes as this.
const SHORT: usize = 100;

/// The two hexadecimal digits of a byte.
fn hex_digits(byte: u8) -> [u8; 2] {
    let digits = b"0123456789abcdef".as_slice();
    let high = digits.get(usize::from(byte / 16)).copied().unwrap_or(0);
    let low = digits.get(usize::from(byte % 16)).copied().unwrap_or(0);
    [high, low]
}

/// A text of one byte by its two digits.
fn by_digits(alloc: Global, byte: u8) -> Result<Text, AllocError> {
    let [high, low] = hex_digits(byte);
    Text::from_slice(alloc, &[b'"', b'\\', b'x', high, low, b'"'])
}

/// A text of one byte, as it is to be printed.
fn as_printed(alloc: Global, byte: u8) -> Result<Text, AllocError> {
    match byte {
        b'"' => Text::from_slice(alloc, b"\"\\\"\""),
        b'\\' => Text::from_slice(alloc, b"\"\\\\\""),
        b'\n' => Text::from_slice(alloc, b"\"\\n\""),
        _ if byte < 32 || byte == 127 => by_digits(alloc, byte),
        _ => Text::from_slice(alloc, &[b'"', byte, b'"']),
    }
}

/// Whether a spelling is that of a text of this one byte.
fn is_read_as(alloc: Global, spelling: &Text, byte: u8) -> bool {
    let bytes = spelling.as_slice();
    if bytes.len() > SHORT {
        return false;
    }
    match read_text(alloc, bytes) {
        Ok(text) => text.as_slice() == [byte].as_slice(),
        Err(_) => false,
    }
}

/// A text of one byte, printed.
fn printed(alloc: Global, byte: u8) -> Result<Text, AllocError> {
    print_text(alloc, &Text::from_slice(alloc, &[byte])?)
}

/// Whether a byte is printed so, and read from that as from its two digits.
fn is_spelled(
    alloc: Global,
    byte: u8,
    printed: &Result<Text, AllocError>,
    wanted: &Result<Text, AllocError>,
    digits: &Result<Text, AllocError>,
) -> bool {
    match (printed, wanted, digits) {
        (Ok(printed), Ok(wanted), Ok(digits)) => {
            printed.as_slice() == wanted.as_slice()
                && is_read_as(alloc, printed, byte)
                && is_read_as(alloc, digits, byte)
        }
        _ => false,
    }
}

#[test]
fn every_byte_is_printed_and_read(rt: HostRuntime) {
    let alloc = rt.alloc();
    for byte in 0..=255u8 {
        let printed = printed(alloc, byte);
        let wanted = as_printed(alloc, byte);
        let digits = by_digits(alloc, byte);
        assert!(rt;
            is_spelled(alloc, byte, &printed, &wanted, &digits),
            "byte {byte}"
        );
    }
}

/// The kind of the part that some bytes are.
fn kind_read(alloc: Global, bytes: &[u8]) -> Option<Kind> {
    if bytes.len() > SHORT {
        return None;
    }
    read_part(alloc, bytes).ok().map(|part| part.kind())
}

/// Parts, each with the kind that its form tells.
const FORMS: [(&[u8], Kind); 10] = [
    (b"put true", Kind::Bool),
    (b"put 1", Kind::Counter),
    (br#"put "a""#, Kind::Text),
    (br#"put "f" "v""#, Kind::Hash),
    (b"add 1", Kind::Counter),
    (br#"add "x""#, Kind::Set),
    (br#"remove "x""#, Kind::Set),
    (b"clear", Kind::Set),
    (br#"push "x""#, Kind::List),
    (b"raise 1", Kind::Peak),
];

#[test]
fn the_form_of_a_part_tells_its_kind(rt: HostRuntime) {
    for (spelling, kind) in FORMS {
        assert!(rt; kind_read(rt.alloc(), spelling) == Some(kind));
    }
}

/// The removal of a field from a hash.
fn removed_field(alloc: Global) -> Result<WriteOp, AllocError> {
    Ok(WriteOp::HashRemove(Text::from_slice(alloc, b"x")?))
}

/// The removal of an item from a list.
fn removed_item(alloc: Global) -> Result<WriteOp, AllocError> {
    Ok(WriteOp::ListRemove(Text::from_slice(alloc, b"x")?))
}

/// Whether a part is printed so.
fn prints(alloc: Global, part: &Result<WriteOp, AllocError>, wanted: &[u8]) -> bool {
    match part {
        Ok(part) => matches!(&print_part(alloc, part), Ok(found) if found.as_slice() == wanted),
        Err(_) => false,
    }
}

/// Hashes and lists print as sets do what they share with them.
#[test]
fn parts_that_sets_share(rt: HostRuntime) {
    let alloc = rt.alloc();
    assert!(rt; prints(alloc, &removed_field(alloc), br#"remove "x""#));
    assert!(rt; prints(alloc, &removed_item(alloc), br#"remove "x""#));
    assert!(rt; prints(alloc, &Ok(WriteOp::HashClear), b"clear"));
    assert!(rt; prints(alloc, &Ok(WriteOp::ListClear), b"clear"));
}

/// What a number is read as, and how many bytes it leaves.
fn natural_read(bytes: &[u8], limit: u64) -> Option<(u64, usize)> {
    if limit < 9 {
        return None;
    }
    let mut cursor = Cursor::new(bytes);
    let number = next_natural(&mut cursor, limit).ok()?;
    Some((number, cursor.len()))
}

/// Numbers with their limits, and what is read of them.
const NUMBERS: [(&[u8], u64, (u64, usize)); 6] = [
    (b"0", 16, (0, 0)),
    (b"16 x", 16, (16, 2)),
    (b"17", 16, (1, 1)),
    (b"00", 16, (0, 1)),
    (b"18446744073709551615", u64::MAX, (u64::MAX, 0)),
    (b"18446744073709551616", u64::MAX, (1844674407370955161, 1)),
];

#[test]
fn numbers_without_a_sign(rt: HostRuntime) {
    for (bytes, limit, read) in NUMBERS {
        assert!(rt; natural_read(bytes, limit) == Some(read));
    }
    assert!(rt; next_positive(&mut Cursor::new(b"0".as_slice()), 16).is_err());
}

/// What is read beside an address of a kind, printed.
fn read_beside(alloc: Global, kind: Kind, bytes: &[u8]) -> Option<Text> {
    let mut cursor = Cursor::new(bytes);
    let part = next_part(alloc, kind, &mut cursor).ok()?;
    if cursor.len() == 0 && part.kind() == kind {
        print_part(alloc, &part).ok()
    } else {
        None
    }
}

/// Parts beside addresses of each kind.
const BESIDE: [(Kind, &[u8]); 15] = [
    (Kind::Bool, b"put true"),
    (Kind::Counter, b"put 1"),
    (Kind::Counter, b"add -1"),
    (Kind::Text, br#"put "a""#),
    (Kind::Set, br#"add "x""#),
    (Kind::Set, br#"remove "x""#),
    (Kind::Set, b"clear"),
    (Kind::Hash, br#"put "f" "v""#),
    (Kind::Hash, br#"remove "f""#),
    (Kind::Hash, b"clear"),
    (Kind::List, br#"push "x""#),
    (Kind::List, br#"remove "x""#),
    (Kind::List, b"clear"),
    (Kind::Peak, b"raise 0"),
    (Kind::Peak, b"raise -1"),
];

#[test]
fn parts_beside_addresses(rt: HostRuntime) {
    for (kind, bytes) in BESIDE {
        let printed = read_beside(rt.alloc(), kind, bytes);
        assert!(rt; printed.is_some_and(|printed| printed.as_slice() == bytes));
    }
}

/// Parts beside addresses of another kind.
const ASTRAY: [(Kind, &[u8]); 8] = [
    (Kind::Bool, b"put 1"),
    (Kind::Text, b"clear"),
    (Kind::Hash, br#"put "f""#),
    (Kind::List, br#"add "x""#),
    (Kind::Peak, b"put 1"),
    (Kind::Peak, br#"remove "x""#),
    (Kind::Counter, b"raise 1"),
    (Kind::Set, b"raise 1"),
];

#[test]
fn parts_of_another_kind_are_refused(rt: HostRuntime) {
    for (kind, bytes) in ASTRAY {
        assert!(rt; read_beside(rt.alloc(), kind, bytes).is_none());
    }
}

#[test]
fn classes_of_bytes(rt: HostRuntime) {
    assert!(rt; is_letter(b'a') && !is_letter(b'A'));
    assert!(rt; is_digit(b'9') && !is_digit(b'a'));
    assert!(rt; is_word(b'_') && !is_word(b'-'));
    assert!(rt; is_blank(b'\t') && is_blank(b'\r') && !is_blank(b'\n'));
}
