//! Worked tokens.

use std::alloc::Global;
use txn_grammar::{Symbol, Token, tokens};

/// No text here has as many bytes as this.
const SHORT: usize = 100;

/// What the one token of a text is to be.
#[derive(Clone, Copy)]
enum Wanted {
    Symbol(Symbol),
    Name,
    Number(i64),
    Text(&'static [u8]),
    Malformed,
}

fn is_wanted(token: &Token, source: &[u8], wanted: Wanted) -> bool {
    match (token, wanted) {
        (Token::Symbol(found), Wanted::Symbol(symbol)) => *found == symbol,
        (Token::Name(found), Wanted::Name) => found.as_slice() == source,
        (Token::Number(found), Wanted::Number(value)) => *found == value,
        (Token::Text(found), Wanted::Text(bytes)) => found.as_slice() == bytes,
        (Token::Malformed, Wanted::Malformed) => true,
        _ => false,
    }
}

/// Whether the text's first token, behind no blank, is as wanted.
fn begins_with(alloc: Global, source: &[u8], wanted: Wanted) -> bool {
    if source.len() > SHORT {
        return false;
    }
    match tokens(alloc, source) {
        Ok(spots) => match spots.first() {
            Some(spot) => spot.column == 1 && is_wanted(&spot.token, source, wanted),
            None => false,
        },
        Err(_) => false,
    }
}

/// Texts, each with its one token.
const TOKENS: [(&[u8], Wanted); 19] = [
    (b"emit", Wanted::Symbol(Symbol::Emit)),
    (b"peak", Wanted::Symbol(Symbol::Peak)),
    (b"peaks", Wanted::Name),
    (b"==", Wanted::Symbol(Symbol::Equal)),
    (b"=", Wanted::Symbol(Symbol::Assign)),
    (b"<=", Wanted::Symbol(Symbol::AtMost)),
    (b"!", Wanted::Malformed),
    (b"0", Wanted::Number(0)),
    (b"01", Wanted::Malformed),
    (b"9223372036854775807", Wanted::Number(9223372036854775807)),
    (b"9223372036854775808", Wanted::Malformed),
    (b"abcdefghijklmnopqrstuvwxyz_12345", Wanted::Name),
    (b"abcdefghijklmnopqrstuvwxyz_123456", Wanted::Malformed),
    (
        b"\"a\\\"\\\\\\n\\x00\\xff\xff\"",
        Wanted::Text(b"a\"\\\n\x00\xff\xff"),
    ),
    (br#""\q""#, Wanted::Malformed),
    (br#""\x4""#, Wanted::Malformed),
    (br#""\xAA""#, Wanted::Malformed),
    (b"\"\x7f\"", Wanted::Malformed),
    (b"\"a", Wanted::Malformed),
];

#[test]
fn each_token(rt: HostRuntime) {
    for (source, wanted) in TOKENS {
        assert!(rt; begins_with(rt.alloc(), source, wanted));
    }
}
