//! What a line asks for, as rows have it: its word, its number, and its name and its body in quotes.

use dtext::{push_natural, push_text};
use plain_data::Text;
use session_text::Verb;
use std::alloc::{AllocError, Global};

/// Adds a word, and a text in quotes.
fn push_named(out: &mut Text, word: &[u8], text: &Text) -> Result<(), AllocError> {
    out.extend_from_slice(word)?;
    push_text(out, text)
}

/// Adds a word, a number, and a body in quotes.
fn push_numbered(out: &mut Text, word: &[u8], number: u64, body: &Text) -> Result<(), AllocError> {
    out.extend_from_slice(word)?;
    push_natural(out, number)?;
    push_named(out, b" ", body)
}

fn push_verb(out: &mut Text, verb: &Verb) -> Result<(), AllocError> {
    match verb {
        Verb::Do(body) => push_named(out, b"do ", body),
        Verb::Try(attempts, body) => push_numbered(out, b"try ", u64::from(*attempts), body),
        Verb::Begin(body) => push_named(out, b"begin ", body),
        Verb::Step => out.extend_from_slice(b"step"),
        Verb::Go => out.extend_from_slice(b"go"),
        Verb::Drop => out.extend_from_slice(b"drop"),
        Verb::Sync => out.extend_from_slice(b"sync"),
        Verb::Wait => out.extend_from_slice(b"wait"),
        Verb::Seen => out.extend_from_slice(b"seen"),
        Verb::Quit => out.extend_from_slice(b"quit"),
        Verb::Look(body) => push_named(out, b"look ", body),
        Verb::At(number, body) => push_numbered(out, b"at ", *number, body),
        Verb::Watch(name, body) => {
            push_named(out, b"watch ", name)?;
            push_named(out, b" ", body)
        }
        Verb::Unwatch(name) => push_named(out, b"unwatch ", name),
    }
}

/// What a line asks for, printed.
pub fn print_verb(alloc: Global, verb: &Verb) -> Result<Text, AllocError> {
    let mut out = Text::new(alloc);
    push_verb(&mut out, verb)?;
    Ok(out)
}
