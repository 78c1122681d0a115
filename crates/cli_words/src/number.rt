//! Numbers in words.

ghost use Rattle.std.specs.Prelude.{◌≡◌, ◌≤◌, IfSome};
ghost use Rattle.cli_words.specs.code.Reading as spec;

/// The number whose decimal form the word is, where it is within the limits.
pub(crate) fn number_within(least: u64, most: u64, word: &str) -> Option<u64>
    ensures value { result ≡ spec.number_within least most word.now }
    ensures least { IfSome result (λ n. least ≤ n) }
    ensures most { IfSome result (λ n. n ≤ most) }
{
    let n = plain_number(word)?;
    if least <= n && n <= most {
        Some(n)
    } else {
        None
    }
}

/// The number whose decimal form the word is, where it has 64 bits.
fn plain_number(word: &str) -> Option<u64>
    ensures { result ≡ spec.small_number word.now }
{
    if is_led(word.as_bytes()) {
        None
    } else {
        word.parse().ok()
    }
}

/// Whether a plus stands in front, or a zero in front of something else.
fn is_led(word: &[u8]) -> bool
    ensures { result ≡ spec.is_led word.now }
{
    match word {
        [b'+', ..] | [b'0', _, ..] => true,
        _ => false,
    }
}
