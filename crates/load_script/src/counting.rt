//! How many lines of an output say what.

ghost use Rattle.std.specs.Prelude.{◌≡◌};
ghost use Rattle.load_script.specs.Counting as spec;

use dio_core::NEWLINE;

/// Whether this is the second word of a line.
fn is_second(word: &[u8], line: &[u8]) -> bool
    ensures { result ≡ spec.is_second word.now line.now }
{
    match line.split(|byte| *byte == b' ').nth(1) {
        Some(second) => second == word,
        None => false,
    }
}

/// How many lines of an output have this second word.
pub fn count_second(word: &[u8], output: &[u8]) -> u64
    ensures { result ≡ spec.count_second word.now output.now }
{
    output
        .split(|byte| *byte == NEWLINE)
        .filter(|line| is_second(word, line))
        .count() as u64
}
