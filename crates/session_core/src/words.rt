//! The words of a line.

ghost use Rattle.std.specs.Prelude.{◌≡◌, ◌≤◌, length};
ghost use Rattle.session_core.specs.Words as spec;

use dtext::is_blank;
use plain_data::Text;
use predictive_parsing::prefix_len;

/// The text without the blanks at its beginning.
pub fn trimmed_start(text: &[u8]) -> &[u8]
    ensures value { result.now ≡ spec.trimmed_start text.now }
    ensures shorter { length result.now ≤ length text.now }
{
    &text[prefix_len(text, |byte| is_blank(*byte))..]
}

/// The text without the blanks at its end.
pub fn trimmed_end(text: &[u8]) -> &[u8]
    ensures value { result.now ≡ spec.trimmed_end text.now }
    ensures shorter { length result.now ≤ length text.now }
{
    let mut end = text.len();
    while end > 0 && is_blank(text[end - 1]) {
        end -= 1;
    }
    &text[..end]
}

/// Takes the blanks at a text's end off.
pub(crate) fn trim_end(text: &mut Text)
    ensures value { text.new ≡ spec.trimmed_end text.old }
    ensures shorter { length text.new ≤ length text.old }
{
    let end = trimmed_end(text.as_slice()).len();
    text.truncate(end);
}

/// Whether a text asks for nothing: it is empty, or a remark.
pub fn is_quiet(text: &[u8]) -> bool
    ensures { result ≡ spec.is_quiet text.now }
{
    match text {
        [] => true,
        [first, ..] => *first == b'#',
    }
}
