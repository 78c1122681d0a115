//! The classes of bytes that texts are cut by.

ghost use Rattle.std.specs.Prelude.{◌≡◌};
ghost use Rattle.dtext.specs.Characters as spec;

/// `a` to `z`.
pub fn is_letter(byte: u8) -> bool
    ensures { result ≡ spec.is_letter byte }
{
    b'a' <= byte && byte <= b'z'
}

/// `0` to `9`.
pub fn is_digit(byte: u8) -> bool
    ensures { result ≡ spec.is_digit byte }
{
    b'0' <= byte && byte <= b'9'
}

/// What a word goes on with: a letter, a digit or `_`.
pub fn is_word(byte: u8) -> bool
    ensures { result ≡ spec.is_word byte }
{
    is_letter(byte) || is_digit(byte) || byte == b'_'
}

/// Space, tab and CR.
pub fn is_blank(byte: u8) -> bool
    ensures { result ≡ spec.is_blank byte }
{
    byte == b' ' || byte == b'\t' || byte == b'\r'
}
