//! How the bytes of a text are spelled where it is printed.

ghost use Rattle.std.specs.Prelude.{◌≡◌, ◌<◌};
ghost use Rattle.rdt_types.specs.Printed as spec;

/// The last control byte, which stands apart from those below the space.
pub const DELETE: u8 = 127;

/// How one byte of a text stands between the quotes.
#[derive(Clone, Copy, Debug, PartialEq, Eq)]
pub enum Spelling {
    /// As itself.
    Plain(u8),
    /// As a backslash and this byte.
    Escaped(u8),
    /// As `\x` and two hexadecimal digits in lower case.
    Hexadecimal(u8, u8),
}

/// A hexadecimal digit, in lower case.
fn hex_digit(n: u8) -> u8
    requires { n < 16 }
    ensures { result ≡ spec.hex_digit n }
{
    if n < 10 { b'0' + n } else { b'a' - 10 + n }
}

/// How a byte of a text is spelled: a quote and a backslash behind a backslash, a newline as `\n`, every other byte below
/// the space and `DELETE` by two hexadecimal digits, and all others as themselves.
pub fn spelling_of(byte: u8) -> Spelling
    ensures { result ≡ spec.spelling_of byte }
{
    if byte.is_ascii_alphanumeric() {
        Spelling::Plain(byte)
    } else if byte == b'"' || byte == b'\\' {
        Spelling::Escaped(byte)
    } else if byte == b'\n' {
        Spelling::Escaped(b'n')
    } else if byte < b' ' || byte == DELETE {
        Spelling::Hexadecimal(hex_digit(byte / 16), hex_digit(byte % 16))
    } else {
        Spelling::Plain(byte)
    }
}
