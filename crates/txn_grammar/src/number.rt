//! What digits are worth.

ghost use Rattle.std.specs.Prelude.{◌≡◌};
ghost use Rattle.txn_grammar.specs.Numbers as spec;

use dtext::MOST;

/// The value of the digits, unless it is above the largest number.
fn small_value(digits: &[u8]) -> Option<i64>
    ensures { result ≡ spec.small_value digits.now }
{
    let mut value: u128 = 0;
    for digit in digits {
        value = 10 * value + u128::from(digit.saturating_sub(b'0'));
        if value > u128::from(MOST) {
            return None;
        }
    }
    Some(value as i64)
}

/// The number that the digits write: no needless zero in front, and not above the largest number.
#[tactic(auto, unfolding(crate::specs::Numbers::number_value))]
pub(crate) fn number_value(digits: &[u8]) -> Option<i64>
    ensures { result ≡ spec.number_value digits.now }
{
    if digits.len() > 1 && digits[0] == b'0' {
        return None;
    }
    small_value(digits)
}
