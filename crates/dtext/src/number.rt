//! Numbers of 64 bits.

ghost use Rattle.std.specs.Prelude.{◌≡◌, ◌≤◌, ◌^◌, ◌-◌, IfOk, IfSome, Ok, neg_ℤ, pos};
ghost use Rattle.predictive_parsing.specs.Reading.{next, of, one};
ghost use Rattle.predictive_parsing.specs.Reads.{Reads, OnlyRefuses, made_of};
ghost use Rattle.dtext.specs.code.Reading as spec;

use crate::character::is_digit;
use plain_data::OrNoMemory;
use predictive_parsing::{Cursor, Refused};

/// The largest number.
pub const MOST: u64 = 9223372036854775807;

/// How far the least number is below 0.
pub const LEAST: u64 = 9223372036854775808;

/// The value of a digit of 1 to 9.
fn leading(byte: u8) -> Option<u64>
    ensures value { result ≡ spec.leading byte }
    ensures below { IfSome result (λ value. value ≤ 9) }
{
    if b'1' <= byte && byte <= b'9' {
        Some(u64::from(byte - b'0'))
    } else {
        None
    }
}

/// The value with one digit more, where it keeps within the limit.
fn with_digit(limit: u64, value: u64, byte: u8) -> Option<u64>
    ensures value { result ≡ spec.more limit value byte }
    ensures within { IfSome result (λ more. more ≤ limit) }
{
    if !is_digit(byte) {
        return None;
    }
    let more = 10 * u128::from(value) + u128::from(byte - b'0');
    if more <= u128::from(limit) {
        Some(more as u64)
    } else {
        None
    }
}

fn more_ahead(cursor: &Cursor<u8>, limit: u64, value: u64) -> Option<u64>
    ensures value { result ≡ made_of (spec.more limit value) cursor.now }
    ensures within { IfSome result (λ more. more ≤ limit) }
{
    with_digit(limit, value, *cursor.peek()?)
}

/// As many digits as keep the number within the limit, behind its first.
fn digits(cursor: &mut Cursor<u8>, limit: u64, first: u64) -> u64
    requires { first ≤ limit }
    ensures read { spec.digits limit first cursor.old ≡ Ok (result, cursor.new) }
    ensures within { result ≤ limit }
{
    let mut value = first;
    while let Some(more) = more_ahead(cursor, limit, value) {
        cursor.skip();
        value = more;
    }
    value
}

fn leading_digit(cursor: &mut Cursor<u8>) -> Result<u64, OrNoMemory<Refused>>
    ensures read { Reads (one spec.leading cursor.old) result cursor.new }
    ensures refusal { OnlyRefuses result }
    ensures below { IfOk result (λ value. value ≤ 9) }
{
    cursor.take(|byte| leading(*byte))
}

/// Reads the number from 1 to the limit that is next. One with a digit more than the limit allows is read without it.
#[tactic(auto, unfolding(crate::specs::code::Reading::positive))]
pub fn next_positive(cursor: &mut Cursor<u8>, limit: u64) -> Result<u64, OrNoMemory<Refused>>
    requires { 9 ≤ limit }
    ensures read { Reads (spec.positive limit cursor.old) result cursor.new }
    ensures refusal { OnlyRefuses result }
    ensures within { IfOk result (λ n. n ≤ limit) }
{
    let first = leading_digit(cursor)?;
    Ok(digits(cursor, limit, first))
}

/// Reads the number from 0 to the limit that is next. One with a digit more than the limit allows is read without it.
#[tactic(auto, unfolding(crate::specs::code::Reading::natural))]
pub fn next_natural(cursor: &mut Cursor<u8>, limit: u64) -> Result<u64, OrNoMemory<Refused>>
    requires { 9 ≤ limit }
    ensures read { Reads (spec.natural limit cursor.old) result cursor.new }
    ensures refusal { OnlyRefuses result }
    ensures within { IfOk result (λ n. n ≤ limit) }
{
    if cursor.sees_byte(b'0') {
        cursor.byte(b'0')?;
        Ok(0)
    } else {
        next_positive(cursor, limit)
    }
}

/// So much below 0.
fn below_zero(n: u64) -> i64
    requires { n ≤ LEAST }
    ensures { result ≡ neg_ℤ (pos n) }
{
    if n == 0 { 0 } else { -1 - (n - 1) as i64 }
}

#[tactic(auto, unfolding(crate::specs::code::Reading::negative))]
fn negative(cursor: &mut Cursor<u8>) -> Result<i64, OrNoMemory<Refused>>
    ensures read { Reads (spec.negative cursor.old) result cursor.new }
    ensures refusal { OnlyRefuses result }
{
    cursor.byte(b'-')?;
    let n = next_positive(cursor, LEAST)?;
    Ok(below_zero(n))
}

fn not_negative(cursor: &mut Cursor<u8>) -> Result<i64, OrNoMemory<Refused>>
    ensures read { Reads (of pos (spec.natural MOST) cursor.old) result cursor.new }
    ensures refusal { OnlyRefuses result }
{
    let n = next_natural(cursor, MOST)?;
    Ok(n as i64)
}

/// Reads the number of 64 bits that is next, in its one form.
#[tactic(auto, unfolding(crate::specs::code::Reading::number))]
pub fn next_number(cursor: &mut Cursor<u8>) -> Result<i64, OrNoMemory<Refused>>
    ensures read { Reads (spec.number cursor.old) result cursor.new }
    ensures refusal { OnlyRefuses result }
{
    if cursor.sees_byte(b'-') {
        negative(cursor)
    } else {
        not_negative(cursor)
    }
}

/// Whether a number begins here.
pub(crate) fn begins_number(cursor: &Cursor<u8>) -> bool
    ensures { result ≡ spec.begins_number (next cursor.now) }
{
    cursor.sees(|byte| is_digit(*byte) || *byte == b'-')
}
