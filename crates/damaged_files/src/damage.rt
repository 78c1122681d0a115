//! What is done to a byte of a file.

use plain_data::Text;
use std::alloc::{AllocError, Global};

/// What is done to a byte of a file.
#[derive(Clone, Copy, Debug)]
pub(crate) enum Damage {
    /// These of its bits are turned.
    Turned(u8),
    /// It has this value.
    Set(u8),
    /// It is one more than it was; behind 255 comes 0.
    Raised,
    /// The file ends before it.
    Cut,
    /// It stands there twice.
    Doubled,
    /// It is left out.
    LeftOut,
    /// Another byte stands before it.
    Inserted(u8),
}

/// Each kind of damage that is tried at each byte.
static TRIED: [Damage; 19] = [
    Damage::Turned(1),
    Damage::Turned(2),
    Damage::Turned(4),
    Damage::Turned(8),
    Damage::Turned(16),
    Damage::Turned(32),
    Damage::Turned(64),
    Damage::Turned(128),
    Damage::Set(0),
    Damage::Set(1),
    Damage::Set(255),
    Damage::Raised,
    Damage::Cut,
    Damage::Doubled,
    Damage::LeftOut,
    Damage::Inserted(0),
    Damage::Inserted(1),
    Damage::Inserted(2),
    Damage::Inserted(255),
];

/// Each kind of damage that is tried at each byte.
pub(crate) fn kinds() -> &'static [Damage] {
    &TRIED
}

/// Adds what stands in the place of a byte.
fn add_damaged(text: &mut Text, byte: u8, damage: Damage) -> Result<(), AllocError> {
    match damage {
        Damage::Turned(bits) => text.push(byte ^ bits),
        Damage::Set(value) => text.push(value),
        Damage::Raised => text.push(byte.wrapping_add(1)),
        Damage::Cut | Damage::LeftOut => Ok(()),
        Damage::Doubled => text.extend_from_slice(&[byte, byte]),
        Damage::Inserted(value) => text.extend_from_slice(&[value, byte]),
    }
}

/// A file whose byte at a place is damaged.
pub(crate) fn damage_of(
    alloc: Global,
    file: &[u8],
    place: usize,
    damage: Damage,
) -> Result<Text, AllocError> {
    let (front, behind) = file.split_at(place.min(file.len()));
    let mut text = Text::from_slice(alloc, front)?;
    if let Some((byte, rest)) = behind.split_first() {
        add_damaged(&mut text, *byte, damage)?;
        if !matches!(damage, Damage::Cut) {
            text.extend_from_slice(rest)?;
        }
    }
    Ok(text)
}
