//! Small values for the rows of tests: each is named by one that can be copied.

use plain_data::Text;
use rdt_types::{Address, Delta, Kind, WriteOp, delta_of};
use std::alloc::{AllocError, Global};

/// What a write does, at a text where it has one.
#[derive(Clone, Copy)]
pub enum Write {
    SetAdd,
    SetRemove,
    SetClear,
    ListPush,
    ListRemove,
    Raise(i64),
}

/// A text of these bytes.
pub fn text(alloc: Global, bytes: &[u8]) -> Result<Text, AllocError> {
    Text::from_slice(alloc, bytes)
}

/// The address of a kind and a key.
pub fn address(alloc: Global, kind: Kind, key: &[u8]) -> Result<Address, AllocError> {
    Ok(Address {
        kind,
        key: text(alloc, key)?,
    })
}

/// The write at a text.
fn operation(write: Write, at: Text) -> WriteOp {
    match write {
        Write::SetAdd => WriteOp::SetAdd(at),
        Write::SetRemove => WriteOp::SetRemove(at),
        Write::SetClear => WriteOp::SetClear,
        Write::ListPush => WriteOp::ListPush(at),
        Write::ListRemove => WriteOp::ListRemove(at),
        Write::Raise(number) => WriteOp::Raise(number),
    }
}

/// The delta of a write at a text.
pub fn delta(alloc: Global, write: Write, at: &[u8]) -> Result<Delta, AllocError> {
    let op = operation(write, text(alloc, at)?);
    delta_of(alloc, &op)
}

/// Whether a pair has this key and this delta.
pub fn is_pair(pair: &(Address, Delta), key: &[u8], delta: &Delta) -> bool {
    pair.0.key.as_slice() == key && pair.1 == *delta
}
