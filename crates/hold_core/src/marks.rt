//! Marks of addresses. They tell of most addresses that nothing was observed there, without a look at what was.

ghost use Rattle.std.specs.Prelude.{◌≡◌};
ghost use Rattle.hold_core.specs.code.Marks as spec;
ghost use Rattle.hold_core.specs.code.Marks.{AreMarked};

use rdt_types::Address;
use txn_lang::Seen;

/// How many marks there are: as many as there are bytes.
pub(crate) const MARKS: usize = 256;

/// One byte more of a key.
fn hashed(hash: u8, byte: u8) -> u8
    ensures { result ≡ spec.hashed hash byte }
{
    hash.wrapping_mul(31).wrapping_add(byte)
}

/// The mark of an address, made of its key. Several addresses may have one mark.
fn mark_of(address: &Address) -> u8
    ensures { result ≡ spec.mark_of address.now }
{
    address
        .key
        .as_slice()
        .iter()
        .fold(0, |hash, byte| hashed(hash, *byte))
}

/// The marks of what was observed.
pub(crate) fn marks_of(observations: &[Seen]) -> [bool; MARKS]
    ensures { AreMarked result observations.now }
{
    let mut marks = [false; MARKS];
    for seen in observations {
        marks[mark_of(&seen.address) as usize] = true;
    }
    marks
}

/// Whether an address is marked.
pub(crate) fn is_marked(marks: &[bool; MARKS], address: &Address) -> bool
    ensures { result ≡ spec.is_marked marks.now address.now }
{
    marks[mark_of(address) as usize]
}
