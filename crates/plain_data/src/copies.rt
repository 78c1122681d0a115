//! Values whose clones equal them.

ghost use Rattle.std.specs.Prelude.{◌≡◌, IfOk};

use std::alloc::AllocError;

/// A type whose every clone equals what it was made of. Rust asks that of no `Clone`, and contracts need it.
pub trait ExactClone: Clone {
    ghost exact: { (original copy : Self) → Self.is_clone original copy → copy ≡ original };
}

impl ExactClone for u8 {
    ghost exact = { λ original copy same. same };
}

impl ExactClone for bool {
    ghost exact = { λ original copy same. same };
}

impl ExactClone for () {
    ghost exact = { λ original copy same. same };
}

impl<A: ExactClone, B: ExactClone> ExactClone for (A, B) {
    ghost exact = { λ original copy same i. (A.exact original.0 copy.0 same.0 i, B.exact original.1 copy.1 same.1 i) };
}

/// A copy, which equals its original.
pub fn copied<T: ExactClone>(original: &T) -> Result<T, AllocError>
    ensures { IfOk result (λ copy. copy ≡ original.now) }
{
    original.clone()
}
