//! A value on the heap, through which a tree may lead back to its own type.

ghost use Rattle.std.specs.Prelude.{◌≡◌, IfOk};

use std::alloc::{AllocError, Global};
use std::marker::Model;

/// A value on the heap.
#[derive(Debug, Drop)]
pub struct Boxed<T> {
    owner: Box<T>,
}

impl<T> Model for Boxed<T> {
    ghost Value = { T };

    ghost coded = { T.code };

    ghost view = { λ b. b.owner.value };
}

impl<T: Drop> Boxed<T> {
    /// Moves the value to the heap. For want of memory the value is dropped.
    pub fn new(alloc: Global, value: T) -> Result<Boxed<T>, AllocError>
        ensures { IfOk result (λ b. b ≡ value) }
    {
        let owner = Box::new(alloc, value)?;
        Ok(Boxed { owner })
    }
}

impl<T> Boxed<T> {
    /// The value, lent.
    pub fn get(&self) -> &T
        ensures { result.now ≡ self.now }
    {
        &self.owner
    }

    /// The value, off the heap.
    pub fn into_inner(self) -> T
        ensures { result ≡ self }
    {
        let Boxed { owner } = self;
        Box::into_inner(owner)
    }
}
