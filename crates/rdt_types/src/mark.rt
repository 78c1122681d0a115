//! Marks: what a delta does at an element of a set or a field of a hash.

ghost use Rattle.std.specs.Prelude.{◌≡◌, Option, IfOk, is_some};
ghost use Rattle.rdt_types.specs.Marks as spec;

use plain_data::{ExactClone, Text};
use std::alloc::AllocError;

/// What a delta does at a field of a hash. At an element of a set it is a bool: whether the element is added.
#[derive(Clone, Debug, Drop, PartialEq, Eq)]
pub enum Mark {
    Put(Text),
    Removed,
}

impl ExactClone for Mark {
    ghost use Rattle.std.proofs.Common.{rules};

    ghost exact = { Prim.search rules };
}

/// A mark, which leaves something at its key, or nothing.
pub trait Leaves: ExactClone + Drop {
    type Left: ExactClone + Drop;

    /// What stands at the key afterwards, if anything.
    ghost left: { Self → Option Self.Left };

    /// What stands at the key afterwards, if anything.
    fn left(&self) -> Result<Option<Self::Left>, AllocError>
        ensures { IfOk result (λ value. value ≡ left self.now) };

    /// Whether anything stands at the key afterwards.
    fn leaves(&self) -> bool
        ensures { result ≡ is_some (left self.now) };
}

impl Leaves for bool {
    type Left = ();

    ghost left = { spec.added };

    fn left(&self) -> Result<Option<()>, AllocError> {
        Ok(if *self { Some(()) } else { None })
    }

    fn leaves(&self) -> bool {
        *self
    }
}

impl Leaves for Mark {
    type Left = Text;

    ghost left = { spec.put_by };

    fn left(&self) -> Result<Option<Text>, AllocError> {
        Ok(match self {
            Mark::Put(text) => Some(text.clone()?),
            Mark::Removed => None,
        })
    }

    fn leaves(&self) -> bool {
        match self {
            Mark::Put(_) => true,
            Mark::Removed => false,
        }
    }
}
