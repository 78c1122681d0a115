//! Deltas of sets and hashes.

ghost use Rattle.std.specs.Prelude.{◌≡◌, T, is_some, IfSome, IfOk};
ghost use Rattle.std.specs.List.{list_all};
ghost use Rattle.rdt_types.specs.Keyed as spec;
ghost use Rattle.rdt_types.specs.Keyed.{has_form};

use crate::mark::{Leaves, Mark};
use plain_data::{ExactClone, Marking, Text, TextMap};
use std::alloc::{AllocError, Global};
use std::marker::Model;

/// A change of a set or a hash: whether all is cleared, and a mark at each element or field that is changed then. Where
/// all is cleared no mark takes anything away, and else there is a mark.
#[derive(Debug, Drop, PartialEq, Eq)]
pub struct KeyedDelta<M: Leaves> {
    cleared: bool,
    marks: TextMap<M>,
}

/// A change of a set: a mark tells whether the element is added.
pub type SetDelta = KeyedDelta<bool>;

/// A change of a hash.
pub type HashDelta = KeyedDelta<Mark>;

impl<M: Leaves> Model for KeyedDelta<M> {
    ghost use Rattle.std.specs.Prelude.{T};
    ghost use Rattle.rdt_types.specs.Keyed.{Keyed, keyed_code, has_form};

    ghost Value = { Keyed M };

    ghost coded = { keyed_code M.code };

    ghost view = { λ d. record { cleared = d.cleared; marks = d.marks } };

    ghost inverse = { λ d. record { cleared = d.cleared; marks = d.marks } };

    ghost invariant = { λ d. T (has_form M.left (record { cleared = d.cleared; marks = d.marks })) };
}

/// Marks that are laid over a set or a hash.
#[derive(Drop)]
struct Doing;

impl<M: Leaves> Marking<M, M::Left> for Doing {
    ghost left = { λ doing mark. M.left mark };

    fn left(&self, mark: &M) -> Result<Option<M::Left>, AllocError> {
        mark.left()
    }
}

/// Marks that are laid over earlier marks.
#[derive(Drop)]
struct Following {
    /// Whether what was there before all of them is cleared.
    cleared: bool,
}

impl<M: Leaves> Marking<M, M> for Following {
    ghost left = { λ following mark. spec.mark_after M.left following.cleared mark };

    fn left(&self, mark: &M) -> Result<Option<M>, AllocError> {
        if self.cleared && !mark.leaves() {
            return Ok(None);
        }
        Ok(Some(mark.clone()?))
    }
}

/// Whether each mark leaves something.
fn all_leave<M: Leaves>(marks: &[(Text, M)]) -> bool
    ensures { result ≡ list_all (λ mark. is_some (M.left mark.1)) marks.now }
{
    for (_, mark) in marks {
        if !mark.leaves() {
            return false;
        }
    }
    true
}

/// Whether parts have the form of a delta.
fn have_form<M: Leaves>(cleared: bool, marks: &TextMap<M>) -> bool
    ensures { result ≡ has_form M.left (spec.of_parts cleared marks.now) }
{
    if cleared {
        all_leave(marks.as_slice())
    } else {
        !marks.is_empty()
    }
}

impl<M: Leaves> KeyedDelta<M> {
    /// The delta of these parts, or `None` where they don't have the form of one. It is never refused for want of memory.
    pub fn from_parts(cleared: bool, marks: TextMap<M>) -> Option<KeyedDelta<M>>
        ensures form { is_some result ≡ has_form M.left (spec.of_parts cleared marks) }
        ensures parts { IfSome result (λ d. d ≡ spec.of_parts cleared marks) }
    {
        if have_form(cleared, &marks) {
            Some(KeyedDelta { cleared, marks })
        } else {
            None
        }
    }

    /// One mark at a key.
    pub fn marking(alloc: Global, key: &Text, mark: M) -> Result<KeyedDelta<M>, AllocError>
        ensures { IfOk result (λ d. d ≡ spec.marking key.now mark) }
    {
        let mut marks = TextMap::new(alloc);
        marks.insert(key.clone()?, mark)?;
        Ok(KeyedDelta {
            cleared: false,
            marks,
        })
    }

    /// All is cleared. It is never refused for want of memory.
    pub fn clearing(alloc: Global) -> KeyedDelta<M>
        ensures { result ≡ spec.clearing }
    {
        KeyedDelta {
            cleared: true,
            marks: TextMap::new(alloc),
        }
    }

    /// Whether what was there is cleared.
    pub fn cleared(&self) -> bool
        ensures { result ≡ self.now.cleared }
    {
        self.cleared
    }

    /// The marks.
    pub fn marks(&self) -> &TextMap<M>
        ensures marks { result.now ≡ self.now.marks }
        ensures form { T (has_form M.left self.now) }
    {
        &self.marks
    }

    /// The set or hash after the delta.
    pub fn applied(
        &self,
        alloc: Global,
        values: &TextMap<M::Left>,
    ) -> Result<TextMap<M::Left>, AllocError>
        ensures { IfOk result (λ m. m ≡ spec.applied M.left self.now values.now) }
    {
        if self.cleared {
            let none = TextMap::new(alloc);
            return none.overlaid(alloc, &Doing, &self.marks);
        }
        values.overlaid(alloc, &Doing, &self.marks)
    }

    /// One delta that does what this one does and then the second.
    pub fn composed(
        &self,
        alloc: Global,
        second: &KeyedDelta<M>,
    ) -> Result<KeyedDelta<M>, AllocError>
        ensures { IfOk result (λ d. d ≡ spec.composed M.left self.now second.now) }
    {
        if second.cleared {
            return second.clone();
        }
        let following = Following {
            cleared: self.cleared,
        };
        let marks = self.marks.overlaid(alloc, &following, &second.marks)?;
        Ok(KeyedDelta {
            cleared: self.cleared,
            marks,
        })
    }
}

impl<M: Leaves> Clone for KeyedDelta<M> {
    ghost is_clone = { λ original copy. copy ≡ original };

    fn clone(&self) -> Result<Self, AllocError> {
        let marks = self.marks.clone()?;
        Ok(KeyedDelta {
            cleared: self.cleared,
            marks,
        })
    }
}

impl<M: Leaves> ExactClone for KeyedDelta<M> {
    ghost exact = { λ original copy same. same };
}
