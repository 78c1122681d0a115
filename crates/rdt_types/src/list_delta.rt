//! Deltas of lists.

ghost use Rattle.std.specs.Prelude.{◌≡◌, if◌then◌else◌, T, Some, is_some, IfSome, IfOk};
ghost use Rattle.std.specs.FinMap as map;
ghost use Rattle.plain_data.specs.Overlays.{union};
ghost use Rattle.rdt_types.specs.Listed as spec;
ghost use Rattle.rdt_types.specs.Listed.{has_form};

use crate::value::TextList;
use plain_data::{ExactClone, Marking, Text, TextSet};
use std::alloc::{AllocError, Global};
use std::marker::Model;

/// A change of a list: whether all is cleared, the texts of which every equal item is taken out, and the items pushed
/// then. Where all is cleared nothing is taken out besides, and else something is taken out or pushed.
#[derive(Debug, Drop, PartialEq, Eq)]
pub struct ListDelta {
    cleared: bool,
    removed: TextSet,
    pushed: TextList,
}

impl Model for ListDelta {
    ghost use Rattle.std.specs.Prelude.{T};
    ghost use Rattle.rdt_types.specs.Listed.{Listed, listed_code, has_form};

    ghost Value = { Listed };

    ghost coded = { listed_code };

    ghost view = { λ d. record { cleared = d.cleared; removed = d.removed; pushed = d.pushed } };

    ghost inverse = { λ d. record { cleared = d.cleared; removed = d.removed; pushed = d.pushed } };

    ghost invariant = { λ d. T (has_form (record { cleared = d.cleared; removed = d.removed; pushed = d.pushed })) };
}

/// Texts that are named besides others.
#[derive(Drop)]
struct Naming;

impl Marking<(), ()> for Naming {
    ghost left = { λ naming mark. Some mark };

    fn left(&self, mark: &()) -> Result<Option<()>, AllocError> {
        Ok(Some(*mark))
    }
}

/// The items without those that are equal to a text of some.
fn without(alloc: Global, removed: &TextSet, items: &TextList) -> Result<TextList, AllocError>
    ensures { IfOk result (λ kept. kept ≡ spec.without removed.now items.now) }
{
    let mut kept = TextList::new(alloc);
    for item in items.as_slice() {
        if !removed.contains(item) {
            kept.push(item.clone()?)?;
        }
    }
    Ok(kept)
}

/// The texts of either set, or none where all is cleared before.
fn removed_by_both(
    alloc: Global,
    cleared: bool,
    first: &TextSet,
    second: &TextSet,
) -> Result<TextSet, AllocError>
    ensures { IfOk result (λ removed. removed ≡ (if cleared then map.empty else union first.now second.now)) }
{
    if cleared {
        return Ok(TextSet::new(alloc));
    }
    first.overlaid(alloc, &Naming, second)
}

/// Whether parts have the form of a delta.
fn have_form(cleared: bool, removed: &TextSet, pushed: &TextList) -> bool
    ensures { result ≡ has_form (spec.of_parts cleared removed.now pushed.now) }
{
    if cleared {
        removed.is_empty()
    } else {
        !removed.is_empty() || !pushed.is_empty()
    }
}

impl ListDelta {
    /// One item pushed.
    pub fn pushing(alloc: Global, item: &Text) -> Result<ListDelta, AllocError>
        ensures { IfOk result (λ d. d ≡ spec.pushing item.now) }
    {
        let mut pushed = TextList::new(alloc);
        pushed.push(item.clone()?)?;
        Ok(ListDelta {
            cleared: false,
            removed: TextSet::new(alloc),
            pushed,
        })
    }

    /// Every item that is equal to a text taken out.
    pub fn removing(alloc: Global, text: &Text) -> Result<ListDelta, AllocError>
        ensures { IfOk result (λ d. d ≡ spec.removing text.now) }
    {
        let mut removed = TextSet::new(alloc);
        removed.insert(text.clone()?, ())?;
        Ok(ListDelta {
            cleared: false,
            removed,
            pushed: TextList::new(alloc),
        })
    }

    /// All is cleared. It is never refused for want of memory.
    pub fn clearing(alloc: Global) -> ListDelta
        ensures { result ≡ spec.clearing }
    {
        ListDelta {
            cleared: true,
            removed: TextSet::new(alloc),
            pushed: TextList::new(alloc),
        }
    }

    /// The delta of these parts, or `None` where they don't have the form of one. It is never refused for want of memory.
    pub fn from_parts(cleared: bool, removed: TextSet, pushed: TextList) -> Option<ListDelta>
        ensures form { is_some result ≡ has_form (spec.of_parts cleared removed pushed) }
        ensures parts { IfSome result (λ d. d ≡ spec.of_parts cleared removed pushed) }
    {
        if have_form(cleared, &removed, &pushed) {
            Some(ListDelta {
                cleared,
                removed,
                pushed,
            })
        } else {
            None
        }
    }

    /// The list after the delta.
    pub fn applied(&self, alloc: Global, items: &TextList) -> Result<TextList, AllocError>
        ensures { IfOk result (λ list. list ≡ spec.applied self.now items.now) }
    {
        let mut list = if self.cleared {
            TextList::new(alloc)
        } else {
            without(alloc, &self.removed, items)?
        };
        list.extend_cloned(self.pushed.as_slice())?;
        Ok(list)
    }

    /// One delta that does what this one does and then the second.
    pub fn composed(&self, alloc: Global, second: &ListDelta) -> Result<ListDelta, AllocError>
        ensures { IfOk result (λ d. d ≡ spec.composed self.now second.now) }
    {
        if second.cleared {
            return second.clone();
        }
        let removed = removed_by_both(alloc, self.cleared, &self.removed, &second.removed)?;
        let mut pushed = without(alloc, &second.removed, &self.pushed)?;
        pushed.extend_cloned(second.pushed.as_slice())?;
        Ok(ListDelta {
            cleared: self.cleared,
            removed,
            pushed,
        })
    }

    /// Whether what was there is cleared.
    pub fn cleared(&self) -> bool
        ensures { result ≡ self.now.cleared }
    {
        self.cleared
    }

    /// The texts of which every equal item is taken out.
    pub fn removed(&self) -> &TextSet
        ensures removed { result.now ≡ self.now.removed }
        ensures form { T (has_form self.now) }
    {
        &self.removed
    }

    /// The items that are pushed then.
    pub fn pushed(&self) -> &TextList
        ensures pushed { result.now ≡ self.now.pushed }
        ensures form { T (has_form self.now) }
    {
        &self.pushed
    }
}

impl Clone for ListDelta {
    ghost is_clone = { λ original copy. copy ≡ original };

    fn clone(&self) -> Result<Self, AllocError> {
        let removed = self.removed.clone()?;
        let pushed = self.pushed.clone()?;
        Ok(ListDelta {
            cleared: self.cleared,
            removed,
            pushed,
        })
    }
}

impl ExactClone for ListDelta {
    ghost exact = { λ original copy same. same };
}
