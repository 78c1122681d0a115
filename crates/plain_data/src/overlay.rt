//! Marks laid over a map of texts, in one pass over both.

ghost use Rattle.std.specs.Prelude.{◌≡◌, ◌++◌, Option, IfOk, OnOk};
ghost use Rattle.plain_data.specs.Overlays.{overlaid};
ghost use Rattle.plain_data.specs.code.Merging.{before, after, pair_at, merged};

use crate::copies::ExactClone;
use crate::sequence::{Sequence, Text};
use crate::text_map::TextMap;
use std::alloc::{AllocError, Global};
use std::cmp::Ordering;

/// What marks do to a map of values that they are laid over.
pub trait Marking<M, V> {
    /// What a mark leaves at its key, if anything.
    ghost left: { Self → M → Option V };

    /// What a mark leaves at its key, if anything.
    fn left(&self, mark: &M) -> Result<Option<V>, AllocError>
        ensures { IfOk result (λ value. value ≡ left self.now mark.now) };
}

/// Copies the pairs below a key, and answers those above it.
#[tactic(auto, using(crate::proofs::Merging::before_none, crate::proofs::Merging::after_none, crate::proofs::Merging::before_below, crate::proofs::Merging::after_below, crate::proofs::Merging::before_at, crate::proofs::Merging::after_at, crate::proofs::Merging::before_above, crate::proofs::Merging::after_above))]
fn copy_before<'a, V: ExactClone + Drop>(
    pairs: &mut Vec<(Text, V)>,
    under: &'a [(Text, V)],
    key: &Text,
) -> Result<&'a [(Text, V)], AllocError>
    ensures copied { OnOk result (pairs.new.items ≡ pairs.old.items ++ before key.now under.now) }
    ensures rest { IfOk result (λ rest. rest.now ≡ after key.now under.now) }
{
    let mut rest = under;
    while let Some((pair, behind)) = rest.split_first() {
        match key.cmp(&pair.0) {
            Ordering::Less => return Ok(rest),
            Ordering::Equal => return Ok(behind),
            Ordering::Greater => {
                pairs.push(pair.clone()?)?;
                rest = behind;
            }
        }
    }
    Ok(rest)
}

/// Adds the pair of a key, where there is a value for it.
#[tactic(auto, unfolding(crate::specs::code::Merging::pair_at))]
fn add_pair<V: Drop>(
    pairs: &mut Vec<(Text, V)>,
    key: &Text,
    value: Option<V>,
) -> Result<(), AllocError>
    ensures { OnOk result (pairs.new.items ≡ pairs.old.items ++ pair_at key.now value) }
{
    if let Some(value) = value {
        pairs.push((key.clone()?, value))?;
    }
    Ok(())
}

/// The pairs under marks, after each of these.
#[tactic(auto, unfolding(crate::specs::code::Merging::merged))]
fn merge<M, V: ExactClone + Drop, L: Marking<M, V>>(
    alloc: Global,
    marking: &L,
    under: &[(Text, V)],
    over: &[(Text, M)],
) -> Result<Vec<(Text, V)>, AllocError>
    ensures { IfOk result (λ pairs. pairs.items ≡ merged (L.left marking.now) under.now over.now) }
{
    let mut pairs = Vec::new(alloc);
    let mut rest = under;
    for (key, mark) in over {
        rest = copy_before(&mut pairs, rest, key)?;
        add_pair(&mut pairs, key, marking.left(mark)?)?;
    }
    let mut all = Sequence::from_vec(pairs);
    all.extend_cloned(rest)?;
    Ok(all.into_vec())
}

impl<V: ExactClone + Drop> TextMap<V> {
    /// The map after marks, in one pass over both.
    pub fn overlaid<M, L: Marking<M, V>>(
        &self,
        alloc: Global,
        marking: &L,
        marks: &TextMap<M>,
    ) -> Result<TextMap<V>, AllocError>
        ensures { IfOk result (λ m. m ≡ overlaid (L.left marking.now) self.now marks.now) }
    {
        let pairs = merge(alloc, marking, self.as_slice(), marks.as_slice())?;
        Ok(TextMap::from_vec(pairs))
    }
}
