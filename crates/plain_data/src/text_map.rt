//! Maps and sets of texts.

ghost use Rattle.std.specs.Prelude.{◌≡◌, ◌==◌, option_map, IfSome, IfNone, OnOk, OnErr};
ghost use Rattle.std.specs.Option.{option_copied};
ghost use Rattle.std.specs.Bool.{MatchBool, OnTrue, OnFalse};
ghost use Rattle.std.specs.FinMap as map;
ghost use Rattle.std.specs.Map.{keys_of};
ghost use Rattle.std.specs.List.Sorted.{IsStrictlySortedBy};
ghost use Rattle.plain_data.specs.Texts.{text_cmp};

use crate::copies::ExactClone;
use crate::ordered_map::OrderedMap;
use crate::sequence::Text;
use std::alloc::{AllocError, Global};
use std::marker::Model;

/// A value for each of some texts, by rising text. Contracts see the finite map.
#[derive(Debug, Drop)]
pub struct TextMap<V> {
    entries: OrderedMap<Text, V>,
}

/// Some texts, by rising text. Contracts see the finite set.
pub type TextSet = TextMap<()>;

impl<V> Model for TextMap<V> {
    ghost use Rattle.std.specs.Prelude.{T};
    ghost use Rattle.std.specs.Coded.{coded_list, coded_ℕ};
    ghost use Rattle.std.specs.FinMap as map;
    ghost use Rattle.plain_data.specs.Texts.{text_cmp};

    ghost Value = { map.FinMap text_cmp V };

    ghost coded = { map.code (coded_list coded_ℕ) V.code };

    ghost view = { λ m. map.from_sorted m.entries };

    ghost invariant = { λ m. T (map.is_sorted text_cmp m.entries) };
}

impl<V> TextMap<V> {
    /// A map without keys. It is never refused for want of memory.
    pub fn new(alloc: Global) -> TextMap<V>
        ensures { result ≡ map.empty }
    {
        TextMap {
            entries: OrderedMap::new(alloc),
        }
    }

    /// The pairs of a `Vec`, in its own memory.
    pub fn from_vec(entries: Vec<(Text, V)>) -> TextMap<V>
        requires { IsStrictlySortedBy text_cmp (keys_of entries.items) }
        ensures { map.entries result ≡ entries.items }
    {
        TextMap {
            entries: OrderedMap::from_vec(entries),
        }
    }

    /// The pairs as a `Vec`, in the same memory.
    pub fn into_vec(self) -> Vec<(Text, V)>
        ensures pairs { result.items ≡ map.entries self }
        ensures rising { IsStrictlySortedBy text_cmp (keys_of result.items) }
    {
        let TextMap { entries } = self;
        entries.into_vec()
    }

    /// The pairs, by rising key.
    pub fn as_slice(&self) -> &[(Text, V)]
        ensures pairs { result.now ≡ map.entries self.now }
        ensures rising { IsStrictlySortedBy text_cmp (keys_of result.now) }
    {
        self.entries.as_slice()
    }

    /// The number of keys.
    pub fn len(&self) -> usize
        ensures { result ≡ map.len self.now }
    {
        self.entries.len()
    }

    /// Whether there is no key.
    pub fn is_empty(&self) -> bool
        ensures { result ≡ (map.len self.now == 0) }
    {
        self.len() == 0
    }

    /// The value at a key, found by halving.
    pub fn get(&self, key: &Text) -> Option<&V>
        ensures { option_copied result ≡ map.get self.now key.now }
    {
        self.entries.get(key)
    }

    /// The pair at a key, found by halving.
    pub fn get_pair(&self, key: &Text) -> Option<&(Text, V)>
        ensures { option_copied result ≡ option_map (λ value. (key.now, value)) (map.get self.now key.now) }
    {
        self.entries.get_pair(key)
    }

    /// Whether a key is there.
    pub fn contains(&self, key: &Text) -> bool
        ensures { result ≡ map.contains_key self.now key.now }
    {
        self.get(key).is_some()
    }
}

/// Whether keys rise.
fn rises<V>(entries: &[(Text, V)]) -> bool
    ensures { MatchBool result (IsStrictlySortedBy text_cmp (keys_of entries.now)) (IsStrictlySortedBy text_cmp (keys_of entries.now) → ⊥) }
{
    entries.is_sorted_by(|a, b| a.0.cmp(&b.0).is_lt())
}

impl<V: Drop> TextMap<V> {
    /// The pairs of a `Vec`, in its own memory, or `None` where their keys don't rise strictly.
    pub fn try_from_vec(entries: Vec<(Text, V)>) -> Option<TextMap<V>>
        ensures some { IfSome result (λ m. map.entries m ≡ entries.items) }
        ensures none { IfNone result (IsStrictlySortedBy text_cmp (keys_of entries.items) → ⊥) }
    {
        if rises(entries.as_slice()) {
            Some(TextMap::from_vec(entries))
        } else {
            None
        }
    }

    /// Puts a value at a key, in the place of the one that was there. For want of memory the pair is dropped.
    pub fn insert(&mut self, key: Text, value: V) -> Result<(), AllocError>
        ensures ok { OnOk result (self.new ≡ map.insert self.old key value) }
        ensures err { OnErr result (self.new ≡ self.old) }
    {
        self.entries.insert(key, value)
    }

    /// Puts a value in the place of the one at a key, if there is one. It answers whether there is.
    pub fn replace(&mut self, key: &Text, value: V) -> bool
        ensures found { result ≡ map.contains_key self.old key.now }
        ensures there { OnTrue result (self.new ≡ map.insert self.old key.now value) }
        ensures absent { OnFalse result (self.new ≡ self.old) }
    {
        self.entries.replace(key, value)
    }
}

impl<V: ExactClone> Clone for TextMap<V> {
    ghost is_clone = { λ original copy. copy ≡ original };

    fn clone(&self) -> Result<Self, AllocError> {
        let entries = self.entries.clone()?;
        Ok(TextMap { entries })
    }
}

impl<V: ExactClone> ExactClone for TextMap<V> {
    ghost exact = { λ original copy same. same };
}

impl<V: PartialEq> PartialEq for TextMap<V> {
    ghost use Rattle.std.specs.Prelude.{nat_eq, ◌&&◌};
    ghost use Rattle.std.specs.Cmp.{on_per, and_per, partial_equiv_from_equiv};
    ghost use Rattle.std.specs.Cmp.Lexicographic.{pointwise, lists_per, nat_list_eq_equiv};

    ghost eq = { λ a b. pointwise (λ x y. pointwise nat_eq x.0 y.0 && V.eq x.1 y.1) (map.entries a) (map.entries b) };

    ghost laws = { on_per map.entries (lists_per (and_per (on_per (λ p. p.0) (partial_equiv_from_equiv nat_list_eq_equiv)) (on_per (λ p. p.1) V.laws))) };

    fn eq(&self, other: &Self) -> bool {
        self.as_slice() == other.as_slice()
    }
}

impl<V: Eq> Eq for TextMap<V> {
    ghost use Rattle.std.specs.Cmp.{on_equiv, and_equiv};
    ghost use Rattle.std.specs.Cmp.Lexicographic.{lists_equiv, nat_list_eq_equiv};

    ghost laws = { on_equiv map.entries (lists_equiv (and_equiv (on_equiv (λ p. p.0) nat_list_eq_equiv) (on_equiv (λ p. p.1) V.Eq.laws))) };
}
