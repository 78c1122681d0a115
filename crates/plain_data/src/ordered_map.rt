//! A map with its keys in order, in one block of memory.

ghost use Rattle.std.specs.Prelude.{◌≡◌, ◌↔◌, ◌<◌, ◌≤◌, ℕ, [], length, slice_get, false, Some, is_some, option_map, IsTrue, IfSome, IfOk, OnOk, OnErr};
ghost use Rattle.std.specs.Option.{option_copied};
ghost use Rattle.std.specs.Bool.{OnTrue, OnFalse};
ghost use Rattle.std.specs.BTreeMap.{insert_entry, is_at};
ghost use Rattle.std.specs.Map.{lookup, keys_of};
ghost use Rattle.std.specs.List.Sorted.{IsStrictlySortedBy};
ghost use Rattle.std.specs.Ordering.{is_eq, is_gt};

use crate::copies::ExactClone;
use std::alloc::{AllocError, Global};
use std::cmp::Ordering;
use std::marker::Model;

/// A value for each of some keys, which contracts see as the list of its pairs, whose keys rise strictly.
#[derive(Debug, Drop)]
pub struct OrderedMap<K: Ord, V> {
    entries: Vec<(K, V)>,
}

impl<K: Ord, V> Model for OrderedMap<K, V> {
    ghost use Rattle.std.specs.Prelude.{List};
    ghost use Rattle.std.specs.Coded.{coded_list, coded×};
    ghost use Rattle.std.specs.Map.{keys_of};
    ghost use Rattle.std.specs.List.Sorted.{IsStrictlySortedBy};

    ghost Value = { List (K × V) };

    ghost coded = { coded_list (coded× K.code V.code) };

    ghost view = { λ m. m.entries.items };

    ghost invariant = { λ m. IsStrictlySortedBy K.cmp (keys_of m.entries.items) };
}

/// The place of the first key that isn't below this one.
fn place_of<K: Ord, V>(entries: &[(K, V)], key: &K) -> usize
    requires { IsStrictlySortedBy K.cmp (keys_of entries.now) }
    ensures within { result ≤ length entries.now }
    ensures below { (j : ℕ) (e : K × V) → j < result → slice_get entries.now j ≡ Some e → K.cmp key.now e.0 ≡ Ordering.Greater }
    ensures reached { (e : K × V) → slice_get entries.now result ≡ Some e → is_gt (K.cmp key.now e.0) ≡ false }
{
    entries.partition_point(|entry| key.cmp(&entry.0).is_gt())
}

/// The pair at a place.
fn entry_at<K: Ord, V>(entries: &[(K, V)], place: usize) -> Option<&(K, V)>
    ensures { option_copied result ≡ slice_get entries.now place }
{
    entries.get(place)
}

/// The pair at a key, found by halving.
fn halved<'a, K: Ord, V>(entries: &'a [(K, V)], key: &K) -> Option<&'a (K, V)>
    requires { IsStrictlySortedBy K.cmp (keys_of entries.now) }
    ensures value { option_map (λ pair. pair.1) (option_copied result) ≡ lookup (is_at (K.cmp key.now)) entries.now }
    ensures key { IfSome result (λ pair. K.cmp key.now pair.now.0 ≡ Ordering.Equal) }
{
    let place = place_of(entries, key);
    match entry_at(entries, place) {
        None => None,
        Some(pair) => match key.cmp(&pair.0) {
            Ordering::Equal => Some(pair),
            _ => None,
        },
    }
}

/// The pair at a key. Where there is none, or one alone, nothing is halved.
fn pair_at<'a, K: Ord, V>(entries: &'a [(K, V)], key: &K) -> Option<&'a (K, V)>
    requires { IsStrictlySortedBy K.cmp (keys_of entries.now) }
    ensures value { option_map (λ pair. pair.1) (option_copied result) ≡ lookup (is_at (K.cmp key.now)) entries.now }
    ensures key { IfSome result (λ pair. K.cmp key.now pair.now.0 ≡ Ordering.Equal) }
{
    match entries {
        [] => None,
        [only] => match key.cmp(&only.0) {
            Ordering::Equal => Some(only),
            _ => None,
        },
        _ => halved(entries, key),
    }
}

/// The value at a key.
fn value_at<'a, K: Ord, V>(entries: &'a [(K, V)], key: &K) -> Option<&'a V>
    requires { IsStrictlySortedBy K.cmp (keys_of entries.now) }
    ensures { option_copied result ≡ lookup (is_at (K.cmp key.now)) entries.now }
{
    match pair_at(entries, key) {
        None => None,
        Some(pair) => Some(&pair.1),
    }
}

/// Whether the key at a place is this one.
fn holds_at<K: Ord, V>(entries: &[(K, V)], place: usize, key: &K) -> bool
    ensures yes { OnTrue result ((e : K × V) → slice_get entries.now place ≡ Some e → K.cmp key.now e.0 ≡ Ordering.Equal) }
    ensures no { OnFalse result ((e : K × V) → slice_get entries.now place ≡ Some e → is_eq (K.cmp key.now e.0) ≡ false) }
    ensures within { OnTrue result (place < length entries.now) }
{
    match entry_at(entries, place) {
        None => false,
        Some(entry) => key.cmp(&entry.0).is_eq(),
    }
}

/// Puts a value at a key. For want of memory the pair is dropped.
fn put<K: Ord + Drop, V: Drop>(
    entries: &mut Vec<(K, V)>,
    key: K,
    value: V,
) -> Result<(), AllocError>
    requires { IsStrictlySortedBy K.cmp (keys_of entries.old.items) }
    ensures ok { OnOk result (entries.new.items ≡ insert_entry K.cmp entries.old.items key value) }
    ensures err { OnErr result (entries.new.items ≡ entries.old.items) }
    ensures rising { IsStrictlySortedBy K.cmp (keys_of entries.new.items) }
{
    let place = place_of(entries.as_slice(), &key);
    if holds_at(entries.as_slice(), place, &key) {
        entries[place].1 = value;
        return Ok(());
    }
    entries.insert(place, (key, value))?;
    Ok(())
}

/// Puts a value in the place of the one at a key, if there is one. It answers whether there is.
fn put_over<K: Ord + Drop, V: Drop>(entries: &mut Vec<(K, V)>, key: &K, value: V) -> bool
    requires { IsStrictlySortedBy K.cmp (keys_of entries.old.items) }
    ensures found { result ≡ is_some (lookup (is_at (K.cmp key.now)) entries.old.items) }
    ensures there { OnTrue result (entries.new.items ≡ insert_entry K.cmp entries.old.items key.now value) }
    ensures absent { OnFalse result (entries.new.items ≡ entries.old.items) }
    ensures rising { IsStrictlySortedBy K.cmp (keys_of entries.new.items) }
{
    let place = place_of(entries.as_slice(), key);
    if holds_at(entries.as_slice(), place, key) {
        entries[place].1 = value;
        return true;
    }
    false
}

impl<K: Ord, V> OrderedMap<K, V> {
    /// A map without keys. It is never refused for want of memory.
    pub fn new(alloc: Global) -> OrderedMap<K, V>
        ensures { result ≡ [] }
    {
        OrderedMap {
            entries: Vec::new(alloc),
        }
    }

    /// The pairs of a `Vec`, in its own memory.
    pub fn from_vec(entries: Vec<(K, V)>) -> OrderedMap<K, V>
        requires { IsStrictlySortedBy K.cmp (keys_of entries.items) }
        ensures { result ≡ entries.items }
    {
        OrderedMap { entries }
    }

    /// The pairs as a `Vec`, in the same memory.
    pub fn into_vec(self) -> Vec<(K, V)>
        ensures pairs { result.items ≡ self }
        ensures rising { IsStrictlySortedBy K.cmp (keys_of result.items) }
    {
        let OrderedMap { entries } = self;
        entries
    }

    /// The pairs, by rising key.
    pub fn as_slice(&self) -> &[(K, V)]
        ensures pairs { result.now ≡ self.now }
        ensures rising { IsStrictlySortedBy K.cmp (keys_of self.now) }
    {
        self.entries.as_slice()
    }

    /// The number of keys.
    pub fn len(&self) -> usize
        ensures { result ≡ length self.now }
    {
        self.entries.len()
    }

    /// Whether there is no key.
    pub fn is_empty(&self) -> bool
        ensures { IsTrue result ↔ (self.now ≡ []) }
    {
        self.entries.is_empty()
    }

    /// The value at a key, found by halving.
    pub fn get(&self, key: &K) -> Option<&V>
        ensures { option_copied result ≡ lookup (is_at (K.cmp key.now)) self.now }
    {
        value_at(self.entries.as_slice(), key)
    }

    /// The pair at a key, found by halving.
    pub fn get_pair(&self, key: &K) -> Option<&(K, V)>
        ensures value { option_map (λ pair. pair.1) (option_copied result) ≡ lookup (is_at (K.cmp key.now)) self.now }
        ensures key { IfSome result (λ pair. K.cmp key.now pair.now.0 ≡ Ordering.Equal) }
    {
        pair_at(self.entries.as_slice(), key)
    }
}

impl<K: Ord + Drop, V: Drop> OrderedMap<K, V> {
    /// Puts a value at a key, in the place of the one that was there. For want of memory the pair is dropped.
    pub fn insert(&mut self, key: K, value: V) -> Result<(), AllocError>
        ensures ok { OnOk result (self.new ≡ insert_entry K.cmp self.old key value) }
        ensures err { OnErr result (self.new ≡ self.old) }
        ensures rising { IsStrictlySortedBy K.cmp (keys_of self.new) }
    {
        put(&mut self.entries, key, value)
    }

    /// Puts a value in the place of the one at a key, if there is one. It answers whether there is.
    pub fn replace(&mut self, key: &K, value: V) -> bool
        ensures found { result ≡ is_some (lookup (is_at (K.cmp key.now)) self.old) }
        ensures there { OnTrue result (self.new ≡ insert_entry K.cmp self.old key.now value) }
        ensures absent { OnFalse result (self.new ≡ self.old) }
        ensures rising { IsStrictlySortedBy K.cmp (keys_of self.new) }
    {
        put_over(&mut self.entries, key, value)
    }
}

impl<K: Ord + ExactClone, V: ExactClone> Clone for OrderedMap<K, V> {
    ghost is_clone = { λ original copy. copy ≡ original };

    fn clone(&self) -> Result<Self, AllocError> {
        let entries = self.entries.clone()?;
        Ok(OrderedMap { entries })
    }
}

impl<K: Ord + ExactClone, V: ExactClone> ExactClone for OrderedMap<K, V> {
    ghost exact = { λ original copy same. same };
}
