//! Doubly linked lists of keys by index. A key's ties stand at its index; those of a list's end are found by the list's number.

ghost use Rattle.std.specs.Prelude.{◌≡◌, ℕ, List, [], ◌&&◌, ◌<◌, true, false, Some, option_map, if◌then◌else◌, OnOk, OnErr, slice_get, nat_eq, is_some};
ghost use Rattle.std.specs.HashMap.{get};
ghost use Rattle.edge_slab.specs.declared.chains.Spot.{Spot};
ghost use Rattle.edge_slab.specs.Chains as spec;
ghost use Rattle.edge_slab.specs.Chains.{key_ties, end_ties, ties_of, next_of, last_of, is_there, AreChains, IsReadyFor, IsTied, KeepsChains, PushesKey, SetsTies, TakesKey};
ghost use Rattle.edge_slab.specs.Edges.{without};

use std::alloc::{AllocError, Global};
use std::collections::HashMap;

/// A place in a list: its end, which lies behind the last key and before the first, or a key.
#[derive(Clone, Copy)]
pub(crate) enum Spot {
    End(u32),
    Key(usize),
    Nowhere,
}

/// The neighbours of a spot: the one behind it, and the one before it.
#[derive(Clone, Copy)]
pub(crate) struct Ties {
    next: Spot,
    last: Spot,
}

/// Lists of keys, each under a number. A key lies in at most one of them.
#[derive(Drop)]
pub(crate) struct Chains {
    ends: HashMap<u32, Ties>,
    ties: Vec<Ties>,
}

/// The ties of a key in no list.
fn nowhere() -> Ties
    ensures { result ≡ spec.nowhere }
{
    Ties {
        next: Spot::Nowhere,
        last: Spot::Nowhere,
    }
}

/// The ties of the end of a list without items.
fn ends_of_none(list: u32) -> Ties
    ensures { result ≡ spec.ends_of_none list }
{
    Ties {
        next: Spot::End(list),
        last: Spot::End(list),
    }
}

/// Whether a spot is the end of a list.
fn is_end_of(list: u32, spot: Spot) -> bool
    ensures { result ≡ spec.is_end_of list spot }
{
    match spot {
        Spot::End(other) => list == other,
        Spot::Key(_) => false,
        Spot::Nowhere => false,
    }
}

/// Makes place for the ties of a key.
fn reach_key(ties: &mut Vec<Ties>, key: usize) -> Result<(), AllocError>
    ensures there { OnOk result (is_some (slice_get ties.new.items key) ≡ true) }
    ensures same { (k : ℕ) → key_ties ties.new.items k ≡ key_ties ties.old.items k }
{
    'reach: while ties.len() <= key {
        ties.push(nowhere())?;
    }
    Ok(())
}

/// Makes place for the ties of a list's end.
fn reach_end(ends: &mut HashMap<u32, Ties>, list: u32) -> Result<(), AllocError>
    ensures there { OnOk result (is_some (get nat_eq ends.new list) ≡ true) }
    ensures same { (n : ℕ) → end_ties ends.new n ≡ end_ties ends.old n }
{
    if !ends.contains_key(&list) {
        ends.insert(list, ends_of_none(list))?;
    }
    Ok(())
}

/// Sets the ties of a key, where there are any.
fn set_key(keys: &mut [Ties], key: usize, ties: Ties)
    ensures { (k : ℕ) → slice_get keys.new k
        ≡ (if nat_eq key k then option_map (λ _. ties) (slice_get keys.old key) else slice_get keys.old k) }
{
    if key < keys.len() {
        keys[key] = ties;
    }
}

/// Sets the ties of a list's end, where there are any.
fn set_end(ends: &mut HashMap<u32, Ties>, list: u32, ties: Ties)
    ensures { (n : ℕ) → get nat_eq ends.new n
        ≡ (if nat_eq list n then option_map (λ _. ties) (get nat_eq ends.old list) else get nat_eq ends.old n) }
{
    if let Some(kept) = ends.get_mut(&list) {
        *kept = ties;
    }
}

/// Forgets the end of a list without items.
fn forget_empty(ends: &mut HashMap<u32, Ties>, list: u32)
    ensures { (n : ℕ) → end_ties ends.new n ≡ end_ties ends.old n }
{
    let ties = ends_in(ends, list);
    if is_end_of(list, ties.next) && is_end_of(list, ties.last) {
        ends.remove(&list);
    }
}

/// The ties of a list's end.
fn ends_in(ends: &HashMap<u32, Ties>, list: u32) -> Ties
    ensures { result ≡ end_ties ends.now list }
{
    match ends.get(&list) {
        Some(ties) => *ties,
        None => ends_of_none(list),
    }
}

/// The ties of a key.
fn key_in(ties: &[Ties], key: usize) -> Ties
    ensures { result ≡ key_ties ties.now key }
{
    match ties.get(key) {
        Some(ties) => *ties,
        None => nowhere(),
    }
}

impl Chains {
    /// No list has a key. It is never refused for want of memory.
    pub fn new(alloc: Global) -> Chains
        ensures { AreChains result (λ _. []) }
    {
        Chains {
            ends: HashMap::new(alloc),
            ties: Vec::new(alloc),
        }
    }

    /// The ties of a spot.
    fn ties_of(&self, spot: Spot) -> Ties
        ensures { result ≡ ties_of self.now spot }
    {
        match spot {
            Spot::End(list) => ends_in(&self.ends, list),
            Spot::Key(key) => key_in(self.ties.as_slice(), key),
            Spot::Nowhere => nowhere(),
        }
    }

    /// The spot behind a spot.
    pub fn next(&self, spot: Spot) -> Spot
        ensures { result ≡ next_of self.now spot }
    {
        self.ties_of(spot).next
    }

    /// Sets the ties of a spot, where there are any.
    fn set(&mut self, spot: Spot, ties: Ties)
        ensures set { SetsTies spot ties self.old self.new }
        ensures there { (q : Spot) → is_there self.new q ≡ is_there self.old q }
    {
        match spot {
            Spot::End(list) => set_end(&mut self.ends, list, ties),
            Spot::Key(key) => set_key(self.ties.as_mut_slice(), key, ties),
            Spot::Nowhere => (),
        }
    }

    /// Ties two spots to one another.
    fn tie(&mut self, before: Spot, behind: Spot)
        ensures { IsTied self.old before behind self.new }
    {
        let last = self.ties_of(before).last;
        self.set(before, Ties { next: behind, last });
        let next = self.ties_of(behind).next;
        self.set(behind, Ties { next, last: before });
    }

    /// Takes the memory for a key at the end of a list. The lists stay as they are.
    pub fn make_room(&mut self, list: u32, key: usize) -> Result<(), AllocError>
        ensures ready { OnOk result (IsReadyFor self.new list key) }
        ensures same { KeepsChains self.old self.new }
    {
        reach_key(&mut self.ties, key)?;
        reach_end(&mut self.ends, list)
    }

    /// Puts a key that is in no list at the end of one. It is never refused for want of memory.
    pub fn push(&mut self, list: u32, key: usize)
        requires { IsReadyFor self.old list key }
        ensures { PushesKey list key self.old self.new }
    {
        let end = Spot::End(list);
        let last = self.ties_of(end).last;
        self.tie(last, Spot::Key(key));
        self.tie(Spot::Key(key), end);
    }

    /// Takes a key out of its list. It is never refused for want of memory.
    pub fn remove(&mut self, key: usize)
        ensures { TakesKey key self.old self.new }
    {
        let ties = self.ties_of(Spot::Key(key));
        self.tie(ties.last, ties.next);
        self.tidy(ties.last);
    }

    /// Forgets the end of a list that it belongs to, where that has no items. All ties stay as they are.
    fn tidy(&mut self, spot: Spot)
        ensures { (q : Spot) → ties_of self.new q ≡ ties_of self.old q }
    {
        if let Spot::End(list) = spot {
            forget_empty(&mut self.ends, list);
        }
    }
}
