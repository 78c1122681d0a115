//! Edges of a subscriber and a place.

ghost use Rattle.std.specs.Prelude.{◌≡◌, ℕ, [], not, false, IfOk, IfNone, OnErr, nat_eq, slice_get};
ghost use Rattle.std.specs.List.{IsDistinct};
ghost use Rattle.edge_slab.specs.Edges.{subscribers_at, places_of, is_in, is_linked, SameEdges, IsLinked, IsUnlinked, IsDropped};

use crate::links::{Edge, Links};
use crate::walk::{Side, Walk};
use std::alloc::{AllocError, Global};
use std::collections::HashMap;
use std::marker::Model;

/// Who is linked to what. Each pair is an edge, which lies in the list of its place and in that of its subscriber.
#[derive(Drop)]
pub struct EdgeSlab {
    links: Links,
    keys: HashMap<(u32, u32), usize>,
}

impl Model for EdgeSlab {
    ghost use Rattle.std.specs.Prelude.{List};
    ghost use Rattle.edge_slab.specs.Edges.{Edges, edges_code};

    ghost Value = { Edges };

    ghost coded = { edges_code };

    ghost use Rattle.edge_slab.specs.Links.{Linked, edges_of, AreEdges};

    ghost view = { λ e. edges_of e.links };

    ghost invariant = { λ e. (all : List Linked) × AreEdges e.links e.keys all };
}

impl EdgeSlab {
    /// No pair is linked. It is never refused for want of memory.
    pub fn new(alloc: Global) -> EdgeSlab
        ensures places { (place : ℕ) → subscribers_at result place ≡ [] }
        ensures subscribers { (subscriber : ℕ) → places_of result subscriber ≡ [] }
    {
        EdgeSlab {
            links: Links::new(alloc),
            keys: HashMap::new(alloc),
        }
    }

    /// Links a subscriber to a place, behind all that are linked, and answers whether the pair is new.
    pub fn link(&mut self, subscriber: u32, place: u32) -> Result<bool, AllocError>
        ensures answer { IfOk result (λ new_pair. new_pair ≡ not (is_linked self.old subscriber place)) }
        ensures ok { IfOk result (λ new_pair. IsLinked new_pair self.old subscriber place self.new) }
        ensures err { OnErr result (SameEdges self.old self.new) }
    {
        if self.keys.contains_key(&(subscriber, place)) {
            return Ok(false);
        }
        let edge = Edge { subscriber, place };
        let key = self.links.make_room(edge)?;
        self.keys.insert((subscriber, place), key)?;
        self.links.push(edge, key);
        Ok(true)
    }

    /// Takes a pair out of both lists, and answers whether it was there. It is never refused for want of memory.
    pub fn unlink(&mut self, subscriber: u32, place: u32) -> bool
        ensures answer { result ≡ is_linked self.old subscriber place }
        ensures gone { IsUnlinked self.old subscriber place self.new }
    {
        match self.keys.remove(&(subscriber, place)) {
            None => false,
            Some(key) => {
                self.links.remove(key);
                true
            }
        }
    }

    /// Takes all pairs of a subscriber out, one after the other. It is never refused for want of memory, and walks no
    /// other subscriber's pairs.
    pub fn drop_subscriber(&mut self, subscriber: u32)
        ensures { IsDropped self.old subscriber self.new }
    {
        while let Some(place) = self.first_place(subscriber) {
            self.unlink(subscriber, place);
        }
    }

    /// The place to which a subscriber was linked first, of those where it is.
    fn first_place(&self, subscriber: u32) -> Option<u32>
        ensures first { result ≡ slice_get (places_of self.now subscriber) 0 }
        ensures none { IfNone result ((place : ℕ) → is_linked self.now subscriber place ≡ false) }
    {
        let mut walk = self.walk_subscriber(subscriber);
        walk.next()
    }

    /// The subscribers of a place, each once, in the order of linking. It is never refused for want of memory.
    pub fn walk_address(&self, place: u32) -> Walk<'_>
        ensures all { result ≡ subscribers_at self.now place }
        ensures once { IsDistinct nat_eq result }
    {
        self.links.walk(Side::Subscribers, place)
    }

    /// The places of a subscriber, each once, in the order of linking. It is never refused for want of memory.
    pub fn walk_subscriber(&self, subscriber: u32) -> Walk<'_>
        ensures all { result ≡ places_of self.now subscriber }
        ensures once { IsDistinct nat_eq result }
        ensures both_ways { (place : ℕ) → is_linked self.now subscriber place ≡ is_in place result }
    {
        self.links.walk(Side::Places, subscriber)
    }
}
