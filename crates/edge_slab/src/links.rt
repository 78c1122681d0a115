//! Edges in their two lists: that of their place and that of their subscriber.

ghost use Rattle.std.specs.Prelude.{[], ◌∷◌, ◌++◌, IfOk};
ghost use Rattle.edge_slab.specs.Links as spec;
ghost use Rattle.edge_slab.specs.Links.{AreLinks, IsReady, TurnsLinks, DropsLink, linked_as};

use crate::chains::Chains;
use slab::Slab;
use std::alloc::{AllocError, Global};

/// A subscriber that is linked to a place.
#[derive(Clone, Copy)]
pub(crate) struct Edge {
    pub(crate) subscriber: u32,
    pub(crate) place: u32,
}

/// Edges, each under a key, and the two lists in which its key lies.
#[derive(Drop)]
pub(crate) struct Links {
    pub(crate) edges: Slab<Edge>,
    pub(crate) at_place: Chains,
    pub(crate) of_subscriber: Chains,
}

impl Links {
    /// No edge is linked. It is never refused for want of memory.
    pub fn new(alloc: Global) -> Links
        ensures { AreLinks result [] }
    {
        Links {
            edges: Slab::new(alloc),
            at_place: Chains::new(alloc),
            of_subscriber: Chains::new(alloc),
        }
    }

    /// Takes the memory for one more edge, and answers its key. The links stay as they are.
    pub fn make_room(&mut self, edge: Edge) -> Result<usize, AllocError>
        ensures ready { IfOk result (λ key. IsReady self.new edge key) }
        ensures same { TurnsLinks (λ all. all) self.old self.new }
    {
        self.edges.reserve(1)?;
        let key = self.edges.vacant_key();
        self.at_place.make_room(edge.place, key)?;
        self.of_subscriber.make_room(edge.subscriber, key)?;
        Ok(key)
    }

    /// Links an edge under a key for which there is room, last in both lists. It is never refused for want of memory.
    pub fn push(&mut self, edge: Edge, key: usize)
        requires { IsReady self.old edge key }
        ensures { TurnsLinks (λ all. all ++ linked_as edge key ∷ []) self.old self.new }
    {
        self.edges.insert_reserved(edge);
        self.at_place.push(edge.place, key);
        self.of_subscriber.push(edge.subscriber, key);
    }

    /// Takes the edge under a key out of both lists. It is never refused for want of memory.
    pub fn remove(&mut self, key: usize)
        ensures { DropsLink key self.old self.new }
    {
        self.edges.try_remove(key);
        self.at_place.remove(key);
        self.of_subscriber.remove(key);
    }
}
