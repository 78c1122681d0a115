//! The walk over one list.

ghost use Rattle.std.specs.Prelude.{◌≡◌, ℕ};
ghost use Rattle.std.specs.Iterator.{YieldsFirst, item_count};
ghost use Rattle.edge_slab.specs.Links as spec;
ghost use Rattle.edge_slab.specs.Chains.{next_of};

use crate::chains::Spot;
use crate::links::{Edge, Links};
use std::marker::Model;

/// What a walk gives of each edge.
#[derive(Clone, Copy)]
pub(crate) enum Side {
    Subscribers,
    Places,
}

impl Side {
    /// What an edge has on this side.
    fn of(self, edge: Edge) -> u32
        ensures { result ≡ spec.side_of self edge }
    {
        match self {
            Side::Subscribers => edge.subscriber,
            Side::Places => edge.place,
        }
    }
}

impl Links {
    /// What the edge under a key has on a side.
    fn item(&self, side: Side, key: usize) -> u32
        ensures { result ≡ spec.item_of side self.now key }
    {
        match self.edges.get(key) {
            Some(edge) => side.of(*edge),
            None => 0,
        }
    }

    /// The spot behind a spot, in the lists in which a walk gives this side.
    fn behind(&self, side: Side, spot: Spot) -> Spot
        ensures { result ≡ next_of (spec.chains_of side self.now) spot }
    {
        match side {
            Side::Subscribers => self.at_place.next(spot),
            Side::Places => self.of_subscriber.next(spot),
        }
    }

    /// A walk over the list of a place, which gives its subscribers, or of a subscriber, which gives its places.
    pub(crate) fn walk(&self, side: Side, number: u32) -> Walk<'_>
        ensures { result ≡ spec.walk_of side self.now number }
    {
        Walk {
            links: self,
            side,
            spot: self.behind(side, Spot::End(number)),
            most: self.edges.len(),
        }
    }
}

/// What is left of a walk over the subscribers of a place, or over the places of a subscriber, in the order of linking.
#[derive(Drop)]
pub struct Walk<'a> {
    links: &'a Links,
    side: Side,
    spot: Spot,
    most: usize,
}

impl<'a> Model for Walk<'a> {
    ghost use Rattle.std.specs.Prelude.{ℕ, List};
    ghost use Rattle.edge_slab.specs.Links.{given_from};

    ghost Value = { List ℕ };

    ghost view = { λ w. given_from w.side w.links.now w.most w.spot };
}

impl<'a> Iterator for Walk<'a> {
    type Item = u32;

    ghost next_gives = { YieldsFirst (λ rest. rest) };

    ghost remaining = { item_count (λ rest. rest) };

    fn next(&mut self) -> Option<u32> {
        if self.most == 0 {
            return None;
        }
        let Spot::Key(key) = self.spot else {
            return None;
        };
        self.most -= 1;
        self.spot = self.links.behind(self.side, Spot::Key(key));
        Some(self.links.item(self.side, key))
    }
}
