//! The worked table of edges, a key that is given out again, and each call once, with ample memory. A test is a list of moves.

use edge_slab::{EdgeSlab, Walk};
use std::alloc::Global;

/// What is done with a slab of edges, or seen of it.
#[derive(Clone, Copy)]
enum Move {
    /// A subscriber is linked to a place, and whether that is new.
    Link(u32, u32, bool),
    /// A pair is unlinked, and whether it was there.
    Unlink(u32, u32, bool),
    Drop(u32),
    /// The subscribers of a place.
    At(u32, &'static [u32]),
    /// The places of a subscriber.
    Of(u32, &'static [u32]),
}

/// Whether a walk gives these numbers, and no more.
fn gives(mut walk: Walk<'_>, numbers: &[u32]) -> bool {
    for number in numbers {
        if walk.next() != Some(*number) {
            return false;
        }
    }
    walk.next().is_none()
}

/// Whether a move goes as it says.
fn goes(edges: &mut EdgeSlab, done: Move) -> bool {
    match done {
        Move::Link(subscriber, place, is_new) => match edges.link(subscriber, place) {
            Ok(answer) => answer == is_new,
            Err(_) => false,
        },
        Move::Unlink(subscriber, place, was) => edges.unlink(subscriber, place) == was,
        Move::Drop(subscriber) => {
            edges.drop_subscriber(subscriber);
            true
        }
        Move::At(place, subscribers) => gives(edges.walk_address(place), subscribers),
        Move::Of(subscriber, places) => gives(edges.walk_subscriber(subscriber), places),
    }
}

/// Whether moves go as they say, from no pair on.
fn all_go(alloc: Global, moves: &[Move]) -> bool {
    let mut edges = EdgeSlab::new(alloc);
    for done in moves {
        if !goes(&mut edges, *done) {
            return false;
        }
    }
    true
}

// The lists, so that the proof of a test doesn't go through their rows.

static ONCE: [Move; 14] = [
    Move::Link(1, 7, true),
    Move::Link(1, 7, false),
    Move::Link(2, 7, true),
    Move::Link(1, 8, true),
    Move::At(7, &[1, 2]),
    Move::Of(1, &[7, 8]),
    Move::Unlink(1, 7, true),
    Move::Unlink(1, 7, false),
    Move::At(7, &[2]),
    Move::Drop(1),
    Move::At(8, &[]),
    Move::At(7, &[2]),
    Move::Link(1, 7, true),
    Move::At(7, &[2, 1]),
];

fn once() -> &'static [Move] {
    &ONCE
}

#[test]
fn a_pair_is_linked_and_unlinked_once(rt: HostRuntime) {
    assert!(rt; all_go(rt.alloc(), once()));
}

static AGAIN: [Move; 16] = [
    Move::Link(1, 5, true),
    Move::Link(2, 5, true),
    Move::Link(3, 5, true),
    Move::Unlink(2, 5, true),
    Move::Link(2, 6, true),
    Move::At(5, &[1, 3]),
    Move::At(6, &[2]),
    Move::Of(2, &[6]),
    Move::Unlink(1, 5, true),
    Move::Link(4, 5, true),
    Move::At(5, &[3, 4]),
    Move::Of(1, &[]),
    Move::Drop(3),
    Move::Drop(4),
    Move::At(5, &[]),
    Move::At(6, &[2]),
];

fn again() -> &'static [Move] {
    &AGAIN
}

#[test]
fn a_key_given_out_again_is_of_the_new_pair_alone(rt: HostRuntime) {
    assert!(rt; all_go(rt.alloc(), again()));
}
