//! Makes the moves of the file `stdin` on a slab of edges, a line a move, and prints what each answers. What it is to print
//! stands in `stdout`: the script `make` computed it from the same moves with a plain list of pairs.
//!
//! A move is `link S P`, `unlink S P`, `drop S`, `at P` or `of S`, for a subscriber S and a place P.
#![tactic(auto)]

use edge_slab::{EdgeSlab, Walk};
use std::alloc::{AllocError, Global};
use std::io;

/// What a line asks for.
#[derive(Clone, Copy)]
enum Move {
    Link(u32, u32),
    Unlink(u32, u32),
    Drop(u32),
    At(u32),
    Of(u32),
}

/// The number that a word is.
fn number(word: Option<&str>) -> Option<u32> {
    match word {
        Some(word) => word.parse().ok(),
        None => None,
    }
}

/// The move of a line.
fn move_of(line: &str) -> Option<Move> {
    let mut words = line.split(' ');
    let name = words.next()?;
    let first = number(words.next())?;
    let second = number(words.next());
    match (name, second) {
        ("link", Some(place)) => Some(Move::Link(first, place)),
        ("unlink", Some(place)) => Some(Move::Unlink(first, place)),
        ("drop", None) => Some(Move::Drop(first)),
        ("at", None) => Some(Move::At(first)),
        ("of", None) => Some(Move::Of(first)),
        _ => None,
    }
}

/// What a walk gives, with a blank before each number.
fn walked(alloc: Global, name: &str, walk: Walk<'_>) -> Result<String, AllocError> {
    let mut text = String::from_str(alloc, name)?;
    for number in walk {
        text.push_str(format!(in alloc; " {number}")?.as_str())?;
    }
    Ok(text)
}

/// Makes a move. What it answers.
fn make(alloc: Global, edges: &mut EdgeSlab, made: Move) -> Result<String, AllocError> {
    match made {
        Move::Link(subscriber, place) => {
            let is_new = edges.link(subscriber, place)?;
            format!(in alloc; "{is_new}")
        }
        Move::Unlink(subscriber, place) => {
            let was = edges.unlink(subscriber, place);
            format!(in alloc; "{was}")
        }
        Move::Drop(subscriber) => {
            edges.drop_subscriber(subscriber);
            String::from_str(alloc, "dropped")
        }
        Move::At(place) => walked(alloc, "subscribers", edges.walk_address(place)),
        Move::Of(subscriber) => walked(alloc, "places", edges.walk_subscriber(subscriber)),
    }
}

fn main(rt: HostRuntime) -> io::Result<()> {
    let mut edges = EdgeSlab::new(rt.alloc());
    for line in rt.lines(rt.alloc()) {
        let line = line?;
        match move_of(line.as_str()) {
            Some(made) => {
                let answer = make(rt.alloc(), &mut edges, made)?;
                println!(rt; "{answer}")?;
            }
            None => println!(rt; "no move: {line}")?,
        }
    }
    Ok(())
}
