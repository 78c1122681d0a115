//! Copies equal what they were made of, and a counter of steps has no bytes. What is named where an observation and a change
//! clash is in `crates/script_cases`, a row of the table each.

use crate::given::address;
use abort_witness::{Based, BasedList, Found, Witness};
use conflict_table::{Obs, Steps};
use rdt_types::{Kind, WriteOp};
use std::alloc::{AllocError, Global};
use std::marker::Brand;
use std::mem::size_of;

fn based(alloc: Global) -> Result<Based, AllocError> {
    Ok(Based {
        address: address(alloc, Kind::Counter, b"x")?,
        obs: Obs::CounterIs,
        base: 3,
    })
}

/// A list of one observation.
fn one_based(alloc: Global) -> Result<BasedList, AllocError> {
    let mut list = BasedList::new(alloc);
    list.push(based(alloc)?)?;
    Ok(list)
}

/// Whether a copy of a list equals it.
fn is_copied(list: &BasedList) -> bool {
    let copy: Result<BasedList, AllocError> = list.clone();
    matches!(&copy, Ok(copy) if *copy == *list)
}

#[test]
fn copies_of_observations(rt: HostRuntime) {
    assert!(rt; matches!(&one_based(rt.alloc()), Ok(list) if is_copied(list)));
}

fn witness(alloc: Global) -> Result<Witness, AllocError> {
    Ok(Witness {
        address: address(alloc, Kind::Counter, b"x")?,
        obs: Obs::CounterIs,
        base: 3,
        part: WriteOp::AddCounter(1),
        number: 4,
    })
}

/// Whether a copy of a witness equals it.
fn is_witness_copied(witness: &Witness) -> bool {
    let copy: Result<Witness, AllocError> = witness.clone();
    matches!(&copy, Ok(copy) if *copy == *witness)
}

#[test]
fn copies_of_witnesses(rt: HostRuntime) {
    assert!(rt; matches!(&witness(rt.alloc()), Ok(witness) if is_witness_copied(witness)));
}

#[test]
fn copies_of_finds(rt: HostRuntime) {
    let found = Found {
        place: 0,
        number: 4,
    };
    let copy: Result<Found, AllocError> = found.clone();
    assert!(rt; copy == Ok(found));
}

#[test]
fn steps_have_no_bytes(rt: HostRuntime) {
    assert!(rt; size_of::<Steps<Brand>>() == 0);
}
