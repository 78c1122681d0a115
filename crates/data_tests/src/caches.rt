//! Each call once, with ample memory. Values of all kinds go through a feed where watches report them (`crates/script_cases`).

use crate::given::address;
use change_feed::Feed;
use client_cache::Cache;
use rdt_types::{Address, Delta, Kind, Value};
use std::alloc::{AllocError, Global};

/// Whether a cache has this number at a counter.
fn has(cache: &Cache, counter: &Address, number: i64) -> bool {
    match cache.get(counter) {
        Some(Value::Counter(found)) => *found == number,
        _ => false,
    }
}

/// Whether a cache is advanced by a feed that adds 4.
fn advances(alloc: Global, cache: &mut Cache, counter: &Address) -> bool {
    let mut feed = Feed::new(alloc, 2);
    feed.add(counter, &Delta::AddCounter(4)).is_ok()
        && cache.at() <= feed.to()
        && cache.advance(&feed).is_ok()
}

/// Whether a cache at 1 takes 0 at a counter.
fn takes(cache: &mut Cache, counter: Result<Address, AllocError>) -> bool {
    match counter {
        Ok(counter) => cache.fill(counter, Value::Counter(0)).is_ok(),
        Err(_) => false,
    }
}

/// Whether what is not held stays out, also once it is released.
fn forgets(cache: &mut Cache, counter: &Address, other: &Address) -> bool {
    let is_absent = cache.get(other).is_none();
    cache.release(counter);
    is_absent && cache.get(counter).is_none()
}

/// Whether a cache of one counter is advanced, and forgets it.
fn follows(alloc: Global, counter: &Address, other: &Address) -> bool {
    let mut cache = Cache::new(alloc, 1);
    takes(&mut cache, address(alloc, Kind::Counter, b"k"))
        && has(&cache, counter, 0)
        && advances(alloc, &mut cache, counter)
        && cache.at() == 2
        && has(&cache, counter, 4)
        && forgets(&mut cache, counter, other)
}

#[test]
fn a_value_is_advanced_and_released(rt: HostRuntime) {
    let counter = address(rt.alloc(), Kind::Counter, b"k");
    let other = address(rt.alloc(), Kind::Bool, b"k");
    match (&counter, &other) {
        (Ok(counter), Ok(other)) => assert!(rt; follows(rt.alloc(), counter, other)),
        _ => assert!(rt; false),
    }
}
