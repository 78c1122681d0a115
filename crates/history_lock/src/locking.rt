//! Taking a lock that is held for a short time.

use std::sync::{Mutex, MutexGuard, Wait};
use std::thread::yield_now;

/// How often a lock is tried, and other threads run in between, before the thread sleeps until it is free.
const TRIES: u32 = 100;

/// Takes a lock that others mostly hold for less time than it takes to sleep and be woken. It is tried some times before the
/// thread sleeps.
pub fn acquire<'a, T, R: Wait>(rt: &R, lock: &'a Mutex<T>) -> MutexGuard<'a, T> {
    for _ in 0..TRIES {
        if let Some(guard) = lock.try_lock() {
            return guard;
        }
        yield_now();
    }
    lock.lock(rt)
}
