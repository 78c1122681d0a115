//! An attempt stepped through by hand, and what it hands to the journal. Shard numbers were worked out apart from the code, by
//! the rule of the printed address.

ghost use Rattle.std.specs.Prelude.{◌≡◌};
ghost use Rattle.docc_prepare.specs.Attempts.{Prepares, next_event};

mod appending;
mod relayed;
mod segments;

use crate::bodies::checked;
use abort_witness::Based;
use conflict_table::Obs;
use docc_prepare::{Attempt, Next};
use journal_core::Ready;
use rdt_types::{Address, Value};
use std::alloc::{AllocError, Global};
use txn_lang::{Run, Snap};
use version_shard::Prepared;

/// The counter at an address is read as 0, at 3.
fn take_read(attempt: &mut Attempt, address: Address) -> bool
    requires { next_event attempt.old ≡ Next.Read address }
{
    let value = Value::Counter(0);
    attempt.take_snap(address, Snap { base: 3, value }).is_ok()
}

/// Whether a counter was observed at 3.
fn is_read(based: Option<&Based>, key: &[u8]) -> bool {
    match based {
        Some(found) => {
            found.obs == Obs::CounterIs && found.address.key.as_slice() == key && found.base == 3
        }
        None => false,
    }
}

/// Whether what is handed on is a body's of client 7, its first, that observed y and then x at 3, and has two fronts.
fn is_in_order(ready: &Result<Ready, AllocError>, source: &[u8]) -> bool {
    match ready {
        Ok(ready) => {
            let based = ready.based.as_slice();
            ready.client == 7
                && ready.seq == 1
                && ready.body.as_slice() == source
                && based.len() == 2
                && is_read(based.first(), b"y")
                && is_read(based.last(), b"x")
                && ready.fronts.as_slice().len() == 2
        }
        Err(_) => false,
    }
}

/// Whether a run made one observation in shard 1.
fn has_one_inside(alloc: Global, attempt: &Attempt, run: &Run) -> bool {
    match attempt.based(alloc, run, 1) {
        Ok(inside) => inside.len() == 1,
        Err(_) => false,
    }
}

/// A shard is prepared at 3.
fn take_front(attempt: &mut Attempt, shard: u8) -> bool
    requires { Prepares attempt.old shard }
{
    attempt.take_prepared(Prepared { shard, front: 3 }).is_ok()
}

/// Whether the body of an attempt that reads all counters as 0 at 3, and whose shards are prepared there, hands that on.
fn hands_on(alloc: Global, mut attempt: Attempt, source: &[u8]) -> bool {
    for _ in 0..40 {
        let is_taken = match attempt.next(alloc) {
            Ok(Next::Read(address)) => take_read(&mut attempt, address),
            Ok(Next::Prepare(shard, _run)) => take_front(&mut attempt, shard),
            Ok(Next::Append(run)) => {
                let is_one = has_one_inside(alloc, &attempt, &run);
                let ready = attempt.ready(alloc, run, 7, 1);
                return is_one && is_in_order(&ready, source);
            }
            Err(_) => false,
        };
        if !is_taken {
            return false;
        }
    }
    false
}

#[test]
fn observations_are_handed_on_in_order(rt: HostRuntime) {
    let source = br#"emit counter("y").get(); emit counter("x").get();"#;
    match checked(rt.alloc(), source, false) {
        Ok(body) => {
            let attempt = Attempt::begin(rt.alloc(), body, 4);
            assert!(rt; hands_on(rt.alloc(), attempt, source));
        }
        Err(_) => assert!(rt; false),
    }
}
