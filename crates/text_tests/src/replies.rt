//! Replies that are put together by hand, as they are printed.

use abort_witness::Witness;
use conflict_table::Obs;
use plain_data::Text;
use rdt_types::{Address, Kind, Outcome, WriteOp};
use session_text::{Reply, Why, print_reply};
use std::alloc::{AllocError, Global};

fn witness(alloc: Global) -> Result<Witness, AllocError> {
    let key = Text::from_slice(alloc, b"h")?;
    let address = Address {
        kind: Kind::Hash,
        key,
    };
    Ok(Witness {
        address,
        obs: Obs::HashAll,
        base: 3,
        part: WriteOp::HashClear,
        number: 4,
    })
}

fn aborted(alloc: Global) -> Result<Reply, AllocError> {
    Ok(Reply::Abort(witness(alloc)?))
}

/// An abort for an `over` that was true, which no store tells: its text has no place for the answer.
fn over_true(alloc: Global) -> Result<Reply, AllocError> {
    let key = Text::from_slice(alloc, b"p")?;
    let address = Address {
        kind: Kind::Peak,
        key,
    };
    Ok(Reply::Abort(Witness {
        address,
        obs: Obs::PeakOver(60, true),
        base: 3,
        part: WriteOp::Raise(61),
        number: 4,
    }))
}

fn ran(alloc: Global) -> Result<Reply, AllocError> {
    Ok(Reply::Ran(Text::from_slice(alloc, b"w")?, 5, Outcome::Spent))
}

/// Whether a reply is printed so.
fn prints(alloc: Global, reply: &Result<Reply, AllocError>, wanted: &[u8]) -> bool {
    match reply {
        Ok(reply) => { print_reply(alloc, reply).is_ok_and(|printed| printed.as_slice() == wanted) }
        Err(_) => false,
    }
}

#[test]
fn values_are_printed(rt: HostRuntime) {
    let alloc = rt.alloc();
    let abort = br#"abort hash("h") all base 3 clash clear commit 4"#.as_slice();
    assert!(rt; prints(alloc, &aborted(alloc), abort));
    let over = br#"abort peak("p") over 60 base 3 clash raise 61 commit 4"#.as_slice();
    assert!(rt; prints(alloc, &over_true(alloc), over));
    assert!(rt; prints(alloc, &ran(alloc), b"run w 5 spent"));
    assert!(rt; prints(alloc, &Ok(Reply::Refused(Why::NoAttempt)), b"refused none"));
}
