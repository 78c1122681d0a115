//! A store that isn't there: that it fails is counted where its client asks for the journal's length, and each other call wants memory.

ghost use Rattle.std.specs.Prelude.{◌≡◌};

use abort_witness::BasedList;
use change_feed::Feed;
use diamond_server::STORE_FAULT;
use dio_core::{Count, MemLink};
use docc_prepare::{AppendError, Backend, PrepareError, ReadAtError, StoreError, Waiter};
use journal_core::Ready;
use rdt_types::{Address, Value};
use script_runner::NO_MEMORY;
use std::alloc::Global;
use txn_lang::Snap;
use version_shard::Prepared;
use wire_server::serve_wire;

/// The backend of its one client. It doesn't tell a journal.
#[derive(Drop)]
struct Absent {
    faults: Count,
}

impl Backend for Absent {
    ghost use Rattle.wire_server_tests.specs.Absence.{absent};

    ghost known = { λ a. absent a.faults };

    ghost home = { λ _. 0 };

    ghost goes = { λ a c answer b. Unit {0} };

    fn client(&self) -> u32 {
        0
    }

    fn shards(&self) -> u8 {
        4
    }

    fn seen(&self) -> u64 {
        0
    }

    fn store_faults(&self) -> u64 {
        self.faults.get()
    }

    #[tactic(auto, using(crate::proofs::FailedCalls::faulted))]
    fn refresh(&mut self) -> Result<u64, StoreError> {
        self.faults.add_one();
        Err(StoreError::Fault)
    }

    #[tactic(auto, using(crate::proofs::FailedCalls::wanting))]
    fn read(&mut self, _address: &Address) -> Result<Snap, StoreError> {
        Err(StoreError::NoMemory)
    }

    #[tactic(auto, using(crate::proofs::FailedCalls::wanting))]
    fn prepare(&mut self, _shard: u8, _based: &BasedList) -> Result<Prepared, PrepareError> {
        Err(PrepareError::NoMemory)
    }

    #[tactic(auto, using(crate::proofs::FailedCalls::wanting))]
    fn append(&mut self, _ready: &Ready) -> Result<u64, AppendError> {
        Err(AppendError::NoMemory)
    }

    #[tactic(auto, using(crate::proofs::FailedCalls::wanting))]
    fn read_at(&mut self, _address: &Address, _number: u64) -> Result<Value, ReadAtError> {
        Err(ReadAtError::NoMemory)
    }

    #[tactic(auto, using(crate::proofs::FailedCalls::wanting))]
    fn subscribe(&mut self, _address: &Address) -> Result<(), StoreError> {
        Err(StoreError::NoMemory)
    }

    #[tactic(auto, using(crate::proofs::FailedCalls::wanting))]
    fn unsubscribe(&mut self, _address: &Address) -> Result<(), StoreError> {
        Err(StoreError::NoMemory)
    }

    #[tactic(auto, using(crate::proofs::FailedCalls::wanting))]
    fn take(&mut self) -> Result<Feed, StoreError> {
        Err(StoreError::NoMemory)
    }
}

impl Waiter for Absent {
    #[tactic(auto, using(crate::proofs::FailedCalls::wanting))]
    fn wait(&mut self) -> Result<(), StoreError> {
        Err(StoreError::NoMemory)
    }
}

/// What a link gives, and the status of its serving.
static ROWS: [(&[u8], u8); 4] = [
    // A greeting, and a refresh: the store fails.
    (b"\x00\x00\x00\x01\x01\x00\x00\x00\x01\x02", STORE_FAULT),
    // A greeting, and a take, a read of a counter, and the commit of a body: there is no memory.
    (b"\x00\x00\x00\x01\x01\x00\x00\x00\x01\x09", NO_MEMORY),
    (
        b"\x00\x00\x00\x01\x01\x00\x00\x00\x07\x03\x01\x00\x00\x00\x01x",
        NO_MEMORY,
    ),
    (
        b"\x00\x00\x00\x01\x01\x00\x00\x00\x18\x05\x00\x00\x00\x00\x00\x00\x00\x01\x00\x00\x00\x07emit 7;\x00\x00\x00\x00",
        NO_MEMORY,
    ),
];

/// The rows, so that the proof of a test doesn't go through them.
fn rows() -> &'static [(&'static [u8], u8)] {
    &ROWS
}

/// The answer to the greeting: client 0 has seen nothing, and there are 4 shards.
const GREETED: &[u8] = b"\x00\x00\x00\x0e\x00\x00\x00\x00\x00\x00\x00\x00\x00\x00\x00\x00\x00\x04";

/// Whether the serving of a link that gives these bytes ends so, with the greeting answered.
fn ends_so(alloc: Global, bytes: &[u8], status: u8) -> bool {
    let Ok(mut link) = MemLink::new(alloc, bytes, 16, &[], &[]) else {
        return false;
    };
    let mut backend = Absent {
        faults: Count::new(),
    };
    serve_wire(alloc, &mut backend, &mut link) == status && link.sink.passed() == GREETED
}

#[test]
fn a_serving_ends_where_its_store_fails_or_wants_memory(rt: HostRuntime) {
    for (bytes, status) in rows() {
        assert!(rt; ends_so(rt.alloc(), bytes, *status));
    }
}
