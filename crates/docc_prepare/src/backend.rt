//! What answers a client's calls: a world of one thread, a pass on a store that threads share, or a link to a server.

ghost use Rattle.std.specs.Prelude.{◌≡◌, ℕ, ◌≤◌};
ghost use Rattle.rdt_types.specs.declared.limits.TheConstants.{LEAST_SHARDS, MOST_SHARDS};
ghost use Rattle.txn_lang.specs.Short.{IsShortAddress};
ghost use Rattle.docc_prepare.specs.Calls.{Known, Call, Answer, number_answered, snap_answered, front_answered, commit_answered, value_answered, done_answered, feed_answered};
ghost use Rattle.docc_prepare.specs.Backends.{Goes, CanPrepare, CanAppend};
ghost use Rattle.docc_prepare.specs.Readable.{StaysReadable};

use abort_witness::{BasedList, Witness};
use change_feed::Feed;
use journal_core::{Barred, Ready};
use rdt_types::{Address, Value};
use txn_lang::Snap;
use version_shard::Prepared;

/// Why a call was not answered.
#[derive(Clone, Copy, Debug, PartialEq, Eq)]
pub enum StoreError {
    /// The store failed, and counted it.
    Fault,
    NoMemory,
}

/// Why a shard was not prepared. They are tested in the order late, clash.
#[derive(Debug, Drop)]
pub enum PrepareError {
    /// The least base, which is below the shard's horizon, and the horizon.
    Late(u64, u64),
    /// A commit up to the shard's front clashes with an observation.
    Clash(Witness),
    /// The store failed, and counted it.
    Fault,
    NoMemory,
}

/// Why nothing was committed. They are tested in the order clash, held, full, disk.
#[derive(Debug, Drop)]
pub enum AppendError {
    /// A commit clashes with an observation.
    Clash(Witness),
    /// A live hold of another client bars the commit.
    Held(Barred),
    /// The journal has as many commits as its limit, which is named.
    Full(u32),
    /// The disk denied the commit.
    Disk,
    /// The store failed, and counted it. The commit may stand in the journal nevertheless.
    Fault,
    NoMemory,
}

/// Why no value was given at a number.
#[derive(Clone, Copy, Debug, PartialEq, Eq)]
pub enum ReadAtError {
    /// The number, which is below the shard's horizon, and the horizon.
    Late(u64, u64),
    /// The store failed, and counted it.
    Fault,
    NoMemory,
}

/// What answers the calls of one client. Each call has one clause, of every answer alike: it goes by the relation that the
/// backend names, and within what all backends promise (`specs/Backends.antt`).
pub trait Backend {
    /// What it stands for.
    ghost known: { Self → Known };

    /// Where it stands: no call moves it.
    ghost home: { Self → ℕ };

    /// The relation by which its calls go.
    ghost goes: { Self → Call → Answer → Self → Type 0 };

    /// The client whose calls it answers.
    fn client(&self) -> u32
        ensures { result ≡ (known self.now).client };

    /// How many shards hold the data.
    fn shards(&self) -> u8
        ensures shards { result ≡ (known self.now).shards }
        ensures in_range { (LEAST_SHARDS ≤ result) × (result ≤ MOST_SHARDS) };

    /// How many commits the client has seen. They stand in the journal, where that is told, and it can be read, however it grows.
    fn seen(&self) -> u64
        ensures seen { result ≡ (known self.now).seen }
        ensures readable { StaysReadable (known self.now) };

    /// How often the store failed.
    fn store_faults(&self) -> u64
        ensures { result ≡ (known self.now).faults };

    /// Learns the journal's length.
    fn refresh(&mut self) -> Result<u64, StoreError>
        ensures goes { Goes known goes self.old Call.refresh (number_answered result) self.new }
        ensures home { home self.new ≡ home self.old };

    /// Reads the value at an address, at a front of its shard that isn't below what was seen.
    fn read(&mut self, address: &Address) -> Result<Snap, StoreError>
        requires { IsShortAddress address.now }
        ensures goes { Goes known goes self.old (Call.read address.now) (snap_answered result) self.new }
        ensures home { home self.new ≡ home self.old };

    /// Validates what was observed in a shard up to the shard's front.
    fn prepare(&mut self, shard: u8, based: &BasedList) -> Result<Prepared, PrepareError>
        requires { CanPrepare (known self.old) shard based.now }
        ensures goes { Goes known goes self.old (Call.prepare shard based.now) (front_answered result) self.new }
        ensures home { home self.new ≡ home self.old };

    /// Validates the rest, and commits.
    fn append(&mut self, ready: &Ready) -> Result<u64, AppendError>
        requires { CanAppend (known self.old) ready.now }
        ensures goes { Goes known goes self.old (Call.append ready.now) (commit_answered result) self.new }
        ensures home { home self.new ≡ home self.old };

    /// Reads the value at an address as it was after so many commits.
    fn read_at(&mut self, address: &Address, number: u64) -> Result<Value, ReadAtError>
        requires short { IsShortAddress address.now }
        requires seen { number ≤ (known self.old).seen }
        ensures goes { Goes known goes self.old (Call.read_at address.now number) (value_answered result) self.new }
        ensures home { home self.new ≡ home self.old };

    /// Has the changes at an address told from now on, and those since the last take.
    fn subscribe(&mut self, address: &Address) -> Result<(), StoreError>
        requires { IsShortAddress address.now }
        ensures goes { Goes known goes self.old (Call.subscribe address.now) (done_answered result) self.new }
        ensures home { home self.new ≡ home self.old };

    /// Has the changes at an address told no longer.
    fn unsubscribe(&mut self, address: &Address) -> Result<(), StoreError>
        requires { IsShortAddress address.now }
        ensures goes { Goes known goes self.old (Call.unsubscribe address.now) (done_answered result) self.new }
        ensures home { home self.new ≡ home self.old };

    /// Takes what changed at the subscribed addresses since the last take.
    fn take(&mut self) -> Result<Feed, StoreError>
        ensures goes { Goes known goes self.old Call.take (feed_answered result) self.new }
        ensures home { home self.new ≡ home self.old };
}
