//! The state that commits leave, as a list.

ghost use Rattle.std.specs.Prelude.{◌≡◌, ◌≤◌, length, take, IfOk};
ghost use Rattle.audit_core.specs.Dumps.{dump_of};

use crate::state::State;
use plain_data::Sequence;
use rdt_types::{Address, Value};
use std::alloc::{AllocError, Global};
use txn_lang::{Commit, CommitList};

/// Addresses and their values, by rising address.
pub type AddressValues = Sequence<(Address, Value)>;

/// The state that commits leave.
fn dump_all(alloc: Global, commits: &[Commit]) -> Result<AddressValues, AllocError>
    ensures { IfOk result (λ pairs. pairs ≡ dump_of commits.now) }
{
    let mut state = State::new(alloc);
    for commit in commits {
        state.change_all(&commit.deltas)?;
    }
    Ok(AddressValues::from_vec(state.into_pairs()?))
}

/// The state after the first n commits: by rising address, each address that one of them wrote, and the value there. The bodies
/// aren't run.
pub fn dump(alloc: Global, commits: &CommitList, n: u64) -> Result<AddressValues, AllocError>
    requires { n ≤ length commits.now }
    ensures { IfOk result (λ pairs. pairs ≡ dump_of (take n commits.now)) }
{
    dump_all(alloc, &commits.as_slice()[..n as usize])
}
