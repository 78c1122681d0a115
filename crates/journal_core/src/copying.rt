//! Copies of changes.

ghost use Rattle.std.specs.Prelude.{◌≡◌, ◌++◌, OnOk, IfOk};
ghost use Rattle.rdt_types.specs.DeltaMaps.{Deltas};
ghost use Rattle.change_feed.specs.Lists.{listed};
ghost use Rattle.journal_core.specs.Changes as spec;

use change_feed::{Change, ChangeList, Changes};
use plain_data::{Sequence, copied};
use rdt_types::{Address, Delta};
use std::alloc::{AllocError, Global};
use txn_lang::Commit;

/// Adds copies of those of some changes that are at an address.
fn add_of_address(
    list: &mut ChangeList,
    changes: &[Change],
    address: &Address,
) -> Result<(), AllocError>
    ensures { OnOk result (list.new ≡ list.old ++ spec.of_address address.now changes.now) }
{
    for change in changes {
        if address.cmp(&change.address).is_eq() {
            list.push(copied(change)?)?;
        }
    }
    Ok(())
}

/// Copies of the changes at an address, in order. It goes through all of them.
pub fn copies_of_address(
    alloc: Global,
    mut changes: Changes<'_>,
    address: &Address,
) -> Result<ChangeList, AllocError>
    ensures { IfOk result (λ list. list ≡ spec.of_address address.now (listed changes.entry)) }
{
    let mut list = ChangeList::new(alloc);
    while let Some(piece) = changes.next_piece() {
        add_of_address(&mut list, piece, address)?;
    }
    Ok(list)
}

/// The changes that a commit of a number makes by its deltas.
pub(crate) fn changes_by(
    alloc: Global,
    number: u64,
    deltas: &[(Address, Delta)],
) -> Result<Sequence<Change>, AllocError>
    ensures { IfOk result (λ list. list ≡ spec.changes_by number deltas.now) }
{
    let mut changes = Vec::with_capacity(alloc, deltas.len())?;
    for (address, delta) in deltas {
        changes.push(Change {
            number,
            address: copied(address)?,
            delta: copied(delta)?,
        })?;
    }
    Ok(Sequence::from_vec(changes))
}

/// Copies of the changes of commits.
pub(crate) fn all_changes(alloc: Global, commits: &[Commit]) -> Result<Vec<Change>, AllocError>
    ensures { IfOk result (λ all. all.items ≡ spec.changes commits.now) }
{
    let mut all = Vec::new(alloc);
    for commit in commits {
        let mut more = changes_by(alloc, commit.number, commit.deltas.as_slice())?.into_vec();
        all.append(&mut more)?;
    }
    Ok(all)
}
