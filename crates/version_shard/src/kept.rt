//! The versions of some addresses, found by marks.

ghost use Rattle.std.specs.Prelude.{◌≡◌, true, [], None, if◌then◌else◌, IfOk, OnOk, OnErr};
ghost use Rattle.std.specs.Map.{lookup};
ghost use Rattle.std.specs.Option.{option_copied};
ghost use Rattle.std.specs.BTreeMap.{is_at};
ghost use Rattle.rdt_types.specs.Addresses.{address_cmp};
ghost use Rattle.version_shard.specs.Shards.{versions_of};
ghost use Rattle.version_shard.specs.Versions as spec;
ghost use Rattle.version_shard.specs.code.Marks as marks;
ghost use Rattle.version_shard.specs.code.Marks.{IsPut, HasFollowed, first_own};

use crate::versions::Versions;
use change_feed::Change;
use plain_data::copied;
use rdt_types::{Address, default_value};
use std::alloc::{AllocError, Global};
use std::collections::BTreeMap;
use std::marker::Model;

/// An address and its versions.
#[derive(Drop)]
struct Own {
    address: Address,
    versions: Versions,
}

/// The versions of some addresses. The first address with a mark is found by it, since marks are quick to compare. What
/// has the mark of an earlier address stands among the others, by its order: so a look-up is two searches in trees at
/// most, whatever addresses were chosen.
#[derive(Drop)]
pub(crate) struct Kept {
    marked: BTreeMap<u64, Own>,
    others: BTreeMap<Address, Versions>,
}

impl Model for Kept {
    ghost use Rattle.std.specs.Coded.{coded_list, coded×};
    ghost use Rattle.rdt_types.specs.contracts.address.Address as address;
    ghost use Rattle.version_shard.specs.contracts.versions.Versions as versions;
    ghost use Rattle.version_shard.specs.Shards as spec;
    ghost use Rattle.version_shard.specs.code.Marks.{kept_by, IsMarked};

    ghost Value = { spec.Kept };

    ghost coded = { coded_list (coded× address.the_row.coded versions.the_row.coded) };

    ghost view = { λ k. kept_by k.others.entries k.marked.entries };

    ghost invariant = { λ k. IsMarked k.marked.entries };
}

impl Kept {
    /// No versions yet. It is never refused for want of memory.
    pub fn new(alloc: Global) -> Kept
        ensures { result ≡ [] }
    {
        Kept {
            marked: BTreeMap::new(alloc),
            others: BTreeMap::new(alloc),
        }
    }

    /// The versions of an address, if it has any.
    #[inline(always)]
    pub fn get(&self, address: &Address) -> Option<&Versions>
        ensures { option_copied result ≡ lookup (is_at (address_cmp address.now)) self.now }
    {
        if let Some(versions) = self.others.get(address) {
            return Some(versions);
        }
        let Some(own) = self.marked.get(&mark_of(address)) else {
            return None;
        };
        if address.cmp(&own.address).is_ne() {
            return None;
        }
        Some(&own.versions)
    }

    /// Follows a change, and lets go of the versions up to a horizon. For want of memory all is as before.
    pub fn follow(&mut self, alloc: Global, change: &Change, horizon: u64) -> Result<(), AllocError>
        requires { spec.AreUpTo change.now.number (versions_of self.old change.now.address).later }
        ensures ok { OnOk result (HasFollowed self.old self.new change.now horizon true) }
        ensures err { OnErr result (self.new ≡ self.old) }
    {
        if self.follow_known(alloc, change, horizon)? {
            return Ok(());
        }
        let own = first_of(alloc, change, horizon)?;
        self.enter(own)
    }

    /// Lets go of the versions of an address past a number. It is never refused for want of memory.
    pub fn cut(&mut self, address: &Address, number: u64)
        ensures { (a : Address) → versions_of self.new a
            ≡ (if is_at (address_cmp address.now) a then spec.up_to number (versions_of self.old a) else versions_of self.old a) }
    {
        if let Some(versions) = self.others.get_mut(address) {
            versions.cut(number);
            return;
        }
        let Some(own) = self.marked.get_mut(&mark_of(address)) else {
            return;
        };
        if address.cmp(&own.address).is_ne() {
            return;
        }
        own.versions.cut(number);
    }

    /// Follows a change at an address that has versions, and answers whether it has. For want of memory all is as before.
    fn follow_known(
        &mut self,
        alloc: Global,
        change: &Change,
        horizon: u64,
    ) -> Result<bool, AllocError>
        requires { spec.AreUpTo change.now.number (versions_of self.old change.now.address).later }
        ensures ok { IfOk result (HasFollowed self.old self.new change.now horizon) }
        ensures err { OnErr result (self.new ≡ self.old) }
    {
        if let Some(versions) = self.others.get_mut(&change.address) {
            versions.change(alloc, change.number, &change.delta, horizon)?;
            return Ok(true);
        }
        let Some(own) = self.marked.get_mut(&mark_of(&change.address)) else {
            return Ok(false);
        };
        if change.address.cmp(&own.address).is_ne() {
            return Ok(false);
        }
        own.versions
            .change(alloc, change.number, &change.delta, horizon)?;
        Ok(true)
    }

    /// Enters the versions of an address that has none. For want of memory all is as before.
    fn enter(&mut self, own: Own) -> Result<(), AllocError>
        requires { lookup (is_at (address_cmp own.address)) self.old ≡ None }
        ensures ok { OnOk result (IsPut self.old self.new own.address own.versions) }
        ensures err { OnErr result (self.new ≡ self.old) }
    {
        let mark = mark_of(&own.address);
        if self.marked.contains_key(&mark) {
            let Own { address, versions } = own;
            self.others.insert(address, versions)?;
            return Ok(());
        }
        self.marked.insert(mark, own)?;
        Ok(())
    }
}

/// An address with the version that its first change makes.
fn first_of(alloc: Global, change: &Change, horizon: u64) -> Result<Own, AllocError>
    ensures { IfOk result (λ own. own ≡ first_own change.now horizon) }
{
    let base = default_value(alloc, change.address.kind);
    let mut versions = Versions::new(alloc, base);
    versions.change(alloc, change.number, &change.delta, horizon)?;
    Ok(Own {
        address: copied(&change.address)?,
        versions,
    })
}

/// One byte more, in 64 bits.
fn with_byte(mark: u64, byte: u8) -> u64
    ensures { result ≡ marks.with_byte mark byte }
{
    mark.wrapping_mul(31).wrapping_add(u64::from(byte))
}

/// A number made of the bytes of an address' key: few addresses have the same.
fn mark_of(address: &Address) -> u64
    ensures { result ≡ marks.mark_of address.now }
{
    address
        .key
        .as_slice()
        .iter()
        .fold(0, |mark, byte| with_byte(mark, *byte))
}
