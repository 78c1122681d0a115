//! A chain of versions: the deltas of all, and the values of some.

ghost use Rattle.std.specs.Prelude.{◌≡◌, ◌+◌, ◌-◌, ◌<◌, ◌≤◌, ◌++◌, true, length, take, drop, OnOk, OnErr, IfOk};
ghost use Rattle.std.specs.Option.{option_copied};
ghost use Rattle.rdt_types.specs.Deltas as deltas;
ghost use Rattle.version_shard.specs.Versions as spec;
ghost use Rattle.version_shard.specs.Versions.{value_after, changed, trimmed};
ghost use Rattle.version_shard.specs.code.Chains.{Parts, whole_at};
ghost use Rattle.version_shard.specs.code.Clashing.{clashing_past};

use crate::version::Version;
use abort_witness::Based;
use conflict_table::{Steps, clash};
use plain_data::copied;
use rdt_types::{Delta, Value, apply};
use std::alloc::{AllocError, Global};
use std::collections::VecDeque;
use std::marker::Model;
use std::sync::ledger::Ledger;

/// The value after every so many versions is kept whole.
const SPACING: usize = 32;

/// The versions that commits made of a value, by their numbers, and the value before the oldest of them, the base. A version
/// is a delta, and the value after every 32nd is kept whole beside it, so that to read one at most 31 deltas are applied.
#[derive(Drop)]
pub(crate) struct Chain {
    base: Value,
    /// How many versions stood between the last whole value and the base: they count towards the next whole value.
    behind: u8,
    later: VecDeque<Version>,
    wholes: VecDeque<Value>,
}

impl Model for Chain {
    ghost use Rattle.rdt_types.specs.contracts.value.Value as value;
    ghost use Rattle.version_shard.specs.contracts.version.Version as version;
    ghost use Rattle.version_shard.specs.Versions.{Versioned, versioned_code};
    ghost use Rattle.version_shard.specs.code.Chains.{IsChain};

    ghost Value = { Versioned };

    ghost coded = { versioned_code value.the_row.coded version.the_row.coded };

    ghost view = { λ c. record { base = c.base; later = c.later.items } };

    ghost invariant = { λ c. IsChain c.behind c.base c.later.items c.wholes.items };
}

impl Chain {
    /// No version yet of a value. It is never refused for want of memory.
    pub fn new(alloc: Global, base: Value) -> Chain
        ensures { result ≡ spec.unversioned base }
    {
        Chain {
            base,
            behind: 0,
            later: VecDeque::new(alloc),
            wholes: VecDeque::new(alloc),
        }
    }

    /// Whether the newest version is one up to a number, or there is none.
    pub fn is_up_to(&self, number: u64) -> bool
        ensures { result ≡ true → spec.up_to number self.now ≡ self.now }
    {
        match self.later.back() {
            Some(newest) => newest.number <= number,
            None => true,
        }
    }

    /// The value at a number.
    pub fn at(&self, alloc: Global, number: u64) -> Result<Value, AllocError>
        ensures { IfOk result (λ value. value ≡ spec.value_at self.now number) }
    {
        self.after(alloc, self.count_to(number))
    }

    /// The value after the newest version.
    pub fn latest(&self, alloc: Global) -> Result<Value, AllocError>
        ensures { IfOk result (λ value. value ≡ spec.latest self.now) }
    {
        self.after(alloc, self.later.len())
    }

    /// How many versions are up to a number, found by halving.
    fn count_to(&self, number: u64) -> usize
        ensures { Parts number result self.now.later }
    {
        self.later
            .partition_point(|version| version.number <= number)
    }

    /// The value after the first versions, so many: the last whole one up to there, and the deltas past it applied. It is
    /// copied where there are none.
    fn after(&self, alloc: Global, count: usize) -> Result<Value, AllocError>
        requires { count ≤ length self.now.later }
        ensures { IfOk result (λ value. value ≡ spec.value_by count self.now) }
    {
        let (from, whole) = self.whole_by(count);
        if from == count {
            return copied(whole);
        }
        let first = apply(alloc, &self.later[from].delta, whole)?;
        self.applied(alloc, first, from + 1, count)
    }

    /// What the versions from one place up to another make of a value.
    fn applied(
        &self,
        alloc: Global,
        value: Value,
        from: usize,
        to: usize,
    ) -> Result<Value, AllocError>
        requires order { from ≤ to }
        requires within { to ≤ length self.now.later }
        ensures { IfOk result (λ v. v ≡ value_after value (take (to - from) (drop from self.now.later))) }
    {
        let mut value = value;
        for version in self.later.range(from..to) {
            value = apply(alloc, &version.delta, &value)?;
        }
        Ok(value)
    }

    /// The last whole value up to behind the first versions, so many, and how many of them are before it: at most 31 of
    /// them stand behind it.
    fn whole_by(&self, count: usize) -> (usize, &Value)
        requires { count ≤ length self.now.later }
        ensures before { result.0 ≤ count }
        ensures near { count < result.0 + 32 }
        ensures value { result.1.now ≡ spec.value_by result.0 self.now }
    {
        let passed = usize::from(self.behind) + count;
        if passed < SPACING {
            return (0, &self.base);
        }
        (count - passed % SPACING, &self.wholes[passed / SPACING - 1])
    }

    /// Adds what the commit of a number changed, after which the value is this one, and lets go of the versions up to a
    /// horizon. For want of memory all is as before.
    pub fn change(
        &mut self,
        number: u64,
        delta: &Delta,
        newest: &Value,
        horizon: u64,
    ) -> Result<(), AllocError>
        requires order { spec.AreUpTo number self.old.later }
        requires newest { newest.now ≡ deltas.apply delta.now (spec.latest self.old) }
        ensures ok { OnOk result (self.new ≡ trimmed horizon (changed number delta.now self.old)) }
        ensures err { OnErr result (self.new ≡ self.old) }
    {
        let count = self.later.len();
        self.push(number, delta, newest)?;
        if self.join(horizon).is_err() {
            self.keep(count);
            return Err(AllocError);
        }
        Ok(())
    }

    /// Adds a version, after which the value is this one. For want of memory all is as before.
    fn push(&mut self, number: u64, delta: &Delta, newest: &Value) -> Result<(), AllocError>
        requires order { spec.AreUpTo number self.old.later }
        requires newest { newest.now ≡ deltas.apply delta.now (spec.latest self.old) }
        ensures ok { OnOk result (self.new ≡ changed number delta.now self.old) }
        ensures err { OnErr result (self.new ≡ self.old) }
    {
        let delta = copied(delta)?;
        self.later.reserve(1)?;
        let count = usize::from(self.behind) + self.later.len() + 1;
        add_whole(&mut self.wholes, count, newest)?;
        self.later.push_back_reserved(Version { number, delta });
        Ok(())
    }

    /// Lets go of the versions up to a horizon, which are joined into the base. For want of memory all is as before.
    fn join(&mut self, horizon: u64) -> Result<(), AllocError>
        ensures ok { OnOk result (self.new ≡ trimmed horizon self.old) }
        ensures err { OnErr result (self.new ≡ self.old) }
    {
        let count = self.count_to(horizon);
        if count == 0 {
            return Ok(());
        }
        let alloc = *self.later.allocator();
        let base = self.after(alloc, count)?;
        self.begin_behind(count, base);
        Ok(())
    }

    /// Lets go of the first versions, so many, after which the value is this one.
    fn begin_behind(&mut self, count: usize, base: Value)
        requires within { count ≤ length self.old.later }
        requires value { base ≡ spec.value_by count self.old }
        ensures { self.new ≡ record { base = base; later = drop count self.old.later } }
    {
        let passed = usize::from(self.behind) + count;
        let_go(&mut self.later, count);
        let_go(&mut self.wholes, passed / SPACING);
        self.behind = (passed % SPACING) as u8;
        put(&mut self.base, base);
    }

    /// Lets go of all but the first versions, so many. It is never refused for want of memory.
    fn keep(&mut self, count: usize)
        requires { count ≤ length self.old.later }
        ensures { self.new ≡ record self.old { later = take count self.old.later } }
    {
        self.later.truncate(count);
        self.wholes
            .truncate((usize::from(self.behind) + count) / SPACING);
    }

    /// Lets go of the versions past a number. It is never refused for want of memory.
    pub fn cut(&mut self, number: u64)
        ensures { self.new ≡ spec.up_to number self.old }
    {
        self.keep(self.count_to(number));
    }

    /// The first version past the base of an observation that clashes with it. It makes a step at most for each version
    /// past the base, and is never refused for want of memory.
    pub fn first_clash<L: Ledger>(&self, based: &Based, steps: &mut Steps<L>) -> Option<&Version>
        ensures first { option_copied result ≡ clashing_past based.now self.now.later }
        ensures steps { steps.new ≤ steps.old + length (spec.past based.now.base self.now.later) }
    {
        let from = self.count_to(based.base);
        for version in self.later.range(from..) {
            if clash(&based.obs, &version.delta, steps) {
                return Some(version);
            }
        }
        None
    }
}

/// Adds the value after so many versions, where it is one that is kept whole. For want of memory all is as before.
fn add_whole(wholes: &mut VecDeque<Value>, count: usize, value: &Value) -> Result<(), AllocError>
    ensures ok { OnOk result (wholes.new.items ≡ wholes.old.items ++ whole_at count value.now) }
    ensures err { OnErr result (wholes.new.items ≡ wholes.old.items) }
{
    if count % SPACING != 0 {
        return Ok(());
    }
    let whole = copied(value)?;
    wholes.push_back(whole)?;
    Ok(())
}

/// Lets go of the first of some items, so many.
fn let_go<T: Drop>(items: &mut VecDeque<T>, count: usize)
    ensures { items.new.items ≡ drop count items.old.items }
{
    for _turn in 0..count {
        items.pop_front();
    }
}

/// Puts a value in the place of another.
fn put<T: Drop>(place: &mut T, value: T)
    ensures { place.new ≡ value }
{
    *place = value;
}
