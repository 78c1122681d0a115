//! The least clash past what was prepared.

ghost use Rattle.std.specs.Prelude.{◌≡◌, ◌+◌, ◌≤◌, max};
ghost use Rattle.abort_witness.specs.Pairs as pairs;
ghost use Rattle.abort_witness.specs.Pairs.{first_clash};
ghost use Rattle.journal_core.specs.Pairs as spec;
ghost use Rattle.journal_core.specs.code.Logs.{all_past, changes_in, met_past, most_past, past_in};

use crate::log::Log;
use crate::ready::PreparedFront;
use crate::walk::past;
use abort_witness::{Based, Found, first_clash_in, lesser};
use conflict_table::Steps;
use rdt_types::shard_of;
use std::sync::ledger::Ledger;

/// The front at which a shard was prepared, or 0.
fn front_at(fronts: &[PreparedFront], shard: u8) -> u64
    ensures { result ≡ spec.front_at fronts.now shard }
{
    for prepared in fronts {
        if prepared.shard == shard {
            return prepared.front;
        }
    }
    0
}

/// From which number on commits count for an observation in a shard: past its base, and past the front of its shard.
fn counts_from(based: &Based, shard: u8, fronts: &[PreparedFront]) -> u64
    ensures { result ≡ max based.now.base (spec.front_at fronts.now shard) }
{
    let front = front_at(fronts, shard);
    based.base.max(front)
}

/// The number of the first change past what was prepared that clashes with an observation. It looks only into its shard, and
/// nowhere where no commit is past the base.
fn clash_past<L: Ledger>(
    based: &Based,
    log: &Log,
    fronts: &[PreparedFront],
    steps: &mut Steps<L>,
) -> Option<u64>
    ensures first { result ≡ first_clash (past_in log.now fronts.now based.now) (changes_in log.now) }
    ensures steps { steps.new ≤ steps.old + met_past log.now fronts.now based.now }
{
    if log.commits().len() as u64 <= based.base {
        return None;
    }
    let shard = shard_of(&based.address, log.shards());
    let from = counts_from(based, shard, fronts);
    first_clash_in(based, past(log.in_shard(shard), from), steps)
}

/// The least pair past what was prepared.
pub(crate) fn least_past<L: Ledger>(
    based: &[Based],
    log: &Log,
    fronts: &[PreparedFront],
    steps: &mut Steps<L>,
) -> Option<Found>
    requires places { pairs.HavePlaces based.now }
    ensures least { result ≡ pairs.least (all_past log.now fronts.now based.now) (changes_in log.now) }
    ensures steps { steps.new ≤ steps.old + most_past log.now fronts.now based.now }
{
    let mut found = None;
    for (place, based) in based.iter().enumerate() {
        let number = clash_past(based, log, fronts, steps);
        found = lesser(found, place as u32, number);
    }
    found
}
