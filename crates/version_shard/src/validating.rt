//! What clashes with the observations of a transaction.

ghost use Rattle.std.specs.Prelude.{◌≡◌, ◌+◌, ◌≤◌, option_map, IfOk};
ghost use Rattle.std.specs.Option.{option_copied};
ghost use Rattle.abort_witness.specs.Naming.{Names};
ghost use Rattle.version_shard.specs.Bases as spec;
ghost use Rattle.version_shard.specs.Shards.{AreKept};
ghost use Rattle.version_shard.specs.Versions.{as_change};
ghost use Rattle.version_shard.specs.code.Clashing as clashing;
ghost use Rattle.version_shard.specs.code.Clashing.{IsClash};

use crate::kept::Kept;
use crate::version::Version;
use abort_witness::{Based, Witness, name_delta};
use conflict_table::Steps;
use std::alloc::AllocError;
use std::sync::ledger::Ledger;

/// The least base, where it is below a horizon.
pub(crate) fn late_base(horizon: u64, based: &[Based]) -> Option<u64>
    ensures { result ≡ spec.late_base horizon (spec.least_base based.now) }
{
    let mut least = None;
    for based in based {
        least = match least {
            Some(base) if base <= based.base => least,
            _ => Some(based.base),
        };
    }
    match least {
        Some(base) if base < horizon => least,
        _ => None,
    }
}

/// The first version past the base of an observation, at its address, that clashes with it. None is past a base that is the
/// front, so that nothing is looked up then.
fn clash_at<'a, L: Ledger>(
    kept: &'a Kept,
    front: u64,
    based: &Based,
    steps: &mut Steps<L>,
) -> Option<&'a Version>
    requires { AreKept front kept.now }
    ensures first { option_copied result ≡ clashing.clashing_in kept.now based.now }
    ensures steps { steps.new ≤ steps.old + clashing.steps_at kept.now based.now }
{
    if front <= based.base {
        return None;
    }
    match kept.get(&based.address) {
        Some(versions) => versions.first_clash(based, steps),
        None => None,
    }
}

/// An observation and a version that clashes with it.
#[derive(Clone, Copy)]
pub(crate) struct Hit<'a> {
    pub based: &'a Based,
    pub version: &'a Version,
}

/// The witness of a hit.
pub(crate) fn witness_of(based: &Based, version: &Version) -> Result<Witness, AllocError>
    requires { IsClash (based.now, version.now) }
    ensures { IfOk result (Names based.now (as_change based.now.address version.now)) }
{
    name_delta(based, &version.delta, version.number)
}

/// The hit with the least number, and of these the first.
pub(crate) fn least_hit<'a, L: Ledger>(
    kept: &'a Kept,
    front: u64,
    based: &'a [Based],
    steps: &mut Steps<L>,
) -> Option<Hit<'a>>
    requires { AreKept front kept.now }
    ensures least { option_map (λ hit. (hit.based.now, hit.version.now)) result ≡ clashing.least_hit kept.now based.now }
    ensures steps { steps.new ≤ steps.old + clashing.most_steps kept.now based.now }
{
    let mut least: Option<Hit<'a>> = None;
    for based in based {
        let Some(version) = clash_at(kept, front, based, steps) else {
            continue;
        };
        least = match least {
            Some(hit) if hit.version.number <= version.number => least,
            _ => Some(Hit { based, version }),
        };
    }
    least
}
