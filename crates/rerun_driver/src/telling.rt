//! The watches at the addresses of a feed are told of it.

ghost use Rattle.std.specs.Prelude.{◌≡◌};
ghost use Rattle.rerun_driver.specs.code.Rolls.{told_set, told_along};

use crate::places::Places;
use crate::roll::Roll;
use rdt_types::DeltaMap;

/// Tells the watches of some numbers of changes.
fn tell_set(roll: &mut Roll, numbers: &[u64], changes: &DeltaMap)
    ensures { roll.new ≡ told_set changes.now numbers.now roll.old }
{
    for number in numbers {
        roll.tell(*number, changes);
    }
}

/// Tells the watches that stand at the addresses of changes of these. It is never refused for want of memory.
pub(crate) fn tell_placed(roll: &mut Roll, places: &Places, changes: &DeltaMap)
    ensures { roll.new ≡ told_along places.now changes.now changes.now roll.old }
{
    for (address, _) in changes.as_slice() {
        tell_set(roll, places.at(address), changes);
    }
}
