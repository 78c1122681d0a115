//! Watches come to stand at the addresses that their runs observed, and leave them.

ghost use Rattle.std.specs.Bool.{OnTrue};
ghost use Rattle.std.specs.Prelude.{◌≡◌, true, false, IfOk, OnErr};
ghost use Rattle.rerun_driver.specs.Watches.{is_observed_by};
ghost use Rattle.rerun_driver.specs.code.Places.{IsStill, IsPutOnly, IsWithin, KeepsOthers, StandsAtAll, IsGoneWhere};
ghost use Rattle.rerun_driver.specs.code.Rolls.{IsInOrder, IsExact, IsPlaced, Covers, CoversBut};

use crate::places::Places;
use crate::roll::Roll;
use std::alloc::AllocError;
use txn_lang::Seen;

/// Takes the memory for one number more at each observed address.
fn reserve_all(places: &mut Places, observations: &[Seen]) -> Result<(), AllocError>
    ensures { IsStill places.old places.new }
{
    for seen in observations {
        places.reserve(&seen.address)?;
    }
    Ok(())
}

/// Puts a number at each observed address, and answers whether there was memory for all. It takes none.
fn put_all(places: &mut Places, observations: &[Seen], number: u64) -> bool
    ensures stays { OnTrue result (IsWithin places.old places.new) }
    ensures put { OnTrue result (StandsAtAll observations.now number places.new) }
    ensures only { IsPutOnly places.old places.new observations.now number }
{
    for seen in observations {
        if !places.put(&seen.address, number) {
            return false;
        }
    }
    true
}

/// Takes a number from each observed address. It is never refused for want of memory.
pub(crate) fn take_all(places: &mut Places, observations: &[Seen], number: u64)
    ensures others { KeepsOthers number places.old places.new }
    ensures fewer { IsWithin places.new places.old }
    ensures gone { IsGoneWhere (λ a. is_observed_by a observations.now) number places.new }
{
    for seen in observations {
        places.take_out(&seen.address, number);
    }
}

/// Gives the memory for each observed address back where nobody stands there. It takes none.
pub(crate) fn sweep_all(places: &mut Places, observations: &[Seen])
    ensures { IsStill places.old places.new }
{
    for seen in observations {
        places.sweep(&seen.address);
    }
}

/// Puts all watches at the addresses that they observed, and answers whether there was memory for all.
fn place_all(roll: &Roll, places: &mut Places) -> Result<bool, AllocError>
    ensures covers { IfOk result (λ all. all ≡ true → Covers places.new roll.now) }
    ensures exact { IsExact places.old roll.now → IsExact places.new roll.now }
{
    for number in roll.numbers() {
        let observations = roll.observations(*number);
        reserve_all(places, observations)?;
        if !put_all(places, observations, *number) {
            return Ok(false);
        }
    }
    Ok(true)
}

/// Puts all watches in their places, where they aren't yet, and answers whether all are.
fn place_rest(roll: &Roll, places: &mut Places, is_placed: bool) -> Result<bool, AllocError>
    requires { is_placed ≡ true → Covers places.old roll.now }
    ensures ok { IfOk result (λ all. all ≡ true → Covers places.new roll.now) }
    ensures err { OnErr result (is_placed ≡ false) }
    ensures exact { IsExact places.old roll.now → IsExact places.new roll.now }
    ensures placed { is_placed ≡ true → IfOk result (λ all. all ≡ true) }
    ensures still { is_placed ≡ true → IsStill places.old places.new }
{
    if is_placed {
        Ok(true)
    } else {
        place_all(roll, places)
    }
}

/// Takes the memory for one number more at each observed address. All watches are put in their places first, where they
/// aren't yet. Where they are, they stay there.
pub(crate) fn make_room(
    roll: &Roll,
    places: &mut Places,
    is_placed: &mut bool,
    observations: &[Seen],
) -> Result<(), AllocError>
    requires { IsPlaced is_placed.old places.old roll.now }
    ensures kept { IsPlaced is_placed.new places.new roll.now }
    ensures placed { is_placed.old ≡ true → is_placed.new ≡ true }
    ensures still { is_placed.old ≡ true → IsStill places.old places.new }
{
    *is_placed = place_rest(roll, places, *is_placed)?;
    reserve_all(places, observations)
}

/// Puts a watch at the addresses that it observed, where there is memory for that. It takes none.
pub(crate) fn put_watch(roll: &Roll, places: &mut Places, is_placed: &mut bool, made: u64)
    requires order { IsInOrder roll.now }
    requires exact { IsExact places.old roll.now }
    requires others { is_placed.old ≡ true → CoversBut made places.old roll.now }
    ensures { IsPlaced is_placed.new places.new roll.now }
{
    let is_put = put_all(places, roll.observations(made), made);
    *is_placed = *is_placed && is_put;
}
