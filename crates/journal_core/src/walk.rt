//! Parts of changes whose numbers don't fall, and where a number stands among them: first among the sealed segments, and then in
//! the piece that stands there.

ghost use Rattle.std.specs.Prelude.{◌≡◌, get_or};
ghost use Rattle.change_feed.specs.Lists.{listed};
ghost use Rattle.journal_core.specs.code.Rising.{Rises};
ghost use Rattle.journal_core.specs.Changes as spec;
ghost use Rattle.journal_core.specs.code.Parts.{IsPartedAt, IsUpToBefore};
ghost use Rattle.journal_core.specs.code.Segments as segments;
ghost use Rattle.journal_core.specs.code.Segments.{IsWhole};

use change_feed::{Change, Changes, Segment};

/// By which number a segment ends, or 0.
fn end_of(segment: &Segment) -> u64
    ensures { result ≡ segments.end_of segment.now }
{
    match segment.as_slice().last() {
        Some(change) => change.number,
        None => 0,
    }
}

/// A place before which all segments end by a number. It is found from the end by steps that double, since most that ask are
/// near it.
fn near_end_sealed(sealed: &[Segment], number: u64) -> usize
    requires { segments.EndInOrder number sealed.now }
    ensures { segments.EndBefore number sealed.now result }
{
    let mut step = 1;
    while step < sealed.len() {
        if end_of(&sealed[sealed.len() - step]) <= number {
            return sealed.len() - step;
        }
        step *= 2;
    }
    0
}

/// How many segments end by a number, found by halving near the end alone.
fn count_sealed(sealed: &[Segment], number: u64) -> usize
    requires { segments.EndInOrder number sealed.now }
    ensures { segments.EndExactlyBefore number sealed.now result }
{
    let start = near_end_sealed(sealed, number);
    start + sealed[start..].partition_point(|segment| end_of(segment) <= number)
}

/// A place before which all changes are of commits up to a number. It is found as that among segments is.
fn near_end(changes: &[Change], number: u64) -> usize
    requires { Rises 0 changes.now }
    ensures { IsUpToBefore number changes.now result }
{
    let mut step = 1;
    while step < changes.len() {
        if changes[changes.len() - step].number <= number {
            return changes.len() - step;
        }
        step *= 2;
    }
    0
}

/// How many changes are of commits up to a number, found by halving near the end alone.
fn count_up_to(changes: &[Change], number: u64) -> usize
    requires { Rises 0 changes.now }
    ensures { IsPartedAt number changes.now result }
{
    let start = near_end(changes, number);
    start + changes[start..].partition_point(|change| change.number <= number)
}

/// The segment at a place, or the last piece behind them.
fn piece_at<'a>(sealed: &'a [Segment], last: &'a [Change], place: usize) -> &'a [Change]
    ensures { result.now ≡ get_or sealed.now place last.now }
{
    match sealed.get(place) {
        Some(segment) => segment.as_slice(),
        None => last,
    }
}

/// The changes of commits past a number.
pub(crate) fn past(changes: Changes<'_>, from: u64) -> Changes<'_>
    requires whole { IsWhole changes }
    requires order { Rises 0 (listed changes) }
    ensures { listed result ≡ spec.past from (listed changes.entry) }
{
    let place = count_sealed(changes.sealed, from);
    let piece = piece_at(changes.sealed, changes.last, place);
    let skipped = count_up_to(piece, from);
    if place == changes.sealed.len() {
        return Changes::of(&piece[skipped..]);
    }
    Changes {
        skipped,
        sealed: &changes.sealed[place..],
        last: changes.last,
    }
}

/// The changes of commits up to a number.
pub(crate) fn up_to(changes: Changes<'_>, to: u64) -> Changes<'_>
    requires whole { IsWhole changes }
    requires order { Rises 0 (listed changes) }
    ensures changes { listed result ≡ spec.up_to to (listed changes.entry) }
    ensures whole { IsWhole result }
{
    let place = count_sealed(changes.sealed, to);
    let piece = piece_at(changes.sealed, changes.last, place);
    Changes {
        skipped: 0,
        sealed: &changes.sealed[..place],
        last: &piece[..count_up_to(piece, to)],
    }
}

/// The changes of commits past one number and up to another, of changes whose numbers don't fall. It is never refused for
/// want of memory, and takes a few steps: the places are found by halving.
pub fn between(changes: Changes<'_>, from: u64, to: u64) -> Changes<'_>
    requires whole { IsWhole changes }
    requires order { Rises 0 (listed changes) }
    ensures { listed result ≡ spec.between from to (listed changes.entry) }
{
    past(up_to(changes, to), from)
}
