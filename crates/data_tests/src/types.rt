//! Addresses, values and deltas: each call once, with ample memory.

use crate::given::{Write, address, delta, is_pair, text};
use plain_data::{Sequence, Text, TextMap, TextSet};
use rdt_types::{
    Delta, DeltaMap, KeyedDelta, Kind, ListDelta, Mark, STANDARD_COMMITS, Settings, Spelling,
    TextList, add_delta, compose, shard_of, spelling_of,
};
use std::alloc::{AllocError, Global};

/// Whether the first of three deltas and the second compose to the third.
fn compose_to(alloc: Global, deltas: &Result<Sequence<Delta>, AllocError>) -> bool {
    let Ok(deltas) = deltas else {
        return false;
    };
    match deltas.as_slice() {
        [first, second, whole] => matches!(&compose(alloc, first, second), Ok(it) if *it == *whole),
        _ => false,
    }
}

/// The deltas of writes at `a`.
fn deltas(alloc: Global, writes: &[Write]) -> Result<Sequence<Delta>, AllocError> {
    let mut deltas = Sequence::new(alloc);
    for write in writes {
        deltas.push(delta(alloc, *write, b"a")?)?;
    }
    Ok(deltas)
}

/// Two writes at `a`, one after the other, and the one that they come to.
static COMPOSITIONS: [[Write; 3]; 5] = [
    [Write::SetAdd, Write::SetRemove, Write::SetRemove],
    [Write::SetClear, Write::SetRemove, Write::SetClear],
    [Write::ListPush, Write::ListRemove, Write::ListRemove],
    [Write::Raise(3), Write::Raise(5), Write::Raise(5)],
    [Write::Raise(5), Write::Raise(3), Write::Raise(5)],
];

fn compositions() -> &'static [[Write; 3]] {
    &COMPOSITIONS
}

#[test]
fn writes_compose(rt: HostRuntime) {
    for writes in compositions() {
        assert!(rt; compose_to(rt.alloc(), &deltas(rt.alloc(), writes)));
    }
}

/// Whether a hash's delta of one put tells what it does.
fn tells_a_put(alloc: Global, at: &Text) -> bool {
    match KeyedDelta::marking(alloc, at, Mark::Put(Text::new(alloc))) {
        Ok(put) => !put.cleared() && put.marks().len() == 1 && put.marks().contains(at),
        Err(_) => false,
    }
}

/// Whether a list's delta of one push tells what it does.
fn tells_a_push(alloc: Global, item: &Text) -> bool {
    match ListDelta::pushing(alloc, item) {
        Ok(push) => !push.cleared() && push.removed().is_empty() && push.pushed().len() == 1,
        Err(_) => false,
    }
}

#[test]
fn deltas_tell_what_they_do(rt: HostRuntime) {
    let a = text(rt.alloc(), b"a");
    assert!(rt; matches!(&a, Ok(a) if tells_a_put(rt.alloc(), a) && tells_a_push(rt.alloc(), a)));
}

/// Whether parts make a set's delta, with a mark at `a` where one is named.
fn makes_set(alloc: Global, cleared: bool, mark: Option<bool>) -> Result<bool, AllocError> {
    let mut marks = TextMap::new(alloc);
    if let Some(is_added) = mark {
        marks.insert(text(alloc, b"a")?, is_added)?;
    }
    Ok(KeyedDelta::from_parts(cleared, marks).is_some())
}

/// The set of `a`, where it isn't to be empty.
fn set_of(alloc: Global, has_a: bool) -> Result<TextSet, AllocError> {
    let mut set = TextSet::new(alloc);
    if has_a {
        set.insert(text(alloc, b"a")?, ())?;
    }
    Ok(set)
}

/// The list of `a`, where it isn't to be empty.
fn list_of(alloc: Global, has_a: bool) -> Result<TextList, AllocError> {
    let mut list = TextList::new(alloc);
    if has_a {
        list.push(text(alloc, b"a")?)?;
    }
    Ok(list)
}

/// Whether parts make a list's delta, where there is memory.
fn makes_list(
    cleared: bool,
    removed: Result<TextSet, AllocError>,
    pushed: Result<TextList, AllocError>,
) -> Option<bool> {
    match (removed, pushed) {
        (Ok(removed), Ok(pushed)) => {
            Some(ListDelta::from_parts(cleared, removed, pushed).is_some())
        }
        _ => None,
    }
}

/// Whether the parts are cleared, the mark of a set, and whether they make one.
static SETS: [(bool, Option<bool>, bool); 5] = [
    (false, None, false),
    (false, Some(false), true),
    (true, None, true),
    (true, Some(true), true),
    (true, Some(false), false),
];

fn sets() -> &'static [(bool, Option<bool>, bool)] {
    &SETS
}

/// Whether the parts are cleared, take `a` out of a list, and push it, and whether they make one.
static LISTS: [(bool, bool, bool, bool); 5] = [
    (false, false, false, false),
    (false, true, false, true),
    (false, false, true, true),
    (true, false, true, true),
    (true, true, true, false),
];

fn lists() -> &'static [(bool, bool, bool, bool)] {
    &LISTS
}

#[test]
fn parts_make_deltas_by_their_form(rt: HostRuntime) {
    for (cleared, mark, is_delta) in sets() {
        assert!(rt; makes_set(rt.alloc(), *cleared, *mark) == Ok(*is_delta));
    }
    for (cleared, removes, pushes, is_delta) in lists() {
        let removed = set_of(rt.alloc(), *removes);
        let pushed = list_of(rt.alloc(), *pushes);
        assert!(rt; makes_list(*cleared, removed, pushed) == Some(*is_delta));
    }
}

/// The shards of the counter `x` among four, and among one.
fn has_shards(alloc: Global) -> bool {
    match address(alloc, Kind::Counter, b"x") {
        Ok(counter) => shard_of(&counter, 4) == 1 && shard_of(&counter, 1) == 0,
        Err(_) => false,
    }
}

#[test]
fn words_spellings_and_shards(rt: HostRuntime) {
    assert!(rt; Kind::Counter.word() == b"counter".as_slice());
    assert!(rt; Kind::Peak.word() == b"peak".as_slice());
    assert!(rt;
        spelling_of(b'\n') == Spelling::Escaped(b'n')
            && spelling_of(7) == Spelling::Hexadecimal(b'0', b'7')
            && spelling_of(b'a') == Spelling::Plain(b'a')
    );
    assert!(rt; Settings::standard().limit == STANDARD_COMMITS);
    assert!(rt; has_shards(rt.alloc()));
}

/// Whether a delta at a counter is added to others.
fn adds(alloc: Global, deltas: &mut DeltaMap, key: &[u8], delta: Delta) -> bool {
    match address(alloc, Kind::Counter, key) {
        Ok(counter) => add_delta(alloc, deltas, counter, delta).is_ok(),
        Err(_) => false,
    }
}

/// Whether they put 2 at `x`, and add 4 at `y`.
fn are_two(deltas: &DeltaMap) -> bool {
    match deltas.as_slice() {
        [x, y] => {
            is_pair(x, b"x", &Delta::PutCounter(2)) && is_pair(y, b"y", &Delta::AddCounter(4))
        }
        _ => false,
    }
}

#[test]
fn deltas_stand_by_address(rt: HostRuntime) {
    let mut deltas = DeltaMap::new(rt.alloc());
    assert!(rt; adds(rt.alloc(), &mut deltas, b"y", Delta::AddCounter(1)));
    assert!(rt; adds(rt.alloc(), &mut deltas, b"x", Delta::PutCounter(2)));
    assert!(rt; adds(rt.alloc(), &mut deltas, b"y", Delta::AddCounter(3)));
    assert!(rt; are_two(&deltas));
}
