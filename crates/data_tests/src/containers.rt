//! Each call once, with ample memory. A test is a list of moves over one container.

use plain_data::{Boxed, Marking, OrderedMap, Sequence, Text, TextMap, TextSet};
use std::alloc::{AllocError, Global};

/// What is done with a text, or seen of it.
#[derive(Clone, Copy)]
enum Move {
    Push(u8),
    Extend(&'static [u8]),
    Insert(usize, u8),
    Set(usize, u8),
    Truncate(usize),
    /// An item is taken out at a place, and which it is.
    Remove(usize, u8),
    /// The last item is taken out, and which it is.
    Pop(u8),
    /// The whole text.
    Is(&'static [u8]),
    /// The item at a place, if there is one.
    At(usize, Option<u8>),
    /// It stands before this text.
    Before(&'static [u8]),
    Copies,
}

/// Whether a text stands before these bytes.
fn stands_before(alloc: Global, text: &Text, bytes: &[u8]) -> bool {
    match Text::from_slice(alloc, bytes) {
        Ok(other) => *text < other,
        Err(_) => false,
    }
}

/// Whether a copy equals a text, and is the same through a vector.
fn copies(text: &Text) -> bool {
    match text.clone() {
        Ok(copy) => {
            copy == *text && Text::from_vec(copy.into_vec()).as_slice() == text.as_slice()
        }
        Err(_) => false,
    }
}

/// Whether a move goes as it says.
fn goes(alloc: Global, text: &mut Text, done: Move) -> bool {
    match done {
        Move::Push(item) => text.push(item).is_ok(),
        Move::Extend(bytes) => text.extend_from_slice(bytes).is_ok(),
        Move::Insert(at, item) => at <= text.len() && text.insert(at, item).is_ok(),
        Move::Set(at, item) => {
            let is_there = at < text.len();
            if is_there {
                text.set(at, item);
            }
            is_there
        }
        Move::Truncate(count) => {
            text.truncate(count);
            true
        }
        Move::Remove(at, item) => at < text.len() && text.remove(at) == item,
        Move::Pop(item) => text.pop() == Some(item),
        Move::Is(bytes) => {
            text.as_slice() == bytes
                && text.len() == bytes.len()
                && text.is_empty() == bytes.is_empty()
        }
        Move::At(at, item) => text.get(at).copied() == item,
        Move::Before(bytes) => stands_before(alloc, text, bytes),
        Move::Copies => copies(text),
    }
}

static MOVES: [Move; 16] = [
    Move::Is(b"acd"),
    Move::Push(b'e'),
    Move::Extend(b"fg"),
    Move::Is(b"acdefg"),
    Move::Insert(1, b'b'),
    Move::Is(b"abcdefg"),
    Move::Truncate(4),
    Move::Pop(b'd'),
    Move::Is(b"abc"),
    Move::Set(2, b'z'),
    Move::Remove(0, b'a'),
    Move::Is(b"bz"),
    Move::At(1, Some(b'z')),
    Move::At(2, None),
    Move::Before(b"bzz"),
    Move::Copies,
];

/// The table, so that the proof of a test doesn't go through its rows.
fn moves() -> &'static [Move] {
    &MOVES
}

/// Whether the moves go as they say, from a text on.
fn all_go(alloc: Global, bytes: &[u8], moves: &[Move]) -> bool {
    let Ok(mut text) = Text::from_slice(alloc, bytes) else {
        return false;
    };
    for done in moves {
        if !goes(alloc, &mut text, *done) {
            return false;
        }
    }
    true
}

/// Whether a value is in a box that is made of it.
fn is_boxed(alloc: Global, value: u8) -> bool {
    match Boxed::new(alloc, value) {
        Ok(boxed) => *boxed.get() == value && boxed.into_inner() == value,
        Err(_) => false,
    }
}

#[test]
fn lists_change_as_told(rt: HostRuntime) {
    assert!(rt; all_go(rt.alloc(), b"acd", moves()));
    assert!(rt; all_go(rt.alloc(), b"", &[Move::Is(b"")]));
    assert!(rt; is_boxed(rt.alloc(), 7));
}

/// Whether a map holds these pairs and no others, of which none has the key 6.
fn holds(map: &OrderedMap<u8, u8>, pairs: &[(u8, u8)]) -> bool {
    for pair in pairs {
        if map.get(&pair.0) != Some(&pair.1) || map.get_pair(&pair.0) != Some(pair) {
            return false;
        }
    }
    map.as_slice() == pairs
        && map.len() == pairs.len()
        && map.is_empty() == pairs.is_empty()
        && map.get(&6).is_none()
}

/// Whether a map's copy holds the same, and is the same through a vector.
fn is_copied(map: &OrderedMap<u8, u8>, pairs: &[(u8, u8)]) -> bool {
    match map.clone() {
        Ok(copy) => holds(&OrderedMap::from_vec(copy.into_vec()), pairs),
        Err(_) => false,
    }
}

/// Whether those that are put, in turn, make a map of these.
fn makes(alloc: Global, put: &[(u8, u8)], pairs: &[(u8, u8)]) -> bool {
    let mut map = OrderedMap::new(alloc);
    for (key, value) in put {
        if map.insert(*key, *value).is_err() {
            return false;
        }
    }
    holds(&map, pairs) && is_copied(&map, pairs)
}

#[test]
fn maps_are_in_order(rt: HostRuntime) {
    let put = [(5, 1), (2, 2), (9, 3), (5, 4)];
    assert!(rt; makes(rt.alloc(), &put, &[(2, 2), (5, 4), (9, 3)]));
    assert!(rt; makes(rt.alloc(), &[], &[]));
    assert!(rt; makes(rt.alloc(), &[(1, 2)], &[(1, 2)]));
}

/// Marks that keep a number below 10 and take away what has a greater one.
#[derive(Drop)]
struct BelowTen;

impl Marking<u8, u8> for BelowTen {
    ghost use Rattle.std.specs.Prelude.{if◌then◌else◌, nat_lt, Some, None};

    ghost left = { λ _ mark. if nat_lt mark 10 then Some mark else None };

    fn left(&self, mark: &u8) -> Result<Option<u8>, AllocError> {
        Ok(if *mark < 10 { Some(*mark) } else { None })
    }
}

/// The numbers at keys of one byte.
fn numbers(alloc: Global, pairs: &[(u8, u8)]) -> Result<TextMap<u8>, AllocError> {
    let mut map = TextMap::new(alloc);
    for (key, value) in pairs {
        map.insert(Text::from_slice(alloc, &[*key])?, *value)?;
    }
    Ok(map)
}

/// Whether a map has this at a key of one byte.
fn has(alloc: Global, map: &TextMap<u8>, key: u8, value: Option<u8>) -> bool {
    match Text::from_slice(alloc, &[key]) {
        Ok(key) => map.get(&key).copied() == value && map.contains(&key) == value.is_some(),
        Err(_) => false,
    }
}

/// Whether a map's copy equals it.
fn is_its_copy(map: &TextMap<u8>) -> bool {
    let copy: Result<TextMap<u8>, AllocError> = map.clone();
    matches!(&copy, Ok(copy) if *copy == *map)
}

/// Whether a map is what the marks leave of `a`, `b` and `d`.
fn is_left(alloc: Global, map: &TextMap<u8>) -> bool {
    let rows = [
        (b'a', None),
        (b'b', Some(1)),
        (b'c', Some(4)),
        (b'd', Some(5)),
    ];
    for (key, value) in rows {
        if !has(alloc, map, key, value) {
            return false;
        }
    }
    map.len() == 3 && is_its_copy(map)
}

/// Whether marks laid over a map leave that, and not the map itself.
fn overlays(
    alloc: Global,
    under: &Result<TextMap<u8>, AllocError>,
    marks: &Result<TextMap<u8>, AllocError>,
) -> bool {
    let (Ok(under), Ok(marks)) = (under, marks) else {
        return false;
    };
    match &under.overlaid(alloc, &BelowTen, marks) {
        Ok(whole) => is_left(alloc, whole) && *whole != *under,
        Err(_) => false,
    }
}

#[test]
fn maps_of_texts_are_overlaid(rt: HostRuntime) {
    let under = numbers(rt.alloc(), &[(b'b', 1), (b'a', 2), (b'd', 3)]);
    let marks = numbers(rt.alloc(), &[(b'c', 4), (b'a', 10), (b'd', 5)]);
    assert!(rt; overlays(rt.alloc(), &under, &marks));
}

/// Whether a set of `a` has it, also through a vector.
fn is_set(alloc: Global) -> Result<bool, AllocError> {
    let mut set = TextSet::new(alloc);
    let was_empty = set.is_empty();
    set.insert(Text::from_slice(alloc, b"a")?, ())?;
    let is_one = set.as_slice().len() == 1;
    Ok(was_empty && is_one && has_a(alloc, &TextSet::from_vec(set.into_vec())))
}

fn has_a(alloc: Global, set: &TextSet) -> bool {
    matches!(&Text::from_slice(alloc, b"a"), Ok(a) if set.contains(a))
}

#[test]
fn sets_give_their_vectors_back(rt: HostRuntime) {
    assert!(rt; is_set(rt.alloc()) == Ok(true));
}

/// Two pairs, of which the first has the number 1 and the second 2.
fn pairs(alloc: Global, first: u8, second: u8) -> Result<Vec<(Text, u8)>, AllocError> {
    let mut pairs = Vec::new(alloc);
    for (key, value) in [(first, 1), (second, 2)] {
        pairs.push((Text::from_slice(alloc, &[key])?, value))?;
    }
    Ok(pairs)
}

/// Whether a map has 2 at `b`.
fn has_second(alloc: Global, map: &TextMap<u8>) -> bool {
    match Text::from_slice(alloc, b"b") {
        Ok(b) => map.get_pair(&b).is_some_and(|pair| pair.1 == 2),
        Err(_) => false,
    }
}

/// Where two keys in turn make a map, whether it has 2 at `b`.
fn second_is_found(alloc: Global, first: u8, second: u8) -> Result<Option<bool>, AllocError> {
    match TextMap::try_from_vec(pairs(alloc, first, second)?) {
        Some(map) => Ok(Some(has_second(alloc, &map))),
        None => Ok(None),
    }
}

#[test]
fn keys_of_a_map_rise(rt: HostRuntime) {
    let rows = [
        (b'b', b'a', None),
        (b'a', b'a', None),
        (b'a', b'b', Some(true)),
    ];
    for (first, second, found) in rows {
        assert!(rt; second_is_found(rt.alloc(), first, second) == Ok(found));
    }
}

/// Whether a list of two pairs has four with those of another.
fn extends(alloc: Global, more: &[(Text, u8)]) -> Result<bool, AllocError> {
    let mut all = Sequence::from_vec(pairs(alloc, b'a', b'b')?);
    Ok(all.extend_cloned(more).is_ok() && all.len() == 4)
}

#[test]
fn a_list_is_extended_by_copies(rt: HostRuntime) {
    let more = pairs(rt.alloc(), b'c', b'd');
    assert!(rt; matches!(&more, Ok(more) if extends(rt.alloc(), more.as_slice()) == Ok(true)));
}
