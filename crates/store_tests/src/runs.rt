//! Bodies on values that no run can write, one byte past the limit or a peak below 0, and how often an observation is listed.

use crate::bodies::checked;
use conflict_table::Obs;
use plain_data::{Text, TextMap, TextSet};
use rdt_types::{Address, Kind, Outcome, Value};
use std::alloc::{AllocError, Global};
use txn_eval::{Step, run};
use txn_lang::{Run, Snap, Snaps};

/// A text of so many bytes.
fn long(alloc: Global, count: u32) -> Result<Text, AllocError> {
    let mut text = Text::new(alloc);
    for _ in 0..count {
        text.push(b'a')?;
    }
    Ok(text)
}

/// The set of a text.
fn set_of(alloc: Global, text: Text) -> Result<TextSet, AllocError> {
    let mut set = TextSet::new(alloc);
    set.insert(text, ())?;
    Ok(set)
}

/// The hash with a field, at which no byte stands.
fn hash_of(alloc: Global, field: Text) -> Result<TextMap<Text>, AllocError> {
    let mut hash = TextMap::new(alloc);
    hash.insert(field, Text::new(alloc))?;
    Ok(hash)
}

/// A text, the set of it, or the hash with that field.
fn value_of(alloc: Global, kind: Kind, text: Text) -> Result<Value, AllocError> {
    Ok(match kind {
        Kind::Set => Value::Set(set_of(alloc, text)?),
        Kind::Hash => Value::Hash(hash_of(alloc, text)?),
        _ => Value::Text(text),
    })
}

/// The one value at the key `k`.
fn snaps_of(alloc: Global, value: Value) -> Result<Snaps, AllocError> {
    let address = Address {
        kind: value.kind(),
        key: Text::from_slice(alloc, b"k")?,
    };
    let mut snaps = Snaps::new(alloc);
    snaps.insert(address, Snap { base: 1, value })?;
    Ok(snaps)
}

/// The run of a body on what is given, if it is done.
fn ran(alloc: Global, source: &[u8], snaps: &Result<Snaps, AllocError>) -> Option<Run> {
    let Ok(snaps) = snaps else {
        return None;
    };
    let Ok(body) = checked(alloc, source, true) else {
        return None;
    };
    match run(alloc, &body, snaps) {
        Ok(Step::Done(run)) => Some(run),
        _ => None,
    }
}

/// Whether an observation is of a whole value of a kind.
fn is_whole(kind: Kind, obs: &Obs) -> bool {
    match kind {
        Kind::Set => *obs == Obs::SetAll,
        Kind::Hash => *obs == Obs::HashAll,
        _ => *obs == Obs::TextIs,
    }
}

/// Whether a run was too big, and observed the whole value of a kind and no more.
fn is_big(run: &Option<Run>, kind: Kind) -> bool {
    match run {
        Some(run) => match run.observations.as_slice() {
            [seen] => is_whole(kind, &seen.obs) && matches!(&run.outcome, Outcome::Big),
            _ => false,
        },
        None => false,
    }
}

/// A value of a kind, of a text of 1,025 bytes.
fn too_long(alloc: Global, kind: Kind) -> Result<Snaps, AllocError> {
    snaps_of(alloc, value_of(alloc, kind, long(alloc, 1025)?)?)
}

/// Bodies, each of which reads a value of a kind.
const ROWS: [(&[u8], Kind); 3] = [
    (br#"emit len(text("k").get());"#, Kind::Text),
    (br#"emit len(set("k").all());"#, Kind::Set),
    (br#"emit len(hash("k").fields());"#, Kind::Hash),
];

#[test]
fn a_text_of_1025_bytes_is_too_big_and_observed(rt: HostRuntime) {
    for (source, kind) in ROWS {
        let run = ran(rt.alloc(), source, &too_long(rt.alloc(), kind));
        assert!(rt; is_big(&run, kind));
    }
}

/// The empty set.
fn empty_set(alloc: Global) -> Result<Snaps, AllocError> {
    snaps_of(alloc, Value::Set(TextSet::new(alloc)))
}

/// Whether the run of a body on the empty set lists so many observations.
fn lists(alloc: Global, source: &[u8], count: usize) -> bool {
    match ran(alloc, source, &empty_set(alloc)) {
        Some(run) => run.observations.len() == count,
        None => false,
    }
}

/// Observations are listed once, those that are looked through and those behind them.
#[test]
fn observations_are_listed_once(rt: HostRuntime) {
    let eight =
        br#"let t = ["a","b","c","d","e","f","g","h"]; for x in t { emit set("k").has(x); } for x in t { emit set("k").has(x); }"#;
    assert!(rt; lists(rt.alloc(), eight, 8));
    let ten =
        br#"let t = ["a","b","c","d","e","f","g","h","i","j"]; for x in t { emit set("k").has(x); } for x in t { emit set("k").has(x); }"#;
    assert!(rt; lists(rt.alloc(), ten, 10));
}

/// A peak below 0.
fn low_peak(alloc: Global) -> Result<Snaps, AllocError> {
    snaps_of(alloc, Value::Peak(-5))
}

/// Whether a run observed that the peak is -5, over -6 and not over -5.
fn carries_answers(run: &Option<Run>) -> bool {
    match run {
        Some(run) => match run.observations.as_slice() {
            [whole, over, not_over] => {
                whole.obs == Obs::PeakIs(-5)
                    && over.obs == Obs::PeakOver(-6, true)
                    && not_over.obs == Obs::PeakOver(-5, false)
            }
            _ => false,
        },
        None => false,
    }
}

#[test]
fn observations_of_a_peak_carry_what_was_answered(rt: HostRuntime) {
    let source =
        br#"emit peak("k").get(); emit peak("k").over(-6); emit peak("k").over(-5); emit peak("k").over(-6);"#;
    let run = ran(rt.alloc(), source, &low_peak(rt.alloc()));
    assert!(rt; carries_answers(&run));
}
