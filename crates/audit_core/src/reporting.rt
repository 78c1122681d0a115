//! The lines that an auditor reads.

ghost use Rattle.std.specs.Prelude.{◌≡◌, ◌++◌, ◌∷◌, map, IfOk, OnOk};
ghost use Rattle.std.specs.List.{flat_map};
ghost use Rattle.audit_core.specs.Reports as spec;
ghost use Rattle.audit_core.specs.code.Growing.{asked_text, told_text};

use crate::dumping::dump;
use crate::state::State;
use crate::verdict::{Flaw, Verdict};
use dtext::{print_item, push_address, push_natural};
use plain_data::Text;
use rdt_types::{Address, Item, TextList, Value};
use std::alloc::{AllocError, Global};
use txn_lang::CommitList;

/// What a line ends with.
const NEWLINE: u8 = b'\n';

/// What doesn't hold of a commit, in one word.
fn word_of(flaw: Flaw) -> &'static [u8]
    ensures { result.now ≡ spec.flaw_word flaw }
{
    match flaw {
        Flaw::Number => b"number".as_slice(),
        Flaw::Seq => b"seq".as_slice(),
        Flaw::Body => b"body".as_slice(),
        Flaw::Outcome => b"outcome".as_slice(),
        Flaw::Deltas => b"deltas".as_slice(),
    }
}

/// Adds the line of a verdict.
fn push_verdict(out: &mut Text, verdict: Verdict) -> Result<(), AllocError>
    ensures { OnOk result (out.new ≡ out.old ++ spec.verdict_line verdict) }
{
    match verdict {
        Verdict::Legal(count) => {
            out.extend_from_slice(b"legal ")?;
            push_natural(out, count)?;
        }
        Verdict::Broken(place, flaw) => {
            out.extend_from_slice(b"broken ")?;
            push_natural(out, place)?;
            out.push(b' ')?;
            out.extend_from_slice(word_of(flaw))?;
        }
    }
    out.push(NEWLINE)
}

/// The elements of a set.
fn elements(alloc: Global, pairs: &[(Text, ())]) -> Result<TextList, AllocError>
    ensures { IfOk result (λ texts. texts ≡ map (λ e. e.0) pairs.now) }
{
    let mut texts = TextList::new(alloc);
    for pair in pairs {
        texts.push(pair.0.clone()?)?;
    }
    Ok(texts)
}

/// Adds a field of a hash, and its text.
fn push_field(texts: &mut TextList, field: &(Text, Text)) -> Result<(), AllocError>
    ensures { OnOk result (texts.new ≡ texts.old ++ spec.field_texts field.now) }
{
    texts.push(field.0.clone()?)?;
    texts.push(field.1.clone()?)
}

/// The fields of a hash, each followed by its text.
fn fields(alloc: Global, pairs: &[(Text, Text)]) -> Result<TextList, AllocError>
    ensures { IfOk result (λ texts. texts ≡ flat_map spec.field_texts pairs.now) }
{
    let mut texts = TextList::new(alloc);
    for pair in pairs {
        push_field(&mut texts, pair)?;
    }
    Ok(texts)
}

/// A value, as one that a body emits.
fn item_of(alloc: Global, value: &Value) -> Result<Item, AllocError>
    ensures { IfOk result (λ item. item ≡ spec.item_of value.now) }
{
    Ok(match value {
        Value::Bool(value) => Item::Bool(*value),
        Value::Counter(number) => Item::Int(*number),
        Value::Text(text) => Item::Text(text.clone()?),
        Value::Set(set) => Item::Texts(elements(alloc, set.as_slice())?),
        Value::Hash(hash) => Item::Texts(fields(alloc, hash.as_slice())?),
        Value::List(items) => Item::Texts(items.clone()?),
        Value::Peak(number) => Item::Int(*number),
    })
}

/// The printed form of a value.
fn printed(alloc: Global, value: &Value) -> Result<Text, AllocError>
    ensures { IfOk result (λ text. text ≡ spec.printed_value value.now) }
{
    let item = item_of(alloc, value)?;
    print_item(alloc, &item)
}

/// Adds the line of an address and its value.
fn push_value(
    alloc: Global,
    out: &mut Text,
    address: &Address,
    value: &Value,
) -> Result<(), AllocError>
    ensures { OnOk result (out.new ≡ out.old ++ spec.value_line (address.now, value.now)) }
{
    push_address(out, address)?;
    out.push(b' ')?;
    out.extend_from_slice(printed(alloc, value)?.as_slice())?;
    out.push(NEWLINE)
}

/// Adds the lines of addresses and their values.
fn push_values(alloc: Global, out: &mut Text, pairs: &[(Address, Value)]) -> Result<(), AllocError>
    ensures { OnOk result (out.new ≡ out.old ++ flat_map spec.value_line pairs.now) }
{
    for (address, value) in pairs {
        push_value(alloc, out, address, value)?;
    }
    Ok(())
}

/// Adds that there are fewer commits than were asked for.
fn push_ahead(out: &mut Text, asked: u64, count: u64) -> Result<(), AllocError>
    ensures { OnOk result (out.new ≡ out.old ++ spec.ahead_line asked count) }
{
    out.extend_from_slice(b"ahead ")?;
    push_natural(out, asked)?;
    out.push(b' ')?;
    push_natural(out, count)?;
    out.push(NEWLINE)
}

/// Adds the state after so many commits, or that there are fewer.
fn push_state(alloc: Global, out: &mut Text, commits: &CommitList, n: u64) -> Result<(), AllocError>
    ensures { OnOk result (out.new ≡ out.old ++ spec.state_lines commits.now n) }
{
    let count = commits.len() as u64;
    if count < n {
        return push_ahead(out, n, count);
    }
    let pairs = dump(alloc, commits, n)?;
    push_values(alloc, out, pairs.as_slice())
}

/// The report of an audit that came to this verdict: its line, and where the journal is legal and it is asked for, the state
/// after so many of the commits.
pub fn report(
    alloc: Global,
    commits: &CommitList,
    verdict: Verdict,
    at: Option<u64>,
) -> Result<Text, AllocError>
    ensures { IfOk result (λ text. text ≡ spec.report_of commits.now verdict at) }
{
    let mut out = Text::new(alloc);
    push_verdict(&mut out, verdict)?;
    match (verdict, at) {
        (Verdict::Legal(_), Some(n)) => push_state(alloc, &mut out, commits, n)?,
        _ => {}
    }
    Ok(out)
}

/// Adds the state that was asked for behind a legal journal of so many commits, or that there are fewer. These are its values.
fn push_asked(
    alloc: Global,
    out: &mut Text,
    count: u64,
    at: Option<u64>,
    values: State,
) -> Result<(), AllocError>
    ensures { OnOk result (out.new ≡ out.old ++ asked_text count at values) }
{
    match at {
        None => Ok(()),
        Some(n) if count < n => push_ahead(out, n, count),
        Some(_) => push_values(alloc, out, &values.into_pairs()?),
    }
}

/// What an auditor reads of a verdict, with the values of the state that was asked for.
pub(crate) fn told(
    alloc: Global,
    verdict: Verdict,
    at: Option<u64>,
    values: State,
) -> Result<Text, AllocError>
    ensures { IfOk result (λ text. text ≡ told_text verdict at values) }
{
    let mut out = Text::new(alloc);
    push_verdict(&mut out, verdict)?;
    match verdict {
        Verdict::Legal(count) => push_asked(alloc, &mut out, count, at, values)?,
        Verdict::Broken(..) => {}
    }
    Ok(out)
}
