//! What is charged: ticks, and the load of what is emitted and written; and which items are too big.

ghost use Rattle.std.specs.Prelude.{◌≡◌, ◌≢◌, ◌+◌, ◌≤◌, ◌^◌, Err, MatchOption};
ghost use Rattle.txn_lang.specs.declared.progress.Stop.TheVariants.{NoMemory};
ghost use Rattle.txn_lang.specs.Items as spec;
ghost use Rattle.txn_lang.specs.Rules as rules;
ghost use Rattle.txn_lang.specs.Steps as steps;
ghost use Rattle.txn_eval.specs.code.Answers.{Answers};
ghost use Rattle.txn_eval.specs.code.Forms.{write_load};

use crate::kept::Kept;
use plain_data::Text;
use rdt_types::Item;
use txn_lang::{LOAD_LIMIT, Progress, Stop, TEXT_LIMIT, TEXTS_LIMIT, TICK_LIMIT};

/// Charges ticks. What is spent is never told as want of memory.
pub(crate) fn charge(run: &mut Progress<Kept>, ticks: u64) -> Result<(), Stop>
    ensures rule { Answers result run.new (steps.charge ticks run.old) }
    ensures told { result ≢ Err NoMemory }
{
    match run.ticks.checked_add(ticks) {
        Some(sum) => {
            if sum <= TICK_LIMIT {
                run.ticks = sum;
                Ok(())
            } else {
                Err(Stop::Spent)
            }
        }
        None => Err(Stop::Spent),
    }
}

/// Adds to the load. What is too big is never told as want of memory.
pub(crate) fn carry(run: &mut Progress<Kept>, size: u64) -> Result<(), Stop>
    ensures rule { Answers result run.new (steps.carry size run.old) }
    ensures told { result ≢ Err NoMemory }
{
    match run.load.checked_add(size) {
        Some(sum) => {
            if sum <= LOAD_LIMIT {
                run.load = sum;
                Ok(())
            } else {
                Err(Stop::Big)
            }
        }
        None => Err(Stop::Big),
    }
}

/// The size of texts: of each its bytes, and one more. There is none exactly where it doesn't fit.
fn texts_size(texts: &[Text]) -> Option<u64>
    ensures { let size = spec.texts_size texts.now in MatchOption result (2 ^ 64 ≤ size) (λ n. n ≡ size) }
{
    let mut size = 0u64;
    for text in texts {
        size = size.checked_add(text.len() as u64)?;
        size = size.checked_add(1)?;
    }
    Some(size)
}

/// What emitting an item adds. There is none exactly where that doesn't fit.
pub(crate) fn emit_size(item: &Item) -> Option<u64>
    ensures { let size = 8 + spec.size_of item.now in MatchOption result (2 ^ 64 ≤ size) (λ n. n ≡ size) }
{
    match item {
        Item::Int(_) => Some(16),
        Item::Bool(_) => Some(9),
        Item::Text(text) => 8u64.checked_add(text.len() as u64),
        Item::Texts(texts) => 8u64.checked_add(texts_size(texts.as_slice())?),
    }
}

/// What a write adds. There is none exactly where that doesn't fit.
pub(crate) fn write_size(key: &Text, arguments: &[Item]) -> Option<u64>
    ensures { let size = write_load key.now arguments.now in MatchOption result (2 ^ 64 ≤ size) (λ n. n ≡ size) }
{
    let mut size = 8u64.checked_add(key.len() as u64)?;
    for item in arguments {
        if let Item::Text(text) = item {
            size = size.checked_add(text.len() as u64)?;
        }
    }
    Some(size)
}

/// Whether texts are too much together, or one of them alone.
fn are_big(texts: &[Text]) -> bool
    ensures { result ≡ spec.is_big (Item.Texts texts.now) }
{
    let mut left: usize = TEXTS_LIMIT;
    for text in texts {
        if text.len() > TEXT_LIMIT || text.len() + 1 > left {
            return true;
        }
        left -= text.len() + 1;
    }
    false
}

fn is_big(item: &Item) -> bool
    ensures { result ≡ spec.is_big item.now }
{
    match item {
        Item::Text(text) => text.len() > TEXT_LIMIT,
        Item::Texts(texts) => are_big(texts.as_slice()),
        _ => false,
    }
}

/// An item that is made, within the limits. What is too big is never told as want of memory.
#[inline(always)]
pub(crate) fn sized(run: &Progress<Kept>, item: Item) -> Result<Item, Stop>
    ensures rule { Answers result run.now (rules.sized item run.now) }
    ensures told { result ≢ Err NoMemory }
{
    if is_big(&item) {
        Err(Stop::Big)
    } else {
        Ok(item)
    }
}
