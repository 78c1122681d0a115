//! Reading lines.

ghost use Rattle.std.specs.Prelude.{◌≡◌, ◌≢◌, ◌∷◌, ℕ, Ok, Err, IfOk};
ghost use Rattle.plain_data.specs.declared.or_no_memory.OrNoMemory.TheVariants as stop;
ghost use Rattle.predictive_parsing.specs.Reading as reading;
ghost use Rattle.predictive_parsing.specs.Reading.{passing, run, run_up_to, whole_of};
ghost use Rattle.predictive_parsing.specs.Reads.{Reads, OnlyRefuses};
ghost use Rattle.dtext.specs.Characters.{is_blank, is_letter, is_word};
ghost use Rattle.dtext.specs.code.Reading.{positive};
ghost use Rattle.session_text.specs.declared.verb.Verb.{Verb};
ghost use Rattle.session_text.specs.declared.verb.VerbError.TheVariants.{BadVerb, NoMemory};
ghost use Rattle.session_text.specs.Answers.{verb_answer};
ghost use Rattle.session_text.specs.Lines.{IsVerb, is_solid, is_any};
ghost use Rattle.session_text.specs.code.Lines as spec;

use crate::limits::{LARGEST, MOST_ATTEMPTS, NAME_REST};
use crate::verb::{Verb, VerbError};
use crate::words::{OTHER_VERBS, VerbWord};
use dtext::{is_blank, is_letter, is_word, next_natural, next_positive};
use plain_data::{OrNoMemory, Text};
use predictive_parsing::{Cursor, Refused};
use std::alloc::{AllocError, Global};

/// The byte, where it is a blank.
fn blank(byte: u8) -> Option<u8>
    ensures { result ≡ passing is_blank byte }
{
    if is_blank(byte) { Some(byte) } else { None }
}

/// The byte, where it is none.
fn no_blank(byte: u8) -> Option<u8>
    ensures { result ≡ passing is_solid byte }
{
    if is_blank(byte) { None } else { Some(byte) }
}

/// The byte, where it is a letter.
fn letter(byte: u8) -> Option<u8>
    ensures { result ≡ passing is_letter byte }
{
    if is_letter(byte) { Some(byte) } else { None }
}

/// Takes blanks.
fn blanks<'a>(cursor: &mut Cursor<'a, u8>) -> &'a [u8]
    ensures { run is_blank cursor.old ≡ Ok (result.now, cursor.new) }
{
    cursor.run(|byte| is_blank(*byte))
}

/// Takes blanks, one at least.
#[tactic(auto, unfolding(crate::specs::code::Lines::gap))]
fn gap(cursor: &mut Cursor<u8>) -> Result<(), OrNoMemory<Refused>>
    ensures read { Reads (spec.gap cursor.old) result cursor.new }
    ensures refusal { OnlyRefuses result }
{
    cursor.take(|byte| blank(*byte))?;
    blanks(cursor);
    Ok(())
}

/// All that is left.
fn all<'a>(cursor: &mut Cursor<'a, u8>) -> &'a [u8]
    ensures { run is_any cursor.old ≡ Ok (result.now, cursor.new) }
{
    cursor.run(|_| true)
}

/// A byte and others, as a text, whose memory is taken at once.
fn text_of(alloc: Global, first: u8, others: &[u8]) -> Result<Text, AllocError>
    ensures { IfOk result (λ text. text ≡ first ∷ others.now) }
{
    let mut bytes = Vec::with_capacity(alloc, others.len().saturating_add(1))?;
    bytes.push(first)?;
    bytes.extend_from_slice(others)?;
    Ok(Text::from_vec(bytes))
}

/// The rest of a line.
#[tactic(auto, unfolding(crate::specs::code::Lines::rest, crate::specs::code::Lines::solid))]
fn rest(alloc: Global, cursor: &mut Cursor<u8>) -> Result<Text, OrNoMemory<Refused>>
    ensures { Reads (spec.rest cursor.old) result cursor.new }
{
    if cursor.sees(|byte| !is_blank(*byte)) {
        let first = cursor.take(|byte| no_blank(*byte))?;
        let others = all(cursor);
        Ok(text_of(alloc, first, others)?)
    } else {
        Ok(Text::new(alloc))
    }
}

/// The rest of a line behind blanks.
#[tactic(auto, unfolding(crate::specs::code::Lines::body))]
fn body(alloc: Global, cursor: &mut Cursor<u8>) -> Result<Text, OrNoMemory<Refused>>
    ensures { Reads (spec.body cursor.old) result cursor.new }
{
    if cursor.sees(|byte| is_blank(*byte)) {
        gap(cursor)?;
        rest(alloc, cursor)
    } else {
        Ok(Text::new(alloc))
    }
}

/// What a name goes on with.
fn name_rest<'a>(cursor: &mut Cursor<'a, u8>) -> &'a [u8]
    ensures { run_up_to NAME_REST is_word cursor.old ≡ Ok (result.now, cursor.new) }
{
    cursor.run_up_to(NAME_REST, |byte| is_word(*byte))
}

/// A name.
#[tactic(auto, unfolding(crate::specs::code::Lines::name))]
pub(crate) fn name(alloc: Global, cursor: &mut Cursor<u8>) -> Result<Text, OrNoMemory<Refused>>
    ensures { Reads (spec.name cursor.old) result cursor.new }
{
    let first = cursor.take(|byte| letter(*byte))?;
    let others = name_rest(cursor);
    Ok(text_of(alloc, first, others)?)
}

/// What asks for this alone: nothing but blanks may follow.
#[tactic(auto, unfolding(crate::specs::code::Lines::alone))]
fn alone(asked: Verb, cursor: &mut Cursor<u8>) -> Result<Verb, OrNoMemory<Refused>>
    ensures read { Reads (spec.alone asked cursor.old) result cursor.new }
    ensures refusal { OnlyRefuses result }
{
    blanks(cursor);
    Ok(asked)
}

/// How many attempts.
#[tactic(auto, unfolding(dtext::specs::code::Reading::positive))]
fn attempts(cursor: &mut Cursor<u8>) -> Result<u8, OrNoMemory<Refused>>
    ensures read { Reads (positive MOST_ATTEMPTS cursor.old) result cursor.new }
    ensures refusal { OnlyRefuses result }
{
    Ok(next_positive(cursor, MOST_ATTEMPTS)? as u8)
}

#[tactic(auto, unfolding(crate::specs::code::Lines::tries))]
fn tries(alloc: Global, cursor: &mut Cursor<u8>) -> Result<Verb, OrNoMemory<Refused>>
    ensures { Reads (spec.tries cursor.old) result cursor.new }
{
    gap(cursor)?;
    let attempts = attempts(cursor)?;
    Ok(Verb::Try(attempts, body(alloc, cursor)?))
}

#[tactic(auto, unfolding(crate::specs::code::Lines::at))]
fn at(alloc: Global, cursor: &mut Cursor<u8>) -> Result<Verb, OrNoMemory<Refused>>
    ensures { Reads (spec.at cursor.old) result cursor.new }
{
    gap(cursor)?;
    let number = next_natural(cursor, LARGEST)?;
    Ok(Verb::At(number, body(alloc, cursor)?))
}

#[tactic(auto, unfolding(crate::specs::code::Lines::watch))]
fn watch(alloc: Global, cursor: &mut Cursor<u8>) -> Result<Verb, OrNoMemory<Refused>>
    ensures { Reads (spec.watch cursor.old) result cursor.new }
{
    gap(cursor)?;
    let watched = name(alloc, cursor)?;
    Ok(Verb::Watch(watched, body(alloc, cursor)?))
}

#[tactic(auto, unfolding(crate::specs::code::Lines::unwatch))]
fn unwatch(alloc: Global, cursor: &mut Cursor<u8>) -> Result<Verb, OrNoMemory<Refused>>
    ensures { Reads (spec.unwatch cursor.old) result cursor.new }
{
    gap(cursor)?;
    let watched = name(alloc, cursor)?;
    alone(Verb::Unwatch(watched), cursor)
}

/// What stands behind a word.
#[tactic(auto, unfolding(crate::specs::code::Lines::form))]
fn form(alloc: Global, word: VerbWord, cursor: &mut Cursor<u8>) -> Result<Verb, OrNoMemory<Refused>>
    ensures { Reads (spec.form word cursor.old) result cursor.new }
{
    match word {
        VerbWord::Do => Ok(Verb::Do(body(alloc, cursor)?)),
        VerbWord::Try => tries(alloc, cursor),
        VerbWord::Begin => Ok(Verb::Begin(body(alloc, cursor)?)),
        VerbWord::Step => alone(Verb::Step, cursor),
        VerbWord::Go => alone(Verb::Go, cursor),
        VerbWord::Drop => alone(Verb::Drop, cursor),
        VerbWord::Sync => alone(Verb::Sync, cursor),
        VerbWord::Wait => alone(Verb::Wait, cursor),
        VerbWord::Seen => alone(Verb::Seen, cursor),
        VerbWord::Quit => alone(Verb::Quit, cursor),
        VerbWord::Look => Ok(Verb::Look(body(alloc, cursor)?)),
        VerbWord::At => at(alloc, cursor),
        VerbWord::Watch => watch(alloc, cursor),
        VerbWord::Unwatch => unwatch(alloc, cursor),
    }
}

/// A line.
#[tactic(auto, unfolding(crate::specs::code::Lines::line))]
fn line(alloc: Global, cursor: &mut Cursor<u8>) -> Result<Verb, OrNoMemory<Refused>>
    ensures { Reads (spec.line cursor.old) result cursor.new }
{
    blanks(cursor);
    let word = cursor.one_of(VerbWord::Do, &OTHER_VERBS)?;
    form(alloc, word, cursor)
}

/// What was read, where nothing is left behind it.
fn finish_line(
    found: Result<Verb, OrNoMemory<Refused>>,
    cursor: &Cursor<u8>,
) -> Result<Verb, VerbError>
    ensures answer { (outcome : reading.Outcome ℕ Verb) → Reads outcome found cursor.now → found ≢ Err stop.NoMemory → result ≡ verb_answer (whole_of outcome) }
    ensures memory { found ≡ Err stop.NoMemory → result ≡ Err NoMemory }
{
    match found {
        Ok(verb) => {
            if cursor.len() == 0 {
                Ok(verb)
            } else {
                Err(VerbError::BadVerb)
            }
        }
        Err(OrNoMemory::Cause(Refused)) => Err(VerbError::BadVerb),
        Err(OrNoMemory::NoMemory) => Err(VerbError::NoMemory),
    }
}

/// Reads a line: what it asks for.
pub fn read_verb(alloc: Global, bytes: &[u8]) -> Result<Verb, VerbError>
    ensures read { IfOk result (λ verb. IsVerb bytes.now verb) }
    ensures forms { (verb : Verb) → IsVerb bytes.now verb → result ≢ Err NoMemory → result ≡ Ok verb }
    ensures bad { result ≡ Err BadVerb → (verb : Verb) → IsVerb bytes.now verb → ⊥ }
{
    let mut cursor = Cursor::new(bytes);
    let found = line(alloc, &mut cursor);
    finish_line(found, &cursor)
}
