//! Reading replies.

ghost use Rattle.std.specs.Prelude.{◌≡◌, ◌≢◌, ◌<◌, ◌-◌, ◌^◌, ℕ, codes, length, IfOk, Ok, Err};
ghost use Rattle.predictive_parsing.specs.Bytes.{IsByte};
ghost use Rattle.predictive_parsing.specs.Columns.{IsColumn};
ghost use Rattle.predictive_parsing.specs.Reads.{Reads, OnlyRefuses};
ghost use Rattle.dtext.specs.code.Reading.{natural};
ghost use Rattle.dtext.specs.declared.error.TextError.TheVariants.{At};
ghost use Rattle.dtext.specs.declared.error.TextError.TheVariants as text;
ghost use Rattle.session_text.specs.declared.reply.Reply.{Reply};
ghost use Rattle.session_text.specs.Replies.{ReplyRule, IsReply};
ghost use Rattle.session_text.specs.code.Replies as spec;

use crate::limits::{LARGEST, LARGEST_CLIENT, LARGEST_COLUMN, LARGEST_SHARD};
use crate::line::name;
use crate::observation::next_obs;
use crate::reply::{Reply, Why};
use crate::words::{OTHER_REASONS, OTHER_REPLIES, ReplyWord, WhyWord};
use abort_witness::Witness;
use dtext::{TextError, finish, next_address, next_natural, next_outcome, next_part};
use plain_data::{OrNoMemory, Text};
use predictive_parsing::{Cursor, Refused};
use rdt_types::{Address, Outcome};
use std::alloc::Global;

/// A number behind a word.
#[tactic(auto, unfolding(crate::specs::code::Replies::numbered))]
pub(crate) fn numbered(cursor: &mut Cursor<u8>, word: &[u8]) -> Result<u64, OrNoMemory<Refused>>
    ensures read { Reads (spec.numbered word.now cursor.old) result cursor.new }
    ensures refusal { OnlyRefuses result }
{
    cursor.word(word)?;
    next_natural(cursor, LARGEST)
}

/// A column behind a space.
#[tactic(auto, unfolding(crate::specs::code::Replies::column))]
fn column(cursor: &mut Cursor<u8>) -> Result<u32, OrNoMemory<Refused>>
    ensures read { Reads (spec.column cursor.old) result cursor.new }
    ensures refusal { OnlyRefuses result }
{
    cursor.word(b" ")?;
    Ok(next_natural(cursor, LARGEST_COLUMN)? as u32)
}

/// A shard behind a space.
#[tactic(auto, unfolding(crate::specs::code::Replies::shard))]
fn shard(cursor: &mut Cursor<u8>) -> Result<u8, OrNoMemory<Refused>>
    ensures read { Reads (spec.shard cursor.old) result cursor.new }
    ensures refusal { OnlyRefuses result }
{
    cursor.word(b" ")?;
    Ok(next_natural(cursor, LARGEST_SHARD)? as u8)
}

/// A client behind a space.
#[tactic(auto, unfolding(crate::specs::code::Replies::client))]
fn client(cursor: &mut Cursor<u8>) -> Result<u32, OrNoMemory<Refused>>
    ensures read { Reads (spec.client cursor.old) result cursor.new }
    ensures refusal { OnlyRefuses result }
{
    cursor.word(b" ")?;
    Ok(next_natural(cursor, LARGEST_CLIENT)? as u32)
}

#[tactic(auto, unfolding(crate::specs::code::Replies::spaced_address))]
fn spaced_address(alloc: Global, cursor: &mut Cursor<u8>) -> Result<Address, OrNoMemory<Refused>>
    ensures { Reads (spec.spaced_address cursor.old) result cursor.new }
{
    cursor.word(b" ")?;
    next_address(alloc, cursor)
}

#[tactic(auto, unfolding(crate::specs::code::Replies::spaced_name))]
fn spaced_name(alloc: Global, cursor: &mut Cursor<u8>) -> Result<Text, OrNoMemory<Refused>>
    ensures { Reads (spec.spaced_name cursor.old) result cursor.new }
{
    cursor.word(b" ")?;
    name(alloc, cursor)
}

/// An outcome behind a space.
#[tactic(auto, unfolding(crate::specs::code::Replies::ending))]
fn ending(alloc: Global, cursor: &mut Cursor<u8>) -> Result<Outcome, OrNoMemory<Refused>>
    ensures { Reads (spec.ending cursor.old) result cursor.new }
{
    cursor.word(b" ")?;
    next_outcome(alloc, cursor)
}

/// What was observed, and which commit changed it.
#[tactic(auto, unfolding(crate::specs::code::Replies::witness))]
fn witness(alloc: Global, cursor: &mut Cursor<u8>) -> Result<Witness, OrNoMemory<Refused>>
    ensures { Reads (spec.witness cursor.old) result cursor.new }
{
    let address = spaced_address(alloc, cursor)?;
    cursor.word(b" ")?;
    let obs = next_obs(alloc, address.kind, cursor)?;
    let base = numbered(cursor, b" base ")?;
    cursor.word(b" clash ")?;
    let part = next_part(alloc, address.kind, cursor)?;
    let number = numbered(cursor, b" commit ")?;
    Ok(Witness {
        address,
        obs,
        base,
        part,
        number,
    })
}

#[tactic(auto, unfolding(crate::specs::code::Replies::commit))]
fn commit(alloc: Global, cursor: &mut Cursor<u8>) -> Result<Reply, OrNoMemory<Refused>>
    ensures { Reads (spec.commit cursor.old) result cursor.new }
{
    let number = numbered(cursor, b" ")?;
    Ok(Reply::Commit(number, ending(alloc, cursor)?))
}

#[tactic(auto, unfolding(crate::specs::code::Replies::read))]
fn read(alloc: Global, cursor: &mut Cursor<u8>) -> Result<Reply, OrNoMemory<Refused>>
    ensures { Reads (spec.read cursor.old) result cursor.new }
{
    let address = spaced_address(alloc, cursor)?;
    Ok(Reply::Read(address, numbered(cursor, b" base ")?))
}

#[tactic(auto, unfolding(crate::specs::code::Replies::prepared))]
fn prepared(cursor: &mut Cursor<u8>) -> Result<Reply, OrNoMemory<Refused>>
    ensures read { Reads (spec.prepared cursor.old) result cursor.new }
    ensures refusal { OnlyRefuses result }
{
    let shard = shard(cursor)?;
    Ok(Reply::Prepared(shard, numbered(cursor, b" front ")?))
}

#[tactic(auto, unfolding(crate::specs::code::Replies::followed))]
fn followed(cursor: &mut Cursor<u8>) -> Result<Reply, OrNoMemory<Refused>>
    ensures read { Reads (spec.followed cursor.old) result cursor.new }
    ensures refusal { OnlyRefuses result }
{
    let shard = shard(cursor)?;
    Ok(Reply::Followed(shard, numbered(cursor, b" front ")?))
}

#[tactic(auto, unfolding(crate::specs::code::Replies::at))]
fn at(alloc: Global, cursor: &mut Cursor<u8>) -> Result<Reply, OrNoMemory<Refused>>
    ensures { Reads (spec.at cursor.old) result cursor.new }
{
    let number = numbered(cursor, b" ")?;
    Ok(Reply::At(number, ending(alloc, cursor)?))
}

#[tactic(auto, unfolding(crate::specs::code::Replies::ran))]
fn ran(alloc: Global, cursor: &mut Cursor<u8>) -> Result<Reply, OrNoMemory<Refused>>
    ensures { Reads (spec.ran cursor.old) result cursor.new }
{
    let watch = spaced_name(alloc, cursor)?;
    let number = numbered(cursor, b" ")?;
    Ok(Reply::Ran(watch, number, ending(alloc, cursor)?))
}

#[tactic(auto, unfolding(crate::specs::code::Replies::late))]
fn late(cursor: &mut Cursor<u8>) -> Result<Reply, OrNoMemory<Refused>>
    ensures read { Reads (spec.late cursor.old) result cursor.new }
    ensures refusal { OnlyRefuses result }
{
    let number = numbered(cursor, b" ")?;
    Ok(Reply::Late(number, numbered(cursor, b" ")?))
}

#[tactic(auto, unfolding(crate::specs::code::Replies::ahead_of))]
fn ahead_of(cursor: &mut Cursor<u8>) -> Result<Reply, OrNoMemory<Refused>>
    ensures read { Reads (spec.ahead_of cursor.old) result cursor.new }
    ensures refusal { OnlyRefuses result }
{
    let number = numbered(cursor, b" ")?;
    Ok(Reply::Ahead(number, numbered(cursor, b" ")?))
}

#[tactic(auto, unfolding(crate::specs::code::Replies::held))]
fn held(cursor: &mut Cursor<u8>) -> Result<Reply, OrNoMemory<Refused>>
    ensures read { Reads (spec.held cursor.old) result cursor.new }
    ensures refusal { OnlyRefuses result }
{
    let client = client(cursor)?;
    Ok(Reply::Held(client, numbered(cursor, b" commit ")?))
}

/// What stands behind the word for why a line is refused.
#[tactic(auto, unfolding(crate::specs::code::Replies::why_form))]
fn why_form(word: WhyWord, cursor: &mut Cursor<u8>) -> Result<Why, OrNoMemory<Refused>>
    ensures read { Reads (spec.why_form word cursor.old) result cursor.new }
    ensures refusal { OnlyRefuses result }
{
    match word {
        WhyWord::Long => Ok(Why::Long),
        WhyWord::Client => Ok(Why::Client),
        WhyWord::Verb => Ok(Why::Verb),
        WhyWord::Syntax => Ok(Why::Syntax(column(cursor)?)),
        WhyWord::BadType => Ok(Why::BadType(column(cursor)?)),
        WhyWord::Writes => Ok(Why::Writes(column(cursor)?)),
        WhyWord::Name => Ok(Why::Name),
        WhyWord::Busy => Ok(Why::Busy),
        WhyWord::NoAttempt => Ok(Why::NoAttempt),
    }
}

/// Why a line is refused.
#[tactic(auto, unfolding(crate::specs::code::Replies::why_read))]
fn why_read(cursor: &mut Cursor<u8>) -> Result<Why, OrNoMemory<Refused>>
    ensures read { Reads (spec.why_read cursor.old) result cursor.new }
    ensures refusal { OnlyRefuses result }
{
    let word = cursor.one_of(WhyWord::Long, &OTHER_REASONS)?;
    why_form(word, cursor)
}

#[tactic(auto, unfolding(crate::specs::code::Replies::refused))]
fn refused(cursor: &mut Cursor<u8>) -> Result<Reply, OrNoMemory<Refused>>
    ensures read { Reads (spec.refused cursor.old) result cursor.new }
    ensures refusal { OnlyRefuses result }
{
    cursor.word(b" ")?;
    Ok(Reply::Refused(why_read(cursor)?))
}

/// What stands behind the first word.
#[tactic(auto, unfolding(crate::specs::code::Replies::form))]
fn form(
    alloc: Global,
    word: ReplyWord,
    cursor: &mut Cursor<u8>,
) -> Result<Reply, OrNoMemory<Refused>>
    ensures { Reads (spec.form word cursor.old) result cursor.new }
{
    match word {
        ReplyWord::Commit => commit(alloc, cursor),
        ReplyWord::Abort => Ok(Reply::Abort(witness(alloc, cursor)?)),
        ReplyWord::Read => read(alloc, cursor),
        ReplyWord::Prepare => prepared(cursor),
        ReplyWord::Follow => followed(cursor),
        ReplyWord::At => at(alloc, cursor),
        ReplyWord::Run => ran(alloc, cursor),
        ReplyWord::Current => Ok(Reply::Current(numbered(cursor, b" ")?)),
        ReplyWord::Idle => Ok(Reply::Idle),
        ReplyWord::Seen => Ok(Reply::Seen(numbered(cursor, b" ")?)),
        ReplyWord::Late => late(cursor),
        ReplyWord::Ahead => ahead_of(cursor),
        ReplyWord::Held => held(cursor),
        ReplyWord::Full => Ok(Reply::Full(column(cursor)?)),
        ReplyWord::Disk => Ok(Reply::Disk),
        ReplyWord::Dropped => Ok(Reply::Dropped),
        ReplyWord::Refused => refused(cursor),
    }
}

/// A reply.
#[tactic(auto, unfolding(crate::specs::code::Replies::reply_read))]
pub(crate) fn reply(alloc: Global, cursor: &mut Cursor<u8>) -> Result<Reply, OrNoMemory<Refused>>
    ensures { Reads (spec.reply_read cursor.old) result cursor.new }
{
    let word = cursor.one_of(ReplyWord::Commit, &OTHER_REPLIES)?;
    form(alloc, word, cursor)
}

/// Reads a reply.
pub fn read_reply(alloc: Global, bytes: &[u8]) -> Result<Reply, TextError>
    requires { length bytes.now < 2 ^ 32 - 1 }
    ensures read { IfOk result (λ reply. IsReply bytes.now reply) }
    ensures spellings { (reply : Reply) → IsReply bytes.now reply → result ≢ Err text.NoMemory → result ≡ Ok reply }
    ensures refused { (column : ℕ) → result ≡ Err (At column) → IsColumn IsByte ReplyRule bytes.now column }
{
    let mut cursor = Cursor::new(bytes);
    let found = reply(alloc, &mut cursor);
    finish(found, &cursor, bytes.len())
}
