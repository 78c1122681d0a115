//! Printing replies.

ghost use Rattle.std.specs.Prelude.{◌≡◌, ◌++◌, codes, IfOk, OnOk};
ghost use Rattle.std.specs.Fmt.{decimal, signed_decimal};
ghost use Rattle.dtext.specs.Printing.{Grows, printed_outcome, printed_part};
ghost use Rattle.rdt_types.specs.Printed.{printed_text, printed_address};
ghost use Rattle.session_text.specs.Printing as spec;

use crate::reply::{Reply, Why};
use crate::words::{ReplyWord, WhyWord};
use abort_witness::Witness;
use conflict_table::Obs;
use dtext::{push_address, push_natural, push_number, push_outcome, push_part, push_text};
use plain_data::Text;
use predictive_parsing::Spelled;
use rdt_types::{Address, Outcome};
use std::alloc::{AllocError, Global};

/// Adds a word, and a number behind it.
fn push_counted(out: &mut Text, word: &[u8], number: u64) -> Result<(), AllocError>
    ensures ok { OnOk result (out.new ≡ out.old ++ (word.now ++ decimal number)) }
    ensures grows { Grows out.old out.new }
{
    out.extend_from_slice(word)?;
    push_natural(out, number)
}

/// Adds a word, and a text in quotes behind it.
fn push_named(out: &mut Text, word: &[u8], text: &Text) -> Result<(), AllocError>
    ensures ok { OnOk result (out.new ≡ out.old ++ (word.now ++ printed_text text.now)) }
    ensures grows { Grows out.old out.new }
{
    out.extend_from_slice(word)?;
    push_text(out, text)
}

/// Adds a word, and a number of 64 bits with its sign behind it.
fn push_signed(out: &mut Text, word: &[u8], number: i64) -> Result<(), AllocError>
    ensures ok { OnOk result (out.new ≡ out.old ++ (word.now ++ signed_decimal number)) }
    ensures grows { Grows out.old out.new }
{
    out.extend_from_slice(word)?;
    push_number(out, number)
}

fn push_obs(out: &mut Text, obs: &Obs) -> Result<(), AllocError>
    ensures ok { OnOk result (out.new ≡ out.old ++ spec.printed_obs obs.now) }
    ensures grows { Grows out.old out.new }
{
    match obs {
        Obs::BoolIs | Obs::CounterIs | Obs::TextIs => out.extend_from_slice(b"whole"),
        Obs::SetHas(element) => push_named(out, b"has ", element),
        Obs::HashAt(field) => push_named(out, b"at ", field),
        Obs::ListAt(place) => push_counted(out, b"at ", *place),
        Obs::SetAll | Obs::HashAll | Obs::ListAll => out.extend_from_slice(b"all"),
        Obs::PeakIs(value) => push_signed(out, b"is ", *value),
        Obs::PeakOver(limit, _) => push_signed(out, b"over ", *limit),
    }
}

/// Adds the word for why a line is refused, and a column behind it.
fn push_placed(out: &mut Text, word: WhyWord, column: u32) -> Result<(), AllocError>
    ensures ok { OnOk result (out.new ≡ out.old
        ++ (spec.why_of word ++ spec.counted (codes " ") column)) }
    ensures grows { Grows out.old out.new }
{
    out.extend_from_slice(word.bytes())?;
    push_counted(out, b" ", u64::from(column))
}

fn push_why(out: &mut Text, why: Why) -> Result<(), AllocError>
    ensures ok { OnOk result (out.new ≡ out.old ++ spec.printed_why why) }
    ensures grows { Grows out.old out.new }
{
    match why {
        Why::Long => out.extend_from_slice(WhyWord::Long.bytes()),
        Why::Client => out.extend_from_slice(WhyWord::Client.bytes()),
        Why::Verb => out.extend_from_slice(WhyWord::Verb.bytes()),
        Why::Syntax(column) => push_placed(out, WhyWord::Syntax, column),
        Why::BadType(column) => push_placed(out, WhyWord::BadType, column),
        Why::Writes(column) => push_placed(out, WhyWord::Writes, column),
        Why::Name => out.extend_from_slice(WhyWord::Name.bytes()),
        Why::Busy => out.extend_from_slice(WhyWord::Busy.bytes()),
        Why::NoAttempt => out.extend_from_slice(WhyWord::NoAttempt.bytes()),
    }
}

/// Adds what was observed.
fn push_observed(out: &mut Text, witness: &Witness) -> Result<(), AllocError>
    ensures ok { OnOk result (out.new ≡ out.old ++ spec.printed_observed witness.now) }
    ensures grows { Grows out.old out.new }
{
    push_address(out, &witness.address)?;
    out.extend_from_slice(b" ")?;
    push_obs(out, &witness.obs)?;
    push_counted(out, b" base ", witness.base)
}

/// Adds what changed the observation, and by which commit.
fn push_clash(out: &mut Text, witness: &Witness) -> Result<(), AllocError>
    ensures ok { OnOk result (out.new ≡ out.old ++ (codes " clash "
        ++ (printed_part witness.now.part ++ (codes " commit " ++ decimal witness.now.number)))) }
    ensures grows { Grows out.old out.new }
{
    out.extend_from_slice(b" clash ")?;
    push_part(out, &witness.part)?;
    push_counted(out, b" commit ", witness.number)
}

fn push_witness(out: &mut Text, witness: &Witness) -> Result<(), AllocError>
    ensures ok { OnOk result (out.new ≡ out.old ++ spec.printed_witness witness.now) }
    ensures grows { Grows out.old out.new }
{
    push_observed(out, witness)?;
    push_clash(out, witness)
}

/// Adds some bytes, a number behind a space, and an outcome behind another.
fn push_result(
    out: &mut Text,
    head: &[u8],
    number: u64,
    outcome: &Outcome,
) -> Result<(), AllocError>
    ensures ok { OnOk result (out.new ≡ out.old ++ (head.now
        ++ (codes " " ++ (decimal number ++ (codes " " ++ printed_outcome outcome.now))))) }
    ensures grows { Grows out.old out.new }
{
    out.extend_from_slice(head)?;
    push_counted(out, b" ", number)?;
    out.extend_from_slice(b" ")?;
    push_outcome(out, outcome)
}

/// Adds a first word, and a number behind it.
fn push_numbered(out: &mut Text, word: ReplyWord, number: u64) -> Result<(), AllocError>
    ensures ok { OnOk result (out.new ≡ out.old ++ spec.worded word (decimal number)) }
    ensures grows { Grows out.old out.new }
{
    out.extend_from_slice(word.bytes())?;
    push_counted(out, b" ", number)
}

/// Adds a first word and a number, and what stands between them and another number.
fn push_both(
    out: &mut Text,
    word: ReplyWord,
    number: u64,
    between: &[u8],
    other: u64,
) -> Result<(), AllocError>
    ensures ok { OnOk result (out.new ≡ out.old
        ++ spec.worded word (decimal number ++ (between.now ++ decimal other))) }
    ensures grows { Grows out.old out.new }
{
    push_numbered(out, word, number)?;
    push_counted(out, between, other)
}

fn push_read(out: &mut Text, address: &Address, base: u64) -> Result<(), AllocError>
    ensures ok { OnOk result (out.new ≡ out.old
        ++ spec.worded ReplyWord.Read
        (printed_address address.now ++ (codes " base " ++ decimal base))) }
    ensures grows { Grows out.old out.new }
{
    out.extend_from_slice(ReplyWord::Read.bytes())?;
    out.extend_from_slice(b" ")?;
    push_address(out, address)?;
    push_counted(out, b" base ", base)
}

fn push_ran(out: &mut Text, name: &Text, number: u64, outcome: &Outcome) -> Result<(), AllocError>
    ensures ok { OnOk result (out.new ≡ out.old
        ++ spec.worded ReplyWord.Run
        (name.now ++ (codes " " ++ (decimal number ++ (codes " " ++ printed_outcome outcome.now))))) }
    ensures grows { Grows out.old out.new }
{
    out.extend_from_slice(ReplyWord::Run.bytes())?;
    out.extend_from_slice(b" ")?;
    push_result(out, name.as_slice(), number, outcome)
}

fn push_abort(out: &mut Text, witness: &Witness) -> Result<(), AllocError>
    ensures ok { OnOk result (out.new ≡ out.old
        ++ spec.worded ReplyWord.Abort (spec.printed_witness witness.now)) }
    ensures grows { Grows out.old out.new }
{
    out.extend_from_slice(ReplyWord::Abort.bytes())?;
    out.extend_from_slice(b" ")?;
    push_witness(out, witness)
}

fn push_refused(out: &mut Text, why: Why) -> Result<(), AllocError>
    ensures ok { OnOk result (out.new ≡ out.old
        ++ spec.worded ReplyWord.Refused (spec.printed_why why)) }
    ensures grows { Grows out.old out.new }
{
    out.extend_from_slice(ReplyWord::Refused.bytes())?;
    out.extend_from_slice(b" ")?;
    push_why(out, why)
}

/// Adds a reply.
pub fn push_reply(out: &mut Text, reply: &Reply) -> Result<(), AllocError>
    ensures ok { OnOk result (out.new ≡ out.old ++ spec.printed_reply reply.now) }
    ensures grows { Grows out.old out.new }
{
    match reply {
        Reply::Commit(n, outcome) => push_result(out, ReplyWord::Commit.bytes(), *n, outcome),
        Reply::Abort(witness) => push_abort(out, witness),
        Reply::Read(address, base) => push_read(out, address, *base),
        Reply::Prepared(shard, front) => {
            let shard = u64::from(*shard);
            push_both(out, ReplyWord::Prepare, shard, b" front ", *front)
        }
        Reply::Followed(shard, front) => {
            let shard = u64::from(*shard);
            push_both(out, ReplyWord::Follow, shard, b" front ", *front)
        }
        Reply::At(n, outcome) => push_result(out, ReplyWord::At.bytes(), *n, outcome),
        Reply::Ran(name, n, outcome) => push_ran(out, name, *n, outcome),
        Reply::Current(n) => push_numbered(out, ReplyWord::Current, *n),
        Reply::Idle => out.extend_from_slice(ReplyWord::Idle.bytes()),
        Reply::Seen(n) => push_numbered(out, ReplyWord::Seen, *n),
        Reply::Late(n, horizon) => push_both(out, ReplyWord::Late, *n, b" ", *horizon),
        Reply::Ahead(n, seen) => push_both(out, ReplyWord::Ahead, *n, b" ", *seen),
        Reply::Held(client, number) => {
            let client = u64::from(*client);
            push_both(out, ReplyWord::Held, client, b" commit ", *number)
        }
        Reply::Full(limit) => push_numbered(out, ReplyWord::Full, u64::from(*limit)),
        Reply::Disk => out.extend_from_slice(ReplyWord::Disk.bytes()),
        Reply::Dropped => out.extend_from_slice(ReplyWord::Dropped.bytes()),
        Reply::Refused(why) => push_refused(out, *why),
    }
}

/// Prints a reply.
pub fn print_reply(alloc: Global, reply: &Reply) -> Result<Text, AllocError>
    ensures { IfOk result (λ out. out ≡ spec.printed_reply reply.now) }
{
    let mut out = Text::new(alloc);
    push_reply(&mut out, reply)?;
    Ok(out)
}
