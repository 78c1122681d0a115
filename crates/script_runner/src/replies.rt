//! Reply lines: whom each names, and the words of what is answered.

ghost use Rattle.std.specs.Prelude.{◌≡◌, ◌++◌, Some, OnOk};
ghost use Rattle.session_text.specs.Printing.{printed_reply};
ghost use Rattle.script_runner.specs.Play as spec;

use dtext::push_natural;
use plain_data::Text;
use session_core::Turn;
use session_text::{Reply, Why, push_reply};
use std::alloc::AllocError;

/// Adds the client's number, or a hyphen.
fn push_named(text: &mut Text, client: Option<u32>) -> Result<(), AllocError>
    ensures { OnOk result (text.new ≡ text.old ++ spec.named client) }
{
    match client {
        Some(client) => push_natural(text, u64::from(client)),
        None => text.extend_from_slice(b"-"),
    }
}

/// Adds the line of one reply.
pub fn push_line(lines: &mut Text, client: Option<u32>, reply: &Reply) -> Result<(), AllocError>
    ensures { OnOk result
        (lines.new ≡ lines.old ++ spec.reply_line client (printed_reply reply.now)) }
{
    push_named(lines, client)?;
    lines.push(b' ')?;
    push_reply(lines, reply)?;
    lines.push(b'\n')
}

/// Adds the line of a refusal.
pub fn push_refused(lines: &mut Text, client: Option<u32>, reason: Why) -> Result<(), AllocError>
    ensures { OnOk result (lines.new ≡ lines.old ++ spec.refused_line client reason) }
{
    push_line(lines, client, &Reply::Refused(reason))
}

/// Adds the lines of replies, in their order.
fn push_lines(lines: &mut Text, client: u32, replies: &[Reply]) -> Result<(), AllocError>
    ensures { OnOk result (lines.new ≡ lines.old ++ spec.reply_lines (Some client) replies.now) }
{
    for reply in replies {
        push_line(lines, Some(client), reply)?;
    }
    Ok(())
}

/// Adds the lines of a turn.
pub fn push_turn(lines: &mut Text, client: u32, turn: &Turn) -> Result<(), AllocError>
    ensures { OnOk result (lines.new ≡ lines.old ++ spec.turn_lines client turn.now) }
{
    match turn {
        Turn::Quiet => Ok(()),
        Turn::Replies(replies) => push_lines(lines, client, replies.as_slice()),
        Turn::WaitWanted => push_line(lines, Some(client), &Reply::Idle),
        Turn::Ended(replies) => push_lines(lines, client, replies.as_slice()),
    }
}
