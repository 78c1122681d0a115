//! The text of a turn: each reply in its printed form, with a newline.

ghost use Rattle.std.specs.Prelude.{◌≡◌, ◌++◌, IfOk, OnOk};
ghost use Rattle.diamond_server.specs.Talking as spec;

use plain_data::Text;
use session_core::Turn;
use session_text::{Reply, push_reply};
use std::alloc::{AllocError, Global};

/// Adds the line of one reply.
fn push_line(lines: &mut Text, reply: &Reply) -> Result<(), AllocError>
    ensures { OnOk result (lines.new ≡ lines.old ++ spec.reply_line reply.now) }
{
    push_reply(lines, reply)?;
    lines.push(b'\n')
}

/// The line of one reply.
pub fn reply_line(alloc: Global, reply: &Reply) -> Result<Text, AllocError>
    ensures { IfOk result (λ line. line ≡ spec.reply_line reply.now) }
{
    let mut line = Text::new(alloc);
    push_line(&mut line, reply)?;
    Ok(line)
}

/// The lines of replies, in their order.
fn reply_lines(alloc: Global, replies: &[Reply]) -> Result<Text, AllocError>
    ensures { IfOk result (λ lines. lines ≡ spec.reply_lines replies.now) }
{
    let mut lines = Text::new(alloc);
    for reply in replies {
        push_line(&mut lines, reply)?;
    }
    Ok(lines)
}

/// The text of a turn.
pub fn turn_text(alloc: Global, turn: &Turn) -> Result<Text, AllocError>
    ensures { IfOk result (λ text. text ≡ spec.turn_text turn.now) }
{
    match turn {
        Turn::Quiet => Ok(Text::new(alloc)),
        Turn::Replies(replies) => reply_lines(alloc, replies.as_slice()),
        Turn::WaitWanted => Ok(Text::new(alloc)),
        Turn::Ended(replies) => reply_lines(alloc, replies.as_slice()),
    }
}
