//! What each line of a script does.

ghost use Rattle.std.specs.Prelude.{◌≡◌, ◌≤◌, ◌<◌, length, if◌then◌else◌, IfSome, OnOk, None, Some};
ghost use Rattle.dio_core.specs.Lines.{IsShort};
ghost use Rattle.docc_prepare.specs.declared.limits.TheConstants.{CLIENTS};
ghost use Rattle.docc_prepare.specs.Stores.{known_by};
ghost use Rattle.local_world.specs.Stored.{store_of};
ghost use Rattle.session_core.specs.Lines.{line_of};
ghost use Rattle.session_core.specs.Holding.{Attends};
ghost use Rattle.script_runner.specs.code.Lines.{Answers, Does, IsOver};
ghost use Rattle.script_runner.specs.Play as spec;
ghost use Rattle.script_runner.specs.Worlds.{world_of, Stands};

use crate::replies::{push_line, push_refused, push_turn};
use crate::words::{client_named, shard_named, split_word};
use crate::world::Script;
use client_watches::Means;
use dio_core::{LONGEST_LINE, Line};
use local_world::{View, World};
use plain_data::Text;
use session_core::{Session, Turn, is_quiet, trimmed_start};
use session_text::{Reply, Why};
use std::alloc::AllocError;
use watch_reruns::Rerunner;

/// What a client says in a line.
#[derive(Clone, Copy)]
struct Spoken<'t> {
    client: u32,
    /// What follows the client's number.
    text: &'t [u8],
}

/// Does a line of a session over its client's view. The store of one thread never fails, so an error is want of memory.
fn over_view<R: Rerunner>(
    means: &Means<'_, R>,
    view: &mut View<'_>,
    session: &mut Session,
    text: &[u8],
) -> Result<Turn, AllocError>
    requires attends { Attends (known_by (store_of view.old.world.now) view.old.client)
        session.old }
    requires short { length text.now ≤ LONGEST_LINE }
    ensures over { IsOver result (store_of view.new.world.now) session.new
        (spec.play_line view.old.client (store_of view.old.world.now) session.old
        (line_of text.now)) }
    ensures home { view.new.world.ghost_name ≡ view.old.world.ghost_name }
{
    match session.line_by(means.alloc, view, means.reruns, text) {
        Ok(turn) => Ok(turn),
        Err(_) => Err(AllocError),
    }
}

/// Does a line of a client's session.
fn in_world<R: Rerunner>(
    means: &Means<'_, R>,
    world: &mut World,
    session: &mut Session,
    spoken: Spoken<'_>,
) -> Result<Turn, AllocError>
    requires client { spoken.client < CLIENTS }
    requires attends { Attends (known_by (store_of world.old) spoken.client) session.old }
    requires short { length spoken.text.now ≤ LONGEST_LINE }
    ensures over { IsOver result (store_of world.new) session.new
        (spec.play_line spoken.entry.client (store_of world.old) session.old
        (line_of spoken.entry.text.now)) }
{
    let Spoken { client, text } = spoken;
    let mut view = View { world, client };
    over_view(means, &mut view, session, text)
}

/// Whether a turn ends its session.
fn is_end(turn: &Turn) -> bool
    ensures { (session : Session) →
        spec.left session turn.now ≡ (if result then None else Some session) }
{
    matches!(turn, Turn::Ended(_))
}

/// `follow K`.
fn follow_line(
    world: &mut World,
    client: u32,
    shard: Option<u8>,
    output: &mut Text,
) -> Result<(), AllocError>
    requires client { client < CLIENTS }
    requires below { IfSome shard (λ k. k < world.old.shards) }
    ensures { (session : Session) →
        Does result output.old output.new (store_of world.new) (Some session)
        (spec.follow_line client (store_of world.old) session shard) }
{
    match shard {
        Some(shard) => {
            let front = world.follow(client, shard)?;
            push_line(output, Some(client), &Reply::Followed(shard, front))
        }
        None => push_refused(output, Some(client), Why::Verb),
    }
}

/// What follows a client, whose session stands at the place.
fn client_line<R: Rerunner>(
    means: &Means<'_, R>,
    world: &mut World,
    place: &mut Option<Session>,
    spoken: Spoken<'_>,
    output: &mut Text,
) -> Result<(), AllocError>
    requires client { spoken.client < CLIENTS }
    requires attends { IfSome place.old (Attends (known_by (store_of world.old) spoken.client)) }
    requires short { length spoken.text.now ≤ LONGEST_LINE }
    ensures { Does result output.old output.new (store_of world.new) place.new
        (spec.client_line spoken.entry.client (store_of world.old) place.old
        spoken.entry.text.now) }
{
    let Spoken { client, text } = spoken;
    let Some(session) = place else {
        return push_refused(output, None, Why::Client);
    };
    let (word, behind) = split_word(text);
    if word == b"follow".as_slice() {
        let shard = shard_named(world.shards(), behind);
        return follow_line(world, client, shard, output);
    }
    let turn = in_world(means, world, session, spoken)?;
    if is_end(&turn) {
        *place = None;
    }
    push_turn(output, client, &turn)
}

/// A line without the blanks at its beginning: its first word names a client or none.
fn text_line<R: Rerunner>(
    means: &Means<'_, R>,
    script: &mut Script,
    text: &[u8],
    output: &mut Text,
) -> Result<(), AllocError>
    requires stands { Stands (world_of script.old) }
    requires short { length text.now ≤ LONGEST_LINE }
    ensures { Answers result output.old output.new (world_of script.new)
        (spec.text_line (world_of script.old) text.now) }
{
    if is_quiet(text) {
        return Ok(());
    }
    let (word, behind) = split_word(text);
    match client_named(word) {
        Some(client) => {
            let place = &mut script.sessions[client as usize];
            let spoken = Spoken {
                client,
                text: behind,
            };
            client_line(means, &mut script.world, place, spoken, output)
        }
        None => push_refused(output, None, Why::Client),
    }
}

/// Does a line, and adds the bytes of its reply to the output. After want of memory the script is of no use.
pub fn answer<R: Rerunner>(
    means: &Means<'_, R>,
    script: &mut Script,
    line: &Line,
    output: &mut Text,
) -> Result<(), AllocError>
    requires stands { Stands (world_of script.old) }
    requires short { IsShort line.now }
    ensures answers { Answers result output.old output.new (world_of script.new)
        (spec.answer (world_of script.old) line.now) }
    ensures stands { OnOk result (Stands (world_of script.new)) }
{
    match line {
        Line::Bytes(bytes) => text_line(means, script, trimmed_start(bytes.as_slice()), output),
        Line::TooLong => push_refused(output, None, Why::Long),
        Line::End => Ok(()),
    }
}
