//! What a script has: the world of one thread, and a session for each client.

ghost use Rattle.std.specs.Prelude.{◌≡◌, length, IfOk, IfSome};
ghost use Rattle.docc_prepare.specs.declared.limits.TheConstants.{CLIENTS};
ghost use Rattle.local_world.specs.Stored.{store_of};
ghost use Rattle.script_runner.specs.Play as spec;
ghost use Rattle.script_runner.specs.Worlds.{world_of, Stands};

use crate::words::LAST_CLIENT;
use docc_prepare::Backend;
use local_world::{View, World};
use rdt_types::Settings;
use session_core::Session;
use std::alloc::{AllocError, Global};

/// What a script has.
#[derive(Drop)]
pub struct Script {
    pub world: World,
    /// The session of each client, or none where the client has quit.
    pub sessions: Vec<Option<Session>>,
}

impl Script {
    /// Nothing is committed, and nobody has quit.
    pub fn new(alloc: Global, settings: &Settings) -> Result<Script, AllocError>
        ensures first { IfOk result (λ script. world_of script ≡ spec.first_world settings.now) }
        ensures stands { IfOk result (λ script. Stands (world_of script)) }
    {
        let world = World::new(alloc, settings)?;
        let sessions = first_sessions(alloc)?;
        Ok(Script { world, sessions })
    }
}

/// The session of each client, before its first line.
fn first_sessions(alloc: Global) -> Result<Vec<Option<Session>>, AllocError>
    ensures { IfOk result (λ sessions. sessions.items ≡ spec.first_sessions CLIENTS) }
{
    let mut sessions = Vec::new(alloc);
    for client in 0..LAST_CLIENT + 1 {
        sessions.push(Some(Session::new(alloc, client, 0)))?;
    }
    Ok(sessions)
}

/// How many commits a world has, unless memory is wanting for the answer.
pub fn commits_in(world: &mut World) -> Option<u64>
    ensures { IfSome result (λ n. n ≡ length (store_of world.old).journal) }
{
    let mut view = View { world, client: 0 };
    match view.refresh() {
        Ok(number) => Some(number),
        Err(_) => None,
    }
}
