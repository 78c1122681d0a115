//! What is asked of the backend: changes, and values.

ghost use Rattle.std.specs.Prelude.{◌≡◌, ◌≤◌, IfOk};
ghost use Rattle.txn_lang.specs.Short.{IsShortAddress};
ghost use Rattle.client_watches.specs.Errors as errors;
ghost use Rattle.client_watches.specs.Watching.{KeepsFree};
ghost use Rattle.client_watches.specs.Keeping.{Keeps};
ghost use Rattle.client_watches.specs.Lines.{Plays};
ghost use Rattle.client_watches.specs.Lines as lines;

use crate::error::WatchError;
use crate::watching::Watching;
use docc_prepare::{Backend, ReadAtError};
use plain_data::copied;
use rdt_types::Address;
use session_text::Reply;

/// Takes what changed, and tells all watches and values of it.
pub(crate) fn take<B: Backend>(backend: &mut B, watching: &mut Watching) -> Result<(), WatchError>
    requires { Keeps (B.known backend.old) watching.old }
    ensures plays { Plays B.known B.goes backend.old (lines.take_feed watching.old) result
        (λ u. watching.new) backend.new }
    ensures keeps { IfOk result (λ u. Keeps (B.known backend.new) watching.new) }
    ensures free { IfOk result (λ u. KeepsFree watching.old watching.new) }
    ensures home { B.home backend.new ≡ B.home backend.old }
{
    let feed = backend.take()?;
    watching.cache.advance(&feed)?;
    watching.watches.advance(&feed);
    Ok(())
}

/// What a read at a number comes to that gave no value: a reply where it is late, or an error.
fn reply_of(error: ReadAtError) -> Result<Reply, WatchError>
    ensures { result ≡ errors.reply_of error }
{
    match error {
        ReadAtError::Late(number, horizon) => Ok(Reply::Late(number, horizon)),
        ReadAtError::Fault => Err(WatchError::StoreFault),
        ReadAtError::NoMemory => Err(WatchError::NoMemory),
    }
}

/// Asks for the value that a run needs, as of the number of the others, and has its changes told from then on. Where the value
/// is below a shard's horizon, that is the reply.
pub(crate) fn fetch<B: Backend>(
    backend: &mut B,
    watching: &mut Watching,
    address: Address,
) -> Result<Option<Reply>, WatchError>
    requires seen { watching.old.cache.at ≤ (B.known backend.old).seen }
    requires short { IsShortAddress address }
    ensures plays { Plays B.known B.goes backend.old (lines.fetch watching.old address) result
        (λ late. (late, watching.new)) backend.new }
    ensures seen { (B.known backend.old).seen ≤ (B.known backend.new).seen }
    ensures home { B.home backend.new ≡ B.home backend.old }
{
    let asked = copied(&address)?;
    let value = match backend.read_at(&address, watching.cache.at()) {
        Ok(value) => value,
        Err(error) => return Ok(Some(reply_of(error)?)),
    };
    backend.subscribe(&address)?;
    watching.cache.fill(address, value)?;
    watching.loose.push(asked)?;
    Ok(None)
}
