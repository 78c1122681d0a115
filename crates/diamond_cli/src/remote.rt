//! `remote`: a session here, over a store that is served elsewhere.

ghost use Rattle.diamond_server.specs.Accounts.{gatherings};
ghost use Rattle.diamond_server.specs.Promises.{sides};
ghost use Rattle.remote_command.specs.Running.{ends};
ghost use Rattle.diamond_cli.specs.Reaching.{Reaches};

use crate::line::LISTENER_FAULT;
use dio_core::{Accepted, Listener, Sink, Source};
use remote_command::run_remote;
use script_runner::NO_MEMORY;
use std::alloc::{AllocError, Global};

/// No link is left.
pub const NO_LINK: u8 = 12;

/// Takes the listener's link, and runs a session over it: its lines are read from the source, and answered into the sink. The link is
/// given back with the session's status, which is answered, too.
///
/// 0: the input was read to its end, or to a line that ended the session. 3: a read of the source failed. 4: a write or a flush of
/// the sink failed. 5: there was no memory. 6: the link failed. 8: the accept failed. 9: there is a line behind the last one that may
/// be read. 10: what the link gave is no answer to what was asked, or goes back behind what was answered. 12: no link is left.
pub(crate) fn remote<S: Source, W: Sink, Li: Listener>(
    alloc: Global,
    source: &mut S,
    sink: &mut W,
    listener: &mut Li,
) -> u8
    ensures { Reaches (sides Li.Link.Source Li.Link.Sink)
        (gatherings Li.Listener listener.old listener.new) result
        (ends S.Source W.Sink source.old sink.old) (ends S.Source W.Sink source.new sink.new) }
{
    match listener.accept() {
        Accepted::Link(link) => {
            let (link, status) = run_remote(alloc, source, sink, link);
            match listener.give_back(link, status) {
                Ok(()) => status,
                Err(AllocError) => NO_MEMORY,
            }
        }
        Accepted::NoMore => NO_LINK,
        Accepted::Failed => LISTENER_FAULT,
    }
}
