//! A session over a link to a server.

ghost use Rattle.std.specs.Prelude.{◌≡◌};
ghost use Rattle.std.specs.Bool.{OnTrue};
ghost use Rattle.dio_core.specs.Counts.{Rose};
ghost use Rattle.remote_link.specs.Exchanging.{sides, HasFailed};
ghost use Rattle.remote_command.specs.Running.{ends};
ghost use Rattle.remote_command.specs.Linked as spec;
ghost use Rattle.remote_command.specs.Linked.{KeepsPromises};

use crate::session::run_over;
use diamond_server::STORE_FAULT;
use dio_core::{End, Sink, Source};
use remote_link::LinkCaller;
use script_runner::NO_MEMORY;
use std::alloc::Global;

/// The link failed.
pub const LINK_FAULT: u8 = 6;

/// What the link gave is no answer to what was asked, or goes back behind what was answered.
pub const BROKEN_LINK: u8 = 10;

/// How often a link has failed so far.
#[derive(Clone, Copy)]
struct LinkFaults {
    reads: u64,
    writes: u64,
}

impl LinkFaults {
    fn of<K: End>(link: &K) -> LinkFaults
        ensures reads { result.reads ≡ K.read_faults link.now }
        ensures writes { result.writes ≡ K.write_faults link.now }
    {
        LinkFaults {
            reads: link.read_faults(),
            writes: link.write_faults(),
        }
    }
}

/// Whether a count of faults has risen.
fn has_risen(before: u64, after: u64) -> bool
    ensures { OnTrue result (Rose before after) }
{
    before < after || (before == u64::MAX && after == u64::MAX)
}

/// Whether a link has failed since it had failed so often.
fn has_failed<K: End>(before: LinkFaults, link: &K) -> bool
    ensures reads { OnTrue result (spec.HasRisen before.reads before.writes (K.read_faults link.now) (K.write_faults link.now)) }
{
    let after = LinkFaults::of(link);
    has_risen(before.reads, after.reads) || has_risen(before.writes, after.writes)
}

/// The status of a session that ended so over its caller. A caller fails by a fault where its link has failed or is broken; what
/// would be neither is taken for want of memory.
fn status_of(ended: u8, broken: bool, failed: bool) -> u8
    ensures { result ≡ spec.status_over ended broken failed }
{
    match (ended, broken, failed) {
        (STORE_FAULT, true, _) => BROKEN_LINK,
        (STORE_FAULT, false, true) => LINK_FAULT,
        (STORE_FAULT, false, false) => NO_MEMORY,
        _ => ended,
    }
}

/// Greets the server at the other end of a link, and then serves a session of the client that it is told to be: lines are read from
/// the source, each call that they make goes as a request over the link, and the replies are written to the sink. The link is given
/// back, with a status.
///
/// 0: the input was read to its end, or to a line that ended the session. 3: a read of the source failed. 4: a write or a flush of
/// the sink failed. 5: there was no memory. 6: the link failed. 9: there is a line behind the last one that may be read. 10: what the
/// link gave is no answer to what was asked, or goes back behind what was answered.
pub fn run_remote<S: Source, W: Sink, K: End>(
    alloc: Global,
    source: &mut S,
    sink: &mut W,
    link: K,
) -> (K, u8)
    ensures { KeepsPromises (sides K.Source K.Sink) link result.0 result.1
        (ends S.Source W.Sink source.old sink.old) (ends S.Source W.Sink source.new sink.new) }
{
    let before = LinkFaults::of(&link);
    let (caller, ended) = run_over(alloc, source, sink, LinkCaller::new(alloc, link));
    let broken = caller.broken();
    let link = caller.close();
    let failed = has_failed(before, &link);
    (link, status_of(ended, broken, failed))
}
