//! A session over a client whose requests a caller has answered.

ghost use Rattle.std.specs.Prelude.{◌≡◌, None};
ghost use Rattle.docc_prepare.specs.Readable.{IsNew};
ghost use Rattle.diamond_server.specs.Promises.{KeepsPromises};
ghost use Rattle.remote_client.specs.Standing.{stood_for, Steps};
ghost use Rattle.remote_command.specs.Running.{ends, KeepsOver, failure};

use diamond_server::{STORE_FAULT, serve_session};
use dio_core::{Sink, Source};
use docc_prepare::StoreError;
use link_ends::{Joined, Naming};
use remote_calls::Caller;
use remote_client::Remote;
use script_runner::NO_MEMORY;
use std::alloc::Global;
use std::marker::Brand;

/// Serves the session of a client over these two, which the type names, and gives them back.
fn serve_named<'a, 'b, S: Source, W: Sink, C: Caller, N: Naming>(
    alloc: Global,
    remote: &mut Remote<C>,
    source: &'a mut S,
    sink: &'b mut W,
) -> (u8, (&'a mut S, &'b mut W))
    requires source { source.ghost_name ≡ N.source }
    requires sink { sink.ghost_name ≡ N.sink }
    requires new { IsNew (stood_for C.known remote.old) }
    ensures same_source { result.1.0.ghost_name ≡ source.entry.ghost_name }
    ensures same_sink { result.1.1.ghost_name ≡ sink.entry.ghost_name }
    ensures promises { KeepsPromises (stood_for C.known) (Steps C.goes C.does) result.0 remote.old remote.new
        (ends S.Source W.Sink source.old sink.old) (ends S.Source W.Sink result.1.0.now result.1.1.now) }
    ensures home { C.home remote.new.caller ≡ C.home remote.old.caller }
{
    let mut joined: Joined<'a, 'b, S, W, N> = Joined::new(source, sink);
    let status = serve_session(alloc, remote, &mut joined);
    (status, joined.release())
}

/// Serves the session of a client over these two.
fn serve_remote<S: Source, W: Sink, C: Caller>(
    alloc: Global,
    remote: &mut Remote<C>,
    source: &mut S,
    sink: &mut W,
) -> u8
    requires new { IsNew (stood_for C.known remote.old) }
    ensures promises { KeepsPromises (stood_for C.known) (Steps C.goes C.does) result remote.old remote.new
        (ends S.Source W.Sink source.old sink.old) (ends S.Source W.Sink source.new sink.new) }
    ensures home { C.home remote.new.caller ≡ C.home remote.old.caller }
{
    let (status, both) = serve_named::<_, _, _, Brand>(alloc, remote, source, sink);
    let (source, sink) = both;
    leave(source);
    leave(sink);
    status
}

/// Changes nothing. A `&mut` that was given back is passed on once, so that its last value is known.
fn leave<T>(value: &mut T)
    ensures { value.new ≡ value.old }
{
    let _ = value;
}

/// The status of a session that couldn't begin.
fn status_of(error: StoreError) -> u8
    ensures { result ≡ failure error }
{
    match error {
        StoreError::Fault => STORE_FAULT,
        StoreError::NoMemory => NO_MEMORY,
    }
}

/// Greets the store by a caller, and then serves a session of the client that it is told to be: lines are read from the source, done
/// by the caller's answers, and answered into the sink. The caller is given back, with a status.
///
/// 0: the input was read to its end, or to a line that ended the session. 3: a read of the source failed. 4: a write or a flush of
/// the sink failed. 5: there was no memory. 6: a call failed by a fault. 9: there is a line behind the last one that may be read.
pub fn run_over<S: Source, W: Sink, C: Caller>(
    alloc: Global,
    source: &mut S,
    sink: &mut W,
    caller: C,
) -> (C, u8)
    requires untold { (C.known caller).journal ≡ None }
    ensures promises { KeepsOver C.known C.home C.goes C.does caller result.0 result.1
        (ends S.Source W.Sink source.old sink.old) (ends S.Source W.Sink source.new sink.new) }
    ensures home { C.home result.0 ≡ C.home caller }
{
    match Remote::open(alloc, caller) {
        Ok(mut remote) => {
            let status = serve_remote(alloc, &mut remote, source, sink);
            (remote.close(), status)
        }
        Err((caller, error)) => (caller, status_of(error)),
    }
}
