//! The requests of clients far from a store over all links of a listener, each link in a thread of its own.

ghost use Rattle.std.specs.Prelude.{◌≡◌, IfOk, OnOk};
ghost use Rattle.diamond_store.specs.Answers.{Learns};
ghost use Rattle.diamond_server.specs.Accounts.{gatherings, AllServedSince, AreEnded};
ghost use Rattle.diamond_server.specs.Promises.{sides};
ghost use Rattle.wire_server.specs.Links.{RequestsPromised};

use crate::serving::serve_wire;
use diamond_server::{Serves, Serving, Tally, serve_links};
use diamond_store::{Gate, Pass, Store};
use dio_core::{End, Listener};
use docc_prepare::Waiter;
use history_lock::Naming;
use journal_core::Keep;
use std::alloc::{AllocError, Global};
use std::sync::Wait;
use std::thread::Threads;

/// Links are served as requests of a client far from the store.
#[derive(Clone, Copy)]
pub struct Requests;

impl Serves for Requests {
    ghost use Rattle.wire_server.specs.Links.{RequestsPromised};

    ghost promised = { RequestsPromised };

    fn serve<B: Waiter, K: End>(&self, alloc: Global, backend: &mut B, link: &mut K) -> u8 {
        serve_wire(alloc, backend, link)
    }

    fn stays_promised() {}

    fn tells_faults() {}
}

/// Accepts up to so many links, and answers the requests of a new client that come over each (`serve_wire`), as `serve_links` says.
pub fn serve_all_wire<
    Li: Listener,
    K: Keep + Send,
    G: Gate + Drop + Send + Sync,
    N: Naming + Send + Sync,
    R: Threads + Wait + Sync,
>(
    rt: &R,
    alloc: Global,
    listener: &mut Li,
    store: &Store<K, G, N>,
    pass: &mut Pass<K, N>,
    sessions: u32,
) -> Result<Tally, AllocError>
    ensures learns { Learns pass.old pass.new }
    ensures served { IfOk result (AllServedSince RequestsPromised (sides Li.Link.Source Li.Link.Sink)
        N.lock.first pass.old pass.new sessions
        (gatherings Li.Listener listener.old listener.new)) }
    ensures ended { OnOk result (AreEnded Li.Link.ended
        (Li.given_back listener.old) (Li.given_back listener.new)) }
{
    let serving = Serving {
        store,
        sessions,
        way: &Requests,
    };
    serve_links(rt, alloc, listener, pass, &serving)
}
