//! Sessions over the links of a listener, on a store of their own, and its end.

ghost use Rattle.std.specs.Prelude.{◌≡◌, None, length, IfOk, OnOk, IfSome};
ghost use Rattle.plain_data.specs.Histories.{IsLawful};
ghost use Rattle.history_lock.specs.Entries.{NamesBelow};
ghost use Rattle.diamond_store.specs.Answers.{IsFirst};
ghost use Rattle.diamond_store.specs.Appending.{client_of};
ghost use Rattle.diamond_store.specs.Following.{Follows};
ghost use Rattle.diamond_store.specs.Numbers.{faults_in, from_in, home_in, HasSettings};
ghost use Rattle.diamond_store.specs.Opening.{AreClients};
ghost use Rattle.diamond_server.specs.Promises.{sides};
ghost use Rattle.diamond_server.specs.Accounts.{gatherings, AreEnded};
ghost use Rattle.diamond_cli.specs.Serving.{HasServed};

use crate::service::Service;
use diamond_server::{Serves, Serving, Tally, serve_links};
use diamond_store::{Book, Closed, Open, Pass, Store, open};
use dio_core::Listener;
use history_lock::{Naming, Opened};
use journal_core::Keep;
use rdt_types::Settings;
use std::alloc::{AllocError, Global};
use std::marker::Brand;
use std::sync::Wait;
use std::thread::Threads;
use txn_lang::CommitList;

/// What came of the links, and what is left of the store.
#[derive(Drop)]
pub(crate) struct Served<K: Keep> {
    pub(crate) tally: Tally,
    pub(crate) keeper: K,
    pub(crate) commits: CommitList,
}

/// The store of a journal that was just opened, with or without a relay beside it, and the pass of its first client.
fn begun<K: Keep, N: Naming, R: Wait>(
    rt: &R,
    alloc: Global,
    settings: &Settings,
    opened: Opened<Book<K>>,
    relayed: bool,
) -> Result<(Store<K, Open, N>, Pass<K, N>), AllocError>
    requires lock { opened.lock ≡ N.lock }
    requires settings { HasSettings opened.lock.origin settings.now }
    requires author { opened.front.author ≡ None }
    requires from { from_in opened.lock.origin ≡ opened.lock.base }
    ensures pass { IfOk result (λ both. IsFirst opened.lock.base opened.front settings.now both.1) }
{
    let (mut store, mut pass) = Store::<K, Open, N>::new(alloc, settings, opened, Open)?;
    if relayed {
        store.begin_relay(rt, &mut pass)?;
    }
    Ok((store, pass))
}

/// Serves over a store of a journal that was just opened, and ends the store.
fn serve_over<
    Li: Listener,
    K: Keep + Send,
    N: Naming + Send + Sync,
    V: Serves + Sync,
    R: Threads + Wait + Sync,
>(
    alloc: Global,
    opened: Opened<Book<K>>,
    listener: &mut Li,
    service: &Service<'_, V, R>,
) -> Result<Served<K>, AllocError>
    requires lock { opened.lock ≡ N.lock }
    requires settings { HasSettings opened.lock.origin service.now.settings }
    requires author { opened.front.author ≡ None }
    requires from { from_in opened.lock.origin ≡ opened.lock.base }
    requires base { opened.lock.base ≡ length opened.front.seen }
    requires clients { NamesBelow client_of opened.lock.first opened.front.seen }
    ensures served { IfOk result (λ served. HasServed V.promised (sides Li.Link.Source Li.Link.Sink)
        service.now.settings service.now.sessions (gatherings Li.Listener listener.old listener.new)
        opened.front.seen (faults_in opened.lock.origin) (K.keep_faults served.keeper)
        served.tally served.commits) }
    ensures ends { OnOk result (AreEnded Li.Link.ended
        (Li.given_back listener.old) (Li.given_back listener.new)) }
    ensures kept { IfOk result (λ served. IfSome (K.kept served.keeper)
        (λ list. list ≡ served.commits)) }
    ensures home { IfOk result (λ served. K.home served.keeper ≡ home_in opened.lock.origin) }
{
    let rt = service.rt;
    let settings = &service.settings;
    let (store, mut pass) = begun::<K, N, R>(rt, alloc, settings, opened, service.relayed)?;
    let serving = Serving {
        store: &store,
        sessions: service.sessions,
        way: service.way,
    };
    let tally = serve_links(rt, alloc, listener, &mut pass, &serving)?;
    let Closed { keeper, commits } = store.close(rt, pass);
    Ok(Served {
        tally,
        keeper,
        commits,
    })
}

/// Serves at most so many links in this way over one store, each in a thread of its own, and ends the store. It begins with the
/// commits that its keeper has kept.
pub(crate) fn serve_kept<Li: Listener, K: Keep + Send, V: Serves + Sync, R: Threads + Wait + Sync>(
    alloc: Global,
    keeper: K,
    kept: CommitList,
    listener: &mut Li,
    service: &Service<'_, V, R>,
) -> Result<Served<K>, AllocError>
    requires lawful { IsLawful Follows (length kept) kept }
    requires clients { AreClients kept }
    requires told { IfSome (K.kept keeper) (λ list. list ≡ kept) }
    ensures served { IfOk result (λ served. HasServed V.promised (sides Li.Link.Source Li.Link.Sink)
        service.now.settings service.now.sessions (gatherings Li.Listener listener.old listener.new)
        kept (K.keep_faults keeper) (K.keep_faults served.keeper) served.tally served.commits) }
    ensures ends { OnOk result (AreEnded Li.Link.ended
        (Li.given_back listener.old) (Li.given_back listener.new)) }
    ensures kept { IfOk result (λ served. IfSome (K.kept served.keeper)
        (λ list. list ≡ served.commits)) }
    ensures home { IfOk result (λ served. K.home served.keeper ≡ K.home keeper) }
{
    let opened = open(alloc, &service.settings, keeper, kept)?;
    serve_over::<_, _, Brand, _, _>(alloc, opened, listener, service)
}
