//! One link is served over a store of its own.

ghost use Rattle.std.specs.Prelude.{◌≡◌, None, []};
ghost use Rattle.txn_lang.specs.Journals.{own};
ghost use Rattle.diamond_store.specs.Numbers.{from_in, HasSettings};

use diamond_store::{Book, Open, Served, open};
use dio_core::End;
use history_lock::{Naming, Opened};
use journal_core::MemKeep;
use rdt_types::Settings;
use std::alloc::{AllocError, Global};
use std::marker::Brand;
use std::sync::Wait;
use store_talkers::{TestPass, TestStore};
use txn_lang::CommitList;
use wire_server::serve_wire;

/// Answers the requests of a new client. The status, and its pass.
pub(crate) fn serve_new<K: End, N: Naming, R: Wait>(
    rt: &R,
    alloc: Global,
    store: &TestStore<N>,
    pass: TestPass<N>,
    link: &mut K,
) -> (u8, TestPass<N>)
    requires none { own pass.client pass.journal ≡ [] }
{
    let mut served = Served { store, pass, rt };
    let status = serve_wire(alloc, &mut served, link);
    let Served { pass, .. } = served;
    (status, pass)
}

/// Answers the requests of the first client of a store. The status, and how many commits there are then.
fn serve_first<K: End, N: Naming, R: Wait>(
    rt: &R,
    alloc: Global,
    opened: Opened<Book<MemKeep>>,
    settings: &Settings,
    link: &mut K,
) -> Result<(u8, usize), AllocError>
    requires lock { opened.lock ≡ N.lock }
    requires settings { HasSettings opened.lock.origin settings.now }
    requires author { opened.front.author ≡ None }
    requires from { from_in opened.lock.origin ≡ opened.lock.base }
{
    let (store, pass) = TestStore::<N>::new(alloc, settings, opened, Open)?;
    let (status, pass) = serve_new(rt, alloc, &store, pass, link);
    let closed = store.close(rt, pass);
    Ok((status, closed.commits.len()))
}

/// Answers the requests over this link on a store of its own. The status, and how many commits there are then.
pub(crate) fn serve_alone<K: End, R: Wait>(
    rt: &R,
    alloc: Global,
    link: &mut K,
) -> Result<(u8, usize), AllocError> {
    let settings = Settings::standard();
    let opened = open(alloc, &settings, MemKeep, CommitList::new(alloc))?;
    serve_first::<_, Brand, _>(rt, alloc, opened, &settings, link)
}
