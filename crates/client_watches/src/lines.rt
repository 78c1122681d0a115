//! The lines of watches: all are brought up to date, one is made, and one is forgotten.

ghost use Rattle.std.specs.Prelude.{◌≡◌, ◌≤◌, ◌∷◌, [], None, IfOk, OnOk};
ghost use Rattle.rerun_driver.specs.Watches.{watch_of};
ghost use Rattle.client_watches.specs.Keeping.{Keeps};
ghost use Rattle.client_watches.specs.Lines.{Plays};
ghost use Rattle.client_watches.specs.Lines as lines;
ghost use Rattle.client_watches.specs.Watching as spec;

use crate::catching::{catch_up, loosen};
use crate::dropping::drop_idle;
use crate::error::WatchError;
use crate::fetching::take;
use crate::means::Means;
use crate::new_watch::NewWatch;
use crate::replies::none_said;
use crate::running::first_run;
use crate::watching::{AddressList, ReplyList, Watching};
use client_cache::Cache;
use docc_prepare::Backend;
use plain_data::Text;
use rerun_driver::Driver;
use session_text::{Reply, Why};
use std::alloc::{AllocError, Global};
use watch_reruns::{One, Rerunner};

/// One reply.
fn one_reply(alloc: Global, reply: Reply) -> Result<ReplyList, AllocError>
    ensures { IfOk result (λ said. said ≡ reply ∷ []) }
{
    let mut said = ReplyList::new(alloc);
    said.push(reply)?;
    Ok(said)
}

/// Forgets a watch, if there is one of the name.
fn forget(watching: &mut Watching, name: &Text) -> Result<(), AllocError>
    ensures { OnOk result (watching.new ≡ spec.without watching.old name.now) }
{
    loosen(&watching.watches, &mut watching.loose, name)?;
    let _there = watching.watches.unwatch(name);
    Ok(())
}

/// Brings all watches up to date, and says that they hold, unless a value was late.
fn say_current<B: Backend, R: Rerunner>(
    means: &Means<'_, R>,
    backend: &mut B,
    watching: &mut Watching,
    said: &mut ReplyList,
) -> Result<(), WatchError>
    requires { Keeps (B.known backend.old) watching.old }
    ensures plays { Plays B.known B.goes backend.old (lines.say_current said.old watching.old)
        result (λ u. (watching.new, said.new)) backend.new }
    ensures keeps { IfOk result (λ u. Keeps (B.known backend.new) watching.new) }
    ensures home { B.home backend.new ≡ B.home backend.old }
{
    let all = catch_up(means, backend, watching, said)?;
    if !all {
        return Ok(());
    }
    said.push(Reply::Current(watching.cache.at()))?;
    Ok(())
}

/// Brings all watches up to date, and makes a new one, unless a value was late.
fn make<B: Backend, R: Rerunner>(
    means: &Means<'_, R>,
    backend: &mut B,
    watching: &mut Watching,
    said: &mut ReplyList,
    new_watch: NewWatch,
) -> Result<(), WatchError>
    requires keeps { Keeps (B.known backend.old) watching.old }
    requires free { watch_of watching.old.watches new_watch.name ≡ None }
    ensures plays { Plays B.known B.goes backend.old
        (lines.make new_watch.name new_watch.body said.old watching.old)
        result (λ u. (watching.new, said.new)) backend.new }
    ensures keeps { IfOk result (λ u. Keeps (B.known backend.new) watching.new) }
    ensures home { B.home backend.new ≡ B.home backend.old }
{
    let all = catch_up(means, backend, watching, said)?;
    if !all {
        return Ok(());
    }
    drop_idle(means.alloc, backend, watching)?;
    first_run(means.alloc, backend, watching, said, new_watch)?;
    Ok(())
}

impl Watching {
    /// No watch, where so many commits are seen. It is never refused for want of memory.
    pub fn new(alloc: Global, at: u64) -> Watching
        ensures { result ≡ spec.none_yet at }
    {
        Watching {
            watches: Driver::new(alloc),
            cache: Cache::new(alloc, at),
            loose: AddressList::new(alloc),
        }
    }

    /// Brings all watches up to date: each that is touched runs anew, and is reported, in the order of their making.
    pub fn sync<B: Backend>(
        &mut self,
        alloc: Global,
        backend: &mut B,
    ) -> Result<ReplyList, WatchError>
        requires { Keeps (B.known backend.old) self.old }
        ensures plays { Plays B.known B.goes backend.old (lines.sync self.old) result
            (λ said. (self.new, said)) backend.new }
        ensures keeps { IfOk result (λ said. Keeps (B.known backend.new) self.new) }
        ensures home { B.home backend.new ≡ B.home backend.old }
    {
        self.sync_by(alloc, backend, &One)
    }

    /// The same, where the reruns are made by others.
    pub fn sync_by<B: Backend, R: Rerunner>(
        &mut self,
        alloc: Global,
        backend: &mut B,
        reruns: &R,
    ) -> Result<ReplyList, WatchError>
        requires { Keeps (B.known backend.old) self.old }
        ensures plays { Plays B.known B.goes backend.old (lines.sync self.old) result
            (λ said. (self.new, said)) backend.new }
        ensures keeps { IfOk result (λ said. Keeps (B.known backend.new) self.new) }
        ensures home { B.home backend.new ≡ B.home backend.old }
    {
        let mut said = none_said(alloc)?;
        take(backend, self)?;
        say_current(&Means { alloc, reruns }, backend, self, &mut said)?;
        drop_idle(alloc, backend, self)?;
        Ok(said)
    }

    /// Brings all watches up to date, and watches a body by a name, unless that is in use.
    pub fn watch<B: Backend>(
        &mut self,
        alloc: Global,
        backend: &mut B,
        new_watch: NewWatch,
    ) -> Result<ReplyList, WatchError>
        requires { Keeps (B.known backend.old) self.old }
        ensures plays { Plays B.known B.goes backend.old
            (lines.watch self.old new_watch.name new_watch.body) result
            (λ said. (self.new, said)) backend.new }
        ensures keeps { IfOk result (λ said. Keeps (B.known backend.new) self.new) }
        ensures home { B.home backend.new ≡ B.home backend.old }
    {
        self.watch_by(alloc, backend, &One, new_watch)
    }

    /// The same, where the reruns are made by others.
    pub fn watch_by<B: Backend, R: Rerunner>(
        &mut self,
        alloc: Global,
        backend: &mut B,
        reruns: &R,
        new_watch: NewWatch,
    ) -> Result<ReplyList, WatchError>
        requires { Keeps (B.known backend.old) self.old }
        ensures plays { Plays B.known B.goes backend.old
            (lines.watch self.old new_watch.name new_watch.body) result
            (λ said. (self.new, said)) backend.new }
        ensures keeps { IfOk result (λ said. Keeps (B.known backend.new) self.new) }
        ensures home { B.home backend.new ≡ B.home backend.old }
    {
        let refusal = one_reply(alloc, Reply::Refused(Why::Name))?;
        if self.watches.has(&new_watch.name) {
            return Ok(refusal);
        }
        let mut said = none_said(alloc)?;
        take(backend, self)?;
        make(
            &Means { alloc, reruns },
            backend,
            self,
            &mut said,
            new_watch,
        )?;
        drop_idle(alloc, backend, self)?;
        Ok(said)
    }

    /// Forgets the watch of a name, if there is one.
    pub fn unwatch<B: Backend>(
        &mut self,
        alloc: Global,
        backend: &mut B,
        name: &Text,
    ) -> Result<ReplyList, WatchError>
        requires { Keeps (B.known backend.old) self.old }
        ensures plays { Plays B.known B.goes backend.old (lines.unwatch self.old name.now) result
            (λ said. (self.new, said)) backend.new }
        ensures keeps { IfOk result (λ said. Keeps (B.known backend.new) self.new) }
        ensures home { B.home backend.new ≡ B.home backend.old }
    {
        let refusal = one_reply(alloc, Reply::Refused(Why::NoAttempt))?;
        if !self.watches.has(name) {
            return Ok(refusal);
        }
        let dropped = one_reply(alloc, Reply::Dropped)?;
        forget(self, name)?;
        drop_idle(alloc, backend, self)?;
        Ok(dropped)
    }
}
