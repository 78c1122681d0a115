//! Waiting for a commit.

ghost use Rattle.std.specs.Prelude.{IsOk};
ghost use Rattle.docc_prepare.specs.Calls.{Call, done_answered};
ghost use Rattle.docc_prepare.specs.Backends.{IsAnswered};
ghost use Rattle.diamond_store.specs.Answers.{Learns};
ghost use Rattle.diamond_store.specs.Passes.{known_of};

use crate::decision::Decision;
use crate::gate::Gate;
use crate::pass::Pass;
use crate::store::Store;
use docc_prepare::StoreError;
use history_lock::Naming;
use journal_core::Keep;
use std::sync::Wait;

impl<K: Keep, G: Gate + Drop, N: Naming> Store<K, G, N> {
    /// Wakes those who wait, where a commit was added.
    pub(crate) fn wake<R: Wait>(&self, rt: &R, decision: &Decision) {
        if matches!(decision, Decision::Number(_)) {
            self.bell.hold(rt).ring();
        }
    }

    /// Returns once the journal is longer than what the client had seen.
    pub fn wait<R: Wait>(&self, rt: &R, pass: &mut Pass<K, N>) -> Result<(), StoreError>
        ensures answered { IsAnswered (known_of pass.old) Call.wait (done_answered result) (known_of pass.new) }
        ensures learns { Learns pass.old pass.new }
        ensures ok { IsOk result }
    {
        let _seen = pass.seen();
        for _ in rt.forever() {
            match self.bell.hold(rt).look(self, pass) {
                Some(quiet) => quiet.sleep(rt),
                None => return Ok(()),
            }
        }
        unreachable!()
    }
}
