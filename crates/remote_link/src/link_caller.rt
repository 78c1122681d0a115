//! A link to a store that is far away, as a caller.

ghost use Rattle.std.specs.Prelude.{◌≡◌, true, false};
ghost use Rattle.std.specs.Bool.{Decides};
ghost use Rattle.remote_wire.specs.Answers.{IsAnswerTo};
ghost use Rattle.remote_calls.specs.Calling.{IsReplied};
ghost use Rattle.remote_link.specs.Exchanging.{sides};
ghost use Rattle.remote_link.specs.Linking.{IsNoLess};
ghost use Rattle.remote_link.specs.Ends.{LinkEnd, new_end, stands, by_link, does_over, Asks, Fails, KeepsAnswer, hands};

use crate::exchange::{Failure, exchange};
use crate::standing::Standing;
use dio_core::End;
use docc_prepare::StoreError;
use remote_calls::Caller;
use remote_wire::{Request, WireAnswer};
use std::alloc::{AllocError, Global};
use std::marker::Model;

/// The client's end of a link, which has its requests answered over it. It goes on as long as each is answered: once one is
/// not, no later call reaches the link.
#[derive(Drop)]
pub struct LinkCaller<K: End> {
    alloc: Global,
    link: K,
    kept: Standing,
    last: u64,
    lost: bool,
    broken: bool,
}

impl<K: End> Model for LinkCaller<K> {
    ghost use Rattle.std.specs.Coded.{codes};
    ghost use Rattle.std.specs.Prelude.{◌≤◌};
    ghost use Rattle.rdt_types.specs.contracts.address.Address as address;
    ghost use Rattle.remote_link.specs.Ends.{LinkEnd};

    ghost Value = { LinkEnd K };

    ghost coded = { Prim.hlevel (codes, address.the_row.coded, K.code) };

    ghost view = { λ c. record { link = c.link; kept = c.kept; last = c.last; lost = c.lost; broken = c.broken } };

    ghost invariant = { λ c. c.kept.seen ≤ c.last };
}

/// Whether an answer goes back behind nothing that was answered.
fn is_later(request: &Request, last: u64, seen: u64) -> bool
    ensures { Decides result (IsNoLess request.now last seen) }
{
    match request {
        Request::Wait => last < seen,
        _ => last <= seen,
    }
}

impl<K: End> LinkCaller<K> {
    /// The end of a link over which nothing was asked yet.
    pub fn new(alloc: Global, link: K) -> LinkCaller<K>
        ensures { result ≡ new_end link }
    {
        LinkCaller {
            alloc,
            link,
            kept: Standing::new(alloc),
            last: 0,
            lost: false,
            broken: false,
        }
    }

    /// Whether the link gave what is no answer to what was asked, or goes back behind what was answered. It stays so.
    pub fn broken(&self) -> bool
        ensures { result ≡ self.now.broken }
    {
        self.broken
    }

    /// The link.
    pub fn close(self) -> K
        ensures { result ≡ self.link }
    {
        self.link
    }

    /// A call has failed, so that no later one reaches the link.
    fn fail(&mut self, failure: Failure) -> StoreError
        ensures { Fails failure self.old self.new result }
    {
        self.lost = true;
        match failure {
            Failure::NoMemory => return StoreError::NoMemory,
            Failure::Link => {}
            Failure::Broken => self.broken = true,
        }
        self.kept.add_fault();
        StoreError::Fault
    }

    /// Keeps what the link gave for an answer, unless it goes back.
    #[tactic(auto, using(crate::proofs::Rows::in_table))]
    fn keep(&mut self, request: &Request, answer: &WireAnswer) -> Result<(), StoreError>
        requires { IsAnswerTo request.now answer.now }
        ensures { KeepsAnswer request.now answer.now self.old self.new result }
    {
        if !is_later(request, self.last, answer.seen) {
            return Err(self.fail(Failure::Broken));
        }
        self.last = answer.seen;
        match self.kept.take_in(request, answer.seen, &answer.given) {
            Ok(()) => Ok(()),
            Err(AllocError) => Err(self.fail(Failure::NoMemory)),
        }
    }
}

/// The answer, where it was kept.
fn handed(answer: WireAnswer, kept: Result<(), StoreError>) -> Result<WireAnswer, StoreError>
    ensures { result ≡ hands answer kept }
{
    match kept {
        Ok(()) => Ok(answer),
        Err(error) => Err(error),
    }
}

impl<K: End> Caller for LinkCaller<K> {
    ghost known = { λ c. stands c.kept };

    ghost home = { λ _. 0 };

    ghost goes = { by_link (sides K.Source K.Sink) };

    ghost does = { does_over (sides K.Source K.Sink) };

    #[tactic(auto, using(crate::proofs::Parts::none_taken))]
    fn call(&mut self, request: &Request) -> Result<WireAnswer, StoreError>
        ensures replied { IsReplied (λ c. stands c.kept) (by_link (sides K.Source K.Sink)) self.old request.now result self.new }

        // What the link took and gave, when the call fails, and when the end is broken.
        ensures asked { Asks (sides K.Source K.Sink) request.now result self.old self.new }
    {
        if self.broken {
            return Err(self.fail(Failure::Link));
        }
        if self.lost {
            return Err(StoreError::NoMemory);
        }
        match exchange(self.alloc, &mut self.link, request) {
            Ok(answer) => {
                let kept = self.keep(request, &answer);
                handed(answer, kept)
            }
            Err(failure) => Err(self.fail(failure)),
        }
    }

    fn call_faults(&self) -> u64 {
        self.kept.faults()
    }
}
