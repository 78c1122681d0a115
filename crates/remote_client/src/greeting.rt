//! What a greeting tells.

ghost use Rattle.std.specs.Prelude.{◌≡◌};
ghost use Rattle.remote_wire.specs.declared.request.Request.TheVariants as request;
ghost use Rattle.remote_wire.specs.declared.answer.Given.TheVariants as gift;
ghost use Rattle.remote_wire.specs.Answers.{IsAnswerTo};

use remote_wire::{Given, WireAnswer};

/// Who the client is, how many shards the store has, and how many commits the client has seen.
#[derive(Clone, Copy, Debug)]
pub(crate) struct Greeting {
    pub(crate) client: u32,
    pub(crate) shards: u8,
    pub(crate) seen: u64,
}

/// The greeting of an answer to one.
pub(crate) fn greeting_of(answer: WireAnswer) -> Greeting
    requires { IsAnswerTo request.Hello answer }
    ensures seen { result.seen ≡ answer.seen }
    ensures given { answer.given ≡ gift.Hello result.client result.shards }
{
    let seen = answer.seen;
    match answer.given {
        Given::Hello(client, shards) => Greeting {
            client,
            shards,
            seen,
        },
        _ => unreachable!(),
    }
}
