//! Which answer belongs to which request.

ghost use Rattle.std.specs.Prelude.{◌≡◌};
ghost use Rattle.remote_wire.specs.Answers as spec;

use crate::answer::Given;
use crate::answer_tags::{AnswerTag, GivenTag};
use crate::request::Request;
use abort_witness::Witness;
use rdt_types::{Kind, LEAST_SHARDS, MOST_SHARDS};

/// Whether a store may have so many shards.
fn are_shards(shards: u8) -> bool
    ensures { result ≡ spec.are_shards shards }
{
    LEAST_SHARDS <= shards && shards <= MOST_SHARDS
}

/// What a request is given where it is done.
fn done_tag(request: &Request) -> GivenTag
    ensures { result ≡ spec.done_tag request.now }
{
    match request {
        Request::Hello => GivenTag::Hello,
        Request::Refresh => GivenTag::Done,
        Request::Read(_) => GivenTag::Read,
        Request::Prepare(_, _) => GivenTag::Front,
        Request::Append(_, _, _) => GivenTag::Number,
        Request::ReadAt(_, _) => GivenTag::Value,
        Request::Subscribe(_) => GivenTag::Done,
        Request::Unsubscribe(_) => GivenTag::Done,
        Request::Take => GivenTag::Feed,
        Request::Wait => GivenTag::Done,
    }
}

/// Whether the answer may be that it comes late.
fn may_be_late(request: &Request) -> bool
    ensures { result ≡ spec.may_be_late request.now }
{
    match request {
        Request::Prepare(_, _) => true,
        Request::ReadAt(_, _) => true,
        _ => false,
    }
}

/// Whether the answer may be a clash.
fn may_clash(request: &Request) -> bool
    ensures { result ≡ spec.may_clash request.now }
{
    match request {
        Request::Prepare(_, _) => true,
        Request::Append(_, _, _) => true,
        _ => false,
    }
}

/// Whether it is a commit that is asked for.
fn is_append(request: &Request) -> bool
    ensures { result ≡ spec.is_append request.now }
{
    match request {
        Request::Append(_, _, _) => true,
        _ => false,
    }
}

/// What is given, where it may be.
fn only_if(may: bool, gift: GivenTag) -> Option<GivenTag>
    ensures { result ≡ spec.only_if may gift }
{
    if may { Some(gift) } else { None }
}

/// What a request is given, by the byte of the answer.
pub fn given_tag(request: &Request, tag: AnswerTag) -> Option<GivenTag>
    ensures { result ≡ spec.given_tag request.now tag }
{
    match tag {
        AnswerTag::Done => Some(done_tag(request)),
        AnswerTag::Late => only_if(may_be_late(request), GivenTag::Late),
        AnswerTag::Clash => only_if(may_clash(request), GivenTag::Clash),
        AnswerTag::Full => only_if(is_append(request), GivenTag::Full),
        AnswerTag::Disk => only_if(is_append(request), GivenTag::Disk),
        AnswerTag::Held => only_if(is_append(request), GivenTag::Held),
    }
}

/// Whether a kind is that of the address which was named.
fn is_of(request: &Request, kind: Kind) -> bool
    ensures { result ≡ spec.is_of request.now kind }
{
    match request {
        Request::Read(address) => kind == address.kind,
        Request::ReadAt(address, _) => kind == address.kind,
        _ => true,
    }
}

/// Whether a number is the one that was named, where one was.
fn is_named(request: &Request, number: u64) -> bool
    ensures { result ≡ spec.is_named request.now number }
{
    match request {
        Request::ReadAt(_, named) => number == *named,
        _ => true,
    }
}

/// Whether observation and write are of the kind of their address.
fn is_of_one_kind(witness: &Witness) -> bool
    ensures { result ≡ spec.is_of_one_kind witness.now }
{
    witness.obs.kind() == witness.address.kind && witness.part.kind() == witness.address.kind
}

/// Whether what is given suits the request and the number that the client has seen.
pub fn suits(request: &Request, seen: u64, given: &Given) -> bool
    ensures { result ≡ spec.suits request.now seen given.now }
{
    match given {
        Given::Hello(_, shards) => are_shards(*shards),
        Given::Read(base, value) => *base == seen && is_of(request, value.kind()),
        Given::Number(number) => *number == seen,
        Given::Value(value) => is_of(request, value.kind()),
        Given::Feed(feed) => feed.to() == seen,
        Given::Late(number, _) => is_named(request, *number),
        Given::Clash(witness) => is_of_one_kind(witness),
        _ => true,
    }
}
