//! Deltas: what a list of operations at one address comes to.

ghost use Rattle.std.specs.Prelude.{◌≡◌, IfOk};
ghost use Rattle.rdt_types.specs.Deltas as spec;
ghost use Rattle.rdt_types.specs.Deltas.{DeltasWrite, CompositionsApplyInTurn, CompositionsAssociate};

use crate::address::Kind;
use crate::keyed_delta::{HashDelta, KeyedDelta, SetDelta};
use crate::list_delta::ListDelta;
use crate::mark::Mark;
use crate::operation::WriteOp;
use crate::value::{TextList, Value};
use plain_data::{ExactClone, Text, TextMap};
use std::alloc::{AllocError, Global};

/// A change of the value at one address.
#[derive(Clone, Debug, Drop, PartialEq, Eq)]
pub enum Delta {
    PutBool(bool),
    PutCounter(i64),
    /// Adds, and wraps to 64 bits. An addition of 0 is a delta too.
    AddCounter(i64),
    PutText(Text),
    Set(SetDelta),
    Hash(HashDelta),
    List(ListDelta),
    /// Raises to a number. A raise that changes nothing is a delta too.
    Raise(i64),
}

impl ExactClone for Delta {
    ghost use Rattle.std.proofs.Common.{rules};

    ghost exact = { Prim.search rules };
}

impl Delta {
    /// The kind of the values that it changes.
    pub fn kind(&self) -> Kind
        ensures { result ≡ spec.kind_changed self.now }
    {
        match self {
            Delta::PutBool(_) => Kind::Bool,
            Delta::PutCounter(_) | Delta::AddCounter(_) => Kind::Counter,
            Delta::PutText(_) => Kind::Text,
            Delta::Set(_) => Kind::Set,
            Delta::Hash(_) => Kind::Hash,
            Delta::List(_) => Kind::List,
            Delta::Raise(_) => Kind::Peak,
        }
    }
}

/// The delta of one operation.
pub fn delta_of(alloc: Global, op: &WriteOp) -> Result<Delta, AllocError>
    ensures { IfOk result (λ d. d ≡ spec.delta_of op.now) }
{
    Ok(match op {
        WriteOp::PutBool(b) => Delta::PutBool(*b),
        WriteOp::PutCounter(n) => Delta::PutCounter(*n),
        WriteOp::AddCounter(n) => Delta::AddCounter(*n),
        WriteOp::PutText(text) => Delta::PutText(text.clone()?),
        WriteOp::SetAdd(element) => Delta::Set(KeyedDelta::marking(alloc, element, true)?),
        WriteOp::SetRemove(element) => Delta::Set(KeyedDelta::marking(alloc, element, false)?),
        WriteOp::SetClear => Delta::Set(KeyedDelta::clearing(alloc)),
        WriteOp::HashPut(field, text) => {
            Delta::Hash(KeyedDelta::marking(alloc, field, Mark::Put(text.clone()?))?)
        }
        WriteOp::HashRemove(field) => {
            Delta::Hash(KeyedDelta::marking(alloc, field, Mark::Removed)?)
        }
        WriteOp::HashClear => Delta::Hash(KeyedDelta::clearing(alloc)),
        WriteOp::ListPush(item) => Delta::List(ListDelta::pushing(alloc, item)?),
        WriteOp::ListRemove(text) => Delta::List(ListDelta::removing(alloc, text)?),
        WriteOp::ListClear => Delta::List(ListDelta::clearing(alloc)),
        WriteOp::Raise(n) => Delta::Raise(*n),
    })
}

/// The value after a delta. Of a value of another kind, which no address leads to, it makes what it makes of the default.
pub fn apply(alloc: Global, delta: &Delta, value: &Value) -> Result<Value, AllocError>
    ensures { IfOk result (λ v. v ≡ spec.apply delta.now value.now) }
{
    Ok(match (delta, value) {
        (Delta::PutBool(b), _) => Value::Bool(*b),
        (Delta::PutCounter(n), _) => Value::Counter(*n),
        (Delta::AddCounter(n), Value::Counter(v)) => Value::Counter(v.wrapping_add(*n)),
        (Delta::AddCounter(n), _) => Value::Counter(*n),
        (Delta::PutText(text), _) => Value::Text(text.clone()?),
        (Delta::Set(d), Value::Set(set)) => Value::Set(d.applied(alloc, set)?),
        (Delta::Set(d), _) => Value::Set(d.applied(alloc, &TextMap::new(alloc))?),
        (Delta::Hash(d), Value::Hash(hash)) => Value::Hash(d.applied(alloc, hash)?),
        (Delta::Hash(d), _) => Value::Hash(d.applied(alloc, &TextMap::new(alloc))?),
        (Delta::List(d), Value::List(list)) => Value::List(d.applied(alloc, list)?),
        (Delta::List(d), _) => Value::List(d.applied(alloc, &TextList::new(alloc))?),
        (Delta::Raise(n), Value::Peak(v)) => Value::Peak((*v).max(*n)),
        (Delta::Raise(n), _) => Value::Peak(0.max(*n)),
    })
}

/// An addition after another delta of a counter: it goes into what is there.
fn add_after(first: &Delta, n: i64) -> Delta
    ensures { result ≡ spec.add_after first.now n }
{
    match first {
        Delta::PutCounter(m) => Delta::PutCounter(m.wrapping_add(n)),
        Delta::AddCounter(m) => Delta::AddCounter(m.wrapping_add(n)),
        _ => Delta::AddCounter(n),
    }
}

/// A delta of a set after another.
fn set_after(alloc: Global, first: &Delta, second: &SetDelta) -> Result<Delta, AllocError>
    ensures { IfOk result (λ d. d ≡ spec.set_after first.now second.now) }
{
    Ok(Delta::Set(match first {
        Delta::Set(first) => first.composed(alloc, second)?,
        _ => second.clone()?,
    }))
}

/// A delta of a hash after another.
fn hash_after(alloc: Global, first: &Delta, second: &HashDelta) -> Result<Delta, AllocError>
    ensures { IfOk result (λ d. d ≡ spec.hash_after first.now second.now) }
{
    Ok(Delta::Hash(match first {
        Delta::Hash(first) => first.composed(alloc, second)?,
        _ => second.clone()?,
    }))
}

/// A delta of a list after another.
fn list_after(alloc: Global, first: &Delta, second: &ListDelta) -> Result<Delta, AllocError>
    ensures { IfOk result (λ d. d ≡ spec.list_after first.now second.now) }
{
    Ok(Delta::List(match first {
        Delta::List(first) => first.composed(alloc, second)?,
        _ => second.clone()?,
    }))
}

/// A raise after another: the greater of the two.
fn raise_after(first: &Delta, n: i64) -> Delta
    ensures { result ≡ spec.raise_after first.now n }
{
    match first {
        Delta::Raise(m) => Delta::Raise((*m).max(n)),
        _ => Delta::Raise(n),
    }
}

/// One delta that does what the first does and then the second. A first one of another kind is forgotten.
pub fn compose(alloc: Global, first: &Delta, second: &Delta) -> Result<Delta, AllocError>
    ensures { IfOk result (λ d. d ≡ spec.compose first.now second.now) }
{
    Ok(match second {
        Delta::AddCounter(n) => add_after(first, *n),
        Delta::Set(second) => set_after(alloc, first, second)?,
        Delta::Hash(second) => hash_after(alloc, first, second)?,
        Delta::List(second) => list_after(alloc, first, second)?,
        Delta::Raise(n) => raise_after(first, *n),
        Delta::PutBool(_) | Delta::PutCounter(_) | Delta::PutText(_) => second.clone()?,
    })
}

/// The law that the delta of an operation, applied, is the operation.
pub fn deltas_write()
    ensures { DeltasWrite }
{}

/// The law that a composition of two deltas of one kind, applied, is one delta after the other.
pub fn compositions_apply_in_turn()
    ensures { CompositionsApplyInTurn }
{}

/// The law that of three deltas of one kind it is one which two are composed first.
pub fn compositions_associate()
    ensures { CompositionsAssociate }
{}
