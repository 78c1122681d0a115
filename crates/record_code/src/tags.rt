//! What single bytes stand for: each thing stands in its row at the place of its byte.

use rdt_types::Kind;

/// The type of an emitted value.
#[derive(Clone, Copy, Debug)]
pub enum ItemTag {
    Int,
    Bool,
    Text,
    Texts,
}

/// The form of a delta.
#[derive(Clone, Copy, Debug)]
pub enum DeltaTag {
    PutBool,
    PutCounter,
    AddCounter,
    PutText,
    Set,
    Hash,
    List,
    Raise,
}

/// How a body ended.
#[derive(Clone, Copy, Debug)]
pub enum OutcomeTag {
    Ok,
    Fail,
    Spent,
    Big,
}

/// Whether something is so.
pub const TRUTHS: [bool; 2] = [false, true];

/// The kinds that bodies and addresses have in payloads of version 1.
pub const KINDS_ONE: [Kind; 6] = [
    Kind::Bool,
    Kind::Counter,
    Kind::Text,
    Kind::Set,
    Kind::Hash,
    Kind::List,
];

/// The kinds that bodies and addresses have in payloads of version 2.
pub const KINDS_TWO: [Kind; 7] = [
    Kind::Bool,
    Kind::Counter,
    Kind::Text,
    Kind::Set,
    Kind::Hash,
    Kind::List,
    Kind::Peak,
];

/// The types of emitted values.
pub const ITEM_TAGS: [ItemTag; 4] = [ItemTag::Int, ItemTag::Bool, ItemTag::Text, ItemTag::Texts];

/// The forms of deltas.
pub const DELTA_TAGS: [DeltaTag; 8] = [
    DeltaTag::PutBool,
    DeltaTag::PutCounter,
    DeltaTag::AddCounter,
    DeltaTag::PutText,
    DeltaTag::Set,
    DeltaTag::Hash,
    DeltaTag::List,
    DeltaTag::Raise,
];

/// The ways in which bodies end.
pub const OUTCOME_TAGS: [OutcomeTag; 4] = [
    OutcomeTag::Ok,
    OutcomeTag::Fail,
    OutcomeTag::Spent,
    OutcomeTag::Big,
];
