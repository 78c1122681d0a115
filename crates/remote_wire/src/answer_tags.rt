//! What single bytes of answers stand for, and what an answer gives.

/// How a request is answered.
#[derive(Clone, Copy, Debug)]
pub enum AnswerTag {
    Done,
    Late,
    Clash,
    Full,
    Disk,
    Held,
}

/// What an answer gives. It has no byte of its own: the request and the byte of the answer tell it.
#[derive(Clone, Copy, Debug)]
pub enum GivenTag {
    Hello,
    Done,
    Read,
    Front,
    Number,
    Value,
    Feed,
    Late,
    Clash,
    Full,
    Disk,
    Held,
}

/// The form of a write.
#[derive(Clone, Copy, Debug)]
pub enum WriteTag {
    PutBool,
    PutCounter,
    AddCounter,
    PutText,
    SetAdd,
    SetRemove,
    SetClear,
    HashPut,
    HashRemove,
    HashClear,
    ListPush,
    ListRemove,
    ListClear,
    Raise,
}

/// How a request is answered, by its byte.
pub const ANSWER_TAGS: [AnswerTag; 6] = [
    AnswerTag::Done,
    AnswerTag::Late,
    AnswerTag::Clash,
    AnswerTag::Full,
    AnswerTag::Disk,
    AnswerTag::Held,
];

/// The forms of writes.
pub const WRITE_TAGS: [WriteTag; 14] = [
    WriteTag::PutBool,
    WriteTag::PutCounter,
    WriteTag::AddCounter,
    WriteTag::PutText,
    WriteTag::SetAdd,
    WriteTag::SetRemove,
    WriteTag::SetClear,
    WriteTag::HashPut,
    WriteTag::HashRemove,
    WriteTag::HashClear,
    WriteTag::ListPush,
    WriteTag::ListRemove,
    WriteTag::ListClear,
    WriteTag::Raise,
];
