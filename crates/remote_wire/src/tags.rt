//! What single bytes stand for: each thing stands in its row at the place of its byte.

/// What is asked. A byte 0 stands for nothing.
#[derive(Clone, Copy, Debug)]
pub enum RequestTag {
    Nothing,
    Hello,
    Refresh,
    Read,
    Prepare,
    Append,
    ReadAt,
    Subscribe,
    Unsubscribe,
    Take,
    Wait,
}

/// The form of an observation.
#[derive(Clone, Copy, Debug)]
pub enum ObsTag {
    BoolIs,
    CounterIs,
    TextIs,
    SetHas,
    SetAll,
    HashAt,
    HashAll,
    ListAt,
    ListAll,
    PeakIs,
    PeakOver,
}

/// What is asked, by its byte.
pub const REQUEST_TAGS: [RequestTag; 11] = [
    RequestTag::Nothing,
    RequestTag::Hello,
    RequestTag::Refresh,
    RequestTag::Read,
    RequestTag::Prepare,
    RequestTag::Append,
    RequestTag::ReadAt,
    RequestTag::Subscribe,
    RequestTag::Unsubscribe,
    RequestTag::Take,
    RequestTag::Wait,
];

/// The forms of observations.
pub const OBS_TAGS: [ObsTag; 11] = [
    ObsTag::BoolIs,
    ObsTag::CounterIs,
    ObsTag::TextIs,
    ObsTag::SetHas,
    ObsTag::SetAll,
    ObsTag::HashAt,
    ObsTag::HashAll,
    ObsTag::ListAt,
    ObsTag::ListAll,
    ObsTag::PeakIs,
    ObsTag::PeakOver,
];
