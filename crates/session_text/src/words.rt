//! The words of lines and replies: the first of a line, the first of a reply, and why a line is refused.

use predictive_parsing::Spelled;

/// The first word of a line.
#[derive(Clone, Copy, Debug, PartialEq, Eq)]
pub(crate) enum VerbWord {
    Do,
    Try,
    Begin,
    Step,
    Go,
    Drop,
    Sync,
    Wait,
    Seen,
    Quit,
    Look,
    At,
    Watch,
    Unwatch,
}

/// All of them but the first.
pub(crate) const OTHER_VERBS: [VerbWord; 13] = [
    VerbWord::Try,
    VerbWord::Begin,
    VerbWord::Step,
    VerbWord::Go,
    VerbWord::Drop,
    VerbWord::Sync,
    VerbWord::Wait,
    VerbWord::Seen,
    VerbWord::Quit,
    VerbWord::Look,
    VerbWord::At,
    VerbWord::Watch,
    VerbWord::Unwatch,
];

impl Spelled for VerbWord {
    ghost use Rattle.session_text.specs.Lines.{word_of};
    ghost use Rattle.session_text.specs.code.Words.{verbs_are_bytes};

    ghost spelled = { word_of };

    fn bytes(self) -> &'static [u8] {
        match self {
            VerbWord::Do => b"do".as_slice(),
            VerbWord::Try => b"try".as_slice(),
            VerbWord::Begin => b"begin".as_slice(),
            VerbWord::Step => b"step".as_slice(),
            VerbWord::Go => b"go".as_slice(),
            VerbWord::Drop => b"drop".as_slice(),
            VerbWord::Sync => b"sync".as_slice(),
            VerbWord::Wait => b"wait".as_slice(),
            VerbWord::Seen => b"seen".as_slice(),
            VerbWord::Quit => b"quit".as_slice(),
            VerbWord::Look => b"look".as_slice(),
            VerbWord::At => b"at".as_slice(),
            VerbWord::Watch => b"watch".as_slice(),
            VerbWord::Unwatch => b"unwatch".as_slice(),
        }
    }

    ghost all_bytes = { verbs_are_bytes };
}

/// The first word of a reply.
#[derive(Clone, Copy, Debug, PartialEq, Eq)]
pub(crate) enum ReplyWord {
    Commit,
    Abort,
    Read,
    Prepare,
    Follow,
    At,
    Run,
    Current,
    Idle,
    Seen,
    Late,
    Ahead,
    Held,
    Full,
    Disk,
    Dropped,
    Refused,
}

/// All of them but the first.
pub(crate) const OTHER_REPLIES: [ReplyWord; 16] = [
    ReplyWord::Abort,
    ReplyWord::Read,
    ReplyWord::Prepare,
    ReplyWord::Follow,
    ReplyWord::At,
    ReplyWord::Run,
    ReplyWord::Current,
    ReplyWord::Idle,
    ReplyWord::Seen,
    ReplyWord::Late,
    ReplyWord::Ahead,
    ReplyWord::Held,
    ReplyWord::Full,
    ReplyWord::Disk,
    ReplyWord::Dropped,
    ReplyWord::Refused,
];

impl Spelled for ReplyWord {
    ghost use Rattle.session_text.specs.Printing.{word_of};
    ghost use Rattle.session_text.specs.code.Words.{replies_are_bytes};

    ghost spelled = { word_of };

    fn bytes(self) -> &'static [u8] {
        match self {
            ReplyWord::Commit => b"commit".as_slice(),
            ReplyWord::Abort => b"abort".as_slice(),
            ReplyWord::Read => b"read".as_slice(),
            ReplyWord::Prepare => b"prepare".as_slice(),
            ReplyWord::Follow => b"follow".as_slice(),
            ReplyWord::At => b"at".as_slice(),
            ReplyWord::Run => b"run".as_slice(),
            ReplyWord::Current => b"current".as_slice(),
            ReplyWord::Idle => b"idle".as_slice(),
            ReplyWord::Seen => b"seen".as_slice(),
            ReplyWord::Late => b"late".as_slice(),
            ReplyWord::Ahead => b"ahead".as_slice(),
            ReplyWord::Held => b"held".as_slice(),
            ReplyWord::Full => b"full".as_slice(),
            ReplyWord::Disk => b"disk".as_slice(),
            ReplyWord::Dropped => b"dropped".as_slice(),
            ReplyWord::Refused => b"refused".as_slice(),
        }
    }

    ghost all_bytes = { replies_are_bytes };
}

/// The word for why a line is refused.
#[derive(Clone, Copy, Debug, PartialEq, Eq)]
pub(crate) enum WhyWord {
    Long,
    Client,
    Verb,
    Syntax,
    BadType,
    Writes,
    Name,
    Busy,
    NoAttempt,
}

/// All of them but the first.
pub(crate) const OTHER_REASONS: [WhyWord; 8] = [
    WhyWord::Client,
    WhyWord::Verb,
    WhyWord::Syntax,
    WhyWord::BadType,
    WhyWord::Writes,
    WhyWord::Name,
    WhyWord::Busy,
    WhyWord::NoAttempt,
];

impl Spelled for WhyWord {
    ghost use Rattle.session_text.specs.Printing.{why_of};
    ghost use Rattle.session_text.specs.code.Words.{reasons_are_bytes};

    ghost spelled = { why_of };

    fn bytes(self) -> &'static [u8] {
        match self {
            WhyWord::Long => b"long".as_slice(),
            WhyWord::Client => b"client".as_slice(),
            WhyWord::Verb => b"verb".as_slice(),
            WhyWord::Syntax => b"syntax".as_slice(),
            WhyWord::BadType => b"type".as_slice(),
            WhyWord::Writes => b"writes".as_slice(),
            WhyWord::Name => b"name".as_slice(),
            WhyWord::Busy => b"busy".as_slice(),
            WhyWord::NoAttempt => b"none".as_slice(),
        }
    }

    ghost all_bytes = { reasons_are_bytes };
}
