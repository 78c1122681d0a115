//! What forms, spellings, columns and printed forms have to do with each other.

ghost use Rattle.std.specs.Prelude.{◌≡◌};
ghost use Rattle.predictive_parsing.specs.Bytes.{IsByte};
ghost use Rattle.predictive_parsing.specs.Columns.{OneValue, NoSpelling, OneColumn};
ghost use Rattle.predictive_parsing.specs.Fits as fits;
ghost use Rattle.dtext.specs.Follows.{no_more};
ghost use Rattle.session_text.specs.Follows.{at_end};
ghost use Rattle.session_text.specs.Lines.{VerbRule};
ghost use Rattle.session_text.specs.Replies.{ReplyRule};
ghost use Rattle.session_text.specs.ReadBack.{RepliesReadBack};
ghost use Rattle.session_text.specs.code.Lines.{line};
ghost use Rattle.session_text.specs.code.Replies.{reply_read};

/// What is printed is a spelling of its reply.
pub fn printed_replies_read_back()
    ensures { RepliesReadBack }
{}

/// Each reader reads what its rule derives, and refuses at the first byte with which nothing that the rule derives goes on.
pub fn readers_are_rules()
    ensures lines { fits.Fits IsByte line VerbRule at_end }
    ensures replies { fits.Fits IsByte reply_read ReplyRule no_more }
{}

/// A line asks for one thing at most, and bytes spell one reply at most.
pub fn texts_have_one_value()
    ensures lines { OneValue VerbRule }
    ensures replies { OneValue ReplyRule }
{}

/// Bytes that have a column are no reply, and have one column at most.
pub fn columns_pin_answers()
    ensures no_spelling { NoSpelling IsByte ReplyRule }
    ensures one { OneColumn IsByte ReplyRule }
{}
