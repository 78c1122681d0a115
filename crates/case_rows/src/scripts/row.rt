//! The rows in which cases are written.

/// A text as a row spells it, and how often it stands.
#[derive(Clone, Copy)]
pub(crate) struct Repeated<'a> {
    /// How often.
    pub(crate) count: u32,
    /// The text in quotes, as Diamond spells texts.
    pub(crate) quoted: &'a str,
}

/// The settings of a store, as the command's words say them.
#[derive(Clone, Copy)]
pub(crate) struct Spelled<'a> {
    /// How many shards.
    pub(crate) shards: &'a str,
    /// How many versions a shard keeps.
    pub(crate) window: &'a str,
    /// How many commits the journal may have.
    pub(crate) limit: &'a str,
}

/// What a row says.
#[derive(Clone, Copy)]
pub(crate) enum Row<'a> {
    /// Nothing.
    Blank,
    /// A case with this name begins.
    Case(&'a str),
    /// No case goes on behind this row.
    Section,
    /// The settings of the store.
    Settings(Spelled<'a>),
    /// The status that is wanted.
    Status(u8),
    /// More of the last line.
    More(Repeated<'a>),
    /// More of the last reply.
    MoreReply(Repeated<'a>),
    /// More of the last line, with a number in each text.
    Each(Repeated<'a>),
    /// More of the last reply, with a number in each text.
    EachReply(Repeated<'a>),
    /// The last line ends with the input, and not by a newline.
    Unended,
    /// Of the replies only the last ones are said.
    Ending,
    /// A line that asks for nothing, or a word to the reader.
    Remark(&'a str),
    /// A line.
    Line(&'a str),
    /// A line and a reply.
    Answered { line: &'a str, reply: &'a str },
    /// One more reply.
    Reply(&'a str),
}

impl<'a> Row<'a> {
    /// Reads a row, unless it is of no form.
    pub(crate) fn read(row: &'a str) -> Option<Row<'a>> {
        if row.trim_start().is_empty() {
            return Some(Row::Blank);
        }
        match row.strip_prefix("@") {
            Some(rest) => Row::read_marked(rest),
            None if row.starts_with("#") => Some(Row::Remark(row)),
            None => Some(Row::read_line(row)),
        }
    }

    /// Reads what stands behind an `@`.
    fn read_marked(row: &'a str) -> Option<Row<'a>> {
        let (word, rest) = row.split_once(" ").unwrap_or((row, ""));
        Some(match word {
            "case" => Row::Case(rest),
            "section" => Row::Section,
            "settings" => Row::Settings(Spelled::read(rest)?),
            "status" => Row::Status(rest.parse::<u8>().ok()?),
            "more" => Row::More(Repeated::read(rest)?),
            "reply" => Row::MoreReply(Repeated::read(rest)?),
            "each" => Row::Each(Repeated::read(rest)?),
            "replies" => Row::EachReply(Repeated::read(rest)?),
            "unended" => Row::Unended,
            "ending" => Row::Ending,
            _ => return None,
        })
    }

    /// Reads a line with its reply, where one stands behind it.
    fn read_line(row: &'a str) -> Row<'a> {
        if let Some(reply) = row.trim_start().strip_prefix("=> ") {
            return Row::Reply(reply);
        }
        match row.rsplit_once(" => ") {
            Some((line, reply)) => Row::Answered {
                line: line.trim_end(),
                reply,
            },
            None => Row::Line(row),
        }
    }
}

impl<'a> Repeated<'a> {
    /// Reads a number and a text in quotes.
    fn read(rest: &'a str) -> Option<Repeated<'a>> {
        let (count, quoted) = rest.split_once(" ")?;
        let count = count.parse::<u32>().ok()?;
        Some(Repeated { count, quoted })
    }
}

impl<'a> Spelled<'a> {
    /// Reads three words.
    fn read(rest: &'a str) -> Option<Spelled<'a>> {
        let (shards, rest) = rest.split_once(" ")?;
        let (window, limit) = rest.split_once(" ")?;
        Some(Spelled {
            shards,
            window,
            limit,
        })
    }
}
