//! The rows in which cases are written.

/// What a row says.
#[derive(Clone, Copy)]
pub(crate) enum Row<'a> {
    /// Nothing, or a word to the reader.
    Blank,
    /// A case with this name begins, with a file of no byte.
    Case(&'a str),
    /// No case goes on behind this row, and the whole file has no byte.
    Section,
    /// More of the whole file: a text in quotes, as Diamond spells texts.
    Whole(&'a str),
    /// The file is the whole file.
    Begin,
    /// More of the file.
    More(&'a str),
    /// The file has so many bytes.
    Cut(usize),
    /// A byte of the file.
    Set(usize, u8),
    /// The body of one more commit that is to be kept.
    Kept(&'a str),
    /// More of the bytes that the file is to have.
    Like(&'a str),
    /// This call of the disk fails when the next session is served.
    Fails(u64),
    /// A line of the session, and its reply.
    Line(&'a str, &'a str),
    /// What is to be done, and to come of it.
    Act(Act),
}

/// What is done with the file, and what has to come of it.
#[derive(Clone, Copy)]
pub enum Act {
    /// It is recovered to the commits, which end there.
    Recovers(u64),
    /// It is no journal from there on.
    Refused(u64),
    /// It is served, and so many commits are in it then.
    Served(usize),
    /// It isn't served: the server ends with this status.
    Unserved(u8),
    /// The session is served with a crash, and with a fault, at each call. So many calls recover the file, and so many keep
    /// a commit.
    Each { recovery: u64, commit: u64 },
    /// It has the bytes that it is to have.
    Holds,
    /// It has so many bytes.
    Long(usize),
}

impl<'a> Row<'a> {
    /// Reads a row, unless it is of no form.
    pub(crate) fn read(row: &'a str) -> Option<Row<'a>> {
        if row.trim_start().is_empty() || row.starts_with("#") {
            return Some(Row::Blank);
        }
        match row.strip_prefix("@") {
            Some(rest) => {
                let (word, rest) = rest.split_once(" ").unwrap_or((rest, ""));
                Row::read_file(word, rest)
            }
            None => {
                let (line, reply) = row.rsplit_once(" => ")?;
                Some(Row::Line(line.trim_end(), reply))
            }
        }
    }

    /// Reads a row on the case or its file.
    fn read_file(word: &'a str, rest: &'a str) -> Option<Row<'a>> {
        Some(match word {
            "case" => Row::Case(rest),
            "section" => Row::Section,
            "whole" => Row::Whole(rest),
            "begin" => Row::Begin,
            "more" => Row::More(rest),
            "cut" => Row::Cut(rest.parse::<usize>().ok()?),
            "set" => {
                let (place, byte) = rest.split_once(" ")?;
                Row::Set(place.parse::<usize>().ok()?, byte.parse::<u8>().ok()?)
            }
            "kept" => Row::Kept(rest),
            "like" => Row::Like(rest),
            "fails" => Row::Fails(rest.parse::<u64>().ok()?),
            _ => Row::Act(Act::read(word, rest)?),
        })
    }
}

impl Act {
    /// Reads what is to be done.
    fn read(word: &str, rest: &str) -> Option<Act> {
        Some(match word {
            "recovers" => Act::Recovers(rest.parse::<u64>().ok()?),
            "refused" => Act::Refused(rest.parse::<u64>().ok()?),
            "served" => Act::Served(rest.parse::<usize>().ok()?),
            "unserved" => Act::Unserved(rest.parse::<u8>().ok()?),
            "each" => {
                let (recovery, commit) = rest.split_once(" ")?;
                Act::Each {
                    recovery: recovery.parse::<u64>().ok()?,
                    commit: commit.parse::<u64>().ok()?,
                }
            }
            "holds" => Act::Holds,
            "long" => Act::Long(rest.parse::<usize>().ok()?),
            _ => return None,
        })
    }
}
