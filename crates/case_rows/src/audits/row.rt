//! The rows in which cases are written.

/// What a row says.
#[derive(Clone, Copy)]
pub(crate) enum Row<'a> {
    /// Nothing, or a word to the reader.
    Blank,
    /// A section begins, with no commit, a file of no byte, and no call of the disk that fails.
    Section,
    /// A case with this name begins, with what the section has.
    Case(&'a str),
    /// One more commit: its number, its client, its seq, and its body and its outcome as texts.
    Commit(u64, u32, u64, &'a str),
    /// The last commit writes this more: an address, and a part.
    Writes(&'a str),
    /// The commit at this place, from 1, is changed.
    Change(usize, Change<'a>),
    /// More of the file: a text in quotes.
    More(&'a str),
    /// The file has so many bytes.
    Cut(usize),
    /// A byte of the file.
    Set(usize, u8),
    /// This call of the disk fails.
    Fails(u64),
    /// What is to be done, and to come of it.
    Act(Act<'a>),
}

/// How a commit is changed.
#[derive(Clone, Copy)]
pub(crate) enum Change<'a> {
    /// It has another number.
    Number(u64),
    /// It has another client.
    Client(u32),
    /// It has another seq.
    Seq(u64),
    /// It has another body.
    Body(&'a str),
    /// It has another outcome.
    Outcome(&'a str),
    /// It writes this more: an address, and a part.
    Adds(&'a str),
}

/// What is done, and what has to come of it.
#[derive(Clone, Copy)]
pub enum Act<'a> {
    /// The commits are audited, and the state after so many is asked for; this is reported.
    List(Option<&'a str>, &'a str),
    /// Each of the beginnings of the commits is legal.
    Prefixes,
    /// The file is audited, and the state after so many commits is asked for; this is the status, and this is written.
    File(Option<&'a str>, u8, &'a str),
}

impl<'a> Row<'a> {
    /// Reads a row, unless it is of no form.
    pub(crate) fn read(row: &'a str) -> Option<Row<'a>> {
        if row.trim_start().is_empty() || row.starts_with("#") {
            return Some(Row::Blank);
        }
        let row = row.strip_prefix("@")?;
        let (word, rest) = row.split_once(" ").unwrap_or((row, ""));
        match word {
            "section" => Some(Row::Section),
            "case" => Some(Row::Case(rest)),
            "commit" => Row::read_commit(rest),
            "writes" => Some(Row::Writes(rest)),
            "more" => Some(Row::More(rest)),
            "cut" => Some(Row::Cut(rest.parse::<usize>().ok()?)),
            "fails" => Some(Row::Fails(rest.parse::<u64>().ok()?)),
            "set" => {
                let (place, byte) = rest.split_once(" ")?;
                Some(Row::Set(place.parse::<usize>().ok()?, byte.parse::<u8>().ok()?))
            }
            "list" | "list-at" | "prefixes" | "file" | "file-at" => {
                Some(Row::Act(Act::read(word, rest)?))
            }
            _ => Row::read_change(word, rest),
        }
    }

    /// Reads a commit.
    fn read_commit(rest: &'a str) -> Option<Row<'a>> {
        let (number, rest) = rest.split_once(" ")?;
        let (client, rest) = rest.split_once(" ")?;
        let (seq, texts) = rest.split_once(" ")?;
        Some(Row::Commit(
            number.parse::<u64>().ok()?,
            client.parse::<u32>().ok()?,
            seq.parse::<u64>().ok()?,
            texts,
        ))
    }

    /// Reads what is changed of the commit at a place.
    fn read_change(word: &str, rest: &'a str) -> Option<Row<'a>> {
        let (place, rest) = rest.split_once(" ")?;
        let place = place.parse::<usize>().ok()?;
        let change = Change::read(word, rest)?;
        Some(Row::Change(place, change))
    }
}

impl<'a> Change<'a> {
    /// Reads how a commit is changed.
    fn read(word: &str, rest: &'a str) -> Option<Change<'a>> {
        Some(match word {
            "number" => Change::Number(rest.parse::<u64>().ok()?),
            "client" => Change::Client(rest.parse::<u32>().ok()?),
            "seq" => Change::Seq(rest.parse::<u64>().ok()?),
            "body" => Change::Body(rest),
            "outcome" => Change::Outcome(rest),
            "adds" => Change::Adds(rest),
            _ => return None,
        })
    }
}

impl<'a> Act<'a> {
    /// Reads what is to be done.
    fn read(word: &str, rest: &'a str) -> Option<Act<'a>> {
        match word {
            "list" => Some(Act::List(None, rest)),
            "list-at" => {
                let (at, text) = rest.split_once(" ")?;
                Some(Act::List(Some(at), text))
            }
            "prefixes" => Some(Act::Prefixes),
            "file" => {
                let (status, text) = rest.split_once(" ")?;
                Some(Act::File(None, status.parse::<u8>().ok()?, text))
            }
            "file-at" => {
                let (at, rest) = rest.split_once(" ")?;
                let (status, text) = rest.split_once(" ")?;
                Some(Act::File(Some(at), status.parse::<u8>().ok()?, text))
            }
            _ => None,
        }
    }
}
