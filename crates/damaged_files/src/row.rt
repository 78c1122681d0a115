//! The rows in which files are written.

/// What a row says.
#[derive(Clone, Copy)]
pub(crate) enum Row<'a> {
    /// Nothing, or a word to the reader.
    Blank,
    /// A file with this name begins, which has no byte yet.
    File(&'a str),
    /// More of the file: a text in quotes, as Diamond spells texts.
    More(&'a str),
    /// Each kind of damage is tried at each byte.
    Damaged,
    /// Each value is tried at each byte.
    Values,
}

impl<'a> Row<'a> {
    /// Reads a row, unless it is of no form.
    pub(crate) fn read(row: &'a str) -> Option<Row<'a>> {
        if row.trim_start().is_empty() || row.starts_with("#") {
            return Some(Row::Blank);
        }
        let (word, rest) = row.split_once(" ").unwrap_or((row, ""));
        match word {
            "@file" => Some(Row::File(rest)),
            "@more" => Some(Row::More(rest)),
            "@damaged" => Some(Row::Damaged),
            "@values" => Some(Row::Values),
            _ => None,
        }
    }
}
