//! Damages files of journals byte by byte, and holds what recovery makes of each against what the definition says of its bytes
//! (`file_oracle`). The files come on the standard input; the head of `stdin` says how they are written.
//!
//! What differs is named. A line a file says how many were tried, and how many of them were kept as they are, mended and refused, and
//! the last line how many there were in all. The status is 0 where nothing differed.
#![tactic(auto)]

mod commits;
mod counts;
mod damage;
mod row;
mod trying;

use counts::Counts;
use damage::{Damage, damage_of, kinds};
use dtext::{TextError, read_text};
use plain_data::Text;
use row::Row;
use std::alloc::{AllocError, Global};
use std::io;
use std::process::ExitCode;
use trying::{Found, find};

/// How many bytes a text in quotes may take in a row.
const LONGEST_QUOTED: usize = 65_536;

/// How far the input is read.
#[derive(Drop)]
struct Trial<'a> {
    /// The name of the file whose rows are being read.
    name: &'a str,
    file: Text,
    counts: Counts,
    /// Whether all was as the definition says, and each row is of a form.
    sound: bool,
}

/// The bytes that a text in quotes spells. None where it is of no form.
fn bytes_of(alloc: Global, quoted: &str) -> Result<Option<Text>, AllocError> {
    if quoted.len() > LONGEST_QUOTED {
        return Ok(None);
    }
    match read_text(alloc, quoted.as_bytes()) {
        Ok(text) => Ok(Some(text)),
        Err(TextError::At(_)) => Ok(None),
        Err(TextError::NoMemory) => Err(AllocError),
    }
}

/// What came of a file, some of whose damage is named.
fn try_damage(
    alloc: Global,
    file: &[u8],
    place: usize,
    damage: Damage,
) -> Result<Found, AllocError> {
    let damaged = damage_of(alloc, file, place, damage)?;
    find(alloc, damaged.as_slice())
}

/// Tries one kind of damage at each byte of a file, and tells where what came of it differs.
fn try_each(
    rt: &HostRuntime,
    name: &str,
    file: &[u8],
    damage: Damage,
    counts: &mut Counts,
) -> io::Result<()> {
    for place in 0..file.len() {
        let found = try_damage(rt.alloc(), file, place, damage)?;
        counts.add(found);
        if let Found::Differs(difference) = found {
            println!(rt; "{name}, {damage:?} at {place}: {difference:?}")?;
        }
    }
    Ok(())
}

/// Tries each kind of damage at each byte of a file.
fn try_all(rt: &HostRuntime, name: &str, file: &[u8]) -> io::Result<Counts> {
    let mut counts = Counts::new();
    for kind in kinds() {
        try_each(rt, name, file, *kind, &mut counts)?;
    }
    println!(rt; "{name}: {counts}")?;
    Ok(counts)
}

/// Tries each value at each byte of a file.
fn try_values(rt: &HostRuntime, name: &str, file: &[u8]) -> io::Result<Counts> {
    let mut counts = Counts::new();
    for value in 0..=u8::MAX {
        try_each(rt, name, file, Damage::Set(value), &mut counts)?;
    }
    println!(rt; "{name}, each value: {counts}")?;
    Ok(counts)
}

impl<'a> Trial<'a> {
    /// Goes on with a row.
    fn go_on(&mut self, rt: &HostRuntime, row: Row<'a>) -> io::Result<()> {
        match row {
            Row::Blank => {}
            Row::File(name) => {
                self.name = name;
                self.file.truncate(0);
            }
            Row::More(quoted) => match bytes_of(rt.alloc(), quoted)? {
                Some(more) => self.file.extend_from_slice(more.as_slice())?,
                None => self.sound = false,
            },
            Row::Damaged => {
                let counts = try_all(rt, self.name, self.file.as_slice())?;
                self.counts.join(counts);
            }
            Row::Values => {
                let counts = try_values(rt, self.name, self.file.as_slice())?;
                self.counts.join(counts);
            }
        }
        Ok(())
    }
}

/// Tries all files of a text. Whether all was as the definition says.
fn try_text(rt: &HostRuntime, text: &str) -> io::Result<bool> {
    let mut trial = Trial {
        name: "",
        file: Text::new(rt.alloc()),
        counts: Counts::new(),
        sound: true,
    };
    for (before, text) in text.lines().enumerate() {
        match Row::read(text) {
            Some(row) => trial.go_on(rt, row)?,
            None => {
                trial.sound = false;
                println!(rt; "a row of no form behind {before} others: {text}")?;
            }
        }
    }
    println!(rt; "in all: {}", trial.counts)?;
    Ok(trial.sound && trial.counts.differ == 0)
}

fn main(rt: HostRuntime) -> io::Result<ExitCode> {
    let text = io::read_to_string(rt.alloc(), rt.reader())?;
    Ok(if try_text(&rt, text.as_str())? {
        ExitCode::SUCCESS
    } else {
        ExitCode::FAILURE
    })
}
