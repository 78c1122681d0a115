//! Plays scripts whose clients are each far from their store, with nothing between: a session over a `Remote`, over a `Direct`, over
//! a pass on the one store of the case. The scripts come on the standard input, whose head says how a case is written.
//!
//! What differs is told, and the last line says how many cases there were. The status is 0 where none differed.
#![tactic(auto)]

mod case;
mod far;
mod playing;

use crate::case::Outcome;
use crate::playing::play_anew;
use std::io;
use std::process::ExitCode;
use std::sync::Wait;

/// Plays a case, and tells what differs. Whether nothing does.
fn holds<R: Wait>(rt: &HostRuntime, waiting: &R, case: &str) -> io::Result<bool> {
    let name = case.lines().next().unwrap_or("");
    match play_anew(waiting, rt.alloc(), case) {
        Ok(Outcome::Held) => return Ok(true),
        Ok(Outcome::NoForm) => println!(rt; "{name}: a row of no form")?,
        Ok(Outcome::Differs(came)) => println!(rt; "{name}: this came\n{came}")?,
        Err(_) => println!(rt; "{name}: no memory, or no store")?,
    }
    Ok(false)
}

/// Plays the cases of a text, and says how many there were. Whether all hold.
fn play_all<R: Wait>(rt: &HostRuntime, waiting: &R, text: &str) -> io::Result<bool> {
    let mut count: u32 = 0;
    let mut sound = true;
    for case in text.split("\n@ ").skip(1) {
        count = count.saturating_add(1);
        sound &= holds(rt, waiting, case)?;
    }
    println!(rt; "{count} cases")?;
    Ok(sound)
}

fn main(rt: HostRuntime) -> io::Result<ExitCode> {
    let text = io::read_to_string(rt.alloc(), rt.reader())?;
    let sound = play_all(&rt, &rt, text.as_str())?;
    Ok(if sound {
        ExitCode::SUCCESS
    } else {
        ExitCode::FAILURE
    })
}
