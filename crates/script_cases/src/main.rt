//! Tries cases, as text. They come on the standard input, whose head says how they are written, kind by kind: scripts with their
//! replies, the journal in a file, and audits.
//!
//! What differs is named, and a line a kind says how many cases there were. The status is 0 where nothing differed.
#![tactic(auto)]

mod audits;
mod files;
mod scripts;

use std::io;
use std::process::ExitCode;
use std::sync::Wait;
use std::thread::Threads;

/// What stands before the name of a kind, behind which its cases stand.
const KIND: &str = "\n@kind ";

/// Tries the cases of a kind, which stand behind its name. Whether all is as it is wanted.
fn try_kind<R: Threads + Wait + Sync>(
    rt: &HostRuntime,
    threads: &R,
    part: &str,
) -> io::Result<bool> {
    let (name, rows) = part.split_once("\n").unwrap_or((part, ""));
    match name {
        "scripts" => scripts::try_all(rt, threads, rows),
        "files" => files::try_all(rt, threads, rows),
        "audits" => audits::try_all(rt, threads, rows),
        _ => {
            println!(rt; "there are no cases of this kind: {name}")?;
            Ok(false)
        }
    }
}

/// Tries all cases of the standard input. Whether all is as it is wanted.
fn try_all<R: Threads + Wait + Sync>(rt: &HostRuntime, threads: &R) -> io::Result<bool> {
    let text = io::read_to_string(rt.alloc(), rt.reader())?;
    let mut sound = true;
    for part in text.as_str().split(KIND).skip(1) {
        sound &= try_kind(rt, threads, part)?;
    }
    Ok(sound)
}

fn main(rt: HostRuntime) -> io::Result<ExitCode> {
    let sound = try_all(&rt, &rt)?;
    Ok(if sound {
        ExitCode::SUCCESS
    } else {
        ExitCode::FAILURE
    })
}
