//! The line that tells the counts while they change.

use crate::counts::{Counts, Seen};
use std::io::Eprint;
use std::thread;
use std::time::{Clock, Duration};

/// How often in a second it is looked whether the serving is over.
const LOOKS: u64 = 10;

/// How many milliseconds lie between two looks.
const PAUSE_MILLIS: u64 = 1000 / LOOKS;

/// The most columns of the line: a thousand sessions at most, twenty digits of commits, and the blanks behind them.
const WIDTH: usize = 60;

/// Writes the line over what stands there. The cursor is left at its beginning, so that what is written next, by whomever, takes its
/// place. The blanks at its end cover what a longer number of sessions has left.
fn show<R: Eprint>(rt: &R, seen: Seen) {
    let _ = eprint!(rt; "diamond: {seen}   \r");
}

/// Leaves nothing of the line.
fn erase<R: Eprint>(rt: &R) {
    let _ = eprint!(rt; "{:WIDTH$}\r", "");
}

/// Waits for a second, or until the serving is over.
fn pause<R: Clock>(rt: &R, counts: &Counts) {
    for _ in 0..LOOKS {
        if counts.are_over() {
            return;
        }
        thread::sleep(rt, Duration::from_millis(PAUSE_MILLIS));
    }
}

/// Tells the counts on the standard error until the serving is over: once a second, where they changed.
pub fn tell<R: Clock + Eprint>(rt: &R, counts: &Counts) {
    let mut told = Seen {
        sessions: 0,
        commits: None,
    };
    for _ in 0..u64::MAX {
        let seen = counts.seen();
        if seen != told {
            show(rt, seen);
            told = seen;
        }
        pause(rt, counts);
        if counts.are_over() {
            break;
        }
    }
    erase(rt);
}
