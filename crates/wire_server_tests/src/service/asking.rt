//! The requests of the table are asked, one case after another, each over a store of its own.

ghost use Rattle.std.specs.Prelude.{◌≡◌, None};
ghost use Rattle.diamond_store.specs.Numbers.{from_in, HasSettings};

use crate::service::clients::{Client, TestStore};
use crate::service::spelling::spelled;
use crate::service::table::table;
use diamond_store::{Book, Open, open};
use history_lock::{Naming, Opened};
use journal_core::MemKeep;
use plain_data::Text;
use rdt_types::Settings;
use remote_service::ServiceError;
use std::alloc::Global;
use std::marker::Brand;
use std::sync::Wait;
use txn_lang::CommitList;

// ---- rows

/// The store of a case. A shard can be read as many commits back as the window says, and the journal takes as many as the limit.
fn settings_of(head: &str) -> Settings {
    let (window, limit) = if head.starts_with("short ") {
        (1, 100_000)
    } else if head.starts_with("small ") {
        (4096, 1)
    } else {
        (4096, 100_000)
    };
    Settings {
        shards: 4,
        window,
        limit,
    }
}

/// A row: who asks, whether each byte is changed first, what is asked, and the answer, unless the request is malformed.
#[derive(Drop)]
struct Row {
    is_second: bool,
    is_changed: bool,
    asked: Vec<u8>,
    answer: Option<Vec<u8>>,
}

/// The answer that a row says.
fn answer_of(alloc: Global, text: &str) -> Option<Option<Vec<u8>>> {
    match text {
        "malformed" => Some(None),
        _ => Some(Some(spelled(alloc, text)?)),
    }
}

/// The row of a line, if it has the form of one.
fn row_of(alloc: Global, line: &str) -> Option<Row> {
    let (left, right) = line.split_once("=>")?;
    let (who, asked) = left.split_once(" ")?;
    let (is_second, is_changed) = match who {
        "0" => (false, false),
        "0~" => (false, true),
        "1" => (true, false),
        _ => return None,
    };
    Some(Row {
        is_second,
        is_changed,
        asked: spelled(alloc, asked)?,
        answer: answer_of(alloc, right.trim())?,
    })
}

// ---- requests

/// Whether a request is answered as it should be.
fn is_right(answer: &Result<Text, ServiceError>, wanted: &Option<Vec<u8>>) -> bool {
    match (answer, wanted) {
        (Ok(bytes), Some(wanted)) => bytes.as_slice() == wanted.as_slice(),
        (Err(ServiceError::Malformed), None) => true,
        _ => false,
    }
}

/// Whether bytes are refused as malformed.
fn refuses<N: Naming, R: Wait>(alloc: Global, client: &mut Client<'_, N, R>, asked: &[u8]) -> bool {
    is_right(&client.ask(alloc, asked), &None)
}

/// Whether each beginning of a request is refused, the request itself aside.
fn refuses_cut<N: Naming, R: Wait>(
    alloc: Global,
    client: &mut Client<'_, N, R>,
    asked: &[u8],
) -> bool {
    for count in 0..asked.len() {
        if !refuses(alloc, client, &asked[..count]) {
            return false;
        }
    }
    true
}

/// Whether a request is refused with a byte behind it.
fn refuses_more<N: Naming, R: Wait>(
    alloc: Global,
    client: &mut Client<'_, N, R>,
    asked: &mut Vec<u8>,
) -> bool {
    if asked.push(0).is_err() {
        return false;
    }
    let refused = refuses(alloc, client, asked.as_slice());
    asked.pop();
    refused
}

/// Whether a request is refused where a byte of it is another.
fn refuses_changed<N: Naming, R: Wait>(
    alloc: Global,
    client: &mut Client<'_, N, R>,
    asked: &mut Vec<u8>,
) -> bool {
    for at in 0..asked.len() {
        for change in [1, 128, 255] {
            let byte = asked[at];
            asked[at] = byte ^ change;
            if !refuses(alloc, client, asked.as_slice()) {
                return false;
            }
            asked[at] = byte;
        }
    }
    true
}

/// Whether a row holds. What is answered is refused before, where it is cut off or goes on, and that spoils nothing.
fn holds<N: Naming, R: Wait>(alloc: Global, client: &mut Client<'_, N, R>, row: &mut Row) -> bool {
    if row.answer.is_some()
        && !(refuses_cut(alloc, client, row.asked.as_slice())
            && refuses_more(alloc, client, &mut row.asked))
    {
        return false;
    }
    if row.is_changed && !refuses_changed(alloc, client, &mut row.asked) {
        return false;
    }
    is_right(&client.ask(alloc, row.asked.as_slice()), &row.answer)
}

// ---- cases

/// Two clients of one store.
#[derive(Drop)]
struct Both<'a, N: Naming, R: Wait> {
    first: Client<'a, N, R>,
    second: Client<'a, N, R>,
}

/// Whether a line is a row that holds, or says nothing.
fn line_holds<N: Naming, R: Wait>(alloc: Global, both: &mut Both<'_, N, R>, line: &str) -> bool {
    if line.is_empty() || line.starts_with("#") {
        return true;
    }
    match row_of(alloc, line) {
        Some(mut row) => {
            if row.is_second {
                holds(alloc, &mut both.second, &mut row)
            } else {
                holds(alloc, &mut both.first, &mut row)
            }
        }
        None => false,
    }
}

/// How many lines of a case hold before the first that doesn't, if there is one.
fn first_wrong<N: Naming, R: Wait>(
    alloc: Global,
    both: &mut Both<'_, N, R>,
    case: &str,
) -> Option<usize> {
    for (number, line) in case.lines().enumerate() {
        if number > 0 && !line_holds(alloc, both, line) {
            return Some(number);
        }
    }
    None
}

/// The same of two clients of a store that was just opened. Where there is no such store, the first line is wrong.
fn first_wrong_in<N: Naming, R: Wait>(
    rt: &R,
    alloc: Global,
    opened: Opened<Book<MemKeep>>,
    settings: &Settings,
    case: &[u8],
) -> Option<usize>
    requires lock { opened.lock ≡ N.lock }
    requires settings { HasSettings opened.lock.origin settings.now }
    requires author { opened.front.author ≡ None }
    requires from { from_in opened.lock.origin ≡ opened.lock.base }
{
    let Ok(case) = str::from_utf8(case) else {
        return Some(0);
    };
    let Ok((store, mut first)) = TestStore::<N>::new(alloc, settings, opened, Open) else {
        return Some(0);
    };
    let Ok(second) = store.join(&mut first) else {
        return Some(0);
    };
    let mut both = Both {
        first: Client::new(rt, alloc, &store, first),
        second: Client::new(rt, alloc, &store, second),
    };
    first_wrong(alloc, &mut both, case)
}

/// The same over a store of its own.
fn first_wrong_anew<R: Wait>(rt: &R, alloc: Global, case: &str) -> Option<usize> {
    let settings = settings_of(case);
    match open(alloc, &settings, MemKeep, CommitList::new(alloc)) {
        Ok(opened) => first_wrong_in::<Brand, _>(rt, alloc, opened, &settings, case.as_bytes()),
        Err(_) => Some(0),
    }
}

#[test]
fn requests_are_answered_or_malformed(rt: HostRuntime) {
    for case in table().split("@ ") {
        let wrong = first_wrong_anew(&rt, rt.alloc(), case);
        let name = case.lines().next().unwrap_or("");
        assert!(rt; wrong.is_none(), "{name}: {wrong:?}");
    }
}
