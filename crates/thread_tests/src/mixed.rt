//! Eight clients in threads, with lines of every kind: what they were answered is held against their journal, run in one thread.

ghost use Rattle.std.specs.Prelude.{◌≡◌, ◌<◌, None};
ghost use Rattle.diamond_store.specs.Numbers.{from_in, HasSettings};

use crate::meeting::{new_client, reply_to_new_client};
use crate::replay::{Line, Script, replies_stand, reply_of};
use diamond_store::{Book, Open, open};
use history_lock::{Naming, Opened};
use journal_core::MemKeep;
use plain_data::Text;
use rdt_types::Settings;
use session_core::Turn;
use session_text::Reply;
use std::alloc::{AllocError, Global};
use std::marker::Brand;
use std::process::Abort;
use std::sync::Wait;
use std::thread::{Threads, map_vec};
use store_talkers::{Founder, Newcomer, Talker, TestStore};
use txn_lang::{Commit, CommitList};

const CLIENTS: u32 = 8;

const LINES_OF_A_CLIENT: usize = 500;

/// What the clients say, in an order of their own each.
static LINES: [&'static [u8]; 28] = [
    br#"do counter("x").add(1);"#,
    br#"do counter("y").add(-3);"#,
    br#"do counter("x").put(counter("x").get() + 1); emit counter("x").get();"#,
    br#"try 3 counter("y").put(counter("y").get() * 3 + counter("x").get()); emit counter("y").get();"#,
    br#"do bool("b").put(not bool("b").get());"#,
    br#"do if bool("b").get() { counter("y").add(1); emit "open"; } else { fail "shut"; }"#,
    br#"do text("t").put(text("t").get() + "a");"#,
    br#"do text("t").put("new"); emit text("t").get();"#,
    br#"do set("s").add("a"); emit set("s").has("b");"#,
    br#"do set("s").remove("a"); set("s").add("b"); emit set("s").all();"#,
    br#"try 2 if set("s").has("a") { set("s").clear(); emit "cleared"; }"#,
    br#"do hash("h").put("f", str(counter("x").get()));"#,
    br#"do hash("h").remove("f"); emit hash("h").fields();"#,
    br#"do hash("h").put("g", "1"); emit hash("h").get("f");"#,
    br#"do for f in hash("h").fields() { hash("h").put(f, "2"); emit f; }"#,
    br#"do list("l").push("p");"#,
    br#"do list("l").push("q"); emit list("l").at(0);"#,
    br#"try 2 list("l").remove("p"); emit len(list("l").all());"#,
    br#"do list("l").clear();"#,
    br#"do fail "no stock " + str(counter("y").get());"#,
    br#"look emit counter("x").get(); emit counter("y").get(); emit bool("b").get();"#,
    br#"look emit set("s").all(); emit hash("h").fields(); emit len(list("l").all()); emit len(text("t").get());"#,
    br#"begin counter("x").put(counter("y").get() + 1); emit set("s").has("a");"#,
    b"step",
    b"step",
    b"go",
    b"drop",
    br#"do emit 1 + true;"#,
];

/// What is seen of all that the lines write.
const LOOK: &[u8] =
    br#"look emit counter("x").get(); emit counter("y").get(); emit bool("b").get(); emit text("t").get(); emit set("s").all(); emit hash("h").fields(); emit hash("h").get("f"); emit hash("h").get("g"); emit list("l").all();"#;

/// Numbers that look as if they were drawn, the same in each run.
#[derive(Drop)]
struct Draws {
    state: u64,
}

impl Draws {
    fn of(client: u32) -> Draws {
        Draws {
            state: u64::from(client),
        }
    }

    fn line(&mut self) -> &'static [u8] {
        self.state = self
            .state
            .wrapping_mul(6_364_136_223_846_793_005)
            .wrapping_add(1_442_695_040_888_963_407);
        let place = (self.state >> 33) % 28;
        LINES[place as usize]
    }
}

/// What a client was answered to its lines.
#[derive(Drop)]
struct Said {
    client: u32,
    turns: Vec<Turn>,
}

/// A client says its lines, until one isn't answered.
fn talk<N: Naming, R: Wait>(
    rt: &R,
    alloc: Global,
    store: &TestStore<N>,
    newcomer: Newcomer<N>,
) -> Said {
    let mut talker = Talker::new(rt, alloc, store, newcomer);
    let client = talker.client();
    let mut draws = Draws::of(client);
    let mut turns = Vec::new(alloc);
    for _ in 0..LINES_OF_A_CLIENT {
        let Ok(turn) = talker.say(alloc, draws.line()) else {
            break;
        };
        if turns.push(turn).is_err() {
            break;
        }
    }
    Said { client, turns }
}

/// New clients.
fn newcomers<N: Naming, R: Abort>(
    rt: &R,
    alloc: Global,
    store: &TestStore<N>,
    first: &mut Founder<N>,
) -> Result<Vec<Newcomer<N>>, AllocError> {
    let mut all = Vec::new(alloc);
    for _ in 0..CLIENTS {
        all.push(new_client(rt, store, first))?;
    }
    Ok(all)
}

/// What a client saw of a prefix is added to the script.
fn add_look(
    alloc: Global,
    script: &mut Script,
    client: u32,
    body: &[u8],
    reply: &Reply,
) -> Result<(), AllocError> {
    let Reply::At(number, _) = reply else {
        return Ok(());
    };
    let verb = format!(in alloc; "at {number} ")?;
    let line = Line {
        client,
        verb: verb.as_bytes(),
        body,
    };
    script.add(alloc, line, reply)
}

/// What a client saw of prefixes is added to the script.
fn add_looks(alloc: Global, script: &mut Script, said: &Said) -> Result<(), AllocError> {
    let mut draws = Draws::of(said.client);
    for turn in &said.turns {
        if let (Some(body), Some(reply)) = (draws.line().strip_prefix(b"look "), reply_of(turn)) {
            add_look(alloc, script, said.client, body, reply)?;
        }
    }
    Ok(())
}

/// The script of all commits in order, and then of all looks.
fn script_of(alloc: Global, commits: &[Commit], said: &[Said]) -> Result<Script, AllocError> {
    let mut script = Script::new(alloc);
    script.add_commits(alloc, commits)?;
    for one in said {
        add_looks(alloc, &mut script, one)?;
    }
    Ok(script)
}

/// Each client was answered every line, and its replies are those of its commits.
fn all_stand(commits: &[Commit], said: &[Said]) -> bool {
    for one in said {
        if one.turns.len() != LINES_OF_A_CLIENT
            || !replies_stand(commits, one.client, one.turns.as_slice())
        {
            return false;
        }
    }
    true
}

/// What eight clients were answered, what one saw behind them, where there was memory, and the journal that is left.
#[derive(Drop)]
struct Ran {
    said: Result<Vec<Said>, AllocError>,
    seen: Result<Text, AllocError>,
    commits: CommitList,
}

/// Eight clients say their lines, each in a thread of its own.
fn all_talk<N: Naming + Send + Sync, R: Threads + Wait + Abort + Sync>(
    rt: &R,
    alloc: Global,
    store: &TestStore<N>,
    first: &mut Founder<N>,
) -> Result<Vec<Said>, AllocError> {
    let all = newcomers(rt, alloc, store, first)?;
    map_vec(rt, all, &|newcomer| talk(rt, alloc, store, newcomer))
}

/// The same on a store of its own, which is closed then.
fn in_eight_threads<N: Naming + Send + Sync, R: Threads + Wait + Abort + Sync>(
    rt: &R,
    alloc: Global,
    opened: Opened<Book<MemKeep>>,
    settings: &Settings,
) -> Result<Ran, AllocError>
    requires lock { opened.lock ≡ N.lock }
    requires settings { HasSettings opened.lock.origin settings.now }
    requires from { from_in opened.lock.origin ≡ opened.lock.base }
    requires author { opened.front.author ≡ None }
{
    let (store, first) = TestStore::<N>::new(alloc, settings, opened, Open)?;
    let mut first = Founder::new(first);
    let said = all_talk(rt, alloc, &store, &mut first);
    let seen = reply_to_new_client(rt, alloc, &store, &mut first, LOOK);
    let closed = store.close(rt, first.into_pass());
    Ok(Ran {
        said,
        seen,
        commits: closed.commits,
    })
}

/// The last look is what is seen of the whole journal.
fn add_last_look(
    alloc: Global,
    script: &mut Script,
    count: usize,
    seen: &Text,
) -> Result<(), AllocError> {
    let verb = format!(in alloc; "at {count} ")?;
    let Some(body) = LOOK.strip_prefix(b"look ") else {
        return Ok(());
    };
    let line = Line {
        client: 0,
        verb: verb.as_bytes(),
        body,
    };
    script.add_said(alloc, line, seen.as_slice())
}

/// Whether what was said is answered by one thread, and so is the last look.
fn is_answered(
    alloc: Global,
    settings: &Settings,
    commits: &[Commit],
    said: &[Said],
    seen: &Text,
) -> Result<bool, AllocError> {
    let mut script = script_of(alloc, commits, said)?;
    add_last_look(alloc, &mut script, commits.len(), seen)?;
    script.is_answered(alloc, settings)
}

/// Whether what eight threads were answered stands by their journal, and one thread answers it, too.
fn stands(alloc: Global, settings: &Settings, ran: &Ran) -> bool {
    let commits = ran.commits.as_slice();
    match (&ran.said, &ran.seen) {
        (Ok(said), Ok(seen)) => {
            all_stand(commits, said.as_slice())
                && is_answered(alloc, settings, commits, said.as_slice(), seen) == Ok(true)
        }
        _ => false,
    }
}

/// Eight clients on a new store.
fn ran_anew<R: Threads + Wait + Abort + Sync>(
    rt: &R,
    alloc: Global,
    settings: &Settings,
) -> Result<Ran, AllocError> {
    let opened = open(alloc, settings, MemKeep, CommitList::new(alloc))?;
    in_eight_threads::<Brand, _>(rt, alloc, opened, settings)
}

#[test]
fn one_thread_answers_as_eight_were_answered(rt: HostRuntime) {
    let settings = Settings::standard();
    let ran = ran_anew(&rt, rt.alloc(), &settings);
    assert!(rt; matches!(&ran, Ok(ran) if stands(rt.alloc(), &settings, ran)));
}
