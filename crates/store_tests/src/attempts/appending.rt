//! What a journal answers to appends where its keeper fails or tells its list, and where two slots were reserved. What is
//! appended has to be the run of a text that was parsed and checked; what was observed is put together by hand.

ghost use Rattle.std.specs.Prelude.{◌≡◌, ◌≤◌, ◌<◌, ◌+◌, ◌^◌, ◌==◌, if◌then◌else◌, [], ◌∷◌, length, Some, IfOk, IfSome, OnOk, OnErr};
ghost use Rattle.std.specs.Bool.{OnTrue, OnFalse};
ghost use Rattle.std.specs.Option.{option_copied};
ghost use Rattle.rdt_types.specs.declared.limits.TheConstants.{LEAST_SHARDS, MOST_SHARDS, LEAST_COMMITS, MOST_COMMITS};
ghost use Rattle.txn_lang.specs.Journals.{own};
ghost use Rattle.journal_core.specs.Bodies.{IsBodyText};
ghost use Rattle.journal_core.specs.Journals.{CanAppend, Decides};
ghost use Rattle.journal_core.specs.Keeping.{Keeps};
ghost use Rattle.journal_core.specs.Kinds.{HasKinds};
ghost use Rattle.journal_core.specs.Pairs.{AreNumbered};
ghost use Rattle.journal_core.specs.Readies.{IsRunOf};
ghost use Rattle.journal_core.specs.Witnesses.{AreBasedOfOneKind};
ghost use Rattle.store_tests.specs.Plain.{IsTold, plain, plain_bytes};

use crate::attempts::segments::has_so_many;
use crate::bodies::checked;
use abort_witness::{Based, BasedList, Witness};
use change_feed::Tail;
use conflict_table::{Obs, Steps};
use dio_core::Count;
use journal_core::{Appended, FrontList, Journal, Keep, KeepFault, MemKeep, Ready, Slot};
use plain_data::Text;
use rdt_types::{Address, DeltaMap, ItemList, Kind, Outcome, Settings};
use std::alloc::{AllocError, Global};
use std::marker::Brand;
use std::sync::ledger::{Blank, Ledger};
use txn_eval::{Snaps, Step, run};
use txn_lang::{Commit, CommitList, Run};

/// A body that adds to the counter `x`, and one that does nothing.
const ADDS: &[u8] = br#"counter("x").add(1);"#;

const NOTHING: &[u8] = b"let a = 1;";

/// What came of an append.
#[derive(Clone, Copy, PartialEq)]
pub(super) enum End {
    Number(u64),
    /// The witness' base and number, where it is of the counter `x`.
    Clash(u64, u64),
    Full(u32),
    Fault(u64, u64),
    Other,
}

// ---- journals

/// The counter `x`.
fn counter(alloc: Global) -> Result<Address, AllocError>
    ensures { IfOk result (λ address. address.kind ≡ Kind.Counter) }
{
    Ok(Address {
        kind: Kind::Counter,
        key: Text::from_slice(alloc, b"x")?,
    })
}

/// A journal of so many shards and a limit, with these commits.
pub(super) fn journal_of<K: Keep>(
    alloc: Global,
    keeper: K,
    kept: CommitList,
    shards: u8,
    limit: u32,
) -> Result<Journal<K>, AllocError>
    requires numbered { AreNumbered kept }
    requires kinds { HasKinds kept }
    requires told { IfSome (K.kept keeper) (λ list. list ≡ kept) }
    requires shards { (LEAST_SHARDS ≤ shards) × (shards ≤ MOST_SHARDS) }
    requires limit { (LEAST_COMMITS ≤ limit) × (limit ≤ MOST_COMMITS) }
{
    let settings = Settings {
        shards,
        window: 1,
        limit,
    };
    Journal::new(alloc, &settings, keeper, kept)
}

// ---- what is appended

/// A commit counts where it is a client's.
fn counted(commit: Option<&Commit>, client: u32) -> u64
    ensures own { IfSome (option_copied commit.entry) (λ c. result ≡ (if c.client == client then 1 else 0)) }
    ensures one { result ≤ 1 }
{
    match commit {
        Some(commit) if commit.client == client => 1,
        _ => 0,
    }
}

/// The place that a client's next commit has among its own, in a journal of few commits.
fn next_seq<K: Keep>(journal: &Journal<K>, client: u32) -> Result<u64, AllocError>
    ensures { IfOk result (λ seq. seq ≡ length (own client journal.now.commits) + 1) }
{
    let end = journal.length();
    if end > 99 {
        return Err(AllocError);
    }
    let mut seq = 1;
    for number in 0..end {
        seq += counted(journal.commit(number + 1), client);
    }
    Ok(seq)
}

/// That the counter `x` was read at a base.
fn read_at(alloc: Global, base: u64) -> Result<BasedList, AllocError>
    ensures { IfOk result AreBasedOfOneKind }
{
    let mut based = BasedList::new(alloc);
    based.push(Based {
        address: counter(alloc)?,
        obs: Obs::CounterIs,
        base,
    })?;
    Ok(based)
}

/// The run of a text that reads nothing, and the text.
fn ran(alloc: Global, source: &[u8]) -> Result<(Text, Run), AllocError>
    ensures run { IfOk result (λ done. IsRunOf done.0 done.1) }
    ensures body_text { IfOk result (λ done. IsBodyText done.0) }
{
    let Ok(body) = checked(alloc, source, false) else {
        return Err(AllocError);
    };
    match run(alloc, &body, &Snaps::new(alloc)) {
        Ok(Step::Done(run)) => Ok((body.source, run)),
        _ => Err(AllocError),
    }
}

/// A text's run, handed on by a client that read the counter `x` at a base.
fn handed(
    alloc: Global,
    client: u32,
    seq: u64,
    source: &[u8],
    base: u64,
) -> Result<Ready, AllocError>
    ensures run { IfOk result (λ ready. IsRunOf ready.body ready.run) }
    ensures body_text { IfOk result (λ ready. IsBodyText ready.body) }
    ensures client { IfOk result (λ ready. ready.client ≡ client) }
    ensures seq { IfOk result (λ ready. ready.seq ≡ seq) }
    ensures observed { IfOk result (λ ready. AreBasedOfOneKind ready.based) }
{
    let based = read_at(alloc, base)?;
    let (body, run) = ran(alloc, source)?;
    Ok(Ready {
        client,
        seq,
        body,
        run,
        based,
        fronts: FrontList::new(alloc),
    })
}

/// What the journal answers to a slot.
fn decided<L: Ledger, K: Keep>(
    blank: Blank,
    journal: &mut Journal<K>,
    ready: &Ready,
    slot: Slot,
) -> Appended
    requires name { blank.name ≡ L.name }
    requires parts { blank.parts ≡ L.parts }
    requires one { blank.parts ≡ 1 }
    requires can { CanAppend K.stands_for ready.now slot journal.old }
    requires few { length ready.now.based < 2 ^ 32 }
    ensures { Decides ready.now journal.old result journal.new }
{
    journal.append(ready, slot, &mut Steps::<L>::new(blank))
}

/// What the journal answers to a slot by the two parts of an append, or nothing where something clashes.
fn cleared<L: Ledger, K: Keep>(
    blank: Blank,
    journal: &mut Journal<K>,
    ready: &Ready,
    slot: Slot,
) -> Option<Appended>
    requires name { blank.name ≡ L.name }
    requires parts { blank.parts ≡ L.parts }
    requires one { blank.parts ≡ 1 }
    requires can { CanAppend K.stands_for ready.now slot journal.old }
    requires few { length ready.now.based < 2 ^ 32 }
{
    match journal.clashes(ready, &mut Steps::<L>::new(blank)) {
        Some(_found) => None,
        None => Some(journal.append_clear(slot)),
    }
}

/// What a witness says in short.
fn clash(witness: &Witness) -> End {
    if witness.address.key.as_slice() == b"x".as_slice() {
        End::Clash(witness.base, witness.number)
    } else {
        End::Other
    }
}

/// What comes of an append.
fn append<K: Keep>(journal: &mut Journal<K>, ready: &Ready) -> Result<End, AllocError>
    requires run { IsRunOf ready.now.body ready.now.run }
    requires body_text { IsBodyText ready.now.body }
    requires next { ready.now.seq ≡ length (own ready.now.client journal.old.commits) + 1 }
    requires observed { AreBasedOfOneKind ready.now.based }
{
    if ready.based.len() > 9 {
        return Err(AllocError);
    }
    let slot = journal.reserve(ready)?;
    match decided::<Brand, K>(Blank::new(1), journal, ready, slot) {
        Appended::Number(number) => Ok(End::Number(number)),
        Appended::Clash(found) => Ok(clash(&journal.witness(ready, &found)?)),
        Appended::Full(limit) => Ok(End::Full(limit)),
        Appended::DiskFault(before, after) => Ok(End::Fault(before, after)),
    }
}

/// How the append of a client's text ends that read the counter `x` at a base.
pub(super) fn added<K: Keep>(
    alloc: Global,
    journal: &mut Journal<K>,
    client: u32,
    source: &[u8],
    base: u64,
) -> Result<End, AllocError> {
    let seq = next_seq(journal, client)?;
    let ready = handed(alloc, client, seq, source, base)?;
    append(journal, &ready)
}

/// The client and the text of an append, the base at which the counter `x` was read, and the end.
type Row = (u32, &'static [u8], u64, End);

/// Makes appends, and answers how many ended as they should.
fn play<K: Keep>(alloc: Global, journal: &mut Journal<K>, rows: &[Row]) -> usize {
    for (place, (client, source, base, end)) in rows.iter().enumerate() {
        match added(alloc, journal, *client, source, *base) {
            Ok(found) if found == *end => {}
            _ => return place,
        }
    }
    rows.len()
}

/// Client 0 adds to the counter `x`, and twice more.
static ONE: [Row; 1] = [(0, ADDS, 0, End::Number(1))];

fn one() -> &'static [Row] {
    &ONE
}

static TWO_MORE: [Row; 2] = [(0, ADDS, 1, End::Number(2)), (0, ADDS, 2, End::Number(3))];

fn two_more() -> &'static [Row] {
    &TWO_MORE
}

// ---- what is read of a journal

/// Whether a tail is there and has so many changes.
fn has(tail: &Result<Tail, AllocError>, count: usize) -> bool {
    match tail {
        Ok(tail) => has_so_many(tail.changes.lend(), count),
        Err(_) => false,
    }
}

/// Whether the only commit is there, with its change in shard 1, and nothing is elsewhere or behind it.
fn has_one_change(journal: &Journal<MemKeep>) -> bool {
    journal.length() == 1
        && has(&journal.tail(1, 0, 1), 1)
        && has(&journal.tail(0, 0, 1), 0)
        && has(&journal.tail_all(1, 1), 0)
        && journal.commit(1).is_some()
        && journal.commit(0).is_none()
        && journal.commit(2).is_none()
}

// ---- two slots

/// The number of a slot.
fn number_of(slot: &Result<Slot, AllocError>) -> Option<u64> {
    match slot {
        Ok(slot) => Some(slot.commit.number),
        Err(_) => None,
    }
}

/// Whether the slot that was reserved first is appended, where another was reserved behind it.
fn goes_first(
    journal: &mut Journal<MemKeep>,
    first: &Ready,
    second: &Ready,
) -> Result<bool, AllocError>
    requires run { IsRunOf first.now.body first.now.run }
    requires body_text { IsBodyText first.now.body }
    requires next { first.now.seq ≡ length (own first.now.client journal.old.commits) + 1 }
{
    if first.based.len() > 9 {
        return Err(AllocError);
    }
    let slot = journal.reserve(first)?;
    let number = slot.commit.number;
    let other = number_of(&journal.reserve(second));
    let length = journal.length();
    let answer = cleared::<Brand, MemKeep>(Blank::new(1), journal, first, slot);
    Ok((number, other, length) == (4, Some(4), 3) && answer == Some(Appended::Number(4)))
}

/// Whether that is so of two clients that read the counter `x` at 3.
fn first_of_two(alloc: Global, journal: &mut Journal<MemKeep>) -> bool {
    let Ok(seq) = next_seq(journal, 7) else {
        return false;
    };
    let Ok(first) = handed(alloc, 7, seq, ADDS, 3) else {
        return false;
    };
    match handed(alloc, 8, 1, ADDS, 3) {
        Ok(second) => matches!(goes_first(journal, &first, &second), Ok(true)),
        Err(_) => false,
    }
}

/// Behind the commit of the first slot.
static BEHIND: [Row; 2] = [
    (8, NOTHING, 3, End::Clash(3, 4)),
    (8, NOTHING, 4, End::Number(5)),
];

fn behind() -> &'static [Row] {
    &BEHIND
}

/// Whether the change of a first commit is found, and of two slots behind three commits one is added. Then the other client's
/// append clashes, until it reads anew.
fn one_is_added(alloc: Global) -> bool {
    match journal_of(alloc, MemKeep, CommitList::new(alloc), 4, 9) {
        Ok(mut journal) => {
            play(alloc, &mut journal, one()) == 1
                && has_one_change(&journal)
                && play(alloc, &mut journal, two_more()) == 2
                && first_of_two(alloc, &mut journal)
                && play(alloc, &mut journal, behind()) == 2
        }
        Err(_) => false,
    }
}

#[test]
fn a_change_stands_in_its_shard_and_two_slots_have_one_number(rt: HostRuntime) {
    assert!(rt; one_is_added(rt.alloc()));
}

// ---- keepers

/// A keeper that fails at one call, behind so many that it does, and keeps nothing.
#[derive(Drop)]
struct Failing {
    before: u64,
    faults: Count,
}

impl Keep for Failing {
    ghost use Rattle.std.specs.Prelude.{None, true, []};

    ghost kept = { λ _. None };

    ghost keep_faults = { λ keeper. keeper.faults };

    ghost home = { λ _. 0 };

    ghost may_fail = { true };

    ghost stands_for = { λ bytes _. bytes ≡ [] };

    fn make(&self, alloc: Global, _commit: &Commit) -> Result<Text, AllocError> {
        Ok(Text::new(alloc))
    }

    fn keep(&mut self, _bytes: &Text) -> Result<(), KeepFault> {
        if self.before == 0 {
            self.before = u64::MAX;
            self.faults.add_one();
            return Err(KeepFault);
        }
        self.before -= 1;
        Ok(())
    }

    fn keep_faults(&self) -> u64 {
        self.faults.get()
    }
}

/// Up to the fault, and behind it.
static TO_THE_FAULT: [Row; 3] = [
    (7, NOTHING, 3, End::Number(4)),
    (8, NOTHING, 2, End::Clash(2, 3)),
    (8, NOTHING, 3, End::Fault(0, 1)),
];

fn to_the_fault() -> &'static [Row] {
    &TO_THE_FAULT
}

static BEHIND_THE_FAULT: [Row; 2] = [
    (8, NOTHING, 3, End::Number(5)),
    (8, NOTHING, 3, End::Full(5)),
];

fn behind_the_fault() -> &'static [Row] {
    &BEHIND_THE_FAULT
}

/// Whether a journal goes on so behind three commits, and counts one fault at the end.
fn goes_on(alloc: Global, mut journal: Journal<Failing>) -> bool {
    play(alloc, &mut journal, one()) == 1
        && play(alloc, &mut journal, two_more()) == 2
        && play(alloc, &mut journal, to_the_fault()) == 3
        && journal.length() == 4
        && journal.commit(5).is_none()
        && play(alloc, &mut journal, behind_the_fault()) == 2
        && journal.close().0.faults.get() == 1
}

/// The same, with a keeper that fails at its fifth call.
fn fails_once(alloc: Global) -> bool {
    let keeper = Failing {
        before: 4,
        faults: Count::new(),
    };
    match journal_of(alloc, keeper, CommitList::new(alloc), 4, 5) {
        Ok(journal) => goes_on(alloc, journal),
        Err(_) => false,
    }
}

#[test]
fn a_keeper_fails_at_its_fifth_call(rt: HostRuntime) {
    assert!(rt; fails_once(rt.alloc()));
}

/// A keeper that tells its list. It keeps commits that did nothing, with numbers below 256, and fails at all others.
#[derive(Drop)]
struct Telling {
    alloc: Global,
    list: CommitList,
    faults: Count,
}

/// A number as a byte, if it is one.
fn byte(number: u64) -> Result<u8, AllocError>
    ensures { IfOk result (λ byte. byte ≡ number) }
{
    if number > 255 {
        return Err(AllocError);
    }
    Ok(number as u8)
}

/// Whether a commit did nothing.
fn did_nothing(commit: &Commit) -> bool
    ensures yes { OnTrue result (commit.now ≡ plain commit.now.number commit.now.client commit.now.seq commit.now.body) }
    ensures no { OnFalse result (plain_bytes commit.now ≡ []) }
{
    match &commit.outcome {
        Outcome::Ok(emitted) => emitted.is_empty() && commit.deltas.is_empty(),
        _ => false,
    }
}

/// The bytes of a commit that did nothing.
fn plain_bytes_of(alloc: Global, commit: &Commit) -> Result<Text, AllocError>
    ensures { IfOk result (λ bytes. bytes ≡ commit.now.number ∷ commit.now.client ∷ commit.now.seq ∷ commit.now.body) }
{
    let mut bytes = Text::new(alloc);
    bytes.push(byte(commit.number)?)?;
    bytes.push(byte(commit.client as u64)?)?;
    bytes.push(byte(commit.seq)?)?;
    bytes.extend_from_slice(commit.body.as_slice())?;
    Ok(bytes)
}

/// A commit that did nothing.
fn plain_of(
    alloc: Global,
    number: u8,
    client: u8,
    seq: u8,
    body: &[u8],
) -> Result<Commit, AllocError>
    ensures { IfOk result (λ commit. commit ≡ plain number client seq body.now) }
{
    Ok(Commit {
        number: number as u64,
        client: client as u32,
        seq: seq as u64,
        body: Text::from_slice(alloc, body)?,
        outcome: Outcome::Ok(ItemList::new(alloc)),
        deltas: DeltaMap::new(alloc),
    })
}

/// The commit that bytes tell goes behind a list.
fn add_told(alloc: Global, list: &mut CommitList, bytes: &[u8]) -> Result<(), AllocError>
    ensures ok { OnOk result (Keeps IsTold bytes.now (Some list.old) (Some list.new)) }
    ensures err { OnErr result (list.new ≡ list.old) }
{
    let [number, client, seq, body @ ..] = bytes else {
        return Err(AllocError);
    };
    list.push(plain_of(alloc, *number, *client, *seq, body)?)
}

impl Keep for Telling {
    ghost use Rattle.std.specs.Prelude.{Some, true};
    ghost use Rattle.store_tests.specs.Plain.{IsTold};

    ghost kept = { λ keeper. Some keeper.list };

    ghost keep_faults = { λ keeper. keeper.faults };

    ghost home = { λ _. 0 };

    ghost may_fail = { true };

    ghost stands_for = { IsTold };

    fn make(&self, alloc: Global, commit: &Commit) -> Result<Text, AllocError> {
        if did_nothing(commit) {
            plain_bytes_of(alloc, commit)
        } else {
            Ok(Text::new(alloc))
        }
    }

    fn keep(&mut self, bytes: &Text) -> Result<(), KeepFault> {
        match add_told(self.alloc, &mut self.list, bytes.as_slice()) {
            Ok(()) => Ok(()),
            Err(_) => {
                self.faults.add_one();
                Err(KeepFault)
            }
        }
    }

    fn keep_faults(&self) -> u64 {
        self.faults.get()
    }
}

/// Whether a list has two commits of one client in order.
fn has_two(list: &CommitList, client: u32) -> bool {
    match list.as_slice() {
        [first, second] => {
            (first.number, first.client, first.seq) == (1, client, 1)
                && (second.number, second.client, second.seq) == (2, client, 2)
                && second.body.as_slice() == NOTHING
        }
        _ => false,
    }
}

/// Two commits that do nothing, and one that does something.
static TOLD: [Row; 3] = [
    (7, NOTHING, 0, End::Number(1)),
    (7, NOTHING, 0, End::Number(2)),
    (8, ADDS, 0, End::Fault(0, 1)),
];

fn told() -> &'static [Row] {
    &TOLD
}

/// Whether the keeper and the journal have the commits at the end.
fn is_told(alloc: Global, mut journal: Journal<Telling>) -> bool {
    if play(alloc, &mut journal, told()) != 3 {
        return false;
    }
    let (keeper, commits) = journal.close();
    has_two(&keeper.list, 7) && has_two(&commits, 7)
}

fn tells(alloc: Global) -> bool {
    let keeper = Telling {
        alloc,
        list: CommitList::new(alloc),
        faults: Count::new(),
    };
    match journal_of(alloc, keeper, CommitList::new(alloc), 4, 9) {
        Ok(journal) => is_told(alloc, journal),
        Err(_) => false,
    }
}

#[test]
fn a_keeper_tells_the_commits(rt: HostRuntime) {
    assert!(rt; tells(rt.alloc()));
}
