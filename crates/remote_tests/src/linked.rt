//! Tests of the client's end of a link, over links in memory whose answers are made by hand.

use dio_core::MemLink;
use docc_prepare::StoreError;
use remote_calls::Caller;
use remote_link::LinkCaller;
use remote_wire::{Request, WireAnswer};
use std::alloc::{AllocError, Global};

/// What is asked of an end, or seen of it, and how it should go.
#[derive(Clone, Copy)]
enum Step {
    /// A greeting, a look at the journal, a take and a wait are answered with this seen number.
    Greets(u64),
    Looks(u64),
    Takes(u64),
    Waits(u64),
    /// A wait is a fault.
    WaitFaults,
    /// A look is a fault, and a take is.
    Faults,
    TakeFaults,
    /// A look is answered by want of memory.
    IsLost,
    /// Whether the end is broken, and how many calls have failed.
    Is(bool, u64),
}

/// What an answer says that is seen.
fn seen_of(answer: Result<WireAnswer, StoreError>) -> Result<u64, StoreError> {
    match answer {
        Ok(said) => Ok(said.seen),
        Err(error) => Err(error),
    }
}

/// Asks for the greeting.
fn greeted(caller: &mut LinkCaller<MemLink>) -> Result<u64, StoreError> {
    seen_of(caller.call(&Request::Hello))
}

/// Asks how many commits there are.
fn looked(caller: &mut LinkCaller<MemLink>) -> Result<u64, StoreError> {
    seen_of(caller.call(&Request::Refresh))
}

/// Takes what has changed.
fn took(caller: &mut LinkCaller<MemLink>) -> Result<u64, StoreError> {
    seen_of(caller.call(&Request::Take))
}

/// Waits for more commits.
fn waited(caller: &mut LinkCaller<MemLink>) -> Result<u64, StoreError> {
    seen_of(caller.call(&Request::Wait))
}

/// Whether a step goes as it should.
fn goes(caller: &mut LinkCaller<MemLink>, step: Step) -> bool {
    match step {
        Step::Greets(seen) => greeted(caller) == Ok(seen),
        Step::Looks(seen) => looked(caller) == Ok(seen),
        Step::Takes(seen) => took(caller) == Ok(seen),
        Step::Waits(seen) => waited(caller) == Ok(seen),
        Step::WaitFaults => waited(caller) == Err(StoreError::Fault),
        Step::Faults => looked(caller) == Err(StoreError::Fault),
        Step::TakeFaults => took(caller) == Err(StoreError::Fault),
        Step::IsLost => looked(caller) == Err(StoreError::NoMemory),
        Step::Is(broken, faults) => caller.broken() == broken && caller.call_faults() == faults,
    }
}

/// Whether each of some steps goes as it should.
fn all_go(caller: &mut LinkCaller<MemLink>, steps: &[Step]) -> bool {
    for step in steps {
        if !goes(caller, *step) {
            return false;
        }
    }
    true
}

/// Whether steps go as they should over a link, which has then taken these bytes and passed them on.
fn go(alloc: Global, link: Result<MemLink, AllocError>, steps: &[Step], taken: &[u8]) -> bool {
    let Ok(link) = link else {
        return false;
    };
    let mut caller = LinkCaller::new(alloc, link);
    let went = all_go(&mut caller, steps);
    let link = caller.close();
    went && link.sink.taken() == taken && link.sink.passed() == taken
}

/// A link that gives these bytes, so many at a time.
fn giving(alloc: Global, bytes: &[u8], piece: usize) -> Result<MemLink, AllocError> {
    MemLink::new(alloc, bytes, piece.max(1), &[], &[])
}

/// What the link gives, what is asked, and what the link takes.
type Row = (&'static [u8], &'static [Step], &'static [u8]);

static ROWS: [Row; 14] = [
    // A greeting is answered with the client's number 2 and four shards.
    (
        b"\x00\x00\x00\x0e\x00\x00\x00\x00\x00\x00\x00\x00\x07\x00\x00\x00\x02\x04",
        &[Step::Greets(7), Step::Is(false, 0)],
        b"\x00\x00\x00\x01\x01",
    ),
    // Two looks, of which the second sees as much.
    (
        b"\x00\x00\x00\x09\x00\x00\x00\x00\x00\x00\x00\x00\x05\x00\x00\x00\x09\x00\x00\x00\x00\x00\x00\x00\x00\x05",
        &[Step::Looks(5), Step::Looks(5), Step::Is(false, 0)],
        b"\x00\x00\x00\x01\x02\x00\x00\x00\x01\x02",
    ),
    // The second sees less. No later request goes out.
    (
        b"\x00\x00\x00\x09\x00\x00\x00\x00\x00\x00\x00\x00\x05\x00\x00\x00\x09\x00\x00\x00\x00\x00\x00\x00\x00\x04\x00\x00\x00\x09\x00\x00\x00\x00\x00\x00\x00\x00\x06",
        &[
            Step::Looks(5),
            Step::Faults,
            Step::Is(true, 1),
            Step::Faults,
            Step::Is(true, 2),
        ],
        b"\x00\x00\x00\x01\x02\x00\x00\x00\x01\x02",
    ),
    // A wait sees more, or as much.
    (
        b"\x00\x00\x00\x09\x00\x00\x00\x00\x00\x00\x00\x00\x05\x00\x00\x00\x09\x00\x00\x00\x00\x00\x00\x00\x00\x06",
        &[Step::Looks(5), Step::Waits(6), Step::Is(false, 0)],
        b"\x00\x00\x00\x01\x02\x00\x00\x00\x01\x0a",
    ),
    (
        b"\x00\x00\x00\x09\x00\x00\x00\x00\x00\x00\x00\x00\x05\x00\x00\x00\x09\x00\x00\x00\x00\x00\x00\x00\x00\x05",
        &[Step::Looks(5), Step::WaitFaults, Step::Is(true, 1)],
        b"\x00\x00\x00\x01\x02\x00\x00\x00\x01\x0a",
    ),
    // A take, with nothing that has changed.
    (
        b"\x00\x00\x00\x15\x00\x00\x00\x00\x00\x00\x00\x00\x03\x00\x00\x00\x00\x00\x00\x00\x03\x00\x00\x00\x00",
        &[Step::Takes(3), Step::Is(false, 0)],
        b"\x00\x00\x00\x01\x09",
    ),
    // The answer to another request.
    (
        b"\x00\x00\x00\x15\x00\x00\x00\x00\x00\x00\x00\x00\x03\x00\x00\x00\x00\x00\x00\x00\x03\x00\x00\x00\x00",
        &[Step::Faults, Step::Is(true, 1)],
        b"\x00\x00\x00\x01\x02",
    ),
    // A byte behind the answer, within its frame.
    (
        b"\x00\x00\x00\x0a\x00\x00\x00\x00\x00\x00\x00\x00\x05\x00",
        &[Step::Faults, Step::Is(true, 1)],
        b"\x00\x00\x00\x01\x02",
    ),
    // Lengths of 0 and 1, of 32 MiB and one more.
    (
        b"\x00\x00\x00\x00",
        &[Step::Faults, Step::Is(true, 1)],
        b"\x00\x00\x00\x01\x02",
    ),
    (
        b"\x00\x00\x00\x01\x00",
        &[Step::Faults, Step::Is(true, 1)],
        b"\x00\x00\x00\x01\x02",
    ),
    (
        b"\x02\x00\x00\x00\x00",
        &[Step::Faults, Step::Is(true, 1)],
        b"\x00\x00\x00\x01\x02",
    ),
    (
        b"\x02\x00\x00\x01\x00",
        &[Step::Faults, Step::Is(true, 1)],
        b"\x00\x00\x00\x01\x02",
    ),
    (
        b"\xff\xff\xff\xff\x00",
        &[Step::Faults, Step::Is(true, 1)],
        b"\x00\x00\x00\x01\x02",
    ),
    // No answer.
    (
        b"",
        &[Step::Faults, Step::Is(true, 1), Step::TakeFaults],
        b"\x00\x00\x00\x01\x02",
    ),
];

/// The rows, so that the proof of a test doesn't go through them.
fn rows() -> &'static [Row] {
    &ROWS
}

#[test]
fn answers_are_taken_until_one_is_none(rt: HostRuntime) {
    for piece in [1, 7, 4096] {
        for (bytes, steps, taken) in rows() {
            assert!(rt; go(rt.alloc(), giving(rt.alloc(), bytes, piece), steps, taken));
        }
    }
}

/// The answer to a take: nothing has changed up to commit 3.
static TAKEN: &[u8] =
    b"\x00\x00\x00\x15\x00\x00\x00\x00\x00\x00\x00\x00\x03\x00\x00\x00\x00\x00\x00\x00\x03\x00\x00\x00\x00";

fn taken() -> &'static [u8] {
    TAKEN
}

static BREAKS: [Step; 2] = [Step::TakeFaults, Step::Is(true, 1)];

fn breaks() -> &'static [Step] {
    &BREAKS
}

/// Whether a take breaks the end, where the link gives these bytes.
fn is_broken(alloc: Global, bytes: &[u8]) -> bool {
    go(
        alloc,
        giving(alloc, bytes, 4096),
        breaks(),
        b"\x00\x00\x00\x01\x09",
    )
}

/// Whether each beginning of an answer breaks the end.
fn breaks_cut(alloc: Global, bytes: &[u8]) -> bool {
    for count in 0..bytes.len() {
        if !is_broken(alloc, &bytes[..count]) {
            return false;
        }
    }
    true
}

#[test]
fn an_answer_that_is_cut_off_breaks_the_end(rt: HostRuntime) {
    assert!(rt; breaks_cut(rt.alloc(), taken()));
}

/// Whether the end breaks wherever a byte of an answer is another.
fn breaks_changed(alloc: Global, bytes: &mut Vec<u8>) -> bool {
    for at in 0..bytes.len() {
        for change in [1, 128, 255] {
            let byte = bytes[at];
            bytes[at] = byte ^ change;
            if !is_broken(alloc, bytes.as_slice()) {
                return false;
            }
            bytes[at] = byte;
        }
    }
    true
}

#[test]
fn an_answer_with_a_byte_changed_breaks_the_end(rt: HostRuntime) {
    match Vec::from_slice(rt.alloc(), taken()) {
        Ok(mut bytes) => assert!(rt; breaks_changed(rt.alloc(), &mut bytes)),
        Err(_) => assert!(rt; false),
    }
}

static FAILS: [Step; 5] = [
    Step::TakeFaults,
    Step::Is(false, 1),
    Step::IsLost,
    Step::IsLost,
    Step::Is(false, 1),
];

fn fails() -> &'static [Step] {
    &FAILS
}

/// Whether the end is lost where a read of the link fails.
fn is_lost_reading(alloc: Global, call: u64) -> bool {
    let link = MemLink::new(alloc, taken(), 1, &[call], &[]);
    go(alloc, link, fails(), b"\x00\x00\x00\x01\x09")
}

/// The same where a write does, and the link takes this.
fn is_lost_writing(alloc: Global, call: u64) -> bool {
    let Ok(link) = MemLink::new(alloc, taken(), 1, &[], &[call]) else {
        return false;
    };
    let mut caller = LinkCaller::new(alloc, link);
    let went = all_go(&mut caller, fails());
    let link = caller.close();
    went && link.sink.taken().len() as u64 == call && link.sink.passed().is_empty()
}

#[test]
fn a_link_that_fails_at_any_call_is_asked_no_more(rt: HostRuntime) {
    for call in 0..25 {
        assert!(rt; is_lost_reading(rt.alloc(), call));
    }
    for call in 0..6 {
        assert!(rt; is_lost_writing(rt.alloc(), call));
    }
}
