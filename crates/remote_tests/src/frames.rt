//! Tests of frames: what is read of bytes that are cut off, too long, or come in pieces, and what is written.

ghost use Rattle.std.specs.Prelude.{◌<◌, ◌^◌, length};

use dio_core::{MemSink, MemSource, Sink, Source};
use std::alloc::{AllocError, Global};
use wire_frames::{Frame, FrameFault, read_frame, write_frame};

/// An answer of `read_frame` as a text.
fn shown(answer: &Result<Frame, FrameFault>) -> &[u8] {
    match answer {
        Ok(Frame::Bytes(bytes)) => bytes.as_slice(),
        Ok(Frame::End) => b"end".as_slice(),
        Err(FrameFault::ReadFault) => b"fault".as_slice(),
        Err(FrameFault::Broken) => b"broken".as_slice(),
        Err(FrameFault::NoMemory) => b"no memory".as_slice(),
    }
}

/// Whether the source's next frames are these, and it has then counted so many faults.
fn reads<S: Source + Drop>(
    alloc: Global,
    source: Result<S, AllocError>,
    most: u32,
    wanted: &[&[u8]],
    faults: u64,
) -> bool {
    let Ok(mut source) = source else {
        return false;
    };
    for want in wanted {
        if shown(&read_frame(alloc, &mut source, most)) != *want {
            return false;
        }
    }
    source.read_faults() == faults
}

/// What is read where a frame has two bytes at most, and the first two answers.
type Row = (&'static [u8], &'static [u8], &'static [u8]);

static ROWS: [Row; 9] = [
    (b"", b"end", b"end"),
    (b"\x00\x00\x00\x01a", b"a", b"end"),
    (b"\x00\x00\x00\x02ab\x00\x00\x00\x01c", b"ab", b"c"),
    // The bytes behind a frame are left.
    (b"\x00\x00\x00\x02abc", b"ab", b"broken"),
    // A length of no byte, and of one too many: only the length is taken.
    (b"\x00\x00\x00\x00\x00\x00\x00\x01a", b"broken", b"a"),
    (b"\x00\x00\x00\x03\x00\x00\x00\x01a", b"broken", b"a"),
    // Each byte of a length counts.
    (b"\x01\x00\x00\x01a", b"broken", b"broken"),
    (b"\x00\x01\x00\x01a", b"broken", b"broken"),
    (b"\x00\x00\x01\x01a", b"broken", b"broken"),
];

/// The rows, so that the proof of a test doesn't go through them.
fn rows() -> &'static [Row] {
    &ROWS
}

#[test]
fn frames_are_read_in_pieces_of_any_size(rt: HostRuntime) {
    for piece in [1, 3, 4096] {
        for (input, first, second) in rows() {
            let source = MemSource::new(rt.alloc(), input, piece, &[]);
            assert!(rt; reads(rt.alloc(), source, 2, &[*first, *second], 0));
        }
    }
}

static TWO: &[u8] = b"\x00\x00\x00\x02ab\x00\x00\x00\x01c";

/// Two frames, of six and of five bytes.
fn two() -> &'static [u8] {
    TWO
}

/// The first of their bytes.
fn front(count: usize) -> &'static [u8] {
    let bytes = two();
    &bytes[..count.min(bytes.len())]
}

/// What is answered of two frames of which so many bytes are there, or of which the call with this number fails.
fn answers(count: usize, at_once: &'static [u8]) -> [&'static [u8]; 3] {
    match count {
        0..=5 => [at_once, b"", b""],
        6..=10 => [b"ab", at_once, b""],
        _ => [b"ab", b"c", at_once],
    }
}

/// Whether so many bytes of two frames are read as they should be, given so many at a time.
fn is_cut(alloc: Global, count: usize, piece: usize) -> bool {
    let (first, second) = (count == 0, count == 6 || count == 11);
    let last = if first || second {
        b"end".as_slice()
    } else {
        b"broken".as_slice()
    };
    let source = MemSource::new(alloc, front(count), piece.max(1), &[]);
    let wanted = answers(count, last);
    let frames = if count < 6 {
        1
    } else if count < 11 {
        2
    } else {
        3
    };
    reads(alloc, source, 2, &wanted[..frames], 0)
}

#[test]
fn a_stream_that_is_cut_off_ends_between_frames_alone(rt: HostRuntime) {
    for count in 0..12 {
        assert!(rt; is_cut(rt.alloc(), count, 1) && is_cut(rt.alloc(), count, 5));
    }
}

/// Whether a read that fails at a call is answered so, where each gives a byte.
fn is_faulted(alloc: Global, call: usize) -> bool {
    let source = MemSource::new(alloc, two(), 1, &[call as u64]);
    let wanted = answers(call, b"fault");
    let frames = if call < 6 {
        1
    } else if call < 11 {
        2
    } else {
        3
    };
    reads(alloc, source, 2, &wanted[..frames], 1)
}

#[test]
fn a_read_fault_is_answered_in_the_frame_where_it_comes(rt: HostRuntime) {
    for call in 0..12 {
        assert!(rt; is_faulted(rt.alloc(), call));
    }
}

/// So many bytes.
fn some_bytes(alloc: Global, count: usize) -> Result<Vec<u8>, AllocError> {
    let mut bytes = Vec::new(alloc);
    bytes.resize(count, b'a')?;
    Ok(bytes)
}

/// Whether these bytes are written as a frame, which a flush passes on, and are read from it.
fn comes_back(alloc: Global, bytes: &[u8], sink: &mut MemSink) -> bool
    requires { length bytes.now < 2 ^ 32 }
{
    if !write_frame(sink, bytes) {
        return false;
    }
    let source = MemSource::new(alloc, sink.passed(), 4096, &[]);
    sink.passed().len() == sink.taken().len() && reads(alloc, source, 200_000, &[bytes, b"end"], 0)
}

/// Whether three times so many bytes come back, where the sink takes so many in a call.
fn is_written(alloc: Global, count: u16, piece: usize) -> bool {
    let Ok(bytes) = some_bytes(alloc, count as usize * 3) else {
        return false;
    };
    let Ok(mut sink) = MemSink::new(alloc, piece.max(1), &[]) else {
        return false;
    };
    bytes.len() < 200_000 && comes_back(alloc, bytes.as_slice(), &mut sink)
}

#[test]
fn what_is_written_is_read(rt: HostRuntime) {
    for count in [1, 339, 340, 341, 21_845, 65_535] {
        assert!(rt;
            is_written(rt.alloc(), count, 4096) && is_written(rt.alloc(), count, 1_000_000)
        );
    }
}

/// Whether a frame of two bytes is written by a sink that fails at a call, and this is taken of it.
fn takes(sink: Result<MemSink, AllocError>, all: bool, taken: &[u8], passed: &[u8]) -> bool {
    match sink {
        Ok(mut sink) => {
            write_frame(&mut sink, b"ab") == all
                && sink.taken() == taken
                && sink.passed() == passed
                && (sink.write_faults() == 0) == all
        }
        Err(_) => false,
    }
}

#[test]
fn a_write_fault_leaves_a_prefix_of_the_frame(rt: HostRuntime) {
    for call in 0..6 {
        let sink = MemSink::new(rt.alloc(), 1, &[call]);
        assert!(rt; takes(sink, false, front(call as usize), b""));
    }
    // A short frame is one write, and then a flush.
    assert!(rt; takes(MemSink::new(rt.alloc(), 100, &[1]), false, front(6), b""));
    assert!(rt;
        takes(
            MemSink::new(rt.alloc(), 100, &[2]),
            true,
            front(6),
            front(6)
        )
    );
}

#[test]
fn a_length_alone_takes_little_memory(rt: HostRuntime) {
    let source = MemSource::new(rt.alloc(), b"\x02\x00\x00\x00a", 4096, &[]);
    assert!(rt; reads(rt.alloc(), source, 33_554_432, &[b"broken".as_slice()], 0));
    let source = MemSource::new(rt.alloc(), b"\x02\x00\x00\x01a", 4096, &[]);
    assert!(rt; reads(rt.alloc(), source, 33_554_432, &[b"broken".as_slice()], 0));
}
