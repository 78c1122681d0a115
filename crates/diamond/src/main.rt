//! Diamond, a store whose transactions run one after another in the order of its journal.
//!
//! The program makes the real objects of the outside and calls `diamond_cli::diamond`, whose contract says what it does.
#![tactic(auto)]

ghost use Rattle.dio_core.specs.Disks.{NothingPending};

mod read_file;

use alert_net::AlertNet;
use cli_words::{Plan, Question, VERSION, WordsError, asked, help_text, read_words};
use commit_file::RecoverError;
use diamond_cli::{
    BAD_WORDS, BROKEN_LINK, LINK_FAULT, NO_MEMORY, NOT_JOURNAL, WRITE_FAULT, diamond,
};
use dio_core::{Disk, FileDisk, Listener, NoDisk, NoListener, StdSink, StdSource, TcpListening};
use journal_file::read_kept;
use link_buffer::BufferedListening;
use link_ends::Connecting;
use plain_data::Text;
use read_file::ReadFile;
use serve_status::{CountedDisk, CountedListening, Counts, tell};
use std::alloc::{AllocError, Global};
use std::fmt::Display;
use std::io::{BufWriter, ErrorKind, IsTerminal, Write};
use std::net::SocketAddr;
use std::process::ExitCode;
use std::sync::{Arc, Wait};
use std::thread::Threads;
use std::{env, io, str, thread};

/// The words behind the program's name.
fn words(rt: &HostRuntime) -> io::Result<Vec<String>> {
    let mut words = Vec::new(rt.alloc());
    for word in env::args(rt)?.skip(1) {
        words.push(word)?;
    }
    Ok(words)
}

/// What the program says of itself, on its output.
fn answer(rt: &HostRuntime, question: Question) -> Result<u8, AllocError> {
    let written = match question {
        Question::Help => print!(rt; "{}", help_text(rt.alloc())?),
        Question::Version => println!(rt; "{VERSION}"),
    };
    Ok(if written.is_ok() { 0 } else { WRITE_FAULT })
}

/// A writer that holds back what it takes until it is flushed or full. For want of memory the writer is dropped.
fn held_back<W: Write + Drop>(alloc: Global, writer: W) -> Result<BufWriter<W>, AllocError> {
    match BufWriter::new(alloc, writer) {
        Ok(writer) => Ok(writer),
        Err(_) => Err(AllocError),
    }
}

/// Runs the command over the process's streams, a disk and a listener, and answers its status. `threads` is the runtime too, as
/// what starts threads and waits.
fn command<R: Threads + Wait + Sync, D: Disk + Send, N: Listener>(
    rt: &HostRuntime,
    threads: &R,
    words: &[&str],
    disk: &mut D,
    listener: &mut N,
) -> Result<u8, AllocError>
    requires { NothingPending (D.state disk.old) }
{
    let mut source = StdSource::new(rt.alloc(), rt.reader())?;
    let mut sink = StdSink::new(held_back(rt.alloc(), io::writer(rt))?);
    Ok(diamond(
        threads,
        rt.alloc(),
        words,
        &mut source,
        &mut sink,
        disk,
        listener,
    ))
}

/// Says on the standard error where it listens, since a port of 0 stands for one that is free.
fn say_address(rt: &HostRuntime, address: &str, bound: Option<SocketAddr>) {
    let _ = match bound {
        Some(bound) => eprintln!(rt; "diamond: listening at {bound}"),
        None => eprintln!(rt; "diamond: can't listen at `{address}`"),
    };
}

/// Runs the command over the links of a listener, and reads ahead of each of them.
fn command_over<R: Threads + Wait + Sync, D: Disk + Send, N: Listener + Drop>(
    rt: &HostRuntime,
    threads: &R,
    words: &[&str],
    disk: &mut D,
    listener: N,
) -> Result<u8, AllocError>
    requires { NothingPending (D.state disk.old) }
{
    let mut listener = BufferedListening::new(listener);
    command(rt, threads, words, disk, &mut listener)
}

/// An address at which links are counted, and the counts.
#[derive(Drop)]
struct Counted<'a> {
    address: &'a str,
    counts: Arc<Counts, Global>,
}

/// Runs the command over what listens at this address, and reads ahead of each connection. The links and the disk count.
fn command_counted<R: Threads + Wait + Sync, D: Disk + Send>(
    rt: &HostRuntime,
    threads: &R,
    words: &[&str],
    disk: &mut D,
    counted: Counted<'_>,
) -> Result<u8, AllocError>
    requires { NothingPending (D.state disk.old) }
{
    let Counted { address, counts } = counted;
    let shared = Arc::try_clone(&counts)?;
    let tcp = TcpListening::bind(&AlertNet::over(rt), rt, address);
    say_address(rt, address, tcp.address());
    let links = CountedListening::new(tcp, counts);
    command_over(
        rt,
        threads,
        words,
        &mut CountedDisk::new(disk, shared),
        links,
    )
}

/// The same, and meanwhile another thread tells on the standard error how many sessions and commits there are.
fn command_told<R: Threads + Wait + Sync, D: Disk + Send>(
    rt: &HostRuntime,
    threads: &R,
    words: &[&str],
    disk: &mut D,
    address: &str,
) -> Result<u8, AllocError>
    requires { NothingPending (D.state disk.old) }
{
    let counts = Arc::new(rt.alloc(), Counts::new())?;
    let counted = Counted {
        address,
        counts: Arc::try_clone(&counts)?,
    };
    let (_, status) = thread::join(
        threads,
        || tell(rt, &counts),
        || -> Result<u8, AllocError>
            requires { NothingPending (D.state disk.now) }
        {
            let status = command_counted(rt, threads, words, disk, counted);
            counts.end();
            status
        },
    );
    status
}

/// Where a server listens, and whether its links bring requests of the wire.
#[derive(Clone, Copy)]
struct Place<'a> {
    address: &'a str,
    wire: bool,
}

/// Runs the command over what listens at this place, and reads ahead of each connection. Where the standard error is a terminal it
/// is told there meanwhile what there is; but not what requests are answered, since their answers aren't read for that.
fn command_at<R: Threads + Wait + Sync, D: Disk + Send>(
    rt: &HostRuntime,
    threads: &R,
    words: &[&str],
    disk: &mut D,
    place: Place<'_>,
) -> Result<u8, AllocError>
    requires { NothingPending (D.state disk.old) }
{
    if rt.stderr().is_terminal() && !place.wire {
        return command_told(rt, threads, words, disk, place.address);
    }
    let tcp = TcpListening::bind(&AlertNet::over(rt), rt, place.address);
    say_address(rt, place.address, tcp.address());
    command_over(rt, threads, words, disk, tcp)
}

/// From which byte on the file of a disk is no journal. It is read once more, since a status has no room for that.
fn refused_at<D: Disk>(alloc: Global, disk: &mut D) -> Option<u64> {
    match read_kept(alloc, disk) {
        Err(RecoverError::NotJournal(at)) => Some(at),
        _ => None,
    }
}

/// Says on the standard error where a file begins to be none of a journal.
fn name_place<D: Disk>(rt: &HostRuntime, path: &str, disk: &mut D, status: u8) {
    if status == NOT_JOURNAL {
        let _ = match refused_at(rt.alloc(), disk) {
            Some(at) => eprintln!(rt; "diamond: the file `{path}`: no journal from byte {at} on"),
            None => eprintln!(rt; "diamond: the file `{path}`: no journal"),
        };
    }
}

/// Says on the standard error what went wrong with a file.
fn name_fault<F: Display + Drop>(rt: &HostRuntime, path: &str, fault: Option<F>) {
    let _ = match fault {
        Some(fault) => eprintln!(rt; "diamond: the file `{path}`: {fault}"),
        None => Ok(()),
    };
}

/// Runs the command over the file at this path, too. What is wrong with it is told on the standard error.
fn command_in<R: Threads + Wait + Sync>(
    rt: &HostRuntime,
    threads: &R,
    words: &[&str],
    path: &str,
    place: Place<'_>,
) -> Result<u8, AllocError> {
    let mut disk = FileDisk::open(rt, path);
    let status = command_at(rt, threads, words, &mut disk, place)?;
    name_place(rt, path, &mut disk, status);
    name_fault(rt, path, disk.last_fault());
    Ok(status)
}

/// Audits the journal in the file at a path. What is wrong with the file is told on the standard error.
fn audit<R: Threads + Wait + Sync>(
    rt: &HostRuntime,
    threads: &R,
    words: &[&str],
    file: &Text,
) -> Result<u8, AllocError> {
    let Ok(path) = str::from_utf8(file.as_slice()) else {
        return Ok(BAD_WORDS);
    };
    let mut file = ReadFile::open(rt, path);
    let status = command(rt, threads, words, &mut file, &mut NoListener::new())?;
    name_place(rt, path, &mut file, status);
    name_fault(rt, path, file.last_fault());
    Ok(status)
}

/// Says on the standard error what went wrong with a connection.
fn name_trouble(rt: &HostRuntime, address: &str, status: u8) {
    let _ = match status {
        LINK_FAULT => eprintln!(rt; "diamond: the connection to `{address}` failed"),
        BROKEN_LINK => eprintln!(rt; "diamond: what came from `{address}` is no answer"),
        _ => Ok(()),
    };
}

/// Runs a session over the store that is served at an address, and reads ahead of the connection.
fn remote<R: Threads + Wait + Sync>(
    rt: &HostRuntime,
    threads: &R,
    words: &[&str],
    address: &Text,
) -> Result<u8, AllocError> {
    let Ok(address) = str::from_utf8(address.as_slice()) else {
        return Ok(BAD_WORDS);
    };
    let connecting = Connecting::to(rt, address);
    if !connecting.is_connected() {
        let _ = eprintln!(rt; "diamond: can't reach `{address}`");
    }
    let mut listener = BufferedListening::new(connecting);
    let status = command(rt, threads, words, &mut NoDisk::new(), &mut listener)?;
    name_trouble(rt, address, status);
    Ok(status)
}

/// What the words say of a server: its address, whether its links bring requests of the wire, and the path of its file, if it has one.
#[derive(Drop)]
struct Server {
    address: Text,
    wire: bool,
    file: Option<Text>,
}

/// Serves at an address, and keeps commits in the file at a path, where one is given. Links bring lines, or requests of the wire.
fn serve<R: Threads + Wait + Sync>(
    rt: &HostRuntime,
    threads: &R,
    words: &[&str],
    server: &Server,
) -> Result<u8, AllocError> {
    let Ok(address) = str::from_utf8(server.address.as_slice()) else {
        return Ok(BAD_WORDS);
    };
    let place = Place {
        address,
        wire: server.wire,
    };
    let Some(path) = &server.file else {
        return command_at(rt, threads, words, &mut NoDisk::new(), place);
    };
    match str::from_utf8(path.as_slice()) {
        Ok(path) => command_in(rt, threads, words, path, place),
        Err(_) => Ok(BAD_WORDS),
    }
}

/// Does what the words ask for, and answers the status.
fn run<R: Threads + Wait + Sync>(
    rt: &HostRuntime,
    threads: &R,
    words: &[String],
) -> Result<u8, AllocError> {
    let mut texts = Vec::new(rt.alloc());
    for word in words {
        texts.push(word.as_str())?;
    }
    let texts = texts.as_slice();
    if let Some(question) = asked(texts) {
        return answer(rt, question);
    }
    match read_words(rt.alloc(), texts) {
        Ok(Plan::Run(_) | Plan::Load { .. }) => {
            command(
                rt,
                threads,
                texts,
                &mut NoDisk::new(),
                &mut NoListener::new(),
            )
        }
        Ok(
            Plan::Serve {
                address,
                file,
                wire,
                ..
            },
        ) => {
            let server = Server {
                address,
                wire,
                file,
            };
            serve(rt, threads, texts, &server)
        }
        Ok(Plan::Audit { file, .. }) => audit(rt, threads, texts, &file),
        Ok(Plan::Remote { address }) => remote(rt, threads, texts, &address),
        Err(WordsError::NoMemory) => Ok(NO_MEMORY),
        Err(WordsError::BadWords(bad)) => {
            let _ = eprintln!(rt; "diamond: {bad}; diamond --help shows what may be said");
            Ok(BAD_WORDS)
        }
    }
}

/// The status of the whole: arguments that can't be read as texts are words that are not of the form.
fn status<R: Threads + Wait + Sync>(rt: &HostRuntime, threads: &R) -> u8 {
    match words(rt) {
        Ok(words) => run(rt, threads, words.as_slice()).unwrap_or(NO_MEMORY),
        Err(error) if error.kind() == ErrorKind::OutOfMemory => NO_MEMORY,
        Err(_) => BAD_WORDS,
    }
}

fn main(rt: HostRuntime) -> ExitCode {
    ExitCode::from(status(&rt, &rt))
}
