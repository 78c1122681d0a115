//! Where links come in, and are given back when they are done.

ghost use Rattle.std.specs.Prelude.{◌≡◌, ℕ, List, Bool, Option, None, IfSome, IsTrue, OnOk, OnErr};
ghost use Rattle.dio_core.specs.Counts.{one_more, IsCountedBy};
ghost use Rattle.dio_core.specs.Lines.{IsLineAhead};
ghost use Rattle.dio_core.specs.Links.{incoming, outgoing};
ghost use Rattle.dio_core.specs.Listeners.{Accepts, GivesBack, accept_failed};

use crate::count::Count;
use crate::memory::MemLink;
use crate::sink::Sink;
use crate::source::Source;
use std::alloc::AllocError;
use std::marker::Model;

/// A link that can be closed.
pub trait End: Source + Sink {
    /// Whether the link has been closed, or None where it doesn't tell.
    ghost ended: { Self → Option Bool } = { λ _. None };

    /// Closes the link. What it tells and its counts stay.
    fn end(&mut self)
        ensures ended { IfSome (Self.ended self.new) IsTrue }
        ensures left { Self.left self.new ≡ Self.left self.old }
        ensures taken { Self.taken self.new ≡ Self.taken self.old }
        ensures passed { Self.passed self.new ≡ Self.passed self.old }
        ensures read_faults { Self.read_faults self.new ≡ Self.read_faults self.old }
        ensures write_faults { Self.write_faults self.new ≡ Self.write_faults self.old };

    /// Takes the next line, if the link has read it ahead with its newline, and it fits into `buf`. So many bytes of it stand at the
    /// beginning of `buf` then. It asks nobody, so it doesn't wait and doesn't fail. A link that sees no line ahead has none.
    fn line_ahead(&mut self, buf: &mut [u8]) -> Option<usize>
        ensures line { IsLineAhead result buf.new (Self.left self.old) (Self.left self.new) }
        ensures taken { Self.taken self.new ≡ Self.taken self.old }
        ensures passed { Self.passed self.new ≡ Self.passed self.old }
        ensures read_faults { Self.read_faults self.new ≡ Self.read_faults self.old }
        ensures write_faults { Self.write_faults self.new ≡ Self.write_faults self.old }
    {
        let _ = buf;
        None
    }

    // The link is one object: what no read changes is what it tells as a sink, and what no write changes is what it
    // tells as a source.
    ghost written_is: { (x : Self) → Self.written x ≡ outgoing (Self.taken x) (Self.passed x) (Self.write_faults x) };

    ghost unread_is: { (x : Self) → Self.unread x ≡ incoming (Self.left x) (Self.read_faults x) };
}

/// What an accept gave.
#[derive(Drop)]
pub enum Accepted<K> {
    /// The first link that was left.
    Link(K),
    /// No link, since none is left.
    NoMore,
    /// No link, for a fault.
    Failed,
}

/// Links that come in one after another, and are given back, each with a status.
pub trait Listener {
    type Link: Source + Sink + End + Send + Drop;

    /// The links left, or None where the listener doesn't tell.
    ghost links: { Self → Option (List Self.Link) };

    /// The links given back, each with its status, or None where the listener doesn't tell.
    ghost given_back: { Self → Option (List (Self.Link × ℕ)) };

    /// How many accepts have failed, up to the last value of a u64.
    ghost accept_faults: { Self → ℕ };

    /// Takes the next link.
    fn accept(&mut self) -> Accepted<Self::Link>
        ensures accepts { Accepts result (links self.old) (links self.new) }
        ensures same { given_back self.new ≡ given_back self.old }
        ensures counted { IsCountedBy accept_faults (accept_failed result) self.old self.new };

    /// Gives a link back that is done with. For want of memory the link is gone.
    fn give_back(&mut self, link: Self::Link, status: u8) -> Result<(), AllocError>
        ensures ok { OnOk result (GivesBack given_back link status self.old self.new) }
        ensures err { OnErr result (given_back self.new ≡ given_back self.old) }
        ensures same { links self.new ≡ links self.old }
        ensures count { accept_faults self.new ≡ accept_faults self.old };

    /// How many accepts have failed.
    fn accept_faults(&self) -> u64
        ensures { result ≡ accept_faults self.now };

    /// No more links are to be accepted. What the listener tells and its count stay.
    fn close(&mut self)
        ensures links { links self.new ≡ links self.old }
        ensures given { given_back self.new ≡ given_back self.old }
        ensures count { accept_faults self.new ≡ accept_faults self.old }
    {}
}

/// A listener that isn't there: each accept fails, and is counted.
#[derive(Debug, Drop)]
pub struct NoListener {
    faults: Count,
}

impl Model for NoListener {
    ghost use Rattle.std.specs.Prelude.{ℕ};

    ghost Value = { ℕ };

    ghost view = { λ l. l.faults };
}

impl NoListener {
    /// No accept has failed yet.
    pub fn new() -> NoListener
        ensures { result ≡ 0 }
    {
        NoListener {
            faults: Count::new(),
        }
    }
}

impl Listener for NoListener {
    type Link = MemLink;

    ghost links = { λ _. None };

    ghost given_back = { λ _. None };

    ghost accept_faults = { λ l. l };

    fn accept(&mut self) -> Accepted<MemLink>
        ensures fails { result ≡ Accepted.Failed }
        ensures counted { self.new ≡ one_more self.old }
    {
        self.faults.add_one();
        Accepted::Failed
    }

    fn give_back(&mut self, _link: MemLink, _status: u8) -> Result<(), AllocError> {
        Ok(())
    }

    fn accept_faults(&self) -> u64 {
        self.faults.get()
    }
}
