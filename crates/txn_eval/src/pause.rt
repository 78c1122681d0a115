//! Where runs pause, and go on from.

ghost use Rattle.std.specs.Prelude.{◌≡◌, List, [], ◌∷◌, MatchOption, OnOk, OnErr};
ghost use Rattle.rdt_types.specs.declared.address.Address.{Address};
ghost use Rattle.txn_lang.specs.declared.snaps.Snap.{Snap};
ghost use Rattle.txn_trees.specs.declared.statement.Stmt.{Stmt};
ghost use Rattle.txn_eval.specs.Pausing.{IsPauseOf};

use crate::environment::Environment;
use crate::kept::Kept;
use crate::observed::Observed;
use plain_data::{Sequence, Text};
use rdt_types::{ItemList, TextList};
use std::alloc::{AllocError, Global};
use std::marker::Model;
use txn_lang::Progress;
use write_buffer::Buffer;

/// What a loop goes over.
#[derive(Drop)]
pub(crate) enum Over {
    /// Texts of its own.
    Texts(TextList),
    /// Those of the list that a name stands for, which stays in its place.
    Name(Text),
}

/// The turns of a loop that are left.
#[derive(Drop)]
pub(crate) struct Turns {
    pub over: Over,
    /// The place of the text that comes next.
    pub next: usize,
}

/// Around which block a statement stands.
#[derive(Drop)]
pub(crate) enum Around {
    /// What an `if` does where its condition holds.
    Then,
    /// What it does where it doesn't.
    Else,
    /// A turn of a `for`, with those behind it.
    Turn(Turns),
}

/// A statement in whose block a run has paused.
#[derive(Drop)]
pub(crate) struct Frame {
    pub around: Around,
    /// How many names were bound outside of the block.
    pub outside: usize,
    /// The statement in the block that comes next, or in which the run has paused.
    pub at: usize,
}

/// The statements in whose blocks a run has paused, which contracts see from the outermost on.
#[derive(Drop)]
pub(crate) struct Trail {
    /// The innermost first.
    frames: Sequence<Frame>,
}

impl Model for Trail {
    ghost use Rattle.std.specs.Prelude.{List};
    ghost use mathlib.Core.List.{reverse};
    ghost use Rattle.txn_eval.specs.declared.pause.Frame.{Frame};

    ghost Value = { List Frame };

    ghost view = { λ t. reverse t.frames };
}

impl Trail {
    /// A run that has paused in no block. It is never refused for want of memory.
    pub fn new(alloc: Global) -> Trail
        ensures { result ≡ [] }
    {
        Trail {
            frames: Sequence::new(alloc),
        }
    }

    /// Puts a statement around the others.
    pub fn put(&mut self, frame: Frame) -> Result<(), AllocError>
        ensures ok { OnOk result (self.new ≡ frame ∷ self.old) }
        ensures err { OnErr result (self.new ≡ self.old) }
    {
        self.frames.push(frame)
    }

    /// Takes the outermost statement off.
    pub fn take(&mut self) -> Option<Frame>
        ensures { MatchOption result ((self.old ≡ []) × (self.new ≡ [])) (λ frame. self.old ≡ frame ∷ self.new) }
    {
        self.frames.pop()
    }
}

/// A run that has paused where it needs a value, with all that it has done so far.
#[derive(Drop)]
pub struct Pause {
    /// The statement of the body's own that comes next, or in which the run has paused.
    pub(crate) at: usize,
    pub(crate) names: Environment,
    pub(crate) run: Progress<Kept>,
    /// The statements in whose blocks the run has paused.
    pub(crate) trail: Trail,
}

impl Pause {
    /// A run before its first statement, as every run comes to it. It is never refused for want of memory.
    pub fn begun(alloc: Global) -> Pause
        ensures { (stmts : List Stmt) (snaps : List (Address × Snap)) → IsPauseOf stmts snaps result }
    {
        Pause {
            at: 0,
            names: Environment::new(alloc),
            run: Progress {
                memory: Kept {
                    buffer: Buffer::new(alloc),
                    observations: Observed::new(alloc),
                },
                emitted: ItemList::new(alloc),
                ticks: 0,
                load: 0,
            },
            trail: Trail::new(alloc),
        }
    }
}
