//! Going on from a pause, down to the statement at which a run has paused and up from there.

ghost use Rattle.std.specs.Prelude.{◌≡◌, ◌∷◌, false, [], map, length, OnOk};
ghost use Rattle.txn_lang.specs.Rules as rules;
ghost use Rattle.txn_eval.specs.Running.{values_of};
ghost use Rattle.txn_eval.specs.code.Buffering.{kept};
ghost use Rattle.txn_eval.specs.code.Pauses.{holds_block, taken_back, Goes, GoesKnown, GoesPlainly, GoesThrough, TakesTurns, GivesHere, GivesOverHere};
ghost use Rattle.txn_eval.specs.code.Pauses.{Enters, OnGoing, inside};
ghost use Rattle.txn_eval.specs.code.Pauses.{stmts_left, stmt_left, block_left, turn_left, turns_left};

use crate::charging::charge;
use crate::environment::Environment;
use crate::expression::value_of;
use crate::here::{Here, Known};
use crate::items::{bool_in, into_texts};
use crate::kept::Kept;
use crate::naming::text_over;
use crate::pause::{Around, Frame, Over, Pause, Trail, Turns};
use crate::statement::simple;
use plain_data::Text;
use rdt_types::{Address, Item};
use txn_lang::{Progress, Stop};
use txn_trees::{Expr, ExprNode, Stmt, StmtNode};

/// Takes back what a step has charged and observed.
fn take_back(run: &mut Progress<Kept>, ticks: u64, count: usize)
    ensures { run.new ≡ taken_back ticks count run.old }
{
    run.ticks = ticks;
    run.memory.observations.cut(count);
}

/// What an expression gives, behind the tick of its statement. Where it needs a value, what it has charged and observed is taken
/// back.
fn head(here: &Here<'_>, run: &mut Progress<Kept>, expr: &Expr) -> Result<Item, Stop>
    ensures { GivesHere here.now result run.new run.old expr.now }
{
    let ticks = run.ticks;
    let count = run.memory.observations.len();
    charge(run, 1)?;
    match value_of(here, run, expr) {
        Ok(item) => Ok(item),
        Err(stop) => match stop {
            Stop::Need(address) => {
                take_back(run, ticks, count);
                Err(Stop::Need(address))
            }
            stop => Err(stop),
        },
    }
}

/// What a loop over an expression goes over, behind the tick of its statement. The list that a name stands for stays in its place.
fn over_of(here: &Here<'_>, run: &mut Progress<Kept>, expr: &Expr) -> Result<Over, Stop>
    ensures { GivesOverHere here.now result run.new run.old expr.now }
{
    match &expr.node {
        ExprNode::Name(listed) => {
            charge(run, 1)?;
            charge(run, 1)?;
            Ok(Over::Name(listed.clone()?))
        }
        _ => {
            let item = head(here, run, expr)?;
            Ok(Over::Texts(into_texts(here.alloc, item)))
        }
    }
}

/// A statement that holds no block. Where it needs a value, it has only charged ticks and observed, and that is taken back.
fn plain(
    known: &Known<'_>,
    names: &mut Environment,
    run: &mut Progress<Kept>,
    stmt: &Stmt,
) -> Result<(), Stop>
    requires { holds_block stmt.now ≡ false }
    ensures { GoesPlainly known.now result stmt.now (names.old, run.old) (names.new, run.new) }
{
    let ticks = run.ticks;
    let count = run.memory.observations.len();
    match simple(known, names, run, stmt) {
        Ok(()) => Ok(()),
        Err(stop) => match stop {
            Stop::Need(address) => {
                take_back(run, ticks, count);
                Err(Stop::Need(address))
            }
            stop => Err(stop),
        },
    }
}

/// Where a value is needed in a block, the run pauses inside of the statement around it.
fn enter(pause: &mut Pause, around: Around, outside: usize, here: usize, address: Address) -> Stop
    ensures { Enters result address pause.new (inside around outside here pause.old) }
{
    let at = pause.at;
    pause.at = here;
    let frame = Frame {
        around,
        outside,
        at,
    };
    match pause.trail.put(frame) {
        Ok(()) => Stop::Need(address),
        Err(_) => Stop::NoMemory,
    }
}

/// What is left of a block, from its statement at which the run stands. It forgets the names that it bound.
#[cycle(step)]
fn block(known: &Known<'_>, pause: &mut Pause, outside: usize, stmts: &[Stmt]) -> Result<(), Stop>
    ensures goes { GoesKnown known.now result (block_left stmts.now outside) pause.old pause.new }
    ensures trail { OnOk result (pause.new.trail ≡ []) }
{
    go_through(known, pause, stmts)?;
    pause.names.truncate(outside)?;
    Ok(())
}

/// A branch of an `if`, from a statement of it on.
#[cycle(step)]
fn branch(known: &Known<'_>, pause: &mut Pause, frame: Frame, stmts: &[Stmt]) -> Result<(), Stop>
    ensures goes { GoesThrough known.now result frame stmts.now pause.old pause.new }
    ensures trail { OnOk result (pause.new.trail ≡ []) }
    ensures at { OnGoing result (pause.new.at ≡ pause.old.at) }
{
    let Frame {
        around,
        outside,
        at,
    } = frame;
    let here = pause.at;
    pause.at = at;
    match block(known, pause, outside, stmts) {
        Ok(()) => {
            pause.at = here;
            Ok(())
        }
        Err(stop) => match stop {
            Stop::Need(address) => Err(enter(pause, around, outside, here, address)),
            stop => Err(stop),
        },
    }
}

/// Where a run stands in a turn of a loop.
struct InTurn {
    /// The turns behind this one.
    left: Turns,
    /// How many names were bound outside of it.
    outside: usize,
    /// The statement in it that comes next.
    at: usize,
}

/// A turn of a loop, with its text. It forgets the names that it bound.
#[cycle(step)]
fn turn(
    known: &Known<'_>,
    pause: &mut Pause,
    name: &Text,
    text: Text,
    stmts: &[Stmt],
) -> Result<(), Stop>
    requires { pause.old.trail ≡ [] }
    ensures goes { Goes (values_of known.now.snaps.now) result pause.new.names pause.new.run (λ t. block_left stmts.now (length pause.old.names) t pause.new)
        (λ t. rules.turn name.now (map (rules.stmt_run (kept t)) stmts.now) text pause.old.names pause.old.run) }
    ensures trail { OnOk result (pause.new.trail ≡ []) }
{
    charge(&mut pause.run, 1)?;
    let outside = pause.names.len();
    pause.names.bind(name, Item::Text(text))?;
    pause.at = 0;
    block(known, pause, outside, stmts)
}

/// The turns of a loop that are left.
#[cycle(step)]
fn turns(
    known: &Known<'_>,
    pause: &mut Pause,
    name: &Text,
    left: Turns,
    stmts: &[Stmt],
) -> Result<(), Stop>
    requires { pause.old.trail ≡ [] }
    ensures goes { TakesTurns known.now result name.now stmts.now (turns_left name.now stmts.now left pause.old) pause.new }
    ensures trail { OnOk result (pause.new.trail ≡ []) }
    ensures at { OnGoing result (pause.new.at ≡ pause.old.at) }
{
    let here = pause.at;
    let outside = pause.names.len();
    let Turns { mut over, mut next } = left;
    while let Some(text) = text_over(&mut over, &pause.names, next, known.alloc)? {
        next += 1;
        match turn(known, pause, name, text, stmts) {
            Ok(()) => pause.at = here,
            Err(stop) => match stop {
                Stop::Need(address) => {
                    let around = Around::Turn(Turns { over, next });
                    return Err(enter(pause, around, outside, here, address));
                }
                stop => return Err(stop),
            },
        }
    }
    Ok(())
}

/// A loop from a statement of a turn on, behind which the turns that are left go on.
#[cycle(step)]
fn round(
    known: &Known<'_>,
    pause: &mut Pause,
    name: &Text,
    standing: InTurn,
    stmts: &[Stmt],
) -> Result<(), Stop>
    ensures goes { TakesTurns known.now result name.now stmts.now (turn_left name.now stmts.now standing pause.old) pause.new }
    ensures trail { OnOk result (pause.new.trail ≡ []) }
    ensures at { OnGoing result (pause.new.at ≡ pause.old.at) }
{
    let InTurn { left, outside, at } = standing;
    let here = pause.at;
    pause.at = at;
    match block(known, pause, outside, stmts) {
        Ok(()) => {
            pause.at = here;
            turns(known, pause, name, left, stmts)
        }
        Err(stop) => match stop {
            Stop::Need(address) => { Err(enter(pause, Around::Turn(left), outside, here, address)) }
            stop => Err(stop),
        },
    }
}

/// What is left of a statement in whose block the run stands. A frame that no such statement has is of no run of this body.
#[cycle(step)]
fn within(known: &Known<'_>, pause: &mut Pause, stmt: &Stmt, frame: Frame) -> Result<(), Stop>
    ensures goes { GoesKnown known.now result (stmt_left stmt.now) (record pause.old { trail = frame ∷ pause.old.trail }) pause.new }
    ensures trail { OnOk result (pause.new.trail ≡ []) }
    ensures at { OnGoing result (pause.new.at ≡ pause.old.at) }
{
    let Frame {
        around,
        outside,
        at,
    } = frame;
    match around {
        Around::Then => match &stmt.node {
            StmtNode::If(_, yes, _) => {
                let frame = Frame {
                    around: Around::Then,
                    outside,
                    at,
                };
                branch(known, pause, frame, yes.as_slice())
            }
            _ => Err(Stop::NoMemory),
        },
        Around::Else => match &stmt.node {
            StmtNode::If(_, _, no) => match no {
                Some(no) => {
                    let frame = Frame {
                        around: Around::Else,
                        outside,
                        at,
                    };
                    branch(known, pause, frame, no.as_slice())
                }
                None => Err(Stop::NoMemory),
            },
            _ => Err(Stop::NoMemory),
        },
        Around::Turn(left) => match &stmt.node {
            StmtNode::For(name, _, stmts) => {
                let standing = InTurn { left, outside, at };
                round(known, pause, name, standing, stmts.as_slice())
            }
            _ => Err(Stop::NoMemory),
        },
    }
}

/// A statement from its start.
#[cycle(step)]
fn fresh(known: &Known<'_>, pause: &mut Pause, stmt: &Stmt) -> Result<(), Stop>
    requires { pause.old.trail ≡ [] }
    ensures goes { GoesKnown known.now result (stmt_left stmt.now) pause.old pause.new }
    ensures trail { OnOk result (pause.new.trail ≡ []) }
    ensures at { OnGoing result (pause.new.at ≡ pause.old.at) }
{
    match &stmt.node {
        StmtNode::If(expr, yes, no) => {
            let outside = pause.names.len();
            let here = Here {
                alloc: known.alloc,
                snaps: known.snaps,
                names: &pause.names,
            };
            let item = head(&here, &mut pause.run, expr)?;
            if bool_in(&item) {
                let frame = Frame {
                    around: Around::Then,
                    outside,
                    at: 0,
                };
                branch(known, pause, frame, yes.as_slice())
            } else {
                match no {
                    Some(no) => {
                        let frame = Frame {
                            around: Around::Else,
                            outside,
                            at: 0,
                        };
                        branch(known, pause, frame, no.as_slice())
                    }
                    None => Ok(()),
                }
            }
        }
        StmtNode::For(name, expr, stmts) => {
            let here = Here {
                alloc: known.alloc,
                snaps: known.snaps,
                names: &pause.names,
            };
            let over = over_of(&here, &mut pause.run, expr)?;
            let left = Turns { over, next: 0 };
            turns(known, pause, name, left, stmts.as_slice())
        }
        _ => plain(known, &mut pause.names, &mut pause.run, stmt),
    }
}

/// What is left of a statement at which the run stands.
#[cycle(step)]
fn step(known: &Known<'_>, pause: &mut Pause, stmt: &Stmt) -> Result<(), Stop>
    ensures goes { GoesKnown known.now result (stmt_left stmt.now) pause.old pause.new }
    ensures trail { OnOk result (pause.new.trail ≡ []) }
    ensures at { OnGoing result (pause.new.at ≡ pause.old.at) }
{
    match pause.trail.take() {
        None => fresh(known, pause, stmt),
        Some(frame) => within(known, pause, stmt, frame),
    }
}

/// Goes on with statements from the one at which the run stands, to their end or to where they stop.
#[cycle(step)]
pub(crate) fn go_through(known: &Known<'_>, pause: &mut Pause, stmts: &[Stmt]) -> Result<(), Stop>
    ensures goes { GoesKnown known.now result (stmts_left stmts.now) pause.old pause.new }
    ensures trail { OnOk result (pause.new.trail ≡ []) }
{
    while let Some(stmt) = stmts.get(pause.at) {
        step(known, pause, stmt)?;
        pause.at += 1;
    }
    pause.trail = Trail::new(known.alloc);
    Ok(())
}
