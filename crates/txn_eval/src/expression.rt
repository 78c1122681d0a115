//! What expressions do.

ghost use Rattle.std.specs.Prelude.{◌≡◌};
ghost use Rattle.txn_lang.specs.Items as spec;
ghost use Rattle.txn_lang.specs.Steps as steps;
ghost use Rattle.txn_lang.specs.Rules as rules;
ghost use Rattle.txn_eval.specs.code.Answers.{Answers, Leaves};
ghost use Rattle.txn_eval.specs.code.Forms.{on, charged, expr_here, exprs_here, link_here, chain_here, read_here, answered_here};
ghost use Rattle.txn_eval.specs.code.Forms.{texts_here, length_here, str_here, negative_here, not_here, beside_here};

use crate::charging::{charge, sized};
use crate::here::Here;
use crate::items::{
    bool_in, compares, decides, elements_in, int_in, into_text, joined, length_item, negated,
    read_of, shown_int, texts_of,
};
use crate::kept::Kept;
use crate::lent::{Lent, lend, lend_named};
use crate::naming::named;
use conflict_table::ReadOp;
use plain_data::Text;
use rdt_types::{Address, Item, ItemList};
use txn_lang::{Progress, Seen, Stop, TEXT_LIMIT};
use txn_trees::{Expr, ExprNode, Operand, ReadWord, Relation};
use write_buffer::Asked;

/// Does one further operand of a chain, unless the item so far decides.
#[cycle(value)]
fn link(
    here: &Here<'_>,
    run: &mut Progress<Kept>,
    item: Item,
    operand: &Operand,
) -> Result<Item, Stop>
    ensures { Answers result run.new (link_here here.now operand.now item run.old) }
{
    if decides(operand.operator, &item) {
        return Ok(item);
    }
    let next = value_of(here, run, &operand.value)?;
    let made = joined(operand.operator, item, next)?;
    sized(run, made)
}

/// Does a chain's further operands.
#[cycle(value)]
fn chain(
    here: &Here<'_>,
    run: &mut Progress<Kept>,
    first: Item,
    operands: &[Operand],
) -> Result<Item, Stop>
    ensures { Answers result run.new (chain_here here.now operands.now first run.old) }
{
    let mut item = first;
    for operand in operands {
        item = link(here, run, item, operand)?;
    }
    Ok(item)
}

/// Does expressions in order.
#[cycle(value)]
#[inline(always)]
pub(crate) fn values_of(
    here: &Here<'_>,
    run: &mut Progress<Kept>,
    exprs: &[Expr],
) -> Result<ItemList, Stop>
    ensures { Answers result run.new (exprs_here here.now exprs.now run.old) }
{
    let mut items = ItemList::new(here.alloc);
    for expr in exprs {
        items.push(value_of(here, run, expr)?)?;
    }
    Ok(items)
}

/// What a read of an address answers.
fn read_at(
    here: &Here<'_>,
    run: &mut Progress<Kept>,
    read: &ReadOp,
    address: Address,
) -> Result<Item, Stop>
    ensures { Answers result run.new (steps.read_at (on here.now.snaps.now) read.now address run.old) }
{
    let value = match here.snaps.get(&address) {
        Some(snap) => Some(&snap.value),
        None => None,
    };
    match run.memory.buffer.ask(here.alloc, &address, read, value)? {
        Asked::Need => Err(Stop::Need(address)),
        Asked::Answered(item, seen) => match seen {
            None => Ok(item),
            Some(obs) => {
                run.memory.observations.note(Seen { address, obs })?;
                Ok(item)
            }
        },
    }
}

/// What a read answers, charged and sized.
fn read(
    here: &Here<'_>,
    run: &mut Progress<Kept>,
    address: Address,
    word: ReadWord,
    arguments: &[Item],
) -> Result<Item, Stop>
    ensures { Answers result run.new (answered_here here.now address word arguments.now run.old) }
{
    let read = read_of(here.alloc, address.kind, word, arguments)?;
    let item = read_at(here, run, &read, address)?;
    charge(run, elements_in(&item))?;
    sized(run, item)
}

/// What a read with arguments answers. A single one takes no list.
#[cycle(value)]
fn read_with(
    here: &Here<'_>,
    run: &mut Progress<Kept>,
    address: Address,
    word: ReadWord,
    arguments: &[Expr],
) -> Result<Item, Stop>
    ensures { Answers result run.new (read_here here.now address word arguments.now run.old) }
{
    match arguments {
        [only] => {
            let items = [value_of(here, run, only)?];
            read(here, run, address, word, &items)
        }
        _ => {
            let items = values_of(here, run, arguments)?;
            read(here, run, address, word, items.as_slice())
        }
    }
}

/// What a read answers with what its arguments give. Most reads have none.
#[cycle(value)]
#[inline(always)]
fn read_given(
    here: &Here<'_>,
    run: &mut Progress<Kept>,
    address: Address,
    word: ReadWord,
    arguments: &[Expr],
) -> Result<Item, Stop>
    ensures { Answers result run.new (read_here here.now address word arguments.now run.old) }
{
    match arguments {
        [] => read(here, run, address, word, &[]),
        _ => read_with(here, run, address, word, arguments),
    }
}

/// What a number or a bool gives.
fn constant(run: &mut Progress<Kept>, item: Item) -> Result<Item, Stop>
    ensures { Answers result run.new (charged (steps.pure item) run.old) }
{
    charge(run, 1)?;
    Ok(item)
}

/// What a literal text does, which stays in its place.
fn literal(run: &mut Progress<Kept>, text: &Text) -> Result<(), Stop>
    ensures { Leaves result (Item.Text text.now) run.new (charged (rules.sized (Item.Text text.now)) run.old) }
{
    charge(run, 1)?;
    if text.len() > TEXT_LIMIT {
        Err(Stop::Big)
    } else {
        Ok(())
    }
}

/// What a literal text gives.
fn text(run: &mut Progress<Kept>, text: &Text) -> Result<Item, Stop>
    ensures { Answers result run.new (charged (rules.sized (Item.Text text.now)) run.old) }
{
    literal(run, text)?;
    Ok(Item::Text(text.clone()?))
}

/// What a key gives. Most keys are literal texts.
#[cycle(value)]
#[inline(always)]
pub(crate) fn key_of(here: &Here<'_>, run: &mut Progress<Kept>, expr: &Expr) -> Result<Item, Stop>
    ensures { Answers result run.new (expr_here here.now expr.now run.old) }
{
    match &expr.node {
        ExprNode::Text(literal) => text(run, literal),
        _ => value_of(here, run, expr),
    }
}

/// What a name gives.
fn name(here: &Here<'_>, run: &mut Progress<Kept>, name: &Text) -> Result<Item, Stop>
    ensures { Answers result run.new (charged (steps.pure (spec.named here.now.names.now name.now)) run.old) }
{
    charge(run, 1)?;
    Ok(named(here.names, name)?)
}

/// What texts between brackets give.
#[cycle(value)]
fn texts(here: &Here<'_>, run: &mut Progress<Kept>, elements: &[Expr]) -> Result<Item, Stop>
    ensures { Answers result run.new (texts_here here.now elements.now run.old) }
{
    charge(run, 1)?;
    let items = values_of(here, run, elements)?;
    let texts = texts_of(here.alloc, items)?;
    sized(run, Item::Texts(texts))
}

/// The length of what an expression gives. What a name stands for isn't copied for it.
#[cycle(value)]
fn length(here: &Here<'_>, run: &mut Progress<Kept>, expr: &Expr) -> Result<Item, Stop>
    ensures { Answers result run.new (length_here here.now expr.now run.old) }
{
    match &expr.node {
        ExprNode::Name(name) => {
            charge(run, 1)?;
            match here.names.get(name) {
                Some(item) => Ok(length_item(item)?),
                None => Ok(Item::Int(0)),
            }
        }
        _ => {
            let item = value_of(here, run, expr)?;
            Ok(length_item(&item)?)
        }
    }
}

/// The decimal form of what an expression gives.
#[cycle(value)]
fn decimal(here: &Here<'_>, run: &mut Progress<Kept>, expr: &Expr) -> Result<Item, Stop>
    ensures { Answers result run.new (str_here here.now expr.now run.old) }
{
    charge(run, 1)?;
    let item = value_of(here, run, expr)?;
    Ok(Item::Text(shown_int(here.alloc, int_in(&item))?))
}

/// What an expression gives, negated.
#[cycle(value)]
fn negative(here: &Here<'_>, run: &mut Progress<Kept>, expr: &Expr) -> Result<Item, Stop>
    ensures { Answers result run.new (negative_here here.now expr.now run.old) }
{
    charge(run, 1)?;
    let item = value_of(here, run, expr)?;
    Ok(negated(&item))
}

/// Whether what an expression gives is false.
#[cycle(value)]
fn opposite(here: &Here<'_>, run: &mut Progress<Kept>, expr: &Expr) -> Result<Item, Stop>
    ensures { Answers result run.new (not_here here.now expr.now run.old) }
{
    charge(run, 1)?;
    let item = value_of(here, run, expr)?;
    Ok(Item::Bool(!bool_in(&item)))
}

/// How an item on the left compares with what an expression gives. What a name stands for, and a literal text, isn't copied
/// for it.
#[cycle(value)]
fn beside(
    here: &Here<'_>,
    run: &mut Progress<Kept>,
    left: Lent<'_>,
    relation: Relation,
    expr: &Expr,
) -> Result<Item, Stop>
    ensures { Answers result run.new (beside_here here.now left.entry relation expr.now run.old) }
{
    match &expr.node {
        ExprNode::Name(name) => {
            charge(run, 1)?;
            let right = lend_named(here.names, name);
            Ok(Item::Bool(compares(relation, left, right)))
        }
        ExprNode::Text(text) => {
            literal(run, text)?;
            Ok(Item::Bool(compares(relation, left, Lent::Text(text))))
        }
        _ => {
            let right = value_of(here, run, expr)?;
            Ok(Item::Bool(compares(relation, left, lend(&right))))
        }
    }
}

/// What an expression does. Each form that makes items of its own is a function of its own, so that none of them has room here.
#[cycle(value)]
pub(crate) fn value_of(here: &Here<'_>, run: &mut Progress<Kept>, expr: &Expr) -> Result<Item, Stop>
    ensures { Answers result run.new (expr_here here.now expr.now run.old) }
{
    match &expr.node {
        ExprNode::Number(n) => constant(run, Item::Int(*n)),
        ExprNode::Bool(b) => constant(run, Item::Bool(*b)),
        ExprNode::Text(literal) => text(run, literal),
        ExprNode::Name(bound) => name(here, run, bound),
        ExprNode::Texts(elements) => texts(here, run, elements.as_slice()),
        ExprNode::Not(a) => opposite(here, run, a.get()),
        ExprNode::Negative(a) => negative(here, run, a.get()),
        ExprNode::Str(a) => decimal(here, run, a.get()),
        ExprNode::Len(a) => {
            charge(run, 1)?;
            length(here, run, a.get())
        }
        ExprNode::Compare(a, relation, b) => {
            charge(run, 1)?;
            match &a.get().node {
                ExprNode::Name(name) => {
                    charge(run, 1)?;
                    beside(here, run, lend_named(here.names, name), *relation, b.get())
                }
                ExprNode::Text(text) => {
                    literal(run, text)?;
                    beside(here, run, Lent::Text(text), *relation, b.get())
                }
                _ => {
                    let left = value_of(here, run, a.get())?;
                    beside(here, run, lend(&left), *relation, b.get())
                }
            }
        }
        ExprNode::Chain(first, operands) => {
            charge(run, operands.len() as u64)?;
            let item = value_of(here, run, first.get())?;
            chain(here, run, item, operands.as_slice())
        }
        ExprNode::Read(kind, key, word, arguments) => {
            charge(run, 1)?;
            let key = key_of(here, run, key.get())?;
            let address = Address {
                kind: *kind,
                key: into_text(here.alloc, key),
            };
            read_given(here, run, address, *word, arguments.as_slice())
        }
    }
}
