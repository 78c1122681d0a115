//! Statements that open no level themselves; those that open one, over the reader of the statements inside it; and bodies.

ghost use Rattle.std.specs.Prelude.{◌≡◌, ◌<◌, ◌-◌};
ghost use Rattle.predictive_parsing.specs.Reading.{next};
ghost use Rattle.predictive_parsing.specs.Reads.{Reads};
ghost use Rattle.txn_grammar.specs.code.Reader as spec;
ghost use Rattle.txn_parse.specs.code.Nests.{NestsStatements};
ghost use Rattle.txn_parse.specs.code.Leveled as leveled;

use crate::Stop;
use crate::grammar::{Grammar, placed_read};
use crate::place::Place;
use crate::token::{ahead, begins, name, sees, word, write};
use crate::tree::both;
use plain_data::Sequence;
use predictive_parsing::Cursor;
use std::alloc::Global;
use txn_grammar::{DEEPEST, Nesting, Simple, Spot, Symbol, Target, nesting_of, simple_of};
use txn_trees::{Body, Stmt, StmtList, StmtNode};

/// `let`, a name, and what it stands for.
#[tactic(auto, unfolding(txn_grammar::specs::code::Reader::let_stmt))]
fn let_stmt(alloc: Global, cursor: &mut Cursor<Spot>, levels: u8) -> Result<Stmt, Stop>
    ensures { Reads (spec.let_stmt (spec.expression levels) cursor.old) result cursor.new }
{
    let column = word(cursor, Symbol::Let)?;
    let (_, found) = name(cursor)?;
    let (found, _) = both(found, word(cursor, Symbol::Assign))?;
    let value = placed_read(alloc, cursor, levels, Place::Whole);
    let read = both(found, value)?;
    let ((found, value), _) = both(read, word(cursor, Symbol::Semicolon))?;
    Ok(Stmt {
        column,
        node: StmtNode::Let(found, value),
    })
}

/// `emit` and an expression.
#[tactic(auto, unfolding(txn_grammar::specs::code::Reader::emit_stmt))]
fn emit_stmt(alloc: Global, cursor: &mut Cursor<Spot>, levels: u8) -> Result<Stmt, Stop>
    ensures { Reads (spec.emit_stmt (spec.expression levels) cursor.old) result cursor.new }
{
    let column = word(cursor, Symbol::Emit)?;
    let value = placed_read(alloc, cursor, levels, Place::Whole)?;
    let (value, _) = both(value, word(cursor, Symbol::Semicolon))?;
    Ok(Stmt {
        column,
        node: StmtNode::Emit(value),
    })
}

/// `fail` and an expression.
#[tactic(auto, unfolding(txn_grammar::specs::code::Reader::fail_stmt))]
fn fail_stmt(alloc: Global, cursor: &mut Cursor<Spot>, levels: u8) -> Result<Stmt, Stop>
    ensures { Reads (spec.fail_stmt (spec.expression levels) cursor.old) result cursor.new }
{
    let column = word(cursor, Symbol::Fail)?;
    let value = placed_read(alloc, cursor, levels, Place::Whole)?;
    let (value, _) = both(value, word(cursor, Symbol::Semicolon))?;
    Ok(Stmt {
        column,
        node: StmtNode::Fail(value),
    })
}

/// The simple statement that is ahead.
#[tactic(auto, using(crate::proofs::Levels::simple_chosen))]
fn simple_stmt(alloc: Global, cursor: &mut Cursor<Spot>, levels: u8) -> Result<Stmt, Stop>
    ensures { Reads (spec.simple_stmt (spec.expression levels) cursor.old) result cursor.new }
{
    match ahead(cursor, |spot| simple_of(&spot.token)).unwrap_or(Simple::Emit) {
        Simple::Let => let_stmt(alloc, cursor, levels),
        Simple::Emit => emit_stmt(alloc, cursor, levels),
        Simple::Fail => fail_stmt(alloc, cursor, levels),
    }
}

/// Whether a simple statement is ahead.
fn begins_simple(cursor: &Cursor<Spot>) -> bool
    ensures { result ≡ spec.begins_simple (next cursor.now) }
{
    begins(cursor, |spot| simple_of(&spot.token))
}

/// Whether a statement begins here, with so many levels left.
#[tactic(auto, using(crate::proofs::Levels::begins_last, crate::proofs::Levels::begins_deeper))]
fn begins_statement(cursor: &Cursor<Spot>, levels: u8) -> bool
    ensures { result ≡ spec.begins_statement levels (next cursor.now) }
{
    if levels == 0 {
        begins_simple(cursor)
    } else {
        begins_simple(cursor) || begins(cursor, |spot| nesting_of(&spot.token))
    }
}

/// The rules of statements with so many levels left, over the reader of the statements inside one.
#[derive(Drop)]
struct Statements<F> {
    alloc: Global,
    levels: u8,
    inside: F,
}

impl<F: Fn(Global, &mut Cursor<'_, Spot>, u8) -> Result<Stmt, Stop>> Statements<F> {
    /// A statement inside a level.
    fn inside(&self, cursor: &mut Cursor<Spot>) -> Result<Stmt, Stop>
        requires nests { NestsStatements self.now.levels (F.pre self.now.inside) (F.post self.now.inside) }
        requires some { 0 < self.now.levels }
        ensures { Reads (spec.statement (self.now.levels - 1) cursor.old) result cursor.new }
    {
        (self.inside)(self.alloc, cursor, self.levels - 1)
    }

    /// These statements, and as many more as there are.
    #[inline(always)]
    fn and_more(&self, cursor: &mut Cursor<Spot>, mut found: StmtList) -> Result<StmtList, Stop>
        requires nests { NestsStatements self.now.levels (F.pre self.now.inside) (F.post self.now.inside) }
        requires some { 0 < self.now.levels }
        ensures { Reads (leveled.and_more self.now.levels found cursor.old) result cursor.new }
    {
        for _ in 0..cursor.len() {
            if !begins_statement(cursor, self.levels - 1) {
                return Ok(found);
            }
            let next = self.inside(cursor)?;
            found.push(next)?;
        }
        Ok(found)
    }

    /// Statements between braces.
    #[tactic(auto, unfolding(txn_grammar::specs::code::Reader::block))]
    fn block(&self, cursor: &mut Cursor<Spot>) -> Result<StmtList, Stop>
        requires nests { NestsStatements self.now.levels (F.pre self.now.inside) (F.post self.now.inside) }
        requires some { 0 < self.now.levels }
        ensures { Reads (leveled.block self.now.levels cursor.old) result cursor.new }
    {
        word(cursor, Symbol::OpenBrace)?;
        let found = self.and_more(cursor, Sequence::new(self.alloc))?;
        let (found, _) = both(found, word(cursor, Symbol::CloseBrace))?;
        Ok(found)
    }

    /// `else` and a block, where it is ahead.
    #[tactic(auto, unfolding(predictive_parsing::specs::Reading::optional, txn_grammar::specs::code::Reader::otherwise_read))]
    fn any_otherwise(&self, cursor: &mut Cursor<Spot>) -> Result<Option<StmtList>, Stop>
        requires nests { NestsStatements self.now.levels (F.pre self.now.inside) (F.post self.now.inside) }
        requires some { 0 < self.now.levels }
        ensures { Reads (leveled.any_otherwise self.now.levels cursor.old) result cursor.new }
    {
        if !sees(cursor, Symbol::Else) {
            return Ok(None);
        }
        word(cursor, Symbol::Else)?;
        let found = self.block(cursor)?;
        Ok(Some(found))
    }

    /// `if`, a condition, a block, and what runs else.
    #[tactic(auto, unfolding(txn_grammar::specs::code::Reader::if_stmt))]
    fn if_stmt(&self, cursor: &mut Cursor<Spot>) -> Result<Stmt, Stop>
        requires nests { NestsStatements self.now.levels (F.pre self.now.inside) (F.post self.now.inside) }
        requires some { 0 < self.now.levels }
        ensures { Reads (leveled.if_stmt self.now.levels cursor.old) result cursor.new }
    {
        let column = word(cursor, Symbol::If)?;
        let condition = placed_read(self.alloc, cursor, self.levels, Place::Whole)?;
        let holds = self.block(cursor);
        let read = both(condition, holds)?;
        let otherwise = self.any_otherwise(cursor);
        let ((condition, holds), otherwise) = both(read, otherwise)?;
        Ok(Stmt {
            column,
            node: StmtNode::If(condition, holds, otherwise),
        })
    }

    /// `for`, a name, `in`, texts, and a block.
    #[tactic(auto, unfolding(txn_grammar::specs::code::Reader::for_stmt))]
    fn for_stmt(&self, cursor: &mut Cursor<Spot>) -> Result<Stmt, Stop>
        requires nests { NestsStatements self.now.levels (F.pre self.now.inside) (F.post self.now.inside) }
        requires some { 0 < self.now.levels }
        ensures { Reads (leveled.for_stmt self.now.levels cursor.old) result cursor.new }
    {
        let column = word(cursor, Symbol::For)?;
        let (_, found) = name(cursor)?;
        let (found, _) = both(found, word(cursor, Symbol::In))?;
        let texts = placed_read(self.alloc, cursor, self.levels, Place::Whole);
        let read = both(found, texts)?;
        let each = self.block(cursor);
        let ((found, texts), each) = both(read, each)?;
        Ok(Stmt {
            column,
            node: StmtNode::For(found, texts, each),
        })
    }

    /// The statement that is ahead, which opens a level.
    #[tactic(auto, using(crate::proofs::Levels::nesting_chosen))]
    fn nesting_stmt(&self, cursor: &mut Cursor<Spot>) -> Result<Stmt, Stop>
        requires nests { NestsStatements self.now.levels (F.pre self.now.inside) (F.post self.now.inside) }
        requires some { 0 < self.now.levels }
        ensures { Reads (leveled.nesting_stmt self.now.levels cursor.old) result cursor.new }
    {
        match ahead(cursor, |spot| nesting_of(&spot.token)).unwrap_or(Nesting::Write) {
            Nesting::If => self.if_stmt(cursor),
            Nesting::For => self.for_stmt(cursor),
            Nesting::Write => write_stmt(self.alloc, cursor, self.levels),
        }
    }
}

/// A target, one of its kind's writes, and so many arguments as that takes.
#[tactic(auto, unfolding(txn_grammar::specs::code::Reader::write_stmt_read))]
fn write_stmt(alloc: Global, cursor: &mut Cursor<Spot>, levels: u8) -> Result<Stmt, Stop>
    requires { 0 < levels }
    ensures { Reads (spec.write_stmt_read (spec.expression (levels - 1)) cursor.old) result cursor.new }
{
    let grammar = Grammar {
        alloc,
        levels,
        inside: placed_read,
    };
    let target = grammar.targeted(cursor)?;
    let operation = write(cursor, target.kind);
    let (target, (_, operation)) = both(target, operation)?;
    let arguments = grammar.arguments_in_parens(cursor, operation.arguments);
    let read = both(target, arguments)?;
    let ((target, (_, arguments)), _) = both(read, word(cursor, Symbol::Semicolon))?;
    let Target { column, kind, key } = target;
    Ok(Stmt {
        column,
        node: StmtNode::Write(kind, key, operation.word, arguments),
    })
}

/// A statement, with so many levels left.
#[tactic(auto, using(crate::proofs::Levels::statement_last, crate::proofs::Levels::statement_simple, crate::proofs::Levels::statement_nests))]
fn statement(alloc: Global, cursor: &mut Cursor<Spot>, levels: u8) -> Result<Stmt, Stop>
    ensures { Reads (spec.statement levels cursor.old) result cursor.new }
{
    if levels == 0 || begins_simple(cursor) {
        return simple_stmt(alloc, cursor, levels);
    }
    Statements {
        alloc,
        levels,
        inside: statement,
    }
    .nesting_stmt(cursor)
}

/// A body: one statement at least.
#[tactic(auto, unfolding(txn_grammar::specs::code::Reader::body, predictive_parsing::specs::Reading::list))]
pub(crate) fn body(alloc: Global, cursor: &mut Cursor<Spot>) -> Result<Body, Stop>
    ensures { Reads (spec.body cursor.old) result cursor.new }
{
    let first = statement(alloc, cursor, DEEPEST)?;
    let mut stmts = Sequence::new(alloc);
    stmts.push(first)?;
    let outside = Statements {
        alloc,
        levels: DEEPEST + 1,
        inside: statement,
    };
    let stmts = outside.and_more(cursor, stmts)?;
    Ok(Body { stmts })
}
