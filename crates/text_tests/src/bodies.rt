//! Which words are names, by the language's own tables, and a tree with its columns.

use plain_data::Text;
use std::alloc::{AllocError, Global};
use txn_grammar::{READS, WORDS, WRITES};
use txn_parse::{ParseError, parse};
use txn_print::{printed_reads_back, same_but_columns_is_equivalence};
use txn_trees::{Body, Expr, ExprNode, Operator, StmtNode};

/// No text here has as many bytes as this.
const SHORT: usize = 100;

/// The statement `let` of a word.
fn bound(alloc: Global, word: &[u8]) -> Result<Text, AllocError> {
    let mut source = Text::from_slice(alloc, b"let ".as_slice())?;
    source.extend_from_slice(word)?;
    source.extend_from_slice(b" = 1;".as_slice())?;
    Ok(source)
}

/// The column at which it is refused; 0 for a body.
fn refused_at(alloc: Global, word: &[u8]) -> Option<u32> {
    let source = bound(alloc, word).ok()?;
    if source.len() > SHORT {
        return None;
    }
    match parse(alloc, source.as_slice()) {
        Ok(_) => Some(0),
        Err(ParseError::Syntax(column)) => Some(column),
        Err(ParseError::NoMemory) => None,
    }
}

#[test]
fn reserved_words_are_no_names(rt: HostRuntime) {
    for (word, _) in &WORDS {
        assert!(rt; refused_at(rt.alloc(), word) == Some(5));
    }
}

#[test]
fn operation_words_are_names(rt: HostRuntime) {
    for (_, word, _, _) in &WRITES {
        assert!(rt; refused_at(rt.alloc(), word) == Some(0));
    }
    for (_, word, _, _) in &READS {
        assert!(rt; refused_at(rt.alloc(), word) == Some(0));
    }
}

/// Whether the expression is a number at this column.
fn is_number(expr: &Expr, column: u32, value: i64) -> bool {
    match &expr.node {
        ExprNode::Number(found) => expr.column == column && *found == value,
        _ => false,
    }
}

/// Whether the body is `emit (1) + 2 * 3 - 4;`: one chain of sums, whose second operand is one of products.
fn is_chain(body: &Body) -> bool {
    let [stmt] = body.stmts.as_slice() else {
        return false;
    };
    let StmtNode::Emit(sum) = &stmt.node else {
        return false;
    };
    let ExprNode::Chain(first, others) = &sum.node else {
        return false;
    };
    let [product, last] = others.as_slice() else {
        return false;
    };
    let ExprNode::Chain(two, factors) = &product.value.node else {
        return false;
    };
    let [three] = factors.as_slice() else {
        return false;
    };
    stmt.column == 1
        && sum.column == 6
        && is_number(first.get(), 6, 1)
        && product.operator == Operator::Plus
        && product.value.column == 12
        && is_number(two.get(), 12, 2)
        && three.operator == Operator::Times
        && is_number(&three.value, 16, 3)
        && last.operator == Operator::Minus
        && is_number(&last.value, 20, 4)
}

#[test]
fn tree_of_a_chain(rt: HostRuntime) {
    let body = parse(rt.alloc(), b"emit (1) + 2 * 3 - 4;".as_slice());
    assert!(rt; body.is_ok_and(|body| is_chain(&body)));
}

#[test]
fn laws_are_there(_rt: HostRuntime) {
    printed_reads_back();
    same_but_columns_is_equivalence();
}
