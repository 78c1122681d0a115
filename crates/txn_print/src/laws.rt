//! What printing and reading have to do with each other: functions that do nothing, whose contracts are theorems.

ghost use Rattle.std.specs.Prelude.{◌≡◌, Some};
ghost use Rattle.txn_trees.specs.declared.statement.Body.{Body};
ghost use Rattle.txn_grammar.specs.Characters.{Text};
ghost use Rattle.txn_grammar.specs.Lexer.{lex};
ghost use Rattle.txn_grammar.specs.Grammar.{IsBody};
ghost use Rattle.txn_grammar.specs.Parsed.{parsed};
ghost use Rattle.txn_print.specs.Columns.{SameButColumns};
ghost use Rattle.txn_print.specs.ReadBack.{ReadsBack, ParsesBack};

/// What is printed of a body of the grammar is a text of the same body, columns aside.
pub fn printed_reads_back()
    // The grammar derives it from the text, within the same levels.
    ensures derived { (z : Text) (body : Body) → IsBody (lex z) body → ReadsBack body }
    // The function from texts to bodies finds it.
    ensures parsed { (z : Text) (body : Body) → parsed z ≡ Some body → ParsesBack body }
{}

/// Bodies that differ in columns alone are alike: a relation under which each body is like itself, and which goes both
/// ways and on.
pub fn same_but_columns_is_equivalence()
    ensures itself { (a : Body) → SameButColumns a a }
    ensures both_ways { (a b : Body) → SameButColumns a b → SameButColumns b a }
    ensures onwards { (a b c : Body) → SameButColumns a b → SameButColumns b c → SameButColumns a c }
{}
