//! What the grammar and its reader have to do with each other: functions that do nothing, whose contracts are theorems.

ghost use Rattle.std.specs.Prelude.{◌≡◌, ◌↔◌, ℕ, List, Some, None};
ghost use Rattle.txn_trees.specs.declared.statement.Body.{Body};
ghost use Rattle.txn_grammar.specs.declared.token.Spot.{Spot};
ghost use Rattle.txn_grammar.specs.Characters.{Text};
ghost use Rattle.txn_grammar.specs.Lexer.{lex};
ghost use Rattle.txn_grammar.specs.Grammar.{IsBody};
ghost use Rattle.txn_grammar.specs.Parsed.{parsed, syntax_column, IsSyntaxColumn};
ghost use Rattle.txn_grammar.specs.Blanks.{KeepTokens, KeepBody, KeepColumn, EndBehind};

/// The function from texts finds exactly the bodies that the grammar derives, and so at most one for a text.
pub fn parsed_is_body()
    // Each body of the grammar is read, and what is read is derived.
    ensures same { (z : Text) (b : Body) → (parsed z ≡ Some b) ↔ IsBody (lex z) b }
    // Tokens are those of one body at most.
    ensures unique { (ts : List Spot) (a b : Body) → IsBody ts a → IsBody ts b → a ≡ b }
{}

/// Each text that is no body stops being one at one column, and no body has such a column.
pub fn syntax_columns()
    ensures there { (z : Text) → parsed z ≡ None → (column : ℕ) × IsSyntaxColumn z column }
    ensures of_no_body { (z : Text) (column : ℕ) (b : Body) → IsSyntaxColumn z column → IsBody (lex z) b → ⊥ }
    ensures unique { (z : Text) (c d : ℕ) → IsSyntaxColumn z c → IsSyntaxColumn z d → c ≡ d }
    // The one that is computed is the one.
    ensures computed { (z : Text) → parsed z ≡ None → IsSyntaxColumn z (syntax_column z) }
{}

/// Blanks at the end of a text mean nothing.
pub fn blanks_at_the_end()
    ensures tokens { KeepTokens }
    ensures same { KeepBody }
    // The column of a token stays.
    ensures column { KeepColumn }
    // That of the end is the one behind the blanks.
    ensures too_early { EndBehind }
{}
