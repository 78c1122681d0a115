//! Reserved words, marks, and the words of operations.

ghost use Rattle.language_lines.specs.Words.{WordsAreReserved, MarksAreRead, WordsAreSpelled, MarksAreSpelled};
ghost use Rattle.language_lines.specs.Words.{OthersAreNames, OthersAreNone, KindsAreNamed, TruthsAreNamed};
ghost use Rattle.language_lines.specs.Words.{OperatorsHaveRanks, RelationsAreNamed, KindsHaveWrites, KindsHaveReads};

/// Texts that are one token.
pub fn tokens_are_as_written()
    ensures words { WordsAreReserved }
    ensures marks { MarksAreRead }
    ensures names { OthersAreNames }
    ensures strays { OthersAreNone }
{}

/// Reserved words and marks as they are printed.
#[tactic(auto, unfolding(txn_grammar::specs::Spellings::spelling, txn_grammar::specs::Spellings::same_symbol))]
pub fn symbols_are_spelled_so()
    ensures words { WordsAreSpelled }
    ensures marks { MarksAreSpelled }
{}

/// What rules ask of a symbol.
pub fn symbols_stand_for()
    ensures kinds { KindsAreNamed }
    ensures truths { TruthsAreNamed }
    ensures operators { OperatorsHaveRanks }
    ensures relations { RelationsAreNamed }
{}

/// The words that each kind has.
#[tactic(auto, unfolding(txn_grammar::specs::Tokens::write_named, txn_grammar::specs::Tokens::read_named, txn_grammar::specs::Tokens::same_kind))]
pub fn kinds_have_words()
    ensures writes { KindsHaveWrites }
    ensures reads { KindsHaveReads }
{}
