//! The operations of each kind.

ghost use Rattle.language_lines.specs.Meanings.{WritesTake, WritesMean, WritesAreOfKinds, WritesArePrinted, WritesHaveDeltas, DeltasAreOfKinds};
ghost use Rattle.language_lines.specs.Meanings.{ReadsTake, ReadsMean, ReadsAnswerTypes, ReadsObserve, ObservationsAreOfKinds, ValuesAreOfKinds};
ghost use Rattle.language_lines.specs.Meanings.{OwnWritesDecide, WritesClash, NegativePlacesAreDecided, PlacesAreObserved};

/// What each write is.
pub fn writes_mean()
    ensures arguments { WritesTake }
    ensures operations { WritesMean }
    ensures kinds { WritesAreOfKinds }
    ensures parts { WritesArePrinted }
    ensures deltas { WritesHaveDeltas }
    ensures kinds_changed { DeltasAreOfKinds }
{}

/// What each read is.
#[tactic(auto, unfolding(txn_grammar::specs::Tokens::same_kind))]
pub fn reads_mean()
    ensures arguments { ReadsTake }
    ensures operations { ReadsMean }
    ensures types { ReadsAnswerTypes }
    ensures observations { ReadsObserve }
    ensures kinds { ObservationsAreOfKinds }
    ensures values { ValuesAreOfKinds }
    ensures decided { OwnWritesDecide }
    ensures clashes { WritesClash }
    ensures negative { NegativePlacesAreDecided }
    ensures places { PlacesAreObserved }
{}
