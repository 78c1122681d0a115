//! The laws of the table: functions that do nothing, whose contracts are theorems over its definitions.

ghost use Rattle.conflict_table.specs.Laws.{NoClashNoChange, FitsAgain, ClashesShowChanges, CompositionsClashByParts, ClashesHaveParts, PartsClashAlone, ReadsRestOnObservations, ReadsGoByCompositions};

/// The law that without a clash a delta leaves what was observed as it was.
pub fn no_clash_no_change()
    ensures { NoClashNoChange }
{}

/// The law that a value which fits an observation fits it again after a delta without a clash.
pub fn fits_again()
    ensures { FitsAgain }
{}

/// The law that with a clash some value shows a change, unless the delta is an addition of 0.
pub fn clashes_show_changes()
    ensures { ClashesShowChanges }
{}

/// The law that an observation clashes with a composition exactly where it clashes with one of its parts.
pub fn compositions_clash_by_parts()
    ensures { CompositionsClashByParts }
{}

/// The law that a clash has a named part, and nothing else has.
pub fn clashes_have_parts()
    ensures { ClashesHaveParts }
{}

/// The law that the named part alone clashes too.
pub fn parts_clash_alone()
    ensures { PartsClashAlone }
{}

/// The law that a read rests on what it observes: of two values on which that is the same it answers and observes the
/// same.
pub fn reads_rest_on_observations()
    ensures { ReadsRestOnObservations }
{}

/// The law that own operations may be kept as the one delta that they compose to: it decides the same reads, the others
/// observe the same, and it leaves the same value.
pub fn reads_go_by_compositions()
    ensures { ReadsGoByCompositions }
{}
