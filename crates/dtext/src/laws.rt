//! What spellings, columns and printed forms have to do with each other.

ghost use Rattle.predictive_parsing.specs.Bytes.{IsByte};
ghost use Rattle.predictive_parsing.specs.Columns.{OneValue, NoSpelling, OneColumn};
ghost use Rattle.predictive_parsing.specs.Fits.{Fits, any};
ghost use Rattle.rdt_types.specs.declared.address.Kind.{Kind};
ghost use Rattle.dtext.specs.code.Reading as read;
ghost use Rattle.dtext.specs.Follows.{no_digit, no_more, FitsUpToEach};
ghost use Rattle.dtext.specs.ReadBack.{TextsReadBack, AddressesReadBack, ItemsReadBack, OutcomesReadBack, PartsReadBack, PartsOfKindsReadBack};
ghost use Rattle.dtext.specs.Spellings.{TextRule, NumberRule, NaturalRule, PositiveRule, AddressRule, ItemRule, OutcomeRule, PartRule, PartOf};

/// What is printed is a spelling of what was printed. Of a part that several kinds share it is that of a set's.
pub fn printed_reads_back()
    ensures texts { TextsReadBack }
    ensures addresses { AddressesReadBack }
    ensures items { ItemsReadBack }
    ensures outcomes { OutcomesReadBack }
    ensures parts { PartsReadBack }
    ensures parts_of_kinds { PartsOfKindsReadBack }
{}

/// Bytes are a spelling of one value at most.
pub fn spellings_have_one_value()
    ensures texts { OneValue TextRule }
    ensures addresses { OneValue AddressRule }
    ensures items { OneValue ItemRule }
    ensures outcomes { OneValue OutcomeRule }
    ensures parts { OneValue PartRule }
{}

/// Bytes that have a column are no spelling.
pub fn columns_are_of_no_spelling()
    ensures texts { NoSpelling IsByte TextRule }
    ensures addresses { NoSpelling IsByte AddressRule }
    ensures items { NoSpelling IsByte ItemRule }
    ensures outcomes { NoSpelling IsByte OutcomeRule }
    ensures parts { NoSpelling IsByte PartRule }
{}

/// Bytes have one column at most, so the meaning of a column pins the answer.
pub fn columns_are_unique()
    ensures texts { OneColumn IsByte TextRule }
    ensures addresses { OneColumn IsByte AddressRule }
    ensures items { OneColumn IsByte ItemRule }
    ensures outcomes { OneColumn IsByte OutcomeRule }
    ensures parts { OneColumn IsByte PartRule }
{}

/// Each reader reads what its rule derives, and refuses at the first byte with which nothing that the rule derives goes on.
pub fn readers_are_rules()
    ensures texts { Fits IsByte read.text TextRule any }
    ensures numbers { Fits IsByte read.number NumberRule no_digit }
    ensures naturals { FitsUpToEach read.natural NaturalRule }
    ensures positives { FitsUpToEach read.positive PositiveRule }
    ensures addresses { Fits IsByte read.address AddressRule any }
    ensures items { Fits IsByte read.item ItemRule no_digit }
    ensures outcomes { Fits IsByte read.outcome OutcomeRule no_more }
    ensures parts { Fits IsByte read.part PartRule no_more }
    ensures parts_of_kinds { (kind : Kind) → Fits IsByte (read.part_of kind) (PartOf kind) no_digit }
{}
