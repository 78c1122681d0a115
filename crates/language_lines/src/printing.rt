//! What is printed.

ghost use Rattle.language_lines.specs.Printing.{TextsArePrinted, AddressesArePrinted, ItemsArePrinted, OutcomesArePrinted};

/// Texts, addresses, values and outcomes.
pub fn values_are_printed_so()
    ensures texts { TextsArePrinted }
    ensures addresses { AddressesArePrinted }
    ensures items { ItemsArePrinted }
    ensures outcomes { OutcomesArePrinted }
{}
