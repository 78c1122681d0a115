//! The rules of the grammar for expressions, as places where an expression may stand.

ghost use Rattle.std.specs.Prelude.{◌≡◌};
ghost use Rattle.txn_print.specs.Places as spec;

use txn_trees::{ExprNode, Operand, Operator};

/// A rule for expressions, from the loosest to the tightest. An expression's own rule is its rank; it stands without
/// parentheses at the place of every rule that is no tighter.
#[derive(Clone, Copy, Debug, PartialEq, Eq)]
pub enum Place {
    /// `expr`: operands joined by `or`.
    Disjunction,
    /// `conj`: operands joined by `and`.
    Conjunction,
    /// `neg`: a `not`.
    Negation,
    /// `cmp`: a comparison.
    Comparison,
    /// `sum`: operands joined by `+` and `-`.
    Sum,
    /// `prod`: operands joined by `*`.
    Product,
    /// `unary`: a `-`, and all that is closed in itself.
    Unary,
}

impl Place {
    /// How tight the rule is: the number of rules that are looser.
    fn tightness(self) -> u8
        ensures { result ≡ spec.tightness self }
    {
        match self {
            Place::Disjunction => 0,
            Place::Conjunction => 1,
            Place::Negation => 2,
            Place::Comparison => 3,
            Place::Sum => 4,
            Place::Product => 5,
            Place::Unary => 6,
        }
    }

    /// Whether what is of this rank stands in parentheses there.
    pub(crate) fn needs_parens(self, place: Place) -> bool
        ensures { result ≡ spec.needs_parens self place }
    {
        self.tightness() < place.tightness()
    }
}

/// The rule of a chain with this operator.
pub(crate) fn chain_place(operator: Operator) -> Place
    ensures { result ≡ spec.chain_place operator }
{
    match operator {
        Operator::Or => Place::Disjunction,
        Operator::And => Place::Conjunction,
        Operator::Plus | Operator::Minus => Place::Sum,
        Operator::Times => Place::Product,
    }
}

/// The rule of the operands of a chain with this operator.
pub(crate) fn operand_place(operator: Operator) -> Place
    ensures { result ≡ spec.operand_place operator }
{
    match operator {
        Operator::Or => Place::Conjunction,
        Operator::And => Place::Negation,
        Operator::Plus | Operator::Minus => Place::Product,
        Operator::Times => Place::Unary,
    }
}
