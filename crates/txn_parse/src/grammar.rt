//! Expressions. The readers of single rules take the reader of what stands inside a level as a parameter, so that each
//! is proved by itself.

ghost use Rattle.std.specs.Prelude.{◌≡◌, ℕ, ◌<◌, ◌-◌};
ghost use Rattle.predictive_parsing.specs.Reading as read;
ghost use Rattle.predictive_parsing.specs.Reads.{Reads};
ghost use Rattle.txn_grammar.specs.declared.rank.Rank.TheVariants as rank;
ghost use Rattle.txn_grammar.specs.declared.symbol.Symbol.TheVariants as symbol;
ghost use Rattle.txn_grammar.specs.code.Reader as spec;
ghost use Rattle.txn_parse.specs.code.Begun as begun;
ghost use Rattle.txn_parse.specs.code.Lists.{and_more};
ghost use Rattle.txn_parse.specs.code.Nests.{Nests, placed};

use crate::Stop;
use crate::chain::{chain, comparison};
use crate::place::Place;
use crate::token::{ahead, joins, kind, leaf, read, sees, word};
use crate::tree::{both, boxed_beside, grouped, in_front};
use plain_data::{Boxed, Sequence};
use predictive_parsing::Cursor;
use std::alloc::Global;
use txn_grammar::{Opener, Rank, Spot, Symbol, Target, opener_of};
use txn_trees::{Expr, ExprList, ExprNode};

/// The rules of expressions with so many levels left, over the reader of what stands inside one.
#[derive(Drop)]
pub(crate) struct Grammar<F> {
    pub(crate) alloc: Global,
    pub(crate) levels: u8,
    pub(crate) inside: F,
}

impl<F: Fn(Global, &mut Cursor<'_, Spot>, u8, Place) -> Result<Expr, Stop>> Grammar<F> {
    /// What stands at this place inside a level.
    fn inside(&self, cursor: &mut Cursor<Spot>, place: Place) -> Result<Expr, Stop>
        requires nests { Nests self.now.levels (F.pre self.now.inside) (F.post self.now.inside) }
        requires some { 0 < self.now.levels }
        ensures { Reads (placed (self.now.levels - 1) place cursor.old) result cursor.new }
    {
        (self.inside)(self.alloc, cursor, self.levels - 1, place)
    }

    /// `-` and an operand.
    #[tactic(auto, unfolding(txn_grammar::specs::code::Reader::negative))]
    fn negative(&self, cursor: &mut Cursor<Spot>) -> Result<Expr, Stop>
        requires nests { Nests self.now.levels (F.pre self.now.inside) (F.post self.now.inside) }
        requires some { 0 < self.now.levels }
        ensures { Reads (spec.negative (spec.unary (self.now.levels - 1)) cursor.old) result cursor.new }
    {
        let column = word(cursor, Symbol::Minus)?;
        let value = self.inside(cursor, Place::Unary)?;
        let value = Boxed::new(self.alloc, value)?;
        Ok(Expr {
            column,
            node: ExprNode::Negative(value),
        })
    }

    /// `not` and what it turns.
    #[tactic(auto, unfolding(txn_grammar::specs::code::Reader::not_read))]
    fn not(&self, cursor: &mut Cursor<Spot>) -> Result<Expr, Stop>
        requires nests { Nests self.now.levels (F.pre self.now.inside) (F.post self.now.inside) }
        requires some { 0 < self.now.levels }
        ensures { Reads (spec.not_read (spec.negation (self.now.levels - 1)) cursor.old) result cursor.new }
    {
        let column = word(cursor, Symbol::Not)?;
        let value = self.inside(cursor, Place::Negation)?;
        let value = Boxed::new(self.alloc, value)?;
        Ok(Expr {
            column,
            node: ExprNode::Not(value),
        })
    }

    /// An expression in parentheses, with the column of the opening one.
    #[tactic(auto, unfolding(txn_grammar::specs::code::Reader::in_parens))]
    #[inline(always)]
    fn in_parens(&self, cursor: &mut Cursor<Spot>) -> Result<(u32, Expr), Stop>
        requires nests { Nests self.now.levels (F.pre self.now.inside) (F.post self.now.inside) }
        requires some { 0 < self.now.levels }
        ensures { Reads (spec.in_parens (spec.expression (self.now.levels - 1)) cursor.old) result cursor.new }
    {
        let column = word(cursor, Symbol::OpenParen)?;
        let inner = self.inside(cursor, Place::Whole)?;
        let (inner, _) = both(inner, word(cursor, Symbol::CloseParen))?;
        Ok((column, inner))
    }

    /// A group leaves no node.
    #[tactic(auto, unfolding(txn_grammar::specs::code::Reader::group))]
    fn group(&self, cursor: &mut Cursor<Spot>) -> Result<Expr, Stop>
        requires nests { Nests self.now.levels (F.pre self.now.inside) (F.post self.now.inside) }
        requires some { 0 < self.now.levels }
        ensures { Reads (spec.group (spec.expression (self.now.levels - 1)) cursor.old) result cursor.new }
    {
        let (column, inner) = self.in_parens(cursor)?;
        Ok(grouped(column, inner))
    }

    /// `len` and its argument.
    #[tactic(auto, unfolding(txn_grammar::specs::code::Reader::len))]
    fn len(&self, cursor: &mut Cursor<Spot>) -> Result<Expr, Stop>
        requires nests { Nests self.now.levels (F.pre self.now.inside) (F.post self.now.inside) }
        requires some { 0 < self.now.levels }
        ensures { Reads (spec.len (spec.expression (self.now.levels - 1)) cursor.old) result cursor.new }
    {
        let column = word(cursor, Symbol::Len)?;
        let (_, argument) = self.in_parens(cursor)?;
        let argument = Boxed::new(self.alloc, argument)?;
        Ok(Expr {
            column,
            node: ExprNode::Len(argument),
        })
    }

    /// `str` and its argument.
    #[tactic(auto, unfolding(txn_grammar::specs::code::Reader::str))]
    fn str(&self, cursor: &mut Cursor<Spot>) -> Result<Expr, Stop>
        requires nests { Nests self.now.levels (F.pre self.now.inside) (F.post self.now.inside) }
        requires some { 0 < self.now.levels }
        ensures { Reads (spec.str (spec.expression (self.now.levels - 1)) cursor.old) result cursor.new }
    {
        let column = word(cursor, Symbol::Str)?;
        let (_, argument) = self.in_parens(cursor)?;
        let argument = Boxed::new(self.alloc, argument)?;
        Ok(Expr {
            column,
            node: ExprNode::Str(argument),
        })
    }

    /// An expression behind a comma.
    #[tactic(auto, unfolding(txn_grammar::specs::code::Reader::after_comma))]
    fn after_comma(&self, cursor: &mut Cursor<Spot>) -> Result<Expr, Stop>
        requires nests { Nests self.now.levels (F.pre self.now.inside) (F.post self.now.inside) }
        requires some { 0 < self.now.levels }
        ensures { Reads (spec.after_comma (spec.expression (self.now.levels - 1)) cursor.old) result cursor.new }
    {
        word(cursor, Symbol::Comma)?;
        self.inside(cursor, Place::Whole)
    }

    /// As many of them as there are.
    fn others(&self, cursor: &mut Cursor<Spot>) -> Result<ExprList, Stop>
        requires nests { Nests self.now.levels (F.pre self.now.inside) (F.post self.now.inside) }
        requires some { 0 < self.now.levels }
        ensures { Reads (read.many (spec.sees symbol.Comma) (spec.after_comma (spec.expression (self.now.levels - 1))) cursor.old) result cursor.new }
    {
        let mut found = Sequence::new(self.alloc);
        for _ in 0..cursor.len() {
            if !sees(cursor, Symbol::Comma) {
                return Ok(found);
            }
            let next = self.after_comma(cursor)?;
            found.push(next)?;
        }
        Ok(found)
    }

    /// One element at least.
    #[tactic(auto, unfolding(txn_grammar::specs::code::Reader::elements, predictive_parsing::specs::Reading::list))]
    fn elements(&self, cursor: &mut Cursor<Spot>) -> Result<ExprList, Stop>
        requires nests { Nests self.now.levels (F.pre self.now.inside) (F.post self.now.inside) }
        requires some { 0 < self.now.levels }
        ensures { Reads (spec.elements (spec.expression (self.now.levels - 1)) cursor.old) result cursor.new }
    {
        let first = self.inside(cursor, Place::Whole)?;
        let others = self.others(cursor);
        let (first, others) = both(first, others)?;
        let all = in_front(first, others)?;
        Ok(all)
    }

    /// The elements, up to the closing bracket.
    #[tactic(auto, unfolding(txn_grammar::specs::code::Reader::any_elements))]
    fn any_elements(&self, cursor: &mut Cursor<Spot>) -> Result<ExprList, Stop>
        requires nests { Nests self.now.levels (F.pre self.now.inside) (F.post self.now.inside) }
        requires some { 0 < self.now.levels }
        ensures { Reads (spec.any_elements (spec.expression (self.now.levels - 1)) cursor.old) result cursor.new }
    {
        if sees(cursor, Symbol::CloseBracket) {
            Ok(Sequence::new(self.alloc))
        } else {
            self.elements(cursor)
        }
    }

    /// Elements between brackets.
    #[tactic(auto, unfolding(txn_grammar::specs::code::Reader::texts))]
    fn texts(&self, cursor: &mut Cursor<Spot>) -> Result<Expr, Stop>
        requires nests { Nests self.now.levels (F.pre self.now.inside) (F.post self.now.inside) }
        requires some { 0 < self.now.levels }
        ensures { Reads (spec.texts (spec.expression (self.now.levels - 1)) cursor.old) result cursor.new }
    {
        let column = word(cursor, Symbol::OpenBracket)?;
        let found = self.any_elements(cursor)?;
        let (found, _) = both(found, word(cursor, Symbol::CloseBracket))?;
        Ok(Expr {
            column,
            node: ExprNode::Texts(found),
        })
    }

    /// These expressions, and so many more, each behind a comma.
    fn and_so_many(
        &self,
        cursor: &mut Cursor<Spot>,
        mut found: ExprList,
        count: usize,
    ) -> Result<ExprList, Stop>
        requires nests { Nests self.now.levels (F.pre self.now.inside) (F.post self.now.inside) }
        requires some { 0 < self.now.levels }
        ensures { Reads (and_more found (spec.times (spec.after_comma (spec.expression (self.now.levels - 1))) count) cursor.old) result cursor.new }
    {
        for _ in 0..count {
            let next = self.after_comma(cursor)?;
            found.push(next)?;
        }
        Ok(found)
    }

    /// Exactly so many expressions, with a comma between each two.
    #[tactic(auto, using(crate::proofs::Levels::arguments_none, crate::proofs::Levels::arguments_some))]
    fn arguments(&self, cursor: &mut Cursor<Spot>, count: usize) -> Result<ExprList, Stop>
        requires nests { Nests self.now.levels (F.pre self.now.inside) (F.post self.now.inside) }
        requires some { 0 < self.now.levels }
        ensures { Reads (spec.arguments_read (spec.expression (self.now.levels - 1)) count cursor.old) result cursor.new }
    {
        let mut found = Sequence::new(self.alloc);
        if count == 0 {
            return Ok(found);
        }
        let first = self.inside(cursor, Place::Whole)?;
        found.push(first)?;
        self.and_so_many(cursor, found, count - 1)
    }

    /// The same in parentheses, with the column of the opening one.
    #[tactic(auto, unfolding(txn_grammar::specs::code::Reader::in_parens))]
    pub(crate) fn arguments_in_parens(
        &self,
        cursor: &mut Cursor<Spot>,
        count: usize,
    ) -> Result<(u32, ExprList), Stop>
        requires nests { Nests self.now.levels (F.pre self.now.inside) (F.post self.now.inside) }
        requires some { 0 < self.now.levels }
        ensures { Reads (spec.in_parens (spec.arguments_read (spec.expression (self.now.levels - 1)) count) cursor.old) result cursor.new }
    {
        let column = word(cursor, Symbol::OpenParen)?;
        let found = self.arguments(cursor, count)?;
        let (found, _) = both(found, word(cursor, Symbol::CloseParen))?;
        Ok((column, found))
    }

    /// A kind, and its key in parentheses, up to the dot.
    #[tactic(auto, unfolding(txn_grammar::specs::code::Reader::targeted, txn_grammar::specs::code::Reader::in_parens))]
    #[inline(always)]
    pub(crate) fn targeted(&self, cursor: &mut Cursor<Spot>) -> Result<Target, Stop>
        requires nests { Nests self.now.levels (F.pre self.now.inside) (F.post self.now.inside) }
        requires some { 0 < self.now.levels }
        ensures { Reads (spec.targeted (spec.expression (self.now.levels - 1)) cursor.old) result cursor.new }
    {
        let (column, kind) = kind(cursor)?;
        word(cursor, Symbol::OpenParen)?;
        let key = self.inside(cursor, Place::Whole)?;
        let (key, _) = both(key, word(cursor, Symbol::CloseParen))?;
        let (key, _) = both(key, word(cursor, Symbol::Dot))?;
        Ok(Target { column, kind, key })
    }

    /// A target, one of its kind's reads, and so many arguments as that takes.
    #[tactic(auto, unfolding(txn_grammar::specs::code::Reader::read))]
    fn read(&self, cursor: &mut Cursor<Spot>) -> Result<Expr, Stop>
        requires nests { Nests self.now.levels (F.pre self.now.inside) (F.post self.now.inside) }
        requires some { 0 < self.now.levels }
        ensures { Reads (spec.read (spec.expression (self.now.levels - 1)) cursor.old) result cursor.new }
    {
        let target = self.targeted(cursor)?;
        let operation = read(cursor, target.kind);
        let (target, (_, operation)) = both(target, operation)?;
        let arguments = self.arguments_in_parens(cursor, operation.arguments);
        let (target, (_, arguments)) = both(target, arguments)?;
        let Target { column, kind, key } = target;
        let (key, arguments) = boxed_beside(self.alloc, key, arguments)?;
        Ok(Expr {
            column,
            node: ExprNode::Read(kind, key, operation.word, arguments),
        })
    }

    /// An operand: where a level is left it may open one, and else it is a leaf.
    #[tactic(auto, using(crate::proofs::Levels::unary_last, crate::proofs::Levels::unary_opens, crate::proofs::Levels::unary_leaf))]
    fn unary(&self, cursor: &mut Cursor<Spot>) -> Result<Expr, Stop>
        requires { Nests self.now.levels (F.pre self.now.inside) (F.post self.now.inside) }
        ensures { Reads (spec.unary self.now.levels cursor.old) result cursor.new }
    {
        if self.levels == 0 {
            return leaf(cursor);
        }
        match ahead(cursor, |spot| opener_of(&spot.token)) {
            Some(Opener::Negative) => self.negative(cursor),
            Some(Opener::Group) => self.group(cursor),
            Some(Opener::Len) => self.len(cursor),
            Some(Opener::Str) => self.str(cursor),
            Some(Opener::Texts) => self.texts(cursor),
            Some(Opener::Read) => self.read(cursor),
            None => leaf(cursor),
        }
    }

    /// Operands joined by `*`, the first of which is read already.
    fn product_from(&self, cursor: &mut Cursor<Spot>, first: Expr) -> Result<Expr, Stop>
        requires { Nests self.now.levels (F.pre self.now.inside) (F.post self.now.inside) }
        ensures { Reads (begun.chain rank.Product (spec.unary self.now.levels) first cursor.old) result cursor.new }
    {
        chain(
            self.alloc,
            cursor,
            Rank::Product,
            first,
            |cursor| self.unary(cursor),
        )
    }

    /// Operands joined by `*`.
    #[tactic(auto, using(crate::proofs::Begun::chain_begins))]
    fn product(&self, cursor: &mut Cursor<Spot>) -> Result<Expr, Stop>
        requires { Nests self.now.levels (F.pre self.now.inside) (F.post self.now.inside) }
        ensures { Reads (spec.chain rank.Product (spec.unary self.now.levels) cursor.old) result cursor.new }
    {
        let first = self.unary(cursor)?;
        self.product_from(cursor, first)
    }

    /// Products joined by `+` and `-`, the first operand of which is read already.
    #[tactic(auto, unfolding(crate::specs::code::Begun::sum))]
    fn sum_from(&self, cursor: &mut Cursor<Spot>, first: Expr) -> Result<Expr, Stop>
        requires { Nests self.now.levels (F.pre self.now.inside) (F.post self.now.inside) }
        ensures { Reads (begun.sum (spec.unary self.now.levels) first cursor.old) result cursor.new }
    {
        let product = self.product_from(cursor, first)?;
        chain(
            self.alloc,
            cursor,
            Rank::Sum,
            product,
            |cursor| self.product(cursor),
        )
    }

    /// Products joined by `+` and `-`.
    #[tactic(auto, using(crate::proofs::Begun::sum_begins))]
    fn sum(&self, cursor: &mut Cursor<Spot>) -> Result<Expr, Stop>
        requires { Nests self.now.levels (F.pre self.now.inside) (F.post self.now.inside) }
        ensures { Reads (spec.chain rank.Sum (spec.chain rank.Product (spec.unary self.now.levels)) cursor.old) result cursor.new }
    {
        let first = self.unary(cursor)?;
        self.sum_from(cursor, first)
    }

    /// A sum, or two that are compared; the first operand is read already.
    #[tactic(auto, unfolding(crate::specs::code::Begun::comparison_of))]
    fn comparison_from(&self, cursor: &mut Cursor<Spot>, first: Expr) -> Result<Expr, Stop>
        requires { Nests self.now.levels (F.pre self.now.inside) (F.post self.now.inside) }
        ensures { Reads (begun.comparison_of (spec.unary self.now.levels) first cursor.old) result cursor.new }
    {
        let left = self.sum_from(cursor, first)?;
        comparison(self.alloc, cursor, left, |cursor| self.sum(cursor))
    }

    /// A sum, or two that are compared.
    #[tactic(auto, using(crate::proofs::Begun::comparison_begins))]
    fn comparison(&self, cursor: &mut Cursor<Spot>) -> Result<Expr, Stop>
        requires { Nests self.now.levels (F.pre self.now.inside) (F.post self.now.inside) }
        ensures { Reads (spec.comparison_of (spec.unary self.now.levels) cursor.old) result cursor.new }
    {
        let first = self.unary(cursor)?;
        self.comparison_from(cursor, first)
    }

    /// A negation or a comparison, where a level is left.
    #[tactic(auto, unfolding(txn_grammar::specs::code::Reader::negation_of))]
    fn negation_of(&self, cursor: &mut Cursor<Spot>) -> Result<Expr, Stop>
        requires nests { Nests self.now.levels (F.pre self.now.inside) (F.post self.now.inside) }
        requires some { 0 < self.now.levels }
        ensures { Reads (spec.negation_of (spec.negation (self.now.levels - 1)) (spec.unary self.now.levels) cursor.old) result cursor.new }
    {
        if sees(cursor, Symbol::Not) {
            self.not(cursor)
        } else {
            self.comparison(cursor)
        }
    }

    /// A negation or a comparison.
    #[tactic(auto, using(crate::proofs::Levels::negation_last, crate::proofs::Levels::negation_deeper))]
    fn negation(&self, cursor: &mut Cursor<Spot>) -> Result<Expr, Stop>
        requires { Nests self.now.levels (F.pre self.now.inside) (F.post self.now.inside) }
        ensures { Reads (spec.negation self.now.levels cursor.old) result cursor.new }
    {
        if self.levels == 0 {
            self.comparison(cursor)
        } else {
            self.negation_of(cursor)
        }
    }

    /// Negations joined by `and`, the first of which is read already.
    fn conjunction_from(&self, cursor: &mut Cursor<Spot>, first: Expr) -> Result<Expr, Stop>
        requires { Nests self.now.levels (F.pre self.now.inside) (F.post self.now.inside) }
        ensures { Reads (begun.chain rank.Conjunction (spec.negation self.now.levels) first cursor.old) result cursor.new }
    {
        chain(
            self.alloc,
            cursor,
            Rank::Conjunction,
            first,
            |cursor| self.negation(cursor),
        )
    }

    /// Negations joined by `and`.
    #[tactic(auto, using(crate::proofs::Begun::chain_begins))]
    fn conjunction(&self, cursor: &mut Cursor<Spot>) -> Result<Expr, Stop>
        requires { Nests self.now.levels (F.pre self.now.inside) (F.post self.now.inside) }
        ensures { Reads (spec.chain rank.Conjunction (spec.negation self.now.levels) cursor.old) result cursor.new }
    {
        let first = self.negation(cursor)?;
        self.conjunction_from(cursor, first)
    }

    /// Conjunctions joined by `or`, the first of which is read already.
    fn disjunction_from(&self, cursor: &mut Cursor<Spot>, first: Expr) -> Result<Expr, Stop>
        requires { Nests self.now.levels (F.pre self.now.inside) (F.post self.now.inside) }
        ensures { Reads (begun.chain rank.Disjunction (spec.chain rank.Conjunction (spec.negation self.now.levels)) first cursor.old) result cursor.new }
    {
        chain(
            self.alloc,
            cursor,
            Rank::Disjunction,
            first,
            |cursor| self.conjunction(cursor),
        )
    }

    /// Conjunctions joined by `or`.
    #[tactic(auto, using(crate::proofs::Begun::disjunction_begins))]
    fn disjunction(&self, cursor: &mut Cursor<Spot>) -> Result<Expr, Stop>
        requires { Nests self.now.levels (F.pre self.now.inside) (F.post self.now.inside) }
        ensures { Reads (spec.expression self.now.levels cursor.old) result cursor.new }
    {
        let first = self.conjunction(cursor)?;
        self.disjunction_from(cursor, first)
    }

    /// An expression whose first operand is read already.
    #[tactic(auto, unfolding(crate::specs::code::Begun::expression_of))]
    fn expression_from(&self, cursor: &mut Cursor<Spot>, first: Expr) -> Result<Expr, Stop>
        requires { Nests self.now.levels (F.pre self.now.inside) (F.post self.now.inside) }
        ensures { Reads (begun.expression_of (spec.negation self.now.levels) (spec.unary self.now.levels) first cursor.old) result cursor.new }
    {
        let first = self.comparison_from(cursor, first)?;
        let first = self.conjunction_from(cursor, first)?;
        self.disjunction_from(cursor, first)
    }

    /// An expression. Most are one operand, so that is read first, and no rank is gone through where none joins it to another.
    #[tactic(auto, using(crate::proofs::Begun::expression_begins, crate::proofs::Begun::expression_alone))]
    fn expression(&self, cursor: &mut Cursor<Spot>) -> Result<Expr, Stop>
        requires { Nests self.now.levels (F.pre self.now.inside) (F.post self.now.inside) }
        ensures { Reads (spec.expression self.now.levels cursor.old) result cursor.new }
    {
        if sees(cursor, Symbol::Not) {
            return self.disjunction(cursor);
        }
        let first = self.unary(cursor);
        if !joins(cursor) {
            return first;
        }
        let first = first?;
        self.expression_from(cursor, first)
    }
}

/// What stands at this place, with so many levels left.
pub(crate) fn placed_read(
    alloc: Global,
    cursor: &mut Cursor<Spot>,
    levels: u8,
    place: Place,
) -> Result<Expr, Stop>
    ensures { Reads (placed levels place cursor.old) result cursor.new }
{
    let grammar = Grammar {
        alloc,
        levels,
        inside: placed_read,
    };
    match place {
        Place::Whole => grammar.expression(cursor),
        Place::Negation => grammar.negation(cursor),
        Place::Unary => grammar.unary(cursor),
    }
}
