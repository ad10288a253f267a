//! The rules for expressions (JLS 15). Those whose parts are expressions take the reader of these as a
//! parameter, so that each is proved by itself.

ghost use Rattle.std.specs.Prelude.{◌≡◌, ◌+◌};
ghost use Rattle.java_tree.specs.Heights.{expr_height, value_height};
ghost use Rattle.java_parser.specs.Words.{kinds};
ghost use Rattle.java_parser.specs.Expressions as spec;
ghost use Rattle.java_parser.specs.Deeper.{Reads, Finds, Measures, values_height};

use crate::error::Refusal;
use crate::lists::listed;
use crate::members::optional;
use crate::operands::{Opening, number_type_ahead, opening_of, tail};
use crate::words::{Wanted, after, begins, name};
use java_tree::{CallForm, Expr, Symbol, Token, Value};
use sdg_base::{Name, Num, UnOp};
use sqlite_items::{Boxed, Items};
use std::alloc::Global;

/// An expression, how many of its levels it leaves, and the tokens after it.
pub(crate) type Found<'t> = (Expr, usize, &'t [Token]);

/// Operators of every level, and conditionals.
pub(crate) const ALL_ROWS: usize = 11;

/// The rules of expressions whose parts may stand on this many levels.
#[derive(Clone, Copy)]
pub(crate) struct Rules<F> {
    pub alloc: Global,
    pub levels: usize,
    pub expr: F,
}

impl<F: Fn(Global, usize, usize, &[Token]) -> Result<Found<'_>, Refusal>> Rules<F> {
    /// Whatever stands one level deeper.
    pub(crate) fn deeper<'t>(
        &self,
        looseness: usize,
        tokens: &'t [Token],
    ) -> Result<Found<'t>, Refusal>
        requires { Reads self.now.levels (F.pre self.now.expr) (F.post self.now.expr) }
        ensures finds { Finds result (spec.read_at self.now.levels looseness (kinds tokens.now)) }
        ensures measures { Measures expr_height self.now.levels result }
    {
        (self.expr)(self.alloc, self.levels, looseness, tokens)
    }

    /// What stands one level deeper, in a box.
    pub(crate) fn boxed<'t>(
        &self,
        looseness: usize,
        tokens: &'t [Token],
    ) -> Result<(Boxed<Expr>, usize, &'t [Token]), Refusal>
        requires { Reads self.now.levels (F.pre self.now.expr) (F.post self.now.expr) }
        ensures finds { Finds result (spec.read_at self.now.levels looseness (kinds tokens.now)) }
        ensures measures { Measures expr_height self.now.levels result }
    {
        let (x, spare, rest) = self.deeper(looseness, tokens)?;
        Ok((Boxed::new(self.alloc, x)?, spare, rest))
    }

    /// An expression, with `@Global` before it or not.
    #[tactic(auto, unfolding(crate::specs::Expressions::value_in), using(crate::proofs::TreeHeights::valued_height))]
    pub(crate) fn value<'t>(
        &self,
        tokens: &'t [Token],
    ) -> Result<(Value, usize, &'t [Token]), Refusal>
        requires { Reads self.now.levels (F.pre self.now.expr) (F.post self.now.expr) }
        ensures finds { Finds result (spec.value_in (spec.read_at self.now.levels) (kinds tokens.now)) }
        ensures measures { Measures value_height self.now.levels result }
    {
        let (is_global, rest) = optional(
            tokens,
            Wanted::Symbol(Symbol::At),
            &[Wanted::Name(b"Global")],
        )?;
        let (expr, spare, rest) = self.deeper(ALL_ROWS, rest)?;
        Ok((Value { is_global, expr }, spare, rest))
    }

    /// An argument behind the first, with the comma before it.
    #[tactic(auto, unfolding(crate::specs::Expressions::other_value_in))]
    fn other_value<'t>(&self, tokens: &'t [Token]) -> Result<(Value, usize, &'t [Token]), Refusal>
        requires { Reads self.now.levels (F.pre self.now.expr) (F.post self.now.expr) }
        ensures finds { Finds result (spec.other_value_in (spec.read_at self.now.levels) (kinds tokens.now)) }
        ensures measures { Measures value_height self.now.levels result }
    {
        let rest = after(tokens, &[Wanted::Symbol(Symbol::Comma)])?;
        self.value(rest)
    }

    /// The arguments behind the first. Each takes a token, so there are no more turns than tokens.
    fn other_values<'t>(
        &self,
        tokens: &'t [Token],
    ) -> Result<(Items<Value>, usize, &'t [Token]), Refusal>
        requires { Reads self.now.levels (F.pre self.now.expr) (F.post self.now.expr) }
        ensures finds { Finds result (spec.other_values_in (spec.read_at self.now.levels) (kinds tokens.now)) }
        ensures measures { Measures values_height self.now.levels result }
    {
        let mut values = Items::new(self.alloc);
        let mut least = self.levels;
        let mut rest = tokens;
        for _ in 0..tokens.len() {
            if !begins(rest, Wanted::Symbol(Symbol::Comma)) {
                return Ok((values, least, rest));
            }
            let (value, spare, behind) = self.other_value(rest)?;
            values.push(value)?;
            least = least.min(spare);
            rest = behind;
        }
        Err(Refusal::NoClass { left: rest.len() })
    }

    /// What stands between the parentheses of a call, which may be nothing.
    #[tactic(auto, unfolding(crate::specs::Expressions::values_in), using(crate::proofs::TreeHeights::values_height_first, crate::proofs::TreeHeights::values_height_none))]
    fn values<'t>(&self, tokens: &'t [Token]) -> Result<(Items<Value>, usize, &'t [Token]), Refusal>
        requires { Reads self.now.levels (F.pre self.now.expr) (F.post self.now.expr) }
        ensures finds { Finds result (spec.values_in (spec.read_at self.now.levels) (kinds tokens.now)) }
        ensures measures { Measures values_height self.now.levels result }
    {
        if begins(tokens, Wanted::Symbol(Symbol::CloseParen)) {
            return Ok((Items::new(self.alloc), self.levels, tokens));
        }
        let (first, first_spare, rest) = self.value(tokens)?;
        let (others, least, rest) = self.other_values(rest)?;
        let values = listed(self.alloc, first, others)?;
        Ok((values, first_spare.min(least), rest))
    }

    /// Arguments, with their parentheses.
    #[tactic(auto, unfolding(crate::specs::Expressions::args_in))]
    fn args<'t>(&self, tokens: &'t [Token]) -> Result<(Items<Value>, usize, &'t [Token]), Refusal>
        requires { Reads self.now.levels (F.pre self.now.expr) (F.post self.now.expr) }
        ensures finds { Finds result (spec.args_in (spec.read_at self.now.levels) (kinds tokens.now)) }
        ensures measures { Measures values_height self.now.levels result }
    {
        let rest = after(tokens, &[Wanted::Symbol(Symbol::OpenParen)])?;
        let (args, spare, rest) = self.values(rest)?;
        let rest = after(rest, &[Wanted::Symbol(Symbol::CloseParen)])?;
        Ok((args, spare, rest))
    }

    /// The arguments of a call of a named object.
    #[tactic(auto, unfolding(crate::specs::Expressions::of_in), using(crate::proofs::TreeHeights::of_call_height))]
    fn of<'t>(&self, object: Name, method: Name, tokens: &'t [Token]) -> Result<Found<'t>, Refusal>
        requires { Reads self.now.levels (F.pre self.now.expr) (F.post self.now.expr) }
        ensures finds { Finds result (spec.of_in (spec.read_at self.now.levels) object method (kinds tokens.now)) }
        ensures measures { Measures expr_height (self.now.levels + 1) result }
    {
        let (args, spare, rest) = self.args(tokens)?;
        let call = Boxed::new(self.alloc, CallForm::Of(object, method, args))?;
        Ok((Expr::Call(call), spare, rest))
    }

    /// What goes on after a name and a dot.
    #[tactic(auto, unfolding(crate::specs::Expressions::member_in), using(crate::proofs::TreeHeights::member_height))]
    fn member<'t>(&self, object: Name, tokens: &'t [Token]) -> Result<Found<'t>, Refusal>
        requires { Reads self.now.levels (F.pre self.now.expr) (F.post self.now.expr) }
        ensures finds { Finds result (spec.member_in (spec.read_at self.now.levels) object (kinds tokens.now)) }
        ensures measures { Measures expr_height (self.now.levels + 1) result }
    {
        let (name, rest) = name(self.alloc, tokens)?;
        if begins(rest, Wanted::Symbol(Symbol::OpenParen)) {
            self.of(object, name, rest)
        } else {
            let name = Boxed::new(self.alloc, name)?;
            Ok((Expr::Member(object, name), self.levels, rest))
        }
    }

    /// A call of a member, from the dot on.
    #[tactic(auto, unfolding(crate::specs::Expressions::of_member_in), using(crate::proofs::TreeHeights::of_member_call_height))]
    fn of_member<'t>(
        &self,
        object: Name,
        index: Boxed<Expr>,
        index_spare: usize,
        tokens: &'t [Token],
    ) -> Result<Found<'t>, Refusal>
        requires spare { index_spare + expr_height index ≡ self.now.levels }
        requires reads { Reads self.now.levels (F.pre self.now.expr) (F.post self.now.expr) }
        ensures finds { Finds result (spec.of_member_in (spec.read_at self.now.levels) object index (kinds tokens.now)) }
        ensures measures { Measures expr_height (self.now.levels + 1) result }
    {
        let rest = after(tokens, &[Wanted::Symbol(Symbol::Dot)])?;
        let (method, rest) = name(self.alloc, rest)?;
        let (args, spare, rest) = self.args(rest)?;
        let call = Boxed::new(self.alloc, CallForm::OfMember(object, index, method, args))?;
        Ok((Expr::Call(call), index_spare.min(spare), rest))
    }

    /// What goes on after a name and an opening bracket.
    #[tactic(auto, unfolding(crate::specs::Expressions::index_in), using(crate::proofs::TreeHeights::index_height))]
    fn index<'t>(&self, object: Name, tokens: &'t [Token]) -> Result<Found<'t>, Refusal>
        requires { Reads self.now.levels (F.pre self.now.expr) (F.post self.now.expr) }
        ensures finds { Finds result (spec.index_in (spec.read_at self.now.levels) object (kinds tokens.now)) }
        ensures measures { Measures expr_height (self.now.levels + 1) result }
    {
        let (index, spare, rest) = self.boxed(ALL_ROWS, tokens)?;
        let rest = after(rest, &[Wanted::Symbol(Symbol::CloseBracket)])?;
        if begins(rest, Wanted::Symbol(Symbol::Dot)) {
            self.of_member(object, index, spare, rest)
        } else {
            Ok((Expr::Index(object, index), spare, rest))
        }
    }

    /// The arguments of a call of one of the class's own methods.
    #[tactic(auto, unfolding(crate::specs::Expressions::own_in), using(crate::proofs::TreeHeights::own_call_height))]
    fn own<'t>(&self, method: Name, tokens: &'t [Token]) -> Result<Found<'t>, Refusal>
        requires { Reads self.now.levels (F.pre self.now.expr) (F.post self.now.expr) }
        ensures finds { Finds result (spec.own_in (spec.read_at self.now.levels) method (kinds tokens.now)) }
        ensures measures { Measures expr_height (self.now.levels + 1) result }
    {
        let (args, spare, rest) = self.args(tokens)?;
        let call = Boxed::new(self.alloc, CallForm::Own(method, args))?;
        Ok((Expr::Call(call), spare, rest))
    }

    /// What goes on after a name.
    #[tactic(auto, unfolding(crate::specs::Expressions::named_in), using(crate::proofs::TreeHeights::name_height))]
    fn named<'t>(&self, name: Name, tokens: &'t [Token]) -> Result<Found<'t>, Refusal>
        requires { Reads self.now.levels (F.pre self.now.expr) (F.post self.now.expr) }
        ensures finds { Finds result (spec.named_in (spec.read_at self.now.levels) name (kinds tokens.now)) }
        ensures measures { Measures expr_height (self.now.levels + 1) result }
    {
        if begins(tokens, Wanted::Symbol(Symbol::OpenParen)) {
            self.own(name, tokens)
        } else if begins(tokens, Wanted::Symbol(Symbol::Dot)) {
            self.member(name, tail(tokens))
        } else if begins(tokens, Wanted::Symbol(Symbol::OpenBracket)) {
            self.index(name, tail(tokens))
        } else {
            Ok((Expr::Name(name), self.levels, tokens))
        }
    }

    /// A name, and what goes on after it.
    #[tactic(auto, unfolding(crate::specs::Expressions::called_in))]
    pub(crate) fn called<'t>(&self, tokens: &'t [Token]) -> Result<Found<'t>, Refusal>
        requires { Reads self.now.levels (F.pre self.now.expr) (F.post self.now.expr) }
        ensures finds { Finds result (spec.called_in (spec.read_at self.now.levels) (kinds tokens.now)) }
        ensures measures { Measures expr_height (self.now.levels + 1) result }
    {
        let (name, rest) = name(self.alloc, tokens)?;
        self.named(name, rest)
    }

    /// A cast, from its type on.
    #[tactic(auto, unfolding(crate::specs::Expressions::cast_in), using(crate::proofs::TreeHeights::cast_height))]
    fn cast<'t>(&self, to: Num, tokens: &'t [Token]) -> Result<Found<'t>, Refusal>
        requires { Reads self.now.levels (F.pre self.now.expr) (F.post self.now.expr) }
        ensures finds { Finds result (spec.cast_in (spec.read_at self.now.levels) to (kinds tokens.now)) }
        ensures measures { Measures expr_height (self.now.levels + 1) result }
    {
        let rest = after(tail(tokens), &[Wanted::Symbol(Symbol::CloseParen)])?;
        let (operand, spare, rest) = self.boxed(0, rest)?;
        Ok((Expr::Cast(to, operand), spare, rest))
    }

    /// An expression in parentheses, after the first.
    #[tactic(auto, unfolding(crate::specs::Expressions::inner_in), using(crate::proofs::TreeHeights::paren_height))]
    fn inner<'t>(&self, tokens: &'t [Token]) -> Result<Found<'t>, Refusal>
        requires { Reads self.now.levels (F.pre self.now.expr) (F.post self.now.expr) }
        ensures finds { Finds result (spec.inner_in (spec.read_at self.now.levels) (kinds tokens.now)) }
        ensures measures { Measures expr_height (self.now.levels + 1) result }
    {
        let (inner, spare, rest) = self.boxed(ALL_ROWS, tokens)?;
        let rest = after(rest, &[Wanted::Symbol(Symbol::CloseParen)])?;
        Ok((Expr::Paren(inner), spare, rest))
    }

    /// What goes on after an opening parenthesis.
    #[tactic(auto, unfolding(crate::specs::Expressions::paren_in))]
    fn paren<'t>(&self, tokens: &'t [Token]) -> Result<Found<'t>, Refusal>
        requires { Reads self.now.levels (F.pre self.now.expr) (F.post self.now.expr) }
        ensures finds { Finds result (spec.paren_in (spec.read_at self.now.levels) (kinds tokens.now)) }
        ensures measures { Measures expr_height (self.now.levels + 1) result }
    {
        match number_type_ahead(tokens) {
            Some(to) => self.cast(to, tokens),
            None => self.inner(tokens),
        }
    }

    /// What goes on after `new`.
    #[tactic(auto, unfolding(crate::specs::Expressions::new_in), using(crate::proofs::TreeHeights::maker_height))]
    fn maker<'t>(&self, tokens: &'t [Token]) -> Result<Found<'t>, Refusal>
        requires { Reads self.now.levels (F.pre self.now.expr) (F.post self.now.expr) }
        ensures finds { Finds result (spec.new_in (spec.read_at self.now.levels) (kinds tokens.now)) }
        ensures measures { Measures expr_height (self.now.levels + 1) result }
    {
        let (class, rest) = name(self.alloc, tokens)?;
        let rest = after(rest, &[Wanted::Symbol(Symbol::OpenParen)])?;
        let (size, spare, rest) = self.boxed(ALL_ROWS, rest)?;
        let rest = after(rest, &[Wanted::Symbol(Symbol::CloseParen)])?;
        Ok((Expr::New(class, size), spare, rest))
    }

    /// The operand of a unary operator.
    #[tactic(auto, unfolding(crate::specs::Expressions::prefixed_in), using(crate::proofs::TreeHeights::unary_height))]
    fn prefixed<'t>(&self, op: UnOp, tokens: &'t [Token]) -> Result<Found<'t>, Refusal>
        requires { Reads self.now.levels (F.pre self.now.expr) (F.post self.now.expr) }
        ensures finds { Finds result (spec.prefixed_in (spec.read_at self.now.levels) op (kinds tokens.now)) }
        ensures measures { Measures expr_height (self.now.levels + 1) result }
    {
        let (operand, spare, rest) = self.boxed(0, tokens)?;
        Ok((Expr::Unary(op, operand), spare, rest))
    }

    /// An operand, with what stands before it.
    #[tactic(auto, unfolding(crate::specs::Expressions::operand_in), using(crate::proofs::TreeHeights::number_height, crate::proofs::TreeHeights::truth_height))]
    pub(crate) fn operand<'t>(&self, tokens: &'t [Token]) -> Result<Found<'t>, Refusal>
        requires { Reads self.now.levels (F.pre self.now.expr) (F.post self.now.expr) }
        ensures finds { Finds result (spec.operand_in (spec.read_at self.now.levels) (kinds tokens.now)) }
        ensures measures { Measures expr_height (self.now.levels + 1) result }
    {
        match opening_of(tokens) {
            Opening::Name => self.called(tokens),
            Opening::Number {
                digits,
                decimal,
                long,
            } => Ok((
                Expr::Number {
                    digits,
                    decimal,
                    long,
                },
                self.levels,
                tail(tokens),
            )),
            Opening::Truth(value) => Ok((Expr::Bool(value), self.levels, tail(tokens))),
            Opening::New => self.maker(tail(tokens)),
            Opening::Paren => self.paren(tail(tokens)),
            Opening::Unary(op) => self.prefixed(op, tail(tokens)),
            Opening::Other => Err(Refusal::NoClass { left: tokens.len() }),
        }
    }
}
