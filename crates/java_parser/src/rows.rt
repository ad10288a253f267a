//! Rows of operators, conditionals, and expressions as a whole.

ghost use Rattle.std.specs.Prelude.{◌≡◌, ◌+◌, IfOk};
ghost use Rattle.java_tree.specs.declared.tree.Expr.TheVariants as e;
ghost use Rattle.java_tree.specs.Heights.{expr_height};
ghost use Rattle.java_parser.specs.Words.{ReturnsReading, kinds};
ghost use Rattle.java_parser.specs.Expressions as spec;
ghost use Rattle.java_parser.specs.Deeper.{Reads, Finds, Measures};

use crate::error::Refusal;
use crate::expressions::{ALL_ROWS, Found, Rules};
use crate::operands::{begins_expr, operator_at, tail};
use crate::words::{Wanted, after, begins};
use java_tree::{CallForm, Expr, Symbol, Token, Value};
use sdg_base::BinOp;
use sqlite_items::Boxed;
use std::alloc::{AllocError, Global};

/// The node of a binary operator.
fn binary(alloc: Global, op: BinOp, left: Expr, right: Expr) -> Result<Expr, AllocError>
    ensures { IfOk result (λ x. x ≡ e.Binary op left right) }
{
    let left = Boxed::new(alloc, left)?;
    let right = Boxed::new(alloc, right)?;
    Ok(Expr::Binary(op, left, right))
}

impl<F: Fn(Global, usize, usize, &[Token]) -> Result<Found<'_>, Refusal>> Rules<F> {
    /// The operators of one level, each with what stands before it as its left operand. Each takes a
    /// token, so there are no more turns than tokens.
    fn row<'t>(
        &self,
        looseness: usize,
        first: Expr,
        first_spare: usize,
        tokens: &'t [Token],
    ) -> Result<Found<'t>, Refusal>
        requires spare { first_spare + expr_height first ≡ self.now.levels + 1 }
        requires reads { Reads self.now.levels (F.pre self.now.expr) (F.post self.now.expr) }
        ensures finds { Finds result (spec.row_in (spec.read_at self.now.levels) self.now.levels looseness first (kinds tokens.now)) }
        ensures measures { Measures expr_height (self.now.levels + 1) result }
    {
        let mut left = first;
        let mut spare = first_spare;
        let mut rest = tokens;
        for _ in 0..tokens.len() {
            let Some(op) = operator_at(10_usize.saturating_sub(looseness), rest) else {
                return Ok((left, spare, rest));
            };
            if spare == 0 {
                return Err(Refusal::TooDeep { left: rest.len() });
            }
            let (right, right_spare, behind) = self.deeper(looseness, tail(rest))?;
            left = binary(self.alloc, op, left, right)?;
            spare = right_spare.min(spare - 1);
            rest = behind;
        }
        Err(Refusal::NoClass { left: rest.len() })
    }

    /// What goes on behind a test: the conditional, where a question mark stands there. The test is boxed first, and
    /// its branches as they are read.
    #[tactic(auto, unfolding(crate::specs::Expressions::conditional_in))]
    fn conditional<'t>(
        &self,
        test: Expr,
        test_spare: usize,
        tokens: &'t [Token],
    ) -> Result<Found<'t>, Refusal>
        requires spare { test_spare + expr_height test ≡ self.now.levels + 1 }
        requires reads { Reads self.now.levels (F.pre self.now.expr) (F.post self.now.expr) }
        ensures finds { Finds result (spec.conditional_in (spec.read_at self.now.levels) self.now.levels test (kinds tokens.now)) }
        ensures measures { Measures expr_height (self.now.levels + 1) result }
    {
        if !begins(tokens, Wanted::Symbol(Symbol::Question)) {
            return Ok((test, test_spare, tokens));
        }
        if test_spare == 0 {
            return Err(Refusal::TooDeep { left: tokens.len() });
        }
        let test = Boxed::new(self.alloc, test)?;
        let rest = after(tokens, &[Wanted::Symbol(Symbol::Question)])?;
        let (first, first_spare, rest) = self.boxed(ALL_ROWS, rest)?;
        let rest = after(rest, &[Wanted::Symbol(Symbol::Colon)])?;
        let (second, second_spare, rest) = self.boxed(ALL_ROWS, rest)?;
        let spare = first_spare.min(second_spare).min(test_spare - 1);
        Ok((Expr::Conditional(test, first, second), spare, rest))
    }

    /// What goes on one level looser.
    #[tactic(auto, unfolding(crate::specs::Expressions::looser_in))]
    fn looser<'t>(
        &self,
        looseness: usize,
        x: Expr,
        spare: usize,
        tokens: &'t [Token],
    ) -> Result<Found<'t>, Refusal>
        requires spare { spare + expr_height x ≡ self.now.levels + 1 }
        requires reads { Reads self.now.levels (F.pre self.now.expr) (F.post self.now.expr) }
        ensures finds { Finds result (spec.looser_in (spec.read_at self.now.levels) self.now.levels looseness x (kinds tokens.now)) }
        ensures measures { Measures expr_height (self.now.levels + 1) result }
    {
        if looseness == 10 {
            self.conditional(x, spare, tokens)
        } else {
            self.row(looseness, x, spare, tokens)
        }
    }

    /// What goes on behind an operand, up to this looseness.
    fn extended<'t>(
        &self,
        looseness: usize,
        operand: Expr,
        operand_spare: usize,
        tokens: &'t [Token],
    ) -> Result<Found<'t>, Refusal>
        requires spare { operand_spare + expr_height operand ≡ self.now.levels + 1 }
        requires reads { Reads self.now.levels (F.pre self.now.expr) (F.post self.now.expr) }
        ensures finds { Finds result (spec.extended_in (spec.read_at self.now.levels) self.now.levels looseness operand (kinds tokens.now)) }
        ensures measures { Measures expr_height (self.now.levels + 1) result }
    {
        let mut x = operand;
        let mut spare = operand_spare;
        let mut rest = tokens;
        for tighter in 0..looseness {
            let (looser, looser_spare, behind) = self.looser(tighter, x, spare, rest)?;
            x = looser;
            spare = looser_spare;
            rest = behind;
        }
        Ok((x, spare, rest))
    }

    /// An operand, and what goes on behind it, up to this looseness.
    #[tactic(auto, unfolding(crate::specs::Expressions::read_in))]
    fn read<'t>(&self, looseness: usize, tokens: &'t [Token]) -> Result<Found<'t>, Refusal>
        requires { Reads self.now.levels (F.pre self.now.expr) (F.post self.now.expr) }
        ensures finds { Finds result (spec.read_in (spec.read_at self.now.levels) self.now.levels looseness (kinds tokens.now)) }
        ensures measures { Measures expr_height (self.now.levels + 1) result }
    {
        let (operand, spare, rest) = self.operand(tokens)?;
        self.extended(looseness, operand, spare, rest)
    }
}

/// An expression on no more than these levels, as loose as this at most: 0 for an operand of a unary
/// operator.
#[tactic(auto, unfolding(crate::specs::Expressions::read_at))]
fn read(
    alloc: Global,
    levels: usize,
    looseness: usize,
    tokens: &[Token],
) -> Result<Found<'_>, Refusal>
    ensures finds { Finds result (spec.read_at levels looseness (kinds tokens.now)) }
    ensures measures { Measures expr_height levels result }
{
    if levels == 0 {
        return if begins_expr(tokens) {
            Err(Refusal::TooDeep { left: tokens.len() })
        } else {
            Err(Refusal::NoClass { left: tokens.len() })
        };
    }
    Rules {
        alloc,
        levels: levels - 1,
        expr: read,
    }
    .read(looseness, tokens)
}

/// An expression on no more than these levels.
pub(crate) fn expr(
    alloc: Global,
    levels: usize,
    tokens: &[Token],
) -> Result<(Expr, &[Token]), Refusal>
    ensures { ReturnsReading (λ x. (x.0, kinds x.1.now)) result (spec.expr_at levels (kinds tokens.now)) }
{
    let (expr, _, rest) = read(alloc, levels, ALL_ROWS, tokens)?;
    Ok((expr, rest))
}

/// An expression on no more than these levels, with its annotation.
pub(crate) fn value(
    alloc: Global,
    levels: usize,
    tokens: &[Token],
) -> Result<(Value, &[Token]), Refusal>
    ensures { ReturnsReading (λ x. (x.0, kinds x.1.now)) result (spec.value_at levels (kinds tokens.now)) }
{
    let rules = Rules {
        alloc,
        levels,
        expr: read,
    };
    let (value, _, rest) = rules.value(tokens)?;
    Ok((value, rest))
}

/// A call whose arguments stand on no more than these levels.
#[tactic(auto, unfolding(crate::specs::Expressions::call_at))]
pub(crate) fn call(
    alloc: Global,
    levels: usize,
    tokens: &[Token],
) -> Result<(CallForm, &[Token]), Refusal>
    ensures { ReturnsReading (λ x. (x.0, kinds x.1.now)) result (spec.call_at levels (kinds tokens.now)) }
{
    let rules = Rules {
        alloc,
        levels,
        expr: read,
    };
    let (x, _, rest) = rules.called(tokens)?;
    match x {
        Expr::Call(call) => Ok((call.into_inner(), rest)),
        _ => Err(Refusal::NoClass { left: rest.len() }),
    }
}
