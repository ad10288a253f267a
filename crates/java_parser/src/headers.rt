//! The rules for the header of a `for`.

ghost use Rattle.std.specs.Prelude.{◌≡◌};
ghost use Rattle.java_parser.specs.Words.{ReturnsReading, kinds};
ghost use Rattle.java_parser.specs.Headers as spec;

use crate::error::Refusal;
use crate::rows::expr;
use crate::simples::{local, local_ahead, simples};
use crate::words::{Wanted, after, begins};
use java_tree::{Expr, ForHeader, ForInit, Reserved, Simple, Symbol, Token};
use sqlite_items::Items;
use std::alloc::Global;

#[tactic(auto, unfolding(crate::specs::Headers::init_at))]
fn for_init(alloc: Global, levels: usize, tokens: &[Token]) -> Result<(ForInit, &[Token]), Refusal>
    ensures { ReturnsReading (λ x. (x.0, kinds x.1.now)) result (spec.init_at levels (kinds tokens.now)) }
{
    if begins(tokens, Wanted::Symbol(Symbol::Semicolon)) {
        return Ok((ForInit::Nothing, tokens));
    }
    if local_ahead(tokens) {
        let (local, rest) = local(alloc, levels, tokens)?;
        return Ok((ForInit::Local(local), rest));
    }
    let (simples, rest) = simples(alloc, levels, tokens)?;
    Ok((ForInit::Simples(simples), rest))
}

#[tactic(auto, unfolding(crate::specs::Headers::condition_at))]
fn condition(
    alloc: Global,
    levels: usize,
    tokens: &[Token],
) -> Result<(Option<Expr>, &[Token]), Refusal>
    ensures { ReturnsReading (λ x. (x.0, kinds x.1.now)) result (spec.condition_at levels (kinds tokens.now)) }
{
    if begins(tokens, Wanted::Symbol(Symbol::Semicolon)) {
        return Ok((None, tokens));
    }
    let (test, rest) = expr(alloc, levels, tokens)?;
    Ok((Some(test), rest))
}

#[tactic(auto, unfolding(crate::specs::Headers::update_at))]
fn update(
    alloc: Global,
    levels: usize,
    tokens: &[Token],
) -> Result<(Items<Simple>, &[Token]), Refusal>
    ensures { ReturnsReading (λ x. (x.0, kinds x.1.now)) result (spec.update_at levels (kinds tokens.now)) }
{
    if begins(tokens, Wanted::Symbol(Symbol::CloseParen)) {
        return Ok((Items::new(alloc), tokens));
    }
    simples(alloc, levels, tokens)
}

/// `for` and its header, to the first semicolon.
#[tactic(auto, unfolding(crate::specs::Headers::opening_at))]
fn opening(alloc: Global, levels: usize, tokens: &[Token]) -> Result<(ForInit, &[Token]), Refusal>
    ensures { ReturnsReading (λ x. (x.0, kinds x.1.now)) result (spec.opening_at levels (kinds tokens.now)) }
{
    let rest = after(
        tokens,
        &[
            Wanted::Reserved(Reserved::For),
            Wanted::Symbol(Symbol::OpenParen),
        ],
    )?;
    let (init, rest) = for_init(alloc, levels, rest)?;
    let rest = after(rest, &[Wanted::Symbol(Symbol::Semicolon)])?;
    Ok((init, rest))
}

/// The header from behind the second semicolon on.
#[tactic(auto, unfolding(crate::specs::Headers::closing_at))]
fn closing(
    alloc: Global,
    levels: usize,
    tokens: &[Token],
) -> Result<(Items<Simple>, &[Token]), Refusal>
    ensures { ReturnsReading (λ x. (x.0, kinds x.1.now)) result (spec.closing_at levels (kinds tokens.now)) }
{
    let (update, rest) = update(alloc, levels, tokens)?;
    let rest = after(rest, &[Wanted::Symbol(Symbol::CloseParen)])?;
    Ok((update, rest))
}

/// The header from behind the first semicolon on.
#[tactic(auto, unfolding(crate::specs::Headers::going_on_at))]
fn going_on(
    alloc: Global,
    levels: usize,
    tokens: &[Token],
) -> Result<((Option<Expr>, Items<Simple>), &[Token]), Refusal>
    ensures { ReturnsReading (λ x. (x.0, kinds x.1.now)) result (spec.going_on_at levels (kinds tokens.now)) }
{
    let (test, rest) = condition(alloc, levels, tokens)?;
    let rest = after(rest, &[Wanted::Symbol(Symbol::Semicolon)])?;
    let (update, rest) = closing(alloc, levels, rest)?;
    Ok(((test, update), rest))
}

/// `for` and its header, inside which this many levels are left.
#[tactic(auto, unfolding(crate::specs::Headers::header_at))]
pub(crate) fn for_header(
    alloc: Global,
    levels: usize,
    tokens: &[Token],
) -> Result<(ForHeader, &[Token]), Refusal>
    ensures { ReturnsReading (λ x. (x.0, kinds x.1.now)) result (spec.header_at levels (kinds tokens.now)) }
{
    let (init, rest) = opening(alloc, levels, tokens)?;
    let ((test, update), rest) = going_on(alloc, levels, rest)?;
    Ok((ForHeader { init, test, update }, rest))
}
