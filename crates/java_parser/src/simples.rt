//! The rules for locals and for the statements that are expressions.

ghost use Rattle.std.specs.Prelude.{◌≡◌};
ghost use Rattle.java_tree.specs.Tokens.{assign_symbol};
ghost use Rattle.java_parser.specs.Words.{ReturnsReading, kinds};
ghost use Rattle.java_parser.specs.Simples as spec;

use crate::error::Refusal;
use crate::forms::{SimpleForm, simple_form};
use crate::lists::listed;
use crate::members::{annotated, is_named, optional, type_name, type_of};
use crate::rows::{call, value};
use crate::words::{Wanted, after, begins, name};
use java_tree::{AssignOp, Kind, Local, Simple, Symbol, Token, Value};
use sdg_base::Name;
use sqlite_items::Items;
use std::alloc::Global;

/// How many levels are left inside.
fn inside(levels: usize, tokens: &[Token]) -> Result<usize, Refusal>
    ensures { ReturnsReading (λ n. n) result (spec.inside levels (kinds tokens.now)) }
{
    if levels == 0 {
        return Err(Refusal::TooDeep { left: tokens.len() });
    }
    Ok(levels - 1)
}

#[tactic(auto, unfolding(crate::specs::Simples::begins_name))]
pub(crate) fn begins_name(tokens: &[Token]) -> bool
    ensures { result ≡ spec.begins_name (kinds tokens.now) }
{
    matches!(
        tokens,
        [
            Token {
                kind: Kind::Identifier(_),
                ..
            },
            ..,
        ]
    )
}

/// Whether `@Partial` stands ahead.
fn is_partial_ahead(tokens: &[Token]) -> bool
    ensures { result ≡ spec.is_partial_ahead (kinds tokens.now) }
{
    begins(tokens, Wanted::Symbol(Symbol::At)) && is_named(tokens, b"Partial")
}

/// Whether the tokens go on with a local, and not with a statement.
#[tactic(auto, unfolding(crate::specs::Simples::local_ahead))]
pub(crate) fn local_ahead(tokens: &[Token]) -> bool
    ensures { result ≡ spec.local_ahead (kinds tokens.now) }
{
    match tokens {
        [] => false,
        [first, rest @ ..] => match &first.kind {
            Kind::Reserved(word) => type_of(*word).is_some(),
            Kind::Identifier(_) => begins_name(rest),
            Kind::Number { .. } => false,
            Kind::Symbol(_) => is_partial_ahead(tokens),
        },
    }
}

#[tactic(auto, unfolding(crate::specs::Simples::initialiser_at))]
fn initialiser(
    alloc: Global,
    levels: usize,
    tokens: &[Token],
) -> Result<(Option<Value>, &[Token]), Refusal>
    ensures { ReturnsReading (λ x. (x.0, kinds x.1.now)) result (spec.initialiser_at levels (kinds tokens.now)) }
{
    if !begins(tokens, Wanted::Symbol(Symbol::Assign)) {
        return Ok((None, tokens));
    }
    let rest = after(tokens, &[Wanted::Symbol(Symbol::Assign)])?;
    let (value, rest) = value(alloc, levels, rest)?;
    Ok((Some(value), rest))
}

#[tactic(auto, unfolding(crate::specs::Simples::local_at))]
pub(crate) fn local(
    alloc: Global,
    levels: usize,
    tokens: &[Token],
) -> Result<(Local, &[Token]), Refusal>
    ensures { ReturnsReading (λ x. (x.0, kinds x.1.now)) result (spec.local_at levels (kinds tokens.now)) }
{
    let levels = inside(levels, tokens)?;
    let (is_partial, rest) = optional(
        tokens,
        Wanted::Symbol(Symbol::At),
        &[Wanted::Name(b"Partial")],
    )?;
    let (type_name, rest) = type_name(alloc, rest)?;
    let (name, rest) = name(alloc, rest)?;
    let (value, rest) = initialiser(alloc, levels, rest)?;
    Ok((
        Local {
            is_partial,
            type_name,
            name,
            value,
        },
        rest,
    ))
}

fn symbol_of(op: AssignOp) -> Symbol
    ensures { result ≡ assign_symbol op }
{
    match op {
        AssignOp::Assign => Symbol::Assign,
        AssignOp::Add => Symbol::PlusAssign,
        AssignOp::Sub => Symbol::MinusAssign,
        AssignOp::Mul => Symbol::StarAssign,
        AssignOp::Div => Symbol::SlashAssign,
        AssignOp::Rem => Symbol::PercentAssign,
        AssignOp::And => Symbol::AmpersandAssign,
        AssignOp::Or => Symbol::BarAssign,
        AssignOp::Xor => Symbol::CaretAssign,
        AssignOp::Shl => Symbol::ShiftLeftAssign,
        AssignOp::Shr => Symbol::ShiftRightAssign,
        AssignOp::UShr => Symbol::ShiftRightUnsignedAssign,
    }
}

/// A name, and this symbol behind it.
#[tactic(auto, unfolding(crate::specs::Simples::named_before))]
fn named_before(
    alloc: Global,
    symbol: Symbol,
    tokens: &[Token],
) -> Result<(Name, &[Token]), Refusal>
    ensures { ReturnsReading (λ x. (x.0, kinds x.1.now)) result (spec.named_before symbol (kinds tokens.now)) }
{
    let (name, rest) = name(alloc, tokens)?;
    let rest = after(rest, &[Wanted::Symbol(symbol)])?;
    Ok((name, rest))
}

/// A name, and this symbol before it.
#[tactic(auto, unfolding(crate::specs::Simples::named_behind))]
fn named_behind(
    alloc: Global,
    symbol: Symbol,
    tokens: &[Token],
) -> Result<(Name, &[Token]), Refusal>
    ensures { ReturnsReading (λ x. (x.0, kinds x.1.now)) result (spec.named_behind symbol (kinds tokens.now)) }
{
    let rest = after(tokens, &[Wanted::Symbol(symbol)])?;
    name(alloc, rest)
}

#[tactic(auto, unfolding(crate::specs::Simples::simple_of))]
fn simple_of(
    alloc: Global,
    form: SimpleForm,
    levels: usize,
    tokens: &[Token],
) -> Result<(Simple, &[Token]), Refusal>
    ensures { ReturnsReading (λ x. (x.0, kinds x.1.now)) result (spec.simple_of form levels (kinds tokens.now)) }
{
    match form {
        SimpleForm::Assign(op) => {
            let (name, rest) = named_before(alloc, symbol_of(op), tokens)?;
            let (value, rest) = value(alloc, levels, rest)?;
            Ok((Simple::Assign(name, op, value), rest))
        }
        SimpleForm::PostIncrement => {
            let (name, rest) = named_before(alloc, Symbol::PlusPlus, tokens)?;
            Ok((Simple::PostIncrement(name), rest))
        }
        SimpleForm::PostDecrement => {
            let (name, rest) = named_before(alloc, Symbol::MinusMinus, tokens)?;
            Ok((Simple::PostDecrement(name), rest))
        }
        SimpleForm::PreIncrement => {
            let (name, rest) = named_behind(alloc, Symbol::PlusPlus, tokens)?;
            Ok((Simple::PreIncrement(name), rest))
        }
        SimpleForm::PreDecrement => {
            let (name, rest) = named_behind(alloc, Symbol::MinusMinus, tokens)?;
            Ok((Simple::PreDecrement(name), rest))
        }
        SimpleForm::GlobalCall => {
            let rest = annotated(tokens, b"Global")?;
            let (call, rest) = call(alloc, levels, rest)?;
            Ok((Simple::Call(true, call), rest))
        }
        SimpleForm::Call => {
            let (call, rest) = call(alloc, levels, tokens)?;
            Ok((Simple::Call(false, call), rest))
        }
    }
}

/// A statement that is an expression, inside which this many levels are left.
#[tactic(auto, unfolding(crate::specs::Simples::simple_in))]
pub(crate) fn simple_in(
    alloc: Global,
    levels: usize,
    tokens: &[Token],
) -> Result<(Simple, &[Token]), Refusal>
    ensures { ReturnsReading (λ x. (x.0, kinds x.1.now)) result (spec.simple_in levels (kinds tokens.now)) }
{
    simple_of(alloc, simple_form(tokens), levels, tokens)
}

#[tactic(auto, unfolding(crate::specs::Simples::simple_at))]
fn simple(alloc: Global, levels: usize, tokens: &[Token]) -> Result<(Simple, &[Token]), Refusal>
    ensures { ReturnsReading (λ x. (x.0, kinds x.1.now)) result (spec.simple_at levels (kinds tokens.now)) }
{
    let levels = inside(levels, tokens)?;
    simple_in(alloc, levels, tokens)
}

#[tactic(auto, unfolding(crate::specs::Simples::other_simple_at))]
fn other_simple(
    alloc: Global,
    levels: usize,
    tokens: &[Token],
) -> Result<(Simple, &[Token]), Refusal>
    ensures { ReturnsReading (λ x. (x.0, kinds x.1.now)) result (spec.other_simple_at levels (kinds tokens.now)) }
{
    let rest = after(tokens, &[Wanted::Symbol(Symbol::Comma)])?;
    simple(alloc, levels, rest)
}

/// The statements behind the first. Each takes a token, so there are no more turns than tokens.
fn other_simples(
    alloc: Global,
    levels: usize,
    tokens: &[Token],
) -> Result<(Items<Simple>, &[Token]), Refusal>
    ensures { ReturnsReading (λ x. (x.0, kinds x.1.now)) result (spec.other_simples_at levels (kinds tokens.now)) }
{
    let mut simples = Items::new(alloc);
    let mut rest = tokens;
    for _ in 0..tokens.len() {
        if !begins(rest, Wanted::Symbol(Symbol::Comma)) {
            return Ok((simples, rest));
        }
        let (simple, behind) = other_simple(alloc, levels, rest)?;
        simples.push(simple)?;
        rest = behind;
    }
    Err(Refusal::NoClass { left: rest.len() })
}

#[tactic(auto, unfolding(crate::specs::Simples::simples_at))]
pub(crate) fn simples(
    alloc: Global,
    levels: usize,
    tokens: &[Token],
) -> Result<(Items<Simple>, &[Token]), Refusal>
    ensures { ReturnsReading (λ x. (x.0, kinds x.1.now)) result (spec.simples_at levels (kinds tokens.now)) }
{
    let (first, rest) = simple(alloc, levels, tokens)?;
    let (others, rest) = other_simples(alloc, levels, rest)?;
    Ok((listed(alloc, first, others)?, rest))
}
