//! What the first tokens say of an operand, and of what may stand behind it.

ghost use Rattle.std.specs.Prelude.{◌≡◌};
ghost use Rattle.java_tree.specs.Levels.{operator_level};
ghost use Rattle.java_parser.specs.Words.{kinds};
ghost use Rattle.java_parser.specs.Expressions as spec;

use java_tree::{Kind, Reserved, Symbol, Token};
use sdg_base::{BinOp, Num, UnOp};

/// What the first token of an operand makes it.
#[derive(Clone, Copy)]
pub(crate) enum Opening {
    Name,
    Number {
        digits: u64,
        decimal: bool,
        long: bool,
    },
    Truth(bool),
    New,
    Paren,
    Unary(UnOp),
    Other,
}

fn opening_reserved(word: Reserved) -> Opening
    ensures { result ≡ spec.opening_reserved word }
{
    match word {
        Reserved::True => Opening::Truth(true),
        Reserved::False => Opening::Truth(false),
        Reserved::New => Opening::New,
        _ => Opening::Other,
    }
}

fn opening_symbol(symbol: Symbol) -> Opening
    ensures { result ≡ spec.opening_symbol symbol }
{
    match symbol {
        Symbol::OpenParen => Opening::Paren,
        Symbol::Plus => Opening::Unary(UnOp::Plus),
        Symbol::Minus => Opening::Unary(UnOp::Minus),
        Symbol::Tilde => Opening::Unary(UnOp::Complement),
        Symbol::Bang => Opening::Unary(UnOp::Not),
        _ => Opening::Other,
    }
}

#[tactic(auto, unfolding(crate::specs::Expressions::opening_of))]
pub(crate) fn opening_of(tokens: &[Token]) -> Opening
    ensures { result ≡ spec.opening_of (kinds tokens.now) }
{
    match tokens {
        [] => Opening::Other,
        [first, ..] => match &first.kind {
            Kind::Identifier(_) => Opening::Name,
            Kind::Number {
                digits,
                decimal,
                long,
            } => Opening::Number {
                digits: *digits,
                decimal: *decimal,
                long: *long,
            },
            Kind::Reserved(word) => opening_reserved(*word),
            Kind::Symbol(symbol) => opening_symbol(*symbol),
        },
    }
}

/// Whether an expression may begin so.
#[tactic(auto, unfolding(crate::specs::Expressions::begins_expr))]
pub(crate) fn begins_expr(tokens: &[Token]) -> bool
    ensures { result ≡ spec.begins_expr (kinds tokens.now) }
{
    !matches!(opening_of(tokens), Opening::Other)
}

fn number_type_of(word: Reserved) -> Option<Num>
    ensures { result ≡ spec.number_type_of word }
{
    match word {
        Reserved::Int => Some(Num::Int),
        Reserved::Long => Some(Num::Long),
        _ => None,
    }
}

/// The type of a cast that the tokens begin with.
#[tactic(auto, unfolding(crate::specs::Expressions::number_type_ahead))]
pub(crate) fn number_type_ahead(tokens: &[Token]) -> Option<Num>
    ensures { result ≡ spec.number_type_ahead (kinds tokens.now) }
{
    match tokens {
        [] => None,
        [first, ..] => match &first.kind {
            Kind::Reserved(word) => number_type_of(*word),
            Kind::Identifier(_) | Kind::Number { .. } | Kind::Symbol(_) => None,
        },
    }
}

fn binary_of(symbol: Symbol) -> Option<BinOp>
    ensures { result ≡ spec.binary_of symbol }
{
    match symbol {
        Symbol::Star => Some(BinOp::Mul),
        Symbol::Slash => Some(BinOp::Div),
        Symbol::Percent => Some(BinOp::Rem),
        Symbol::Plus => Some(BinOp::Add),
        Symbol::Minus => Some(BinOp::Sub),
        Symbol::ShiftLeft => Some(BinOp::Shl),
        Symbol::ShiftRight => Some(BinOp::Shr),
        Symbol::ShiftRightUnsigned => Some(BinOp::UShr),
        Symbol::Less => Some(BinOp::Lt),
        Symbol::LessEqual => Some(BinOp::Le),
        Symbol::Greater => Some(BinOp::Gt),
        Symbol::GreaterEqual => Some(BinOp::Ge),
        Symbol::EqualEqual => Some(BinOp::Eq),
        Symbol::NotEqual => Some(BinOp::Ne),
        Symbol::Ampersand => Some(BinOp::And),
        Symbol::Caret => Some(BinOp::Xor),
        Symbol::Bar => Some(BinOp::Or),
        Symbol::AndAnd => Some(BinOp::AndAlso),
        Symbol::BarBar => Some(BinOp::OrElse),
        _ => None,
    }
}

fn operator_level(op: BinOp) -> usize
    ensures { result ≡ operator_level op }
{
    match op {
        BinOp::OrElse => 1,
        BinOp::AndAlso => 2,
        BinOp::Or => 3,
        BinOp::Xor => 4,
        BinOp::And => 5,
        BinOp::Eq | BinOp::Ne => 6,
        BinOp::Lt | BinOp::Le | BinOp::Gt | BinOp::Ge => 7,
        BinOp::Shl | BinOp::Shr | BinOp::UShr => 8,
        BinOp::Add | BinOp::Sub => 9,
        BinOp::Mul | BinOp::Div | BinOp::Rem => 10,
    }
}

#[tactic(auto, unfolding(crate::specs::Expressions::operator_ahead))]
fn operator_ahead(tokens: &[Token]) -> Option<BinOp>
    ensures { result ≡ spec.operator_ahead (kinds tokens.now) }
{
    match tokens {
        [] => None,
        [first, ..] => match &first.kind {
            Kind::Symbol(symbol) => binary_of(*symbol),
            Kind::Identifier(_) | Kind::Number { .. } | Kind::Reserved(_) => None,
        },
    }
}

/// The operator that the tokens begin with, if it is of this level.
#[tactic(auto, unfolding(crate::specs::Expressions::operator_at))]
pub(crate) fn operator_at(level: usize, tokens: &[Token]) -> Option<BinOp>
    ensures { result ≡ spec.operator_at level (kinds tokens.now) }
{
    match operator_ahead(tokens) {
        None => None,
        Some(op) if operator_level(op) == level => Some(op),
        Some(_) => None,
    }
}

/// The tokens behind the first.
#[tactic(auto, unfolding(crate::specs::Expressions::tail))]
pub(crate) fn tail(tokens: &[Token]) -> &[Token]
    ensures { kinds result.now ≡ spec.tail (kinds tokens.now) }
{
    match tokens {
        [] => tokens,
        [_, rest @ ..] => rest,
    }
}
