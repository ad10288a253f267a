//! Which statement the first tokens begin.

ghost use Rattle.std.specs.Prelude.{◌≡◌};
ghost use Rattle.java_parser.specs.Words.{kinds};
ghost use Rattle.java_parser.specs.Forms as spec;

use java_tree::{AssignOp, Kind, Reserved, Symbol, Token};

/// Which of the statements that are expressions it is.
#[derive(Clone, Copy)]
pub(crate) enum SimpleForm {
    Assign(AssignOp),
    PostIncrement,
    PostDecrement,
    PreIncrement,
    PreDecrement,
    GlobalCall,
    Call,
}

/// Which statement it is.
#[derive(Clone, Copy)]
pub(crate) enum StatementForm {
    Block,
    Empty,
    If,
    While,
    For,
    Break,
    Continue,
    Return,
    Simple,
}

fn form_before(symbol: Symbol) -> SimpleForm
    ensures { result ≡ spec.form_before symbol }
{
    match symbol {
        Symbol::PlusPlus => SimpleForm::PreIncrement,
        Symbol::MinusMinus => SimpleForm::PreDecrement,
        Symbol::At => SimpleForm::GlobalCall,
        _ => SimpleForm::Call,
    }
}

/// The assignment that a symbol is (JLS 15.26).
fn assignment_of(symbol: Symbol) -> Option<AssignOp>
    ensures { result ≡ spec.assignment_of symbol }
{
    match symbol {
        Symbol::Assign => Some(AssignOp::Assign),
        Symbol::PlusAssign => Some(AssignOp::Add),
        Symbol::MinusAssign => Some(AssignOp::Sub),
        Symbol::StarAssign => Some(AssignOp::Mul),
        Symbol::SlashAssign => Some(AssignOp::Div),
        Symbol::PercentAssign => Some(AssignOp::Rem),
        Symbol::AmpersandAssign => Some(AssignOp::And),
        Symbol::BarAssign => Some(AssignOp::Or),
        Symbol::CaretAssign => Some(AssignOp::Xor),
        Symbol::ShiftLeftAssign => Some(AssignOp::Shl),
        Symbol::ShiftRightAssign => Some(AssignOp::Shr),
        Symbol::ShiftRightUnsignedAssign => Some(AssignOp::UShr),
        _ => None,
    }
}

fn form_assigned(op: Option<AssignOp>) -> SimpleForm
    ensures { result ≡ spec.form_assigned op }
{
    match op {
        Some(op) => SimpleForm::Assign(op),
        None => SimpleForm::Call,
    }
}

fn form_behind(symbol: Symbol) -> SimpleForm
    ensures { result ≡ spec.form_behind symbol }
{
    match symbol {
        Symbol::PlusPlus => SimpleForm::PostIncrement,
        Symbol::MinusMinus => SimpleForm::PostDecrement,
        other => form_assigned(assignment_of(other)),
    }
}

/// The form of the statement that the tokens begin, if it is an expression.
#[tactic(auto, unfolding(crate::specs::Forms::simple_form))]
pub(crate) fn simple_form(tokens: &[Token]) -> SimpleForm
    ensures { result ≡ spec.simple_form (kinds tokens.now) }
{
    match tokens {
        [
            Token {
                kind: Kind::Symbol(symbol),
                ..
            },
            ..
        ] => form_before(*symbol),
        [
            Token {
                kind: Kind::Identifier(_),
                ..
            },
            Token {
                kind: Kind::Symbol(symbol),
                ..
            },
            ..
        ] => form_behind(*symbol),
        _ => SimpleForm::Call,
    }
}

fn reserved_form(word: Reserved) -> StatementForm
    ensures { result ≡ spec.reserved_form word }
{
    if word == Reserved::If {
        StatementForm::If
    } else if word == Reserved::While {
        StatementForm::While
    } else if word == Reserved::For {
        StatementForm::For
    } else if word == Reserved::Break {
        StatementForm::Break
    } else if word == Reserved::Continue {
        StatementForm::Continue
    } else if word == Reserved::Return {
        StatementForm::Return
    } else {
        StatementForm::Simple
    }
}

fn symbol_form(symbol: Symbol) -> StatementForm
    ensures { result ≡ spec.symbol_form symbol }
{
    match symbol {
        Symbol::OpenBrace => StatementForm::Block,
        Symbol::Semicolon => StatementForm::Empty,
        _ => StatementForm::Simple,
    }
}

/// The form of the statement that the tokens begin.
#[tactic(auto, unfolding(crate::specs::Forms::statement_form))]
pub(crate) fn statement_form(tokens: &[Token]) -> StatementForm
    ensures { result ≡ spec.statement_form (kinds tokens.now) }
{
    match tokens {
        [
            Token {
                kind: Kind::Reserved(word),
                ..
            },
            ..
        ] => reserved_form(*word),
        [
            Token {
                kind: Kind::Symbol(symbol),
                ..
            },
            ..
        ] => symbol_form(*symbol),
        _ => StatementForm::Simple,
    }
}
