//! The reserved words and the symbols, found by their texts.

ghost use Rattle.std.specs.Prelude.{◌≡◌, ◌≢◌, true, nat_eq, MatchOption};
ghost use Rattle.std.specs.List.{find, starts_with};
ghost use Rattle.std.specs.Str.{bytes_eq};
ghost use Rattle.java_tree.specs.Texts.{reserved_text, symbol_text};
ghost use Rattle.java_tree.specs.declared.token.Symbol.{Symbol};
ghost use Rattle.java_lexer.specs.Reading as spec;

use java_tree::{Reserved, Symbol};

/// Each reserved word once.
const RESERVED: [Reserved; 54] = [
    Reserved::Abstract,
    Reserved::Assert,
    Reserved::Boolean,
    Reserved::Break,
    Reserved::Byte,
    Reserved::Case,
    Reserved::Catch,
    Reserved::Char,
    Reserved::Class,
    Reserved::Const,
    Reserved::Continue,
    Reserved::Default,
    Reserved::Do,
    Reserved::Double,
    Reserved::Else,
    Reserved::Enum,
    Reserved::Extends,
    Reserved::Final,
    Reserved::Finally,
    Reserved::Float,
    Reserved::For,
    Reserved::Goto,
    Reserved::If,
    Reserved::Implements,
    Reserved::Import,
    Reserved::InstanceOf,
    Reserved::Int,
    Reserved::Interface,
    Reserved::Long,
    Reserved::Native,
    Reserved::New,
    Reserved::Package,
    Reserved::Private,
    Reserved::Protected,
    Reserved::Public,
    Reserved::Return,
    Reserved::Short,
    Reserved::Static,
    Reserved::StrictFp,
    Reserved::Super,
    Reserved::Switch,
    Reserved::Synchronized,
    Reserved::This,
    Reserved::Throw,
    Reserved::Throws,
    Reserved::Transient,
    Reserved::Try,
    Reserved::Void,
    Reserved::Volatile,
    Reserved::While,
    Reserved::Underscore,
    Reserved::True,
    Reserved::False,
    Reserved::Null,
];

/// Each symbol once.
const SYMBOLS: [Symbol; 47] = [
    Symbol::OpenParen,
    Symbol::CloseParen,
    Symbol::OpenBrace,
    Symbol::CloseBrace,
    Symbol::OpenBracket,
    Symbol::CloseBracket,
    Symbol::Semicolon,
    Symbol::Comma,
    Symbol::Dot,
    Symbol::At,
    Symbol::Assign,
    Symbol::EqualEqual,
    Symbol::NotEqual,
    Symbol::Less,
    Symbol::LessEqual,
    Symbol::Greater,
    Symbol::GreaterEqual,
    Symbol::Plus,
    Symbol::Minus,
    Symbol::Star,
    Symbol::Slash,
    Symbol::Percent,
    Symbol::PlusPlus,
    Symbol::MinusMinus,
    Symbol::Ampersand,
    Symbol::Bar,
    Symbol::Caret,
    Symbol::Tilde,
    Symbol::Bang,
    Symbol::AndAnd,
    Symbol::BarBar,
    Symbol::ShiftLeft,
    Symbol::ShiftRight,
    Symbol::ShiftRightUnsigned,
    Symbol::Question,
    Symbol::Colon,
    Symbol::PlusAssign,
    Symbol::MinusAssign,
    Symbol::StarAssign,
    Symbol::SlashAssign,
    Symbol::PercentAssign,
    Symbol::AmpersandAssign,
    Symbol::BarAssign,
    Symbol::CaretAssign,
    Symbol::ShiftLeftAssign,
    Symbol::ShiftRightAssign,
    Symbol::ShiftRightUnsignedAssign,
];

fn find_word(table: &[Reserved], text: &[u8]) -> Option<Reserved>
    ensures { result ≡ find (λ w. bytes_eq (reserved_text w) text.now) table.now }
{
    for word in table {
        if word.text().as_bytes() == text {
            return Some(*word);
        }
    }
    None
}

/// The reserved word that is spelled so.
#[tactic(auto, unfolding(crate::specs::Reading::reserved_of))]
pub fn reserved_of(text: &[u8]) -> Option<Reserved>
    ensures { result ≡ spec.reserved_of text.now }
{
    find_word(&RESERVED, text)
}

fn begins_with(text: &[u8], symbol: Symbol) -> bool
    ensures { result ≡ starts_with nat_eq text.now (symbol_text symbol) }
{
    text.starts_with(symbol.text().as_bytes())
}

fn is_longer(symbol: Symbol, than: Option<Symbol>) -> bool
    ensures { result ≡ spec.is_longer symbol than }
{
    match than {
        None => true,
        Some(other) => other.text().len() < symbol.text().len(),
    }
}

fn longest_among(table: &[Symbol], text: &[u8]) -> Option<Symbol>
    ensures { result ≡ spec.longest_from None text.now table.now }
{
    let mut longest = None;
    for symbol in table {
        if begins_with(text, *symbol) && is_longer(*symbol, longest) {
            longest = Some(*symbol);
        }
    }
    longest
}

/// The longest symbol at the front of a text.
pub fn longest_symbol(text: &[u8]) -> Option<Symbol>
    ensures { MatchOption result
        ((s : Symbol) → starts_with nat_eq text.now (symbol_text s) ≢ true)
        (λ s. spec.IsLongest s text.now) }
{
    longest_among(&SYMBOLS, text)
}
