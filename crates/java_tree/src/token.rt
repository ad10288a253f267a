//! The tokens of Java's lexical grammar (JLS 3), with their places.

ghost use Rattle.std.specs.Prelude.{◌≡◌};
ghost use Rattle.java_tree.specs.Texts.{reserved_text, symbol_text};

use sdg_base::Name;
use sqlite_items::Items;

/// A place in a text. Lines and columns count from 1, columns in bytes.
#[derive(Clone, Copy, Debug, PartialEq, Eq, PartialOrd, Ord)]
pub struct Place {
    pub line: u32,
    pub column: u32,
}

/// A word that is no identifier: a keyword, `_`, or a literal `true`, `false` or `null` (JLS 3.9,
/// 3.10.3, 3.10.8).
#[derive(Clone, Copy, Debug, PartialEq, Eq)]
pub enum Reserved {
    Abstract,
    Assert,
    Boolean,
    Break,
    Byte,
    Case,
    Catch,
    Char,
    Class,
    Const,
    Continue,
    Default,
    Do,
    Double,
    Else,
    Enum,
    Extends,
    Final,
    Finally,
    Float,
    For,
    Goto,
    If,
    Implements,
    Import,
    InstanceOf,
    Int,
    Interface,
    Long,
    Native,
    New,
    Package,
    Private,
    Protected,
    Public,
    Return,
    Short,
    Static,
    StrictFp,
    Super,
    Switch,
    Synchronized,
    This,
    Throw,
    Throws,
    Transient,
    Try,
    Void,
    Volatile,
    While,
    Underscore,
    True,
    False,
    Null,
}

/// A separator or an operator (JLS 3.11, 3.12).
#[derive(Clone, Copy, Debug, PartialEq, Eq)]
pub enum Symbol {
    OpenParen,
    CloseParen,
    OpenBrace,
    CloseBrace,
    OpenBracket,
    CloseBracket,
    Semicolon,
    Comma,
    Dot,
    At,
    Assign,
    EqualEqual,
    NotEqual,
    Less,
    LessEqual,
    Greater,
    GreaterEqual,
    Plus,
    Minus,
    Star,
    Slash,
    Percent,
    PlusPlus,
    MinusMinus,
    Ampersand,
    Bar,
    Caret,
    Tilde,
    Bang,
    AndAnd,
    BarBar,
    ShiftLeft,
    ShiftRight,
    ShiftRightUnsigned,
    Question,
    Colon,
    PlusAssign,
    MinusAssign,
    StarAssign,
    SlashAssign,
    PercentAssign,
    AmpersandAssign,
    BarAssign,
    CaretAssign,
    ShiftLeftAssign,
    ShiftRightAssign,
    ShiftRightUnsignedAssign,
}

/// What a token is. Of a number, `digits` is what its digits write, `decimal` says whether it is
/// written in base 10, and `long` whether it has the suffix (JLS 3.10.1).
#[derive(Debug, Drop)]
pub enum Kind {
    Identifier(Name),
    Number {
        digits: u64,
        decimal: bool,
        long: bool,
    },
    Reserved(Reserved),
    Symbol(Symbol),
}

/// A token and where it begins.
#[derive(Debug, Drop)]
pub struct Token {
    pub kind: Kind,
    pub place: Place,
}

/// The tokens of a text, and the place after its last byte.
#[derive(Debug, Drop)]
pub struct Tokens {
    pub list: Items<Token>,
    pub end: Place,
}

impl Reserved {
    /// The letters of the word.
    pub fn text(self) -> &'static str
        ensures { result.now ≡ reserved_text self }
    {
        match self {
            Reserved::Abstract => "abstract",
            Reserved::Assert => "assert",
            Reserved::Boolean => "boolean",
            Reserved::Break => "break",
            Reserved::Byte => "byte",
            Reserved::Case => "case",
            Reserved::Catch => "catch",
            Reserved::Char => "char",
            Reserved::Class => "class",
            Reserved::Const => "const",
            Reserved::Continue => "continue",
            Reserved::Default => "default",
            Reserved::Do => "do",
            Reserved::Double => "double",
            Reserved::Else => "else",
            Reserved::Enum => "enum",
            Reserved::Extends => "extends",
            Reserved::Final => "final",
            Reserved::Finally => "finally",
            Reserved::Float => "float",
            Reserved::For => "for",
            Reserved::Goto => "goto",
            Reserved::If => "if",
            Reserved::Implements => "implements",
            Reserved::Import => "import",
            Reserved::InstanceOf => "instanceof",
            Reserved::Int => "int",
            Reserved::Interface => "interface",
            Reserved::Long => "long",
            Reserved::Native => "native",
            Reserved::New => "new",
            Reserved::Package => "package",
            Reserved::Private => "private",
            Reserved::Protected => "protected",
            Reserved::Public => "public",
            Reserved::Return => "return",
            Reserved::Short => "short",
            Reserved::Static => "static",
            Reserved::StrictFp => "strictfp",
            Reserved::Super => "super",
            Reserved::Switch => "switch",
            Reserved::Synchronized => "synchronized",
            Reserved::This => "this",
            Reserved::Throw => "throw",
            Reserved::Throws => "throws",
            Reserved::Transient => "transient",
            Reserved::Try => "try",
            Reserved::Void => "void",
            Reserved::Volatile => "volatile",
            Reserved::While => "while",
            Reserved::Underscore => "_",
            Reserved::True => "true",
            Reserved::False => "false",
            Reserved::Null => "null",
        }
    }
}

impl Symbol {
    /// The characters of the separator or operator.
    pub fn text(self) -> &'static str
        ensures { result.now ≡ symbol_text self }
    {
        match self {
            Symbol::OpenParen => "(",
            Symbol::CloseParen => ")",
            Symbol::OpenBrace => "{",
            Symbol::CloseBrace => "}",
            Symbol::OpenBracket => "[",
            Symbol::CloseBracket => "]",
            Symbol::Semicolon => ";",
            Symbol::Comma => ",",
            Symbol::Dot => ".",
            Symbol::At => "@",
            Symbol::Assign => "=",
            Symbol::EqualEqual => "==",
            Symbol::NotEqual => "!=",
            Symbol::Less => "<",
            Symbol::LessEqual => "<=",
            Symbol::Greater => ">",
            Symbol::GreaterEqual => ">=",
            Symbol::Plus => "+",
            Symbol::Minus => "-",
            Symbol::Star => "*",
            Symbol::Slash => "/",
            Symbol::Percent => "%",
            Symbol::PlusPlus => "++",
            Symbol::MinusMinus => "--",
            Symbol::Ampersand => "&",
            Symbol::Bar => "|",
            Symbol::Caret => "^",
            Symbol::Tilde => "~",
            Symbol::Bang => "!",
            Symbol::AndAnd => "&&",
            Symbol::BarBar => "||",
            Symbol::ShiftLeft => "<<",
            Symbol::ShiftRight => ">>",
            Symbol::ShiftRightUnsigned => ">>>",
            Symbol::Question => "?",
            Symbol::Colon => ":",
            Symbol::PlusAssign => "+=",
            Symbol::MinusAssign => "-=",
            Symbol::StarAssign => "*=",
            Symbol::SlashAssign => "/=",
            Symbol::PercentAssign => "%=",
            Symbol::AmpersandAssign => "&=",
            Symbol::BarAssign => "|=",
            Symbol::CaretAssign => "^=",
            Symbol::ShiftLeftAssign => "<<=",
            Symbol::ShiftRightAssign => ">>=",
            Symbol::ShiftRightUnsignedAssign => ">>>=",
        }
    }
}
