//! What stands at the front of a text: white space, a comment or a token.

ghost use Rattle.std.specs.Prelude.{◌≡◌, ◌<◌, ◌≤◌, ◌||◌, ◌==◌, true, false, List, ℕ, length, codes, nat_eq, IfOk, IfErr};
ghost use Rattle.std.specs.Char.{is_ascii_digit};
ghost use Rattle.std.specs.List.{starts_with};
ghost use Rattle.java_lexer.specs.Spelling.{begins, begins_comment, is_white, is_word_byte};
ghost use Rattle.java_lexer.specs.Reading as spec;
ghost use Rattle.java_lexer.specs.Reading.{Stands, IsFaulty};
ghost use Rattle.java_lexer.specs.declared.element.Fault.TheVariants.{Memory};

use crate::number::number_of;
use crate::run::{Class, is_in, run_len};
use crate::space::closed_len;
use crate::table::{longest_symbol, reserved_of};
use java_tree::Kind;
use sdg_base::Name;
use std::alloc::{AllocError, Global};

/// What a text is made of (JLS 3.5).
#[derive(Debug, Drop)]
pub enum Element {
    /// White space, or a comment.
    Space,
    Token(Kind),
}

/// Why no element was found.
#[derive(Clone, Copy, Debug)]
pub enum Fault {
    BadByte,
    BadNumber,
    OpenComment,
    Memory,
}

impl From<AllocError> for Fault {
    ghost from_gives = { λ _ e. e ≡ Memory };

    fn from(_error: AllocError) -> Fault {
        Fault::Memory
    }
}

/// An element, and of how many bytes it is.
pub type Front = (Element, usize);

fn is_white(byte: u8) -> bool
    ensures { result ≡ is_white byte }
{
    matches!(byte, b' ' | b'\t' | b'\x0c' | b'\n' | b'\r')
}

/// The white space at the front of a text.
fn white_space(text: &[u8]) -> Front
    requires { begins is_white text.now ≡ true }
    ensures { Stands result.0 result.1 text.now }
{
    if text.starts_with(b"\r\n") {
        (Element::Space, 2)
    } else {
        (Element::Space, 1)
    }
}

/// The comment at the front of a text, up to the end of its line.
fn line_comment(text: &[u8]) -> Front
    requires front { starts_with nat_eq text.now (codes "//") ≡ true }
    requires long { 2 ≤ length text.now }
    ensures { Stands result.0 result.1 text.now }
{
    let (_, body) = text.split_at(2);
    (Element::Space, 2 + run_len(Class::Line, body))
}

/// The comment at the front of a text, up to its first `*/`.
fn comment(text: &[u8]) -> Result<Front, Fault>
    requires front { starts_with nat_eq text.now (codes "/*") ≡ true }
    requires long { 2 ≤ length text.now }
    ensures found { IfOk result (λ t. Stands t.0 t.1 text.now) }
    ensures refused { IfErr result (λ fault. IsFaulty fault text.now) }
{
    let (_, body) = text.split_at(2);
    let Some(len) = closed_len(body) else {
        return Err(Fault::OpenComment);
    };
    Ok((Element::Space, 2 + len))
}

/// The number at the front of a text that begins with a digit.
fn number(text: &[u8]) -> Result<Front, Fault>
    requires { begins is_ascii_digit text.now ≡ true }
    ensures found { IfOk result (λ t. Stands t.0 t.1 text.now) }
    ensures refused { IfErr result (λ fault. IsFaulty fault text.now) }
{
    let len = run_len(Class::Number, text);
    let (run, _) = text.split_at(len);
    let Some(kind) = number_of(run) else {
        return Err(Fault::BadNumber);
    };
    Ok((Element::Token(kind), len))
}

/// What a word is, that is made of bytes of words and begins with no digit.
fn kind_of(alloc: Global, name: &[u8]) -> Result<Kind, AllocError>
    ensures { IfOk result (λ kind. kind ≡ spec.word_kind (spec.reserved_of name.now) name.now) }
{
    Ok(match reserved_of(name) {
        Some(reserved) => Kind::Reserved(reserved),
        None => Kind::Identifier(Name::from_slice(alloc, name)?),
    })
}

/// The word at the front of a text that begins with a byte of words and no digit.
fn word(alloc: Global, text: &[u8]) -> Result<Front, Fault>
    requires first { begins is_word_byte text.now ≡ true }
    requires no_digit { begins is_ascii_digit text.now ≡ false }
    ensures found { IfOk result (λ t. Stands t.0 t.1 text.now) }
    ensures refused { IfErr result (λ fault. fault ≡ Memory) }
{
    let len = run_len(Class::Word, text);
    let (name, _) = text.split_at(len);
    Ok((Element::Token(kind_of(alloc, name)?), len))
}

/// The symbol at the front of a text that begins with no other element.
fn symbol(text: &[u8]) -> Result<Front, Fault>
    requires some { 0 < length text.now }
    requires no_space { begins is_white text.now ≡ false }
    requires no_word { begins is_word_byte text.now ≡ false }
    requires no_comment { begins_comment text.now ≡ false }
    ensures found { IfOk result (λ t. Stands t.0 t.1 text.now) }
    ensures refused { IfErr result (λ fault. IsFaulty fault text.now) }
{
    let Some(symbol) = longest_symbol(text) else {
        return Err(Fault::BadByte);
    };
    Ok((Element::Token(Kind::Symbol(symbol)), symbol.text().len()))
}

/// The element at the front of a text that is not empty.
pub fn first_element(alloc: Global, text: &[u8]) -> Result<Front, Fault>
    requires { 0 < length text.now }
    ensures found { IfOk result (λ t. Stands t.0 t.1 text.now) }
    ensures refused { IfErr result (λ fault. IsFaulty fault text.now) }
{
    let first = text[0];
    if is_white(first) {
        Ok(white_space(text))
    } else if text.starts_with(b"//") {
        Ok(line_comment(text))
    } else if text.starts_with(b"/*") {
        comment(text)
    } else if first.is_ascii_digit() {
        number(text)
    } else if is_in(Class::Word, first) {
        word(alloc, text)
    } else {
        symbol(text)
    }
}
