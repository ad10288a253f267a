//! Runs of bytes of one class.

ghost use Rattle.std.specs.Prelude.{◌≡◌, ◌≤◌, length};
ghost use Rattle.std.specs.List.{prefix_len};
ghost use Rattle.java_lexer.specs.Reading as spec;

/// The bytes of which a run is made.
#[derive(Clone, Copy, Debug)]
pub enum Class {
    /// The bytes of a line: neither LF nor CR.
    Line,
    /// The bytes of numbers: letters, digits and `_`.
    Number,
    /// The bytes of words: letters, digits, `_` and `$`.
    Word,
}

pub fn is_in(class: Class, byte: u8) -> bool
    ensures { result ≡ spec.is_in class byte }
{
    match class {
        Class::Line => !(byte == b'\n' || byte == b'\r'),
        Class::Number => byte.is_ascii_alphanumeric() || byte == b'_',
        Class::Word => byte.is_ascii_alphanumeric() || byte == b'_' || byte == b'$',
    }
}

/// How many bytes of the class a text begins with.
pub fn run_len(class: Class, text: &[u8]) -> usize
    ensures value { result ≡ prefix_len (spec.is_in class) text.now }
    ensures within { result ≤ length text.now }
{
    for (at, byte) in text.iter().enumerate() {
        if !is_in(class, *byte) {
            return at;
        }
    }
    text.len()
}
