//! White space (JLS 3.6) and comments (JLS 3.7).

ghost use Rattle.std.specs.Prelude.{◌≡◌, ◌≤◌, IfSome, length};
ghost use Rattle.java_lexer.specs.Reading as spec;

/// How many bytes there are up to the end of the first `*/`.
pub fn closed_len(text: &[u8]) -> Option<usize>
    ensures value { result ≡ spec.closed_from 0 text.now }
    ensures within { IfSome result (λ len. len ≤ length text.now) }
{
    let mut len = 0;
    let mut rest = text;
    loop {
        match rest {
            [] => return None,
            [b'*', b'/', ..] => return Some(len + 2),
            [_, after @ ..] => {
                len += 1;
                rest = after;
            }
        }
    }
}
