//! Places in a text.

ghost use Rattle.std.specs.Prelude.{◌≡◌, ◌<◌, ◌≤◌, ◌+◌, ◌^◌, length};
ghost use Rattle.java_lexer.specs.Places.{place_after};
ghost use Rattle.java_lexer.specs.Places as spec;
ghost use Rattle.java_lexer.specs.Reading.{past_byte};

use java_tree::Place;

fn next_line(place: Place) -> Place
    requires { place.line + 1 < 2 ^ 32 }
    ensures { result ≡ spec.next_line place }
{
    Place {
        line: place.line + 1,
        column: 1,
    }
}

/// The place after one byte, which the bytes `after` follow.
fn past_one(place: Place, byte: u8, after: &[u8]) -> Place
    requires line { place.line + 1 < 2 ^ 32 }
    requires column { place.column + 1 < 2 ^ 32 }
    ensures value { result ≡ past_byte place byte after.now }
    ensures line { result.line ≤ place.line + 1 }
    ensures column { result.column ≤ place.column + 1 }
{
    match (byte, after) {
        (b'\n', _) => next_line(place),
        (b'\r', [b'\n', ..]) => place,
        (b'\r', _) => next_line(place),
        _ => Place {
            line: place.line,
            column: place.column + 1,
        },
    }
}

/// The place after these bytes.
pub fn place_past(mut place: Place, bytes: &[u8]) -> Place
    requires line { place.line + length bytes.now < 2 ^ 32 }
    requires column { place.column + length bytes.now < 2 ^ 32 }
    ensures value { result ≡ place_after place bytes.now }
    ensures line { result.line ≤ place.line + length bytes.now }
    ensures column { result.column ≤ place.column + length bytes.now }
{
    let mut rest = bytes;
    loop {
        match rest {
            [] => return place,
            [byte, after @ ..] => {
                place = past_one(place, *byte, after);
                rest = after;
            }
        }
    }
}
