//! What calls give that do not interleave.

ghost use Rattle.early_plain.specs.Serial.{FirstArePlain, SerialIsPlain};

/// The law that a legal history in which calls do not interleave gives the results of plain Java, for
/// every class and every list of statements that has a meaning.
pub fn serial_is_plain()
    ensures plain { SerialIsPlain }
    ensures first { FirstArePlain }
{}
