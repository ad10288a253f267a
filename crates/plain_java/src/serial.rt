//! What calls give that do not interleave.

ghost use Rattle.plain_java.specs.SerialRuns.{SerialIsPlain};

/// The law that a legal history in which calls do not interleave gives the outcomes of plain Java, for every program
/// without partial fields and every list of calls: the first calls, where they have ended, have ended as whole calls
/// do that run one after the other over whole fields (JLS 14, 15), whatever becomes of the calls beyond.
pub fn serial_is_plain()
    ensures plain { SerialIsPlain }
{}
