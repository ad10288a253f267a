//! What holds of the statements that a method is resolved to, before marks stand in them.

ghost use Rattle.resolved_bodies.specs.Laws.{HeadersAreKept};

/// Where the rules on annotations find nothing in a method, no access stands in the header of a loop of what
/// it is resolved to. The walk of the rules and the reading pass the same names. It does nothing when it runs.
pub fn headers_are_kept()
    ensures { HeadersAreKept }
{}
