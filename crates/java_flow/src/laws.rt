//! What the walk over a class's text passes of it.

ghost use Rattle.java_flow.specs.Laws.{PassesEachToken};

/// The walk passes each token once: of an expression, a statement, a member and each other part it
/// takes as many places as the part has tokens, and of a class all but the closing brace's, wherever
/// it begins and whatever is known there. A finding names the next place where it is noted, so no part
/// that was passed before it shifts that place from the token that the finding speaks of.
pub fn passes_each_token()
    ensures { PassesEachToken }
{}
