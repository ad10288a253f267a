//! What the rules on annotations rest on.

ghost use Rattle.annotations.specs.Laws.{PassesEachToken};

/// The walk by which the rules are stated passes each token once: behind an expression, a statement, a
/// member or another part it is as many tokens further as the part has, and behind the last member it
/// has passed all but the closing brace.
///
/// A finding names a token by the number that the walk has come to. So no part that was passed before it
/// shifts that number from the token that the finding speaks of.
pub fn passes_each_token()
    ensures { PassesEachToken }
{}
