//! What the rules on types rest on.

ghost use Rattle.java_types.specs.Laws.{FirstIsLeast, PassesEachToken, MethodsHaveTheirSignatures};

/// What is refused first of a list is one of the list, and none of the list is before it: by line, then
/// by column, then by rule. There is one unless the list is empty.
pub fn first_is_least()
    ensures { FirstIsLeast }
{}

/// The walk by which the rules are stated passes each token once: behind an expression, a statement, a
/// member or another part it is as many tokens further as the part has, and behind the last member it
/// has passed all but the closing brace.
///
/// A finding names a token by the number that the walk has come to. So no part that was passed before it
/// shifts that number from the token that the finding speaks of.
pub fn passes_each_token()
    ensures { PassesEachToken }
{}

/// The methods that expressions call behind a dot are those of the classes of state and of vectors, with
/// the parameters and the results that their signatures give.
pub fn methods_have_their_signatures()
    ensures { MethodsHaveTheirSignatures }
{}
