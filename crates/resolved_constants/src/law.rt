//! What is resolved of expressions is constant as they are.

ghost use Rattle.resolved_constants.specs.Laws.{ConstantsAreKept, TestsAreKept};

use typed_bodies::expressions_are_typed;

/// Where the rules on types find nothing in an expression that the rules on flow know to be constant, what is resolved
/// of it has its value, or throws as it does, and its type is the one that the rules on types find. What is resolved of
/// any other is no constant. It does nothing when it runs.
pub fn constants_are_kept()
    ensures { ConstantsAreKept }
{
    expressions_are_typed();
}

/// Where the rules on types find nothing in the test of a loop, the loop goes on by what is resolved of it exactly where
/// the rules on flow know it to be `true`. It does nothing when it runs.
pub fn tests_are_kept()
    ensures { TestsAreKept }
{
    constants_are_kept();
}
