//! A body whose end is reached has no result.

ghost use Rattle.ending_bodies.specs.Laws.{BodiesComplete};

use resolved_constants::tests_are_kept;
use typed_bodies::{expressions_are_typed, parts_are_typed, parts_stay, wholes_are_typed};

/// Where no rule has a finding in a class, a body whose end is reached, as it is resolved, is one of a method without
/// result: wherever what is resolved completes normally, the end of what is written can be reached (JLS 14.22). It does
/// nothing when it runs.
pub fn bodies_complete()
    ensures { BodiesComplete }
{
    expressions_are_typed();
    wholes_are_typed();
    parts_are_typed();
    parts_stay();
    tests_are_kept();
}
