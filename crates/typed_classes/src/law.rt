//! Accepted classes are typed.

ghost use Rattle.typed_classes.specs.Laws.{AcceptedClassesAreTyped, AcceptedEntriesArePlaced};

use code_meaning::calls_stand_at_their_code;
use ending_bodies::bodies_complete;
use marked_bodies::marked_bodies_stay_typed;
use resolved_bodies::headers_are_kept;
use walked_bodies::bodies_are_walked;

/// A class in which no rule has a finding is typed: the statements of its bodies with their marks, the code
/// that they have, its names, its numbers and its calls. In the bodies of its entry methods blocks are marked
/// only where steps come to. It does nothing when it runs.
pub fn accepted_classes_are_typed()
    ensures typed { AcceptedClassesAreTyped }
    ensures placed { AcceptedEntriesArePlaced }
{
    bodies_are_walked();
    headers_are_kept();
    bodies_complete();
    marked_bodies_stay_typed();
    calls_stand_at_their_code();
}
