//! What marks keep of typed bodies.

ghost use Rattle.marked_bodies.specs.Laws.{MarkedBodiesStayTyped};

/// A body that is typed before marks stand in it is typed with its marks: each access stands in a block of its field, each
/// block begins with an access to a part of its field, and whether the body completes and which locals are read early
/// is as it was; and it calls no other methods than before. It does nothing when it runs.
pub fn marked_bodies_stay_typed()
    ensures { MarkedBodiesStayTyped }
{}
