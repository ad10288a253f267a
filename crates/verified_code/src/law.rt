//! The laws of typed classes.

ghost use Rattle.verified_code.specs.Sound.{TypedClassesAreSound};
ghost use Rattle.verified_code.specs.Verified.{TypedClassesAreVerified};

/// The code of a class whose bodies are typed is sound, with whatever tasks: it has few fields and
/// methods with different names, each instruction stands in a method of its kind, helpers and merge
/// methods read nothing but their parameters and what they wrote, no method calls itself through
/// others, and every way back spends a turn. It does nothing when it runs.
pub fn typed_classes_are_sound()
    ensures { TypedClassesAreSound }
{}

/// The graph that is cut of a class whose bodies are typed, with its live variables, is verified: each number names something,
/// each task stands where its kind wants it, each instruction has one stack of types on all ways to it and suits the tasks
/// that come to it, each visit comes to one part, each task carries what it needs, and every way back and every call spends
/// a turn. It does nothing when it runs.
pub fn typed_classes_are_verified()
    ensures { TypedClassesAreVerified }
{}
