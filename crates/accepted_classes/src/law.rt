//! What an accepted class is beside the statements of its bodies.

ghost use Rattle.accepted_classes.specs.Beginning.{BodiesBeginWithParameters};
ghost use Rattle.accepted_classes.specs.Known.{MembersAreKnown};
ghost use Rattle.accepted_classes.specs.Laws.{SpelledClassesHaveIdentifiers, ClassesAreNamed, ClassesAreResolvedWhole, BodiesHaveParameters, NoMethodCallsItself, ClassesOfTypedStatementsAreTyped};

/// The fields and methods of a class whose tokens a text spells are named by Java identifiers. It does nothing when it runs.
pub fn spelled_classes_have_identifiers()
    ensures { SpelledClassesHaveIdentifiers }
{}

/// A class in which the rules on types find nothing has at most 64 fields and 256 methods, and no two fields or methods of one
/// name. It does nothing when it runs.
pub fn classes_are_named()
    ensures { ClassesAreNamed }
{}

/// A class is resolved to as many fields and methods as it has. It does nothing when it runs.
pub fn classes_are_resolved_whole()
    ensures { ClassesAreResolvedWhole }
{}

/// In a class in which neither the rules on types nor those on annotations find anything, each body is of its method's kind and takes
/// its parameters, which are its first variables, of the types that the rules find; a merge method has one, whose items they are. It
/// does nothing when it runs.
pub fn bodies_have_parameters()
    ensures { BodiesHaveParameters }
{}

/// In a class in which the rules on types find nothing, no method that its bodies are resolved to calls itself, neither by a call
/// of its own nor through other methods: each call of a body, with the marks of its blocks, is one that the rules note, and they
/// refuse the call that closes a cycle. It does nothing when it runs.
pub fn no_method_calls_itself()
    ensures { NoMethodCallsItself }
{}

/// A class whose tokens a text spells, and in which neither the rules on types nor those on annotations find anything, is typed
/// where the statements of its bodies are. It does nothing when it runs.
pub fn classes_of_typed_statements_are_typed()
    ensures { ClassesOfTypedStatementsAreTyped }
{}

/// In a class in which neither the rules on types nor those on annotations find anything, each name by which they know a field is
/// resolved to the number and the class that they know, and held by its class and kind; and each name of a method to a method of the
/// same number, whose parameters, kind and result names, callers and both kinds of rules take for the same. It does nothing when it
/// runs.
pub fn members_are_known()
    ensures { MembersAreKnown }
{}

/// In a class in which neither the rules on types nor those on annotations find anything, the names in scope where a body begins are
/// those of its parameters, which are variables of the body with the types that the rules find; there both kinds of rules know no
/// local, and the parameters brought no type, no name and no access. It does nothing when it runs.
pub fn bodies_begin_with_parameters()
    ensures { BodiesBeginWithParameters }
{}
