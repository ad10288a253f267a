//! What holds of what is resolved of an accepted class.

ghost use Rattle.typed_bodies.specs.Laws.{ExpressionsAreTyped};
ghost use Rattle.typed_bodies.specs.PartLaws.{PartsAreTyped};
ghost use Rattle.typed_bodies.specs.StayLaws.{PartsStay};
ghost use Rattle.typed_bodies.specs.WholeLaws.{WholesAreTyped};

/// An expression in which the rules on types find nothing is resolved to one of the type that they find.
/// It is so where each name stands for a value by itself, so that no state is reached and nothing is
/// merged; then it reads only variables of names that are in scope. A call that is a whole value may be
/// one of a field's method. Where the rules on annotations find nothing in a part of an expression, its
/// names stand for values by themselves. As many types and names are read as the walk of the rules adds, so that what
/// stands behind is read right as well. It does nothing when it runs.
pub fn expressions_are_typed()
    ensures { ExpressionsAreTyped }
{}

/// A value in which no rule has a finding, and that fits where it goes, is read as a statement that is typed
/// before marks stand in it, from each standing that has a value for each variable in scope and has gathered
/// what waits; so is a call that stands alone. It is an assignment, a `return`, a write of an element, an
/// access to a field by the key that its site says, or what is gathered of each instance, and a merge takes
/// what was gathered. It reads the sites that the rules add, and no more. It does nothing when it runs.
pub fn wholes_are_typed()
    ensures { WholesAreTyped }
{}

/// A local without initialiser starts with a value of its type. A condition in which no rule has a finding is
/// a truth value that reads no site, where each variable in scope has a value. A compound assignment of a
/// value that fits its operator gives the variable a value of its own type, and so do `++` and `--` on a
/// number. It does nothing when it runs.
pub fn parts_are_typed()
    ensures { PartsAreTyped }
{}

/// Whatever the rules find: where nothing was found behind an expression, a value or a call, nothing was
/// found before it, and none of them declares a variable as it is read. It does nothing when it runs.
pub fn parts_stay()
    ensures { PartsStay }
{}
