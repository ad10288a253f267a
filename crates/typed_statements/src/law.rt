//! The statements of accepted classes are typed before their blocks are marked.

ghost use Rattle.typed_statements.specs.Laws.{StatementsGo};

use typed_bodies::{expressions_are_typed, parts_are_typed, parts_stay, wholes_are_typed};

/// Where neither the rules on types nor those on annotations find anything in the statements of a method, what is
/// read of them is typed, before its blocks are marked: in each standing in which the variables in scope have values,
/// and what was gathered is of the type of the local that waits for it. It does nothing when it runs.
pub fn statements_are_typed()
    ensures { StatementsGo }
{
    expressions_are_typed();
    wholes_are_typed();
    parts_are_typed();
    parts_stay();
}
