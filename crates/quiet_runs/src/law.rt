//! What is run outside of blocks knows nothing of the fields.

ghost use Rattle.quiet_runs.specs.Bodies.{TypedBodiesAreQuiet};
ghost use Rattle.quiet_runs.specs.Quiet.{BareStatementsKnowNoFields, QuietRunsKnowNoFields};

/// A statement without an access does on other fields what it does on these, and leaves them as they are. So does the
/// run of a call in which no access comes before the next mark: it comes to the same rest on other fields, with as
/// many instances to visit as these have, and behind these visits no access comes before a mark again. So begin the
/// bodies of entry methods of typed classes. It does nothing when it runs.
pub fn quiet_runs_know_no_fields()
    ensures statements { BareStatementsKnowNoFields }
    ensures runs { QuietRunsKnowNoFields }
    ensures bodies { TypedBodiesAreQuiet }
{}
