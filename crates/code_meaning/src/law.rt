//! The laws of the code of expressions, statements and bodies.

ghost use Rattle.code_meaning.specs.Calling.{CallsMeanTheirCode};
ghost use Rattle.code_meaning.specs.Cutting.{MarksAreCuts};
ghost use Rattle.code_meaning.specs.Entries.{EndsAreRuns, EntriesStandOnTheirCode, EntriesRest};
ghost use Rattle.code_meaning.specs.Evaluating.{ExpressionsGiveTheirValues};
ghost use Rattle.code_meaning.specs.Following.{StepsKeepStanding, SourcesStand};
ghost use Rattle.code_meaning.specs.Foreseen.{CompletionsAreForeseen};
ghost use Rattle.code_meaning.specs.Laid.{MoreFuelIsTheSame};
ghost use Rattle.code_meaning.specs.Placed.{MarkedArePlaced};
ghost use Rattle.code_meaning.specs.Running.{StatementsAreAsLong, PlainStatementsDoWhatTheyMean};
ghost use Rattle.code_meaning.specs.Standing.{RestsStand, BlocksRest, VisitsBring, JoinsRest};
ghost use Rattle.code_meaning.specs.Stepping.{RunsRestWhereTheSourceRests};
ghost use Rattle.code_meaning.specs.Steps.{BlocksRun, VisitsBringTheirParts, JoinsGoOn};

/// A run that has ended ends so with more fuel, and is the code's run. The code of an expression gives the
/// expression's value, or ends as its evaluation ends. The code of a statement is as long as its size says;
/// where no block begins in the statement, the code goes to where the statement completes, and leaves the
/// variables, the turns and the fields that it leaves. Such a statement completes normally only where it can
/// by its form. Calls of the helper and merge methods of a typed class give on flat code what they give in the
/// source. Where the source rests at a mark, the code ends at the cut of its task, with the key on its stack.
/// From one rest to the next, where the code of what is left to run is laid and agrees with the source, its
/// run ends in so many steps where the source rests: behind the cut stands the block or the visit, and behind
/// that what is then left. So behind the cut of a block the code goes on to the next rest on the part that the
/// block works on, and a call goes on so with what its visits brought; a visit ends with what its instance
/// answers. The steps of an entry method of a typed class stand on its code, and that comes from its start to
/// where the call rests first. It does nothing when it runs.
pub fn flat_code_means_its_source()
    ensures fuel { MoreFuelIsTheSame }
    ensures ends { EndsAreRuns }
    ensures expressions { ExpressionsGiveTheirValues }
    ensures sizes { StatementsAreAsLong }
    ensures statements { PlainStatementsDoWhatTheyMean }
    ensures completions { CompletionsAreForeseen }
    ensures calls { CallsMeanTheirCode }
    ensures marks { MarksAreCuts }
    ensures runs { RunsRestWhereTheSourceRests }
    ensures blocks { BlocksRun }
    ensures visits { VisitsBringTheirParts }
    ensures joins { JoinsGoOn }
    ensures entries { EntriesStandOnTheirCode }
    ensures starts { EntriesRest }
{}

/// Between its steps a call of an entry method of a typed class stands at its code, before the cut of a block
/// or of visits, with what is then left to run behind it. Where a call rests it stands so, and from there on
/// each legal step is done by its code: a block on the part that it works on, a visit, and the way on behind a
/// join. So wherever the steps of the source lead from its start, all its calls stand at their code, and each
/// field has states of its class. The blocks of a body in which nothing is marked yet are marked only where
/// steps come to. It does nothing when it runs.
pub fn calls_stand_at_their_code()
    ensures rests { RestsStand }
    ensures blocks { BlocksRest }
    ensures visits { VisitsBring }
    ensures joins { JoinsRest }
    ensures steps { StepsKeepStanding }
    ensures sources { SourcesStand }
    ensures marked { MarkedArePlaced }
{}
