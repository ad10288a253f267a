//! Every run of a call comes to a rest.

ghost use Rattle.resting_runs.specs.Resting.{EveryRunRests, RunsRestOnce};

/// From whatever is left to run of a call, and whatever its variables, turns and fields are, its run comes to
/// where the call rests or ends, and to one alone: each pass of a loop takes a turn, and all else makes what is
/// left shorter. It does nothing when it runs.
pub fn every_run_rests()
    ensures rests { EveryRunRests }
    ensures once { RunsRestOnce }
{}
