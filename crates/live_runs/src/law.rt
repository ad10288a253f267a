//! The laws of runs with their live variables alone, and of what tasks carry.

ghost use Rattle.live_runs.specs.Alike.{LiveVariablesAreEnough};
ghost use Rattle.live_runs.specs.Items.{CutGraphsCarryLive, FramesHaveWhatIsCarried, CarriedIsEnough, ItemsDoAsWholeFrames};
ghost use Rattle.live_runs.specs.Small.{SmallRuns};

/// Where two frames stand at one instruction of code with the same stack and turns, and agree on each variable that
/// is live there, both runs end alike: with the same ending and state, and at last frames with the same stack and
/// turns that agree on what is live there, and behind a cut or a part on what is live behind it. Nothing that the
/// first frames agreed on is lost. It does nothing when it runs.
pub fn live_variables_are_enough()
    ensures { LiveVariablesAreEnough }
{}

/// Each task of a cut graph but a start carries what is live at its first instruction, and no others. Each frame of its
/// method has a value for each of these. An item that carries the values of a whole frame, be it work, a visit or the
/// parts of a join, gives what the run gives from that frame at the task's first instruction: the same item, part or
/// result, and the same state. So it is on a small graph, by hand. It does nothing when it runs.
pub fn what_tasks_carry_is_enough()
    ensures cut { CutGraphsCarryLive }
    ensures frames { FramesHaveWhatIsCarried }
    ensures runs { CarriedIsEnough }
    ensures items { ItemsDoAsWholeFrames }
    ensures small { SmallRuns }
{}
