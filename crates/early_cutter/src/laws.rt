//! What holds of the graph of a class of the straight form, and of every run of it.

ghost use Rattle.std.specs.Prelude.{ℕ};
ghost use Rattle.early_forms.specs.declared.straight.StraightClass.{StraightClass};
ghost use Rattle.early_forms.specs.Names.{IsProper};
ghost use Rattle.early_forms.specs.Trees.{class_tree};
ghost use Rattle.agreement.specs.Simulation.{Simulation};
ghost use Rattle.early_cutter.specs.Cutting.{graph_of};
ghost use Rattle.early_plain.specs.Fits.{CallFits};
ghost use Rattle.early_cutter.specs.Agrees.{Agrees};
ghost use Rattle.early_cutter.specs.Runs.{EveryRunAgrees, EveryRunRunsAgain, EveryRunKeepsItsSteps, PlainRunsInTurn, EveryCallIsSafe, SerialRunsArePlain, OrderedRunsArePlain};

use early_plain::serial_is_plain;

/// Each item does in the graph what one step of the annotated source does, for every number of slots.
pub fn graph_simulates()
    ensures { (class : StraightClass) (slots : ℕ) → IsProper class
        → (let graph = graph_of class in
        Simulation (class_tree class) graph slots (CallFits class) (Agrees class.fields graph slots)) }
{}

/// Every schedule gives a history that is legal for the annotated source, with its outcomes, one for
/// each call.
pub fn every_run_agrees()
    ensures { EveryRunAgrees }
{}

/// Every run is run again by the events that take what it took: each is done, the history is the
/// same, and so are the results.
pub fn every_run_runs_again()
    ensures { EveryRunRunsAgain }
{}

/// Every run keeps an item for each step of its history, and fewer than 2 ^ 64.
pub fn every_run_keeps_its_steps()
    ensures { EveryRunKeepsItsSteps }
{}

/// Without events calls run one after the other.
pub fn plain_runs_in_turn()
    ensures { PlainRunsInTurn }
{}

/// No call of a class of the straight form goes wrong in its graph.
pub fn every_call_is_safe()
    ensures { EveryCallIsSafe }
{}

/// Where calls do not interleave, their results are those of plain Java.
pub fn serial_runs_are_plain()
    ensures { SerialRunsArePlain }
{
    serial_is_plain();
}

/// Without events the results are those of plain Java, in the order of the calls.
pub fn ordered_runs_are_plain()
    ensures { OrderedRunsArePlain }
{
    serial_is_plain();
}
