//! A run of a class's graph, and its report.

ghost use Rattle.std.specs.Prelude.{◌≡◌, ◌≤◌, ◌-◌, ◌^◌, [], length, min, IfOk, OnOk};
ghost use Rattle.std.specs.List.{AllByRecursion};
ghost use Rattle.early_forms.specs.Names.{IsProper};
ghost use Rattle.early_plain.specs.Fits.{CallFits};
ghost use Rattle.run_text.specs.Schedules.{IsInRange, Fits};
ghost use Rattle.cluster.specs.History.{Setup, steps_of};
ghost use Rattle.cluster.specs.World.{World, after_events, words_of, results_of as results, kept};
ghost use Rattle.cluster.specs.Standing.{Holds, HasWorld, NamesPorts};
ghost use Rattle.sdg_top.specs.Report.{report_text};
ghost use Rattle.sdg_top.specs.Accepted.{IsReport};

use crate::report::print_report;
use crate::results::{history_of, results_of};
use cluster::Cluster;
use early_cutter::{
    every_call_is_safe, every_run_agrees, every_run_keeps_its_steps, every_run_runs_again,
    graph_of, ordered_runs_are_plain, plain_runs_in_turn, serial_runs_are_plain,
};
use early_forms::StraightClass;
use early_task_code::Graph;
use placement::{Event, Schedule, Word};
use sdg_base::{Bytes, Calls};
use std::alloc::{AllocError, Global};

/// Takes events one after the other, and answers their words.
fn take_events(
    alloc: Global,
    cluster: &mut Cluster,
    graph: &Graph,
    events: &[Event],
) -> Result<Vec<Word>, AllocError>
    requires live { HasWorld graph.now cluster.old }
    requires named { AllByRecursion (NamesPorts graph.now cluster.old.header) events.now }
    ensures world { (s : Setup) (w : World) → s.graph ≡ graph.now → Holds cluster.old s w → OnOk result (Holds cluster.new s (after_events s w events.now)) }
    ensures words { (s : Setup) (w : World) → s.graph ≡ graph.now → Holds cluster.old s w → IfOk result (λ v. v.items ≡ words_of s w events.now) }
{
    let mut words = Vec::new(alloc);
    for event in events {
        words.push(cluster.event(alloc, graph, *event)?)?;
    }
    Ok(words)
}

/// The report of what a cluster has come to.
fn report(
    alloc: Global,
    class: &StraightClass,
    cluster: &Cluster,
    words: &[Word],
) -> Result<Bytes, AllocError>
    ensures { (s : Setup) (w : World) → Holds cluster.now s w
        → IfOk result (λ text. text ≡ report_text s.header class.now.fields words.now [] (results s w) (steps_of w.hist) [] (min (kept s w) (2 ^ 64 - 1))) }
{
    let results = results_of(alloc, cluster.commits.as_slice())?;
    let history = history_of(alloc, cluster.history.as_slice())?;
    print_report(
        alloc,
        cluster.header,
        class.fields.as_slice(),
        words,
        &[],
        &results,
        &history,
        &[],
        cluster.kept(),
    )
}

/// Runs calls of a class under a schedule, and reports the run.
pub(crate) fn run(
    alloc: Global,
    class: &StraightClass,
    calls: Calls,
    schedule: &Schedule,
) -> Result<Bytes, AllocError>
    requires proper { IsProper class.now }
    requires fit { AllByRecursion (CallFits class.now) calls }
    requires few { length calls ≤ 65536 }
    requires range { IsInRange schedule.now.header }
    requires named { AllByRecursion (Fits (length class.now.fields) schedule.now.header.slots) schedule.now.events }
    requires few_events { length schedule.now.events ≤ 1000000 }
    ensures { IfOk result (IsReport class.now calls schedule.now) }
{
    every_call_is_safe();
    every_run_agrees();
    every_run_runs_again();
    every_run_keeps_its_steps();
    serial_runs_are_plain();
    plain_runs_in_turn();
    ordered_runs_are_plain();
    let graph = graph_of(alloc, class)?;
    let mut cluster = Cluster::new(alloc, &graph, calls, schedule.header)?;
    let words = take_events(alloc, &mut cluster, &graph, schedule.events.as_slice())?;
    cluster.drain(alloc, &graph)?;
    report(alloc, class, &cluster, &words)
}
