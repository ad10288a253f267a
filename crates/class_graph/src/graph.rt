//! From a class to its graph.

ghost use Rattle.std.specs.Prelude.{IfOk};
ghost use Rattle.body_code.specs.Checking.{IsTyped};
ghost use Rattle.class_graph.specs.Correct.{EntriesArePlaced, Implements};
ghost use Rattle.class_graph.specs.Graphs.{IsGraphOf};

use access_blocks::Marked;
use code_meaning::{calls_stand_at_their_code, flat_code_means_its_source};
use flat_code::Graph;
use live_vars::live;
use std::alloc::{AllocError, Global};
use task_cutter::cut;
use task_lower::lower;
use verified_code::typed_classes_are_verified;

/// The graph of a class: each method as flat code, cut into tasks that carry the variables which are
/// live. Where the bodies of the class are typed, and their blocks are marked where steps come to, the graph
/// implements the class: it is verified, and each entry method's code does what its body means.
///
/// # Errors
///
/// There is no memory left. No class that is accepted is refused.
pub fn graph_of(alloc: Global, marked: &Marked) -> Result<Graph, AllocError>
    ensures cut { IfOk result (λ graph. IsGraphOf marked.now graph) }
    ensures implements { IsTyped marked.now.annotated.typed.class marked.now.program
        → EntriesArePlaced marked.now.annotated.typed.class marked.now.program
        → IfOk result (Implements marked.now.annotated.typed.class marked.now.program) }
{
    typed_classes_are_verified();
    flat_code_means_its_source();
    calls_stand_at_their_code();
    cut_of(alloc, marked)
}

/// The code of a class, cut into tasks.
fn cut_of(alloc: Global, marked: &Marked) -> Result<Graph, AllocError>
    ensures { IfOk result (λ graph. IsGraphOf marked.now graph) }
{
    let flat = lower(alloc, marked)?;
    let sets = live(alloc, &flat)?;
    cut(alloc, flat, &sets)
}
