//! The answer of `graph`.

ghost use Rattle.std.specs.Prelude.{◌≡◌, ◌++◌, [], ◌∷◌, IfOk};
ghost use Rattle.java_tree.specs.declared.tree.Class.{Class as ClassOf};
ghost use Rattle.body_code.specs.Checking.{IsTyped};
ghost use Rattle.class_graph.specs.Correct.{EntriesArePlaced, Implements};
ghost use Rattle.class_graph.specs.Graphs.{IsGraphOf};
ghost use Rattle.graph_file.specs.Written.{graph_text};
ghost use Rattle.sdg_top.specs.Accepted.{Accepts, annotated_of};
ghost use Rattle.sdg_top.specs.Commands.{Text, Graph as GraphRequest};
ghost use Rattle.sdg_top.specs.Due.{DueForTexts};

use crate::answer::Answer;
use crate::called::let_go;
use crate::status::Status;
use access_blocks::{Marked, marks};
use annotations::Annotated;
use class_graph::graph_of;
use flat_code::Graph;
use graph_file::write_graph;
use sdg_base::Bytes;
use std::alloc::{AllocError, Global};
use typed_classes::accepted_classes_are_typed;

/// A graph as one line.
fn graph_line(alloc: Global, graph: &Graph) -> Result<Bytes, AllocError>
    ensures { IfOk result (λ text. text ≡ graph_text graph.now ++ 10 ∷ []) }
{
    let mut text = write_graph(alloc, graph)?;
    text.push(b'\n')?;
    Ok(text)
}

/// The graph of a class, which then goes.
fn graph_in(alloc: Global, marked: Marked) -> Result<Graph, AllocError>
    ensures is_graph { IfOk result (λ graph. IsGraphOf marked graph) }
    ensures implements { IsTyped marked.annotated.typed.class marked.program
        → EntriesArePlaced marked.annotated.typed.class marked.program
        → IfOk result (Implements marked.annotated.typed.class marked.program) }
{
    let graph = graph_of(alloc, &marked);
    let Marked {
        annotated,
        program: _,
    } = marked;
    let_go(annotated);
    graph
}

/// What an accepted class is due under `graph`.
pub(crate) fn answer_graph(alloc: Global, annotated: Annotated) -> Result<Answer, AllocError>
    ensures due { (text : Text) (class : ClassOf) → Accepts text class → annotated ≡ annotated_of class → IfOk result (λ a. DueForTexts (GraphRequest text) a.status a.text) }
    ensures done { IfOk result (λ a. a.status ≡ Status.Done) }
{
    accepted_classes_are_typed();
    let marked = marks(alloc, annotated)?;
    let graph = graph_in(alloc, marked)?;
    Ok(Answer {
        status: Status::Done,
        text: graph_line(alloc, &graph)?,
    })
}
