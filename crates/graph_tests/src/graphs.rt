//! The graph of a class text.

ghost use Rattle.std.specs.Prelude.{IfOk};
ghost use Rattle.flat_code.specs.Verified.{IsVerified};
ghost use Rattle.graph_tests.specs.Accepted.{IsAccepted};

use access_blocks::{Marked, marks};
use annotations::{AnnotError, Annotated, annotated};
use class_graph::graph_of;
use flat_code::Graph;
use java_flow::{FlowError, flow};
use java_lexer::{LexError, lex};
use java_parser::{ParseError, parse};
use java_tree::{Typed, discard};
use java_types::{TypeError, check};
use std::alloc::{AllocError, Global};
use thiserror::Error;
use typed_classes::accepted_classes_are_typed;

/// Why a text has no graph.
#[derive(Debug, Error, Drop)]
pub(crate) enum Refused {
    #[error("too long")]
    Long,
    #[error(transparent)]
    Tokens(#[from] LexError),
    #[error(transparent)]
    Syntax(#[from] ParseError),
    #[error(transparent)]
    Types(#[from] TypeError),
    #[error(transparent)]
    Flow(#[from] FlowError),
    #[error(transparent)]
    Annotations(#[from] AnnotError),
    #[error("out of memory")]
    Memory(#[from(alloc)] AllocError),
}

/// The class that a text writes, with its program, where it is accepted.
fn marked_in(alloc: Global, text: &str) -> Result<Marked, Refused>
    ensures { IfOk result IsAccepted }
{
    if text.len() >= 0xffff_ffff {
        return Err(Refused::Long);
    }
    let tokens = lex(alloc, text.as_bytes())?;
    let tree = parse(alloc, &tokens)?;
    let typed = check(alloc, tree)?;
    flow(alloc, &typed)?;
    let annotated = annotated(alloc, typed)?;
    let marked = marks(alloc, annotated)?;
    Ok(marked)
}

/// The graph of an accepted class, which then goes.
fn graph_of_accepted(alloc: Global, marked: Marked) -> Result<Graph, AllocError>
    requires { IsAccepted marked }
    ensures { IfOk result IsVerified }
{
    accepted_classes_are_typed();
    let graph = graph_of(alloc, &marked);
    let Marked {
        annotated,
        program: _,
    } = marked;
    let Annotated { typed, .. } = annotated;
    let Typed { class, .. } = typed;
    discard(class);
    graph
}

/// The graph of a class that is accepted.
pub(crate) fn graph_in(alloc: Global, text: &str) -> Result<Graph, Refused>
    ensures { IfOk result IsVerified }
{
    let marked = marked_in(alloc, text)?;
    let graph = graph_of_accepted(alloc, marked)?;
    Ok(graph)
}
