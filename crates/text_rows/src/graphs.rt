//! What is said of graph files.

use crate::texts::bytes_of;
use graph_file::{GraphError, read_graph, write_graph};
use std::alloc::{AllocError, Global};

/// What a text is read as: a graph, which is written as this text again; no JSON; or the path at which the form fails.
pub(crate) fn read(alloc: Global, text: &str) -> Result<String, AllocError> {
    let bytes = bytes_of(alloc, text)?;
    match read_graph(alloc, &bytes) {
        Ok(graph) => {
            let is_same = write_graph(alloc, &graph)?.as_slice() == bytes.as_slice();
            let (methods, tasks) = (graph.methods.len(), graph.tasks.len());
            format!(in alloc;
                "a graph of {methods} methods and {tasks} tasks, written so: {is_same}"
            )
        }
        Err(GraphError::NotJson) => String::from_str(alloc, "no JSON"),
        Err(GraphError::NotGraph { path }) => {
            let path = String::from_utf8_lossy(alloc, path.as_slice())?;
            format!(in alloc; "no graph at '{path}'")
        }
        Err(GraphError::Memory) => Err(AllocError),
    }
}
