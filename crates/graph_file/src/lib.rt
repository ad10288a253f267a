//! The graph file: a graph as text, in one spelling.
#![tactic(auto)]

ghost use Rattle.std.specs.Prelude.{◌≡◌, ◌≢◌, Ok, Err, IfOk};
ghost use Rattle.graph_file.specs.Written.{graph_text};
ghost use Rattle.graph_file.specs.Writable.{IsWritable};
ghost use Rattle.graph_file.specs.Forms.{graph_form};
ghost use Rattle.graph_file.specs.Reading.{of_graph, of_form, reading, refusal_of};
ghost use Rattle.serde_json.specs.View.{view};
ghost use Rattle.graph_file.specs.declared.error.GraphError.TheVariants.{Memory};
ghost use Rattle.flat_code.specs.declared.graph.Graph.{Graph};

mod error;
mod fault;
mod form;
mod instruction;
mod mnemonic;
mod parts;
mod value;
mod word;
mod word_form;

pub use error::GraphError;
use fault::Fault;
use flat_code::Graph;
use form::Form;
use sdg_base::Bytes;
use serde_json::Value;
use sqlite_items::Items;
use std::alloc::{AllocError, Global};
use value::graph_value;

/// The text of a graph: the compact JSON text of one object, whose keys stand in their order. What is
/// written of a graph that a file can hold is read as that graph.
pub fn write_graph(alloc: Global, graph: &Graph) -> Result<Bytes, AllocError>
    ensures text { IfOk result (λ bytes. bytes ≡ graph_text graph.now) }
    ensures back { IfOk result (λ bytes. IsWritable graph.now → reading bytes ≡ Ok graph.now) }
{
    let value = graph_value(alloc, graph)?;
    let text = value.to_vec(alloc)?;
    Ok(Items::from_vec(text))
}

/// The graph of a text, which is its only spelling. Of another text the error says that it is no
/// JSON, or at which path the form of a graph first fails; the path is empty where the form holds
/// and the text is another spelling.
pub fn read_graph(alloc: Global, bytes: &[u8]) -> Result<Graph, GraphError>
    ensures exact { result ≢ Err Memory → result ≡ reading bytes.now }
    ensures spelling { IfOk result (λ graph. bytes.now ≡ graph_text graph) }
    ensures made { IfOk result IsWritable }
    ensures whole { (graph : Graph) → IsWritable graph → bytes.now ≡ graph_text graph
        → result ≢ Err Memory → result ≡ Ok graph }
{
    let value = match Value::from_slice(alloc, bytes) {
        Ok(value) => value,
        Err(error) => {
            if error.is_memory() {
                return Err(GraphError::Memory);
            }
            return Err(GraphError::NotJson);
        }
    };
    graph_in(alloc, bytes, &value)
}

/// The graph that JSON has the form of, where bytes are its text.
fn graph_in(alloc: Global, bytes: &[u8], value: &Value) -> Result<Graph, GraphError>
    ensures exact { result ≢ Err Memory
        → result ≡ of_form bytes.now (graph_form (view value.now)) }
    ensures spelling { IfOk result (λ graph. bytes.now ≡ graph_text graph) }
    ensures made { IfOk result IsWritable }
{
    match Graph::read(alloc, value) {
        Ok(graph) => spelled(alloc, bytes, graph),
        Err(fault) => Err(refusal(fault)),
    }
}

/// Why a file with a fault in its form is refused.
fn refusal(fault: Fault) -> GraphError
    ensures { result ≡ refusal_of fault }
{
    match fault {
        Fault::Misfit(path) => GraphError::NotGraph { path },
        Fault::Memory => GraphError::Memory,
    }
}

/// A graph, where bytes are its text.
fn spelled(alloc: Global, bytes: &[u8], graph: Graph) -> Result<Graph, GraphError>
    requires { IsWritable graph }
    ensures exact { result ≢ Err Memory → result ≡ of_graph bytes.now graph }
    ensures spelling { IfOk result (λ graph. bytes.now ≡ graph_text graph) }
    ensures made { IfOk result IsWritable }
{
    let text = write_graph(alloc, &graph)?;
    if bytes == text.as_slice() {
        Ok(graph)
    } else {
        Err(GraphError::NotGraph {
            path: Items::new(alloc),
        })
    }
}
