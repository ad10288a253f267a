//! The law of the graph.

ghost use Rattle.flat_code.specs.Verified.{IsVerified};
ghost use Rattle.graph_safety.specs.Safe.{VerifiedGraphsNeverGoWrong};
ghost use Rattle.graph_safety.specs.Small.{small_graph};

/// On a verified graph an item that fits its cell never goes wrong, whatever the state of the cell's
/// class and whatever fitting parts were gathered so far: it gives one output and a state of the same
/// class. What it sends to a cell fits there, is of the same call and has fewer turns left. A visit
/// gives a part for its own join and nothing else, and the value of a result is of the type that the
/// method returns. There are such graphs, a small one among them. It does nothing when it runs.
pub fn verified_graphs_never_go_wrong()
    ensures never_wrong { VerifiedGraphsNeverGoWrong }
    ensures there_are_some { IsVerified small_graph }
{}
