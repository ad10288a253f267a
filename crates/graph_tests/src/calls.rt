//! Calls of classes, run by the tasks of their graphs.

ghost use Rattle.flat_code.specs.Verified.{IsVerified};
ghost use Rattle.graph_safety.specs.Safe.{AreWidths};

use crate::cells::{Cells, Machine, SHOWN, Stuck, add_outcome, are_widths};
use crate::graphs::graph_in;
use flat_code::{Graph, MethodKind, VarType, VariableType};
use run_text::{Entrance, ValueType, read_calls};
use sdg_base::{Call, Item, copy_values};
use sqlite_items::Items;
use std::alloc::{AllocError, Global};
use std::test::*;

const KEY_VALUE: &str = "class Kv {
  @Partitioned Table t = new Table();
  void put(long k, long v) { t.put(k, v); }
  long get(long k) { return t.get(k); }
  void bump(long j, long k) { long x = t.get(k); t.put(j, x + 1); }
  void inc(long k) { long x = t.get(k); t.put(k, x + 1); }
  long div(long k, int d) { t.put(k, 9); return 1 / d; }
  long spin(long k) { long x = 0; while (true) { x = t.get(k); } }
  long hop(long k) { while (true) { long y = t.get(k); k = y + k; } }
}
";

const FILL: &str = "class Fill {
  @Partitioned Table t = new Table();
  void fill(int n) { for (int i = 0; i < n; i++) t.put(i, i); }
  long sum(int n) { long s = 0; for (int i = 0; i < n; i++) { long v = t.get(i); s += v; } return s; }
}
";

const TALLY: &str = "class Tally {
  @Partial Counter c = new Counter();
  long many(int n) { for (int i = 0; i < n; i++) c.add(1); return n; }
  long total() { @Partial long x = @Global c.get(); long s = sum(@Global x); return s; }
  long sum(@Collection long[] all) { long s = 0; for (int i = 0; i < all.length; i++) s += all[i]; return s; }
}
";

const RECOMMENDER: &str = "class Cf {
  @Partitioned Matrix userItem = new Matrix();
  @Partial Matrix coOcc = new Matrix();
  void addRating(int user, int item, int rating) {
    userItem.setElement(user, item, rating);
    Vector row = userItem.getRow(user, 4);
    for (int i = 0; i < row.size(); i++)
      if (row.get(i) > 0) {
        long count = coOcc.getElement(item, i);
        coOcc.setElement(item, i, count + 1);
        coOcc.setElement(i, item, count + 1);
      }
  }
  Vector getRec(int user) {
    Vector row = userItem.getRow(user, 4);
    @Partial Vector part = @Global coOcc.multiply(row);
    Vector rec = merge(@Global part);
    return rec;
  }
  Vector merge(@Collection Vector[] all) {
    Vector rec = new Vector(all[0].size());
    for (int j = 0; j < all.length; j++)
      for (int i = 0; i < rec.size(); i++)
        rec.set(i, rec.get(i) + all[j].get(i));
    return rec;
  }
}
";

fn value_type(variable: &VariableType) -> ValueType {
    match variable {
        VariableType::One(VarType::Int) => ValueType::Int,
        VariableType::One(VarType::Long) => ValueType::Long,
        VariableType::One(VarType::Boolean) => ValueType::Boolean,
        VariableType::One(VarType::Vector) | VariableType::Collection(_) => ValueType::Vector,
    }
}

/// The methods of a graph that calls may name.
fn entrances(alloc: Global, graph: &Graph) -> Result<Vec<Entrance>, AllocError> {
    let mut entrances = Vec::new(alloc);
    let mut number = 0;
    for method in graph.methods.as_slice() {
        if method.kind == MethodKind::Entry {
            let mut parameters = Items::new(alloc);
            for variable in method.vars.as_slice().iter().take(method.params as usize) {
                parameters.push(value_type(variable))?;
            }
            entrances.push(Entrance {
                number,
                name: Items::from_slice(alloc, method.name.as_slice())?,
                parameters,
            })?;
        }
        number = number.saturating_add(1);
    }
    Ok(entrances)
}

/// Adds the result of a call that runs alone.
fn add_result(
    machine: &Machine,
    cells: &mut Cells,
    line: &mut String,
    number: u32,
    call: &Call,
) -> Result<(), AllocError>
    requires graph { IsVerified machine.now.graph.now }
    requires widths { AreWidths machine.now.graph.now machine.now.widths.now }
{
    let start = Item::Start {
        call: number,
        method: call.method,
        args: copy_values(machine.alloc, call.args.as_slice())?,
    };
    match machine.run(cells, start, (number % 64) as u8, 60_000) {
        Ok(outcome) => add_outcome(line, &outcome)?,
        Err(Stuck::Memory) => return Err(AllocError),
        Err(stuck) => write!(line, "{stuck:?}")?,
    }
    line.push_str("; ")
}

/// The results of calls, one after the other, and their steps. The fields have so many slots or instances.
fn results(alloc: Global, class: &str, widths: &[u8], calls: &str) -> Result<String, AllocError> {
    let Ok(graph) = graph_in(alloc, class) else {
        return String::from_str(alloc, "refused");
    };
    let entrances = entrances(alloc, &graph)?;
    if entrances.len() > 0x1_0000 || calls.len() >= 0xffff_ffff {
        return String::from_str(alloc, "no calls");
    }
    let Ok(calls) = read_calls(alloc, entrances.as_slice(), calls.as_bytes()) else {
        return String::from_str(alloc, "no calls");
    };
    let widths = Items::from_slice(alloc, widths)?;
    if !are_widths(&graph, &widths) {
        return String::from_str(alloc, "no widths");
    }
    let mut cells = Cells::new(alloc, &graph, &widths)?;
    let machine = Machine {
        alloc,
        graph: &graph,
        widths: &widths,
    };
    let mut line = String::new(alloc);
    let mut number: u32 = 0;
    for call in calls.as_slice() {
        number = number.saturating_add(1);
        add_result(&machine, &mut cells, &mut line, number, call)?;
    }
    if cells.count() < SHOWN {
        line.push_str(cells.steps())?;
    } else {
        write!(line, "{} items", cells.count())?;
    }
    Ok(line)
}

#[test]
fn calls_run_by_their_tasks(rt: HostRuntime) -> Result<(), Fail> {
    let alloc = rt.alloc();
    for (class, widths, calls, wanted) in [(
        RECOMMENDER,
        &[4, 3],
        "addRating 1 0 5\naddRating 1 2 3\ngetRec 1",
        "void; void; [8,0,8,0]; begin 1; block 1; block 1 1; begin 2; block 2; block 2 2; begin 3; block 3; visit 3 0; visit 3 1; visit 3 2; join 3;",
    )] {
        assert_eq!(rt; results(alloc, class, widths, calls)?.as_str(), wanted);
    }
    Ok(())
}

#[test]
fn a_key_that_changes_sends_the_call_on(rt: HostRuntime) -> Result<(), Fail> {
    let alloc = rt.alloc();
    for (calls, wanted) in [
        ("hop 1", "limit; 50001 items"),
        ("spin 1", "limit; begin 1; block 1;"),
        (
            "put 7 40\nget 7",
            "void; 40; begin 1; block 1; begin 2; block 2;",
        ),
        (
            "div 1 0\nget 1",
            "throws ArithmeticException; 9; begin 1; block 1; begin 2; block 2;",
        ),
        (
            "bump 1 1\ninc 1\nget 1",
            "void; void; 2; begin 1; block 1; block 1; begin 2; block 2; begin 3; block 3;",
        ),
    ] {
        assert_eq!(rt; results(alloc, KEY_VALUE, &[3], calls)?.as_str(), wanted);
    }
    Ok(())
}

#[test]
fn loops_go_from_slot_to_slot(rt: HostRuntime) -> Result<(), Fail> {
    let alloc = rt.alloc();
    assert_eq!(rt;
        results(alloc, FILL, &[2], "fill 3\nsum 3")?.as_str(),
        "void; 3; begin 1; block 1; block 1; block 1; begin 2; block 2; block 2; block 2;"
    );
    assert_eq!(rt;
        results(alloc, TALLY, &[2], "many 0\nmany 3\ntotal")?.as_str(),
        "0; 3; 3; begin 1; block 1 1; begin 2; block 2 0; begin 3; visit 3 0; visit 3 1; join 3;"
    );
    Ok(())
}
