//! A small graph, made by hand.

use crate::graphs::graph_in;
use flat_code::{
    FieldKind, Graph, GraphField, GraphMethod, Instr, MethodKind, Task, TaskKind, VarType,
    VariableType,
};
use graph_file::write_graph;
use sdg_base::{ClassName, Name};
use sqlite_items::Items;
use state_classes::Method;
use std::alloc::{AllocError, Global};
use std::test::*;

fn named(alloc: Global, text: &str) -> Result<Name, AllocError> {
    Items::from_slice(alloc, text.as_bytes())
}

/// `return t.get(k);` for the table `t` and the parameter `k`.
fn code(alloc: Global) -> Result<Items<Instr>, AllocError> {
    let mut code = Items::new(alloc);
    code.push(Instr::Load(0))?;
    code.push(Instr::Turn)?;
    code.push(Instr::Cut(1))?;
    code.push(Instr::Load(0))?;
    code.push(Instr::Access(named(alloc, "t")?, Method::Get))?;
    code.push(Instr::Return)?;
    Ok(code)
}

fn methods(alloc: Global) -> Result<Items<GraphMethod>, AllocError> {
    let mut methods = Items::new(alloc);
    methods.push(GraphMethod {
        code: code(alloc)?,
        kind: MethodKind::Entry,
        name: named(alloc, "get")?,
        params: 2,
        result: Some(VarType::Long),
        vars: Items::from_slice(
            alloc,
            &[
                VariableType::One(VarType::Long),
                VariableType::One(VarType::Int),
            ],
        )?,
    })?;
    Ok(methods)
}

/// The second parameter is not live behind the cut.
fn tasks(alloc: Global) -> Result<Items<Task>, AllocError> {
    let mut tasks = Items::new(alloc);
    tasks.push(Task {
        at: 0,
        field: None,
        kind: TaskKind::Start,
        method: 0,
        vars: Items::from_slice(alloc, &[0, 1])?,
    })?;
    tasks.push(Task {
        at: 3,
        field: Some(named(alloc, "t")?),
        kind: TaskKind::Keyed,
        method: 0,
        vars: Items::from_slice(alloc, &[0])?,
    })?;
    Ok(tasks)
}

fn fields(alloc: Global) -> Result<Items<GraphField>, AllocError> {
    let mut fields = Items::new(alloc);
    fields.push(GraphField {
        name: named(alloc, "t")?,
        class: ClassName::Table,
        kind: FieldKind::Partitioned,
    })?;
    Ok(fields)
}

fn by_hand(alloc: Global) -> Result<Graph, AllocError> {
    Ok(Graph {
        class: named(alloc, "G")?,
        fields: fields(alloc)?,
        methods: methods(alloc)?,
        tasks: tasks(alloc)?,
    })
}

const CLASS: &str =
    "class G { @Partitioned Table t = new Table(); long get(long k, int d) { return t.get(k); } }";

const LINE: &[u8] =
    b"{\"class\":\"G\",\"fields\":[[\"t\",\"Table\",\"partitioned\"]],\"methods\":[{\"code\":[[\"load\",0],[\"turn\"],[\"cut\",1],[\"load\",0],[\"access\",\"t\",\"get\"],[\"return\"]],\"kind\":\"entry\",\"name\":\"get\",\"params\":2,\"result\":\"long\",\"vars\":[\"long\",\"int\"]}],\"tasks\":[{\"at\":0,\"kind\":\"start\",\"method\":0,\"vars\":[0,1]},{\"at\":3,\"field\":\"t\",\"kind\":\"keyed\",\"method\":0,\"vars\":[0]}],\"version\":1}";

#[test]
fn a_class_has_the_graph_that_is_made_by_hand(rt: HostRuntime) -> Result<(), Fail> {
    let alloc = rt.alloc();
    let of_class = graph_in(alloc, CLASS)?;
    let by_hand = by_hand(alloc)?;
    assert_eq!(rt; write_graph(alloc, &of_class)?.as_slice(), LINE);
    assert_eq!(rt; write_graph(alloc, &by_hand)?.as_slice(), LINE);
    Ok(())
}
