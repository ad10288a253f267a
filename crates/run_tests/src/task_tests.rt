//! A task of a graph that is made by hand.

ghost use Rattle.std.specs.Prelude.{◌≡◌, ℕ, [], ◌∷◌, IfOk, List};

use early_tables::{Method, Table};
use early_task_code::{
    Graph, GraphMethod, Instr, MethodKind, Out, Task, TaskKind, VarType, run_task,
};
use sdg_base::{BinOp, Item, Name, Num, Outcome, Port, Val, Vals};
use sqlite_items::Items;
use std::alloc::{AllocError, Global};
use std::test::*;

/// `long add(long k, int n)`: a cut before the read, and one before the write, each at key `k`.
const ADD: [Instr; 15] = [
    Instr::Turn,
    Instr::Load(0),
    Instr::Cut(0),
    Instr::Key,
    Instr::Access(0, Method::Get),
    Instr::Load(1),
    Instr::Cast(Num::Long),
    Instr::Bin(BinOp::Add, Num::Long),
    Instr::Store(2),
    Instr::Key,
    Instr::Load(2),
    Instr::Access(0, Method::Put),
    Instr::Int(9),
    Instr::Pop,
    Instr::ReturnVoid,
];

fn named(alloc: Global, text: &str) -> Result<Name, AllocError> {
    Items::from_slice(alloc, text.as_bytes())
}

fn methods(alloc: Global) -> Result<Items<GraphMethod>, AllocError>
    ensures { IfOk result (λ methods. (name : List ℕ) × (methods ≡ record { code = ADD; kind = MethodKind.Entry; name = name; params = 2; result = None; vars = VarType.Long ∷ VarType.Int ∷ VarType.Long ∷ [] } ∷ [])) }
{
    let mut methods = Items::new(alloc);
    methods.push(GraphMethod {
        code: Items::from_slice(alloc, &ADD)?,
        kind: MethodKind::Entry,
        name: named(alloc, "add")?,
        params: 2,
        result: None,
        vars: Items::from_slice(alloc, &[VarType::Long, VarType::Int, VarType::Long])?,
    })?;
    Ok(methods)
}

fn tasks(alloc: Global) -> Result<Items<Task>, AllocError>
    ensures { IfOk result (λ tasks. tasks ≡ record { at = 3; field = Some 0; kind = TaskKind.Keyed; method = 0; vars = 1 ∷ [] } ∷ []) }
{
    let mut tasks = Items::new(alloc);
    tasks.push(Task {
        at: 3,
        field: Some(0),
        kind: TaskKind::Keyed,
        method: 0,
        vars: Items::from_slice(alloc, &[1])?,
    })?;
    Ok(tasks)
}

fn values(alloc: Global, key: i64, n: i32) -> Result<Vals, AllocError>
    ensures { IfOk result (λ values. values ≡ Val.Long key ∷ Val.Int n ∷ []) }
{
    let mut values = Items::new(alloc);
    values.push(Val::Long(key))?;
    values.push(Val::Int(n))?;
    Ok(values)
}

#[test]
fn a_call_runs_by_its_tasks(rt: HostRuntime) -> Result<(), Fail> {
    let alloc = rt.alloc();
    let graph = Graph {
        class: named(alloc, "C")?,
        fields: Items::new(alloc),
        methods: methods(alloc)?,
        tasks: tasks(alloc)?,
    };
    let mut table = Table::new(alloc);
    table.put(-7, 40)?;
    let start = Item::Start {
        call: 3,
        method: 0,
        args: values(alloc, -7, 2)?,
    };
    let Out::Send(port, work) = run_task(alloc, &graph, 2, Port::Front, &start, &mut table)? else {
        return Err("no work")?;
    };
    let Item::Work {
        call,
        task,
        key,
        turns,
        vars,
    } = &work
    else {
        return Err("other work")?;
    };
    assert_eq!(rt; (*call, *task, *key, *turns), (3, 0, Some(-7), 99_999));
    assert_eq!(rt; vars.len(), 1);
    assert!(rt; matches!(vars.as_slice()[0], Val::Int(2)));
    let Out::Result(Item::Done { call, outcome }) = run_task(
        alloc, &graph, 2, port, &work, &mut table,
    )?
    else {
        return Err("no result")?;
    };
    assert_eq!(rt; call, 3);
    assert!(rt; matches!(outcome, Outcome::Value(Val::Unit)));
    assert_eq!(rt; table.get(-7), 42);
    Ok(())
}
