//! The graphs of classes.

use crate::texts::class_of;
use early_cutter::graph_of;
use early_task_code::{Graph, Instr, TaskKind};
use std::alloc::{AllocError, Global};
use std::test::*;

fn is_code_of_one_get(graph: &Graph) -> bool {
    match graph.methods.as_slice() {
        [method] => {
            method.code.as_slice()
                == [
                    Instr::Load(0),
                    Instr::Turn,
                    Instr::Cut(1),
                    Instr::Load(0),
                    Instr::Access(0, early_tables::Method::Get),
                    Instr::Return,
                ]
                .as_slice()
        }
        _ => false,
    }
}

fn are_tasks_of_one_get(graph: &Graph) -> bool {
    match graph.tasks.as_slice() {
        [start, keyed] => {
            start.kind == TaskKind::Start
                && start.vars.as_slice() == [0, 1].as_slice()
                && keyed.kind == TaskKind::Keyed
                && keyed.at == 3
                && keyed.field == Some(0)
                && keyed.vars.as_slice() == [0].as_slice()
        }
        _ => false,
    }
}

/// The keyed task carries the key alone, and not the parameter that is read no more.
#[test]
fn cuts_a_get(rt: HostRuntime) -> Result<(), Fail> {
    let text =
        "class G { @Partitioned Table t = new Table(); long get(long k, long d) { return t.get(k); } }";
    let class = class_of(rt.alloc(), text);
    assert!(rt; class.is_some());
    if let Some(class) = &class {
        let graph = graph_of(rt.alloc(), class)?;
        assert!(rt; is_code_of_one_get(&graph));
        assert!(rt; are_tasks_of_one_get(&graph));
    }
    Ok(())
}

/// `t.put(1, 1); t.put(2, 1);` and so on, each behind a mark of its own, and as many locals.
fn body(alloc: Global, count: u32) -> Result<String, AllocError> {
    let mut text = String::new(alloc);
    for at in 0..count {
        let statements = format!(in alloc; "t.put({at}, 1); long x{at} = {at}; ")?;
        text.push_str(statements.as_str())?;
    }
    Ok(text)
}

/// A method has as many instructions, variables and tasks as its text holds, beyond 16 bits too.
#[test]
fn cuts_a_long_method(rt: HostRuntime) -> Result<(), Fail> {
    let body = body(rt.alloc(), 7_000)?;
    let text = format!(in rt.alloc();
        "class L {{ @Partitioned Table t = new Table(); void f() {{ {body} }} }}"
    )?;
    let class = class_of(rt.alloc(), text.as_str());
    assert!(rt; class.is_some());
    if let Some(class) = &class {
        let graph = graph_of(rt.alloc(), class)?;
        let code = graph
            .methods
            .as_slice()
            .iter()
            .map(|method| method.code.len());
        assert!(rt; code.max() > Some(0xffff), "instructions");
        assert_eq!(rt; graph.tasks.len(), 7_001, "tasks");
    }
    Ok(())
}
