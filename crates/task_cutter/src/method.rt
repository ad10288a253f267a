//! The tasks of methods.

ghost use Rattle.std.specs.Prelude.{◌≡◌, ◌∷◌, ◌++◌, ◌≤◌, ◌<◌, ◌^◌, length, OnOk, IfOk};
ghost use Rattle.task_cutter.specs.Tasks.{tasks_behind, start_task, method_tasks, tasks_from};

use crate::task::{add_task_behind, start_task};
use flat_code::{GraphField, GraphMethod, Instr, MethodKind, Task};
use sqlite_items::Items;
use std::alloc::{AllocError, Global};

/// Adds the tasks behind the cuts and parts of a method's code.
fn add_tasks_behind(
    alloc: Global,
    tasks: &mut Items<Task>,
    fields: &[GraphField],
    live: &[Items<Items<u32>>],
    method: u16,
    code: &[Instr],
) -> Result<(), AllocError>
    requires { length code.now < 2 ^ 32 }
    ensures { OnOk result (tasks.new ≡ tasks.old ++ tasks_behind fields.now live.now method 0 code.now) }
{
    for (at, instr) in code.iter().enumerate() {
        let behind = code.split_at(at + 1).1;
        add_task_behind(
            alloc,
            tasks,
            fields,
            live,
            method,
            (at + 1) as u32,
            instr,
            behind,
        )?;
    }
    Ok(())
}

fn add_entry_tasks(
    alloc: Global,
    tasks: &mut Items<Task>,
    fields: &[GraphField],
    live: &[Items<Items<u32>>],
    number: u16,
    method: &GraphMethod,
) -> Result<(), AllocError>
    ensures { OnOk result (tasks.new ≡ tasks.old ++ start_task number method.now ∷ tasks_behind fields.now live.now number 0 method.now.code) }
{
    if method.code.len() > u32::MAX as usize {
        return Err(AllocError);
    }
    tasks.push(start_task(alloc, number, method)?)?;
    add_tasks_behind(alloc, tasks, fields, live, number, method.code.as_slice())
}

fn add_method_tasks(
    alloc: Global,
    tasks: &mut Items<Task>,
    fields: &[GraphField],
    live: &[Items<Items<u32>>],
    number: u16,
    method: &GraphMethod,
) -> Result<(), AllocError>
    ensures { OnOk result (tasks.new ≡ tasks.old ++ method_tasks fields.now live.now number method.now method.now.kind) }
{
    match method.kind {
        MethodKind::Entry => add_entry_tasks(alloc, tasks, fields, live, number, method),
        MethodKind::Helper => Ok(()),
        MethodKind::Merge => Ok(()),
    }
}

fn all_tasks(
    alloc: Global,
    fields: &[GraphField],
    live: &[Items<Items<u32>>],
    methods: &[GraphMethod],
) -> Result<Items<Task>, AllocError>
    requires { length methods.now ≤ 2 ^ 16 }
    ensures { IfOk result (λ tasks. tasks ≡ tasks_from fields.now live.now 0 methods.now) }
{
    let mut tasks = Items::new(alloc);
    for (number, method) in methods.iter().enumerate() {
        add_method_tasks(alloc, &mut tasks, fields, live, number as u16, method)?;
    }
    Ok(tasks)
}

/// The tasks of all methods.
pub fn tasks_of(
    alloc: Global,
    fields: &[GraphField],
    live: &[Items<Items<u32>>],
    methods: &[GraphMethod],
) -> Result<Items<Task>, AllocError>
    ensures { IfOk result (λ tasks. tasks ≡ tasks_from fields.now live.now 0 methods.now) }
{
    if methods.len() > u16::MAX as usize + 1 {
        return Err(AllocError);
    }
    all_tasks(alloc, fields, live, methods)
}
