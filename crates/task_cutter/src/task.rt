//! Single tasks.

ghost use Rattle.std.specs.Prelude.{◌≡◌, ◌++◌, [], OnOk, IfOk, slice_get, unwrap_or};
ghost use Rattle.std.specs.List.{range_with_len};
ghost use Rattle.task_cutter.specs.Tasks.{set_at, start_task, cut_task, join_task, task_behind};

use crate::access::{accessed, copied, cut_kind, from_access, is_part};
use flat_code::{GraphField, GraphMethod, Instr, Task, TaskKind};
use sqlite_items::{Items, at as item_at};
use std::alloc::{AllocError, Global};

/// The variables that are live at an instruction of a method.
fn set_at(
    alloc: Global,
    live: &[Items<Items<u32>>],
    method: u16,
    at: u32,
) -> Result<Items<u32>, AllocError>
    ensures { IfOk result (λ vars. vars ≡ set_at live.now method at) }
{
    match item_at(live, method as usize) {
        Some(sets) => set_in(alloc, sets.as_slice(), at),
        None => Ok(Items::new(alloc)),
    }
}

fn set_in(alloc: Global, sets: &[Items<u32>], at: u32) -> Result<Items<u32>, AllocError>
    ensures { IfOk result (λ vars. vars ≡ unwrap_or (slice_get sets.now at) []) }
{
    match item_at(sets, at as usize) {
        Some(vars) => Items::from_slice(alloc, vars.as_slice()),
        None => Ok(Items::new(alloc)),
    }
}

/// The first numbers, as many as `count`.
fn first_numbers(alloc: Global, count: u32) -> Result<Items<u32>, AllocError>
    ensures { IfOk result (λ numbers. numbers ≡ range_with_len 0 count) }
{
    let mut numbers = Items::new(alloc);
    for number in 0..count {
        numbers.push(number)?;
    }
    Ok(numbers)
}

/// The start of an entry method.
pub fn start_task(alloc: Global, number: u16, method: &GraphMethod) -> Result<Task, AllocError>
    ensures { IfOk result (λ task. task ≡ start_task number method.now) }
{
    let vars = first_numbers(alloc, method.params)?;
    Ok(Task {
        at: 0,
        field: None,
        kind: TaskKind::Start,
        method: number,
        vars,
    })
}

/// The task that a cut begins with the code behind it.
fn cut_task(
    alloc: Global,
    fields: &[GraphField],
    live: &[Items<Items<u32>>],
    method: u16,
    at: u32,
    code: &[Instr],
) -> Result<Task, AllocError>
    ensures { IfOk result (λ task. task ≡ cut_task fields.now live.now method at code.now) }
{
    let access = from_access(code);
    let name = accessed(item_at(access, 0));
    let kind = cut_kind(fields, name, is_part(item_at(access, 1)));
    let field = copied(alloc, name)?;
    let vars = set_at(alloc, live, method, at)?;
    Ok(Task {
        at,
        field,
        kind,
        method,
        vars,
    })
}

/// The task that goes on behind a part.
fn join_task(
    alloc: Global,
    live: &[Items<Items<u32>>],
    method: u16,
    at: u32,
) -> Result<Task, AllocError>
    ensures { IfOk result (λ task. task ≡ join_task live.now method at) }
{
    let vars = set_at(alloc, live, method, at)?;
    Ok(Task {
        at,
        field: None,
        kind: TaskKind::Join,
        method,
        vars,
    })
}

/// Adds the task behind an instruction, if it is a cut or a part. The code behind it begins at `at`.
pub fn add_task_behind(
    alloc: Global,
    tasks: &mut Items<Task>,
    fields: &[GraphField],
    live: &[Items<Items<u32>>],
    method: u16,
    at: u32,
    instr: &Instr,
    code: &[Instr],
) -> Result<(), AllocError>
    ensures { OnOk result (tasks.new ≡ tasks.old ++ task_behind fields.now live.now method at instr.now code.now) }
{
    match instr {
        Instr::Cut(_) => {
            tasks.push(cut_task(alloc, fields, live, method, at, code)?)?;
            Ok(())
        }
        Instr::Part(_) => {
            tasks.push(join_task(alloc, live, method, at)?)?;
            Ok(())
        }
        _ => Ok(()),
    }
}
