//! The tasks of flat code, in one pass over each method from its end.

ghost use Rattle.std.specs.Prelude.{◌≡◌, ◌∷◌, ◌++◌, ◌≤◌, ◌^◌, [], ◌<◌, ◌-◌, ℕ, List, OnOk, IfOk, length, reverse};
ghost use Rattle.std.specs.List.{range_with_len};
ghost use Rattle.early_task_code.specs.declared.graph.Instr.{Instr};
ghost use Rattle.early_cutter.specs.Cutting.{field_before, task_of_cut, start_task, cut_tasks, method_tasks, tasks_from};
ghost use Rattle.early_cutter.specs.Passes.{IsBehind};

use crate::liveness::{rising, step_back};
use crate::point::small;
use early_task_code::{GraphMethod, Instr, Task, TaskKind};
use sqlite_items::Items;
use std::alloc::{AllocError, Global};
use std::collections::BTreeSet;

/// What is known behind a place in a method's code: the live variables, the field of the first
/// access, and the tasks of the cuts, the last first.
#[derive(Drop)]
pub struct Behind {
    pub live: BTreeSet<u32>,
    pub field: Option<u16>,
    pub tasks: Vec<Task>,
}

fn field_before(instr: &Instr, behind: Option<u16>) -> Option<u16>
    ensures { result ≡ field_before instr.now behind }
{
    match instr {
        Instr::Access(field, _) => Some(*field),
        _ => behind,
    }
}

/// Adds the task that a cut begins, if the instruction is one.
fn add_task(
    alloc: Global,
    behind: &mut Behind,
    method: u16,
    at: u32,
    instr: &Instr,
) -> Result<(), AllocError>
    ensures { OnOk result ((count : ℕ) (code : List Instr) → IsBehind method count at code behind.old → (behind.new ≡ record behind.old { tasks = behind.new.tasks }) × (reverse behind.new.tasks.items ≡ task_of_cut method count at instr.now code ++ cut_tasks method count at code)) }
{
    if let Instr::Cut(_) = instr {
        let vars = rising(alloc, &behind.live)?;
        behind.tasks.push(Task {
            at,
            field: behind.field,
            kind: TaskKind::Keyed,
            method,
            vars,
        })?;
    }
    Ok(())
}

/// One instruction further to the front. The code behind it begins at `at`.
fn pass(
    alloc: Global,
    behind: &mut Behind,
    method: u16,
    count: u32,
    at: u32,
    instr: &Instr,
) -> Result<(), AllocError>
    requires { 0 < at }
    ensures { OnOk result ((code : List Instr) → IsBehind method count at code behind.old → IsBehind method count (at - 1) (instr.now ∷ code) behind.new) }
{
    add_task(alloc, behind, method, at, instr)?;
    behind.field = field_before(instr, behind.field);
    step_back(&mut behind.live, count, instr)
}

fn all_behind(
    alloc: Global,
    method: u16,
    count: u32,
    code: &[Instr],
    len: u32,
) -> Result<Behind, AllocError>
    requires { len ≡ length code.now }
    ensures { IfOk result (IsBehind method count 0 code.now) }
{
    let mut behind = Behind {
        live: BTreeSet::new(alloc),
        field: None,
        tasks: Vec::new(alloc),
    };
    let mut at = len;
    while at > 0 {
        pass(
            alloc,
            &mut behind,
            method,
            count,
            at,
            &code[at as usize - 1],
        )?;
        at -= 1;
    }
    Ok(behind)
}

/// The first numbers, as many as `count`.
fn first_numbers(alloc: Global, count: u32) -> Result<Items<u32>, AllocError>
    ensures { IfOk result (λ numbers. numbers ≡ range_with_len 0 count) }
{
    let mut numbers = Items::new(alloc);
    for number in 0..count {
        numbers.push(number)?;
    }
    Ok(numbers)
}

fn cut_tasks(
    alloc: Global,
    method: u16,
    count: u32,
    code: &[Instr],
) -> Result<Items<Task>, AllocError>
    ensures { IfOk result (λ tasks. tasks ≡ cut_tasks method count 0 code.now) }
{
    let length = small(code.len())?;
    let mut tasks = all_behind(alloc, method, count, code, length)?.tasks;
    tasks.reverse();
    Ok(Items::from_vec(tasks))
}

fn add_method_tasks(
    alloc: Global,
    tasks: &mut Items<Task>,
    number: u16,
    method: &GraphMethod,
) -> Result<(), AllocError>
    ensures { OnOk result (tasks.new ≡ tasks.old ++ method_tasks number method.now) }
{
    let vars = first_numbers(alloc, method.params)?;
    tasks.push(Task {
        at: 0,
        field: None,
        kind: TaskKind::Start,
        method: number,
        vars,
    })?;
    let count = small(method.vars.len())?;
    tasks.append(cut_tasks(alloc, number, count, method.code.as_slice())?)
}

/// The tasks of all methods, in text order.
pub fn tasks_of(alloc: Global, methods: &[GraphMethod]) -> Result<Items<Task>, AllocError>
    requires { length methods.now ≤ 2 ^ 16 }
    ensures { IfOk result (λ tasks. tasks ≡ tasks_from 0 methods.now) }
{
    let mut tasks = Items::new(alloc);
    for (number, method) in methods.iter().enumerate() {
        add_method_tasks(alloc, &mut tasks, number as u16, method)?;
    }
    Ok(tasks)
}
