//! The variables of a method, as a call or a task begins and as an item carries them.

ghost use Rattle.std.specs.Prelude.{◌≡◌, ◌++◌, ◌-◌, IfOk, IsSome, OnOk, Some, length, replicate};
ghost use Rattle.early_task_code.specs.Machine.{carried, set_all, first_vars, carried_vars};

use crate::graph::{GraphMethod, Task};
use sdg_base::{Val, Vals, copy_of, copy_values};
use sqlite_items::Items;
use std::alloc::{AllocError, Global};

/// The variables of a method as a call begins: the arguments, and nothing in each other.
pub fn first_vars(alloc: Global, method: &GraphMethod, args: &[Val]) -> Result<Vals, AllocError>
    ensures { IfOk result (λ vars. vars ≡ first_vars method.now args.now) }
{
    let mut vars = copy_values(alloc, args)?;
    push_units(&mut vars, method.vars.len().saturating_sub(args.len()))?;
    Ok(vars)
}

/// The variables of a method as a task begins: those that the item carries, and nothing in each other.
pub fn carried_vars(
    alloc: Global,
    method: &GraphMethod,
    task: &Task,
    values: &[Val],
) -> Result<Vals, AllocError>
    ensures { IfOk result (λ vars. vars ≡ carried_vars method.now task.now values.now) }
{
    let mut vars = Items::new(alloc);
    push_units(&mut vars, method.vars.len())?;
    set_all(alloc, task.vars.as_slice(), values, &mut vars)?;
    Ok(vars)
}

/// The variables of these numbers.
pub fn carried(alloc: Global, numbers: &[u32], vars: &[Val]) -> Result<Vals, AllocError>
    requires { IsSome (carried numbers.now vars.now) }
    ensures { IfOk result (λ values. carried numbers.now vars.now ≡ Some values) }
{
    let mut values = Items::new(alloc);
    for number in numbers {
        values.push(copy_of(alloc, &vars[*number as usize])?)?;
    }
    Ok(values)
}

/// So many variables more with nothing in them.
fn push_units(vars: &mut Vals, count: usize) -> Result<(), AllocError>
    ensures { OnOk result (vars.new ≡ vars.old ++ replicate count Val.Unit) }
{
    for _unit in 0..count {
        vars.push(Val::Unit)?;
    }
    Ok(())
}

/// Sets variables by number to values, as many as there are of both.
fn set_all(
    alloc: Global,
    numbers: &[u32],
    values: &[Val],
    vars: &mut Vals,
) -> Result<(), AllocError>
    ensures { OnOk result (vars.new ≡ set_all numbers.now values.now vars.old) }
{
    for (at, number) in numbers.iter().enumerate() {
        if at >= values.len() {
            return Ok(());
        }
        let variable = *number as usize;
        if variable < vars.len() {
            vars.set(variable, copy_of(alloc, &values[at])?);
        }
    }
    Ok(())
}
