//! The variables of a method, as a call or a task begins and as an item carries them.

ghost use Rattle.std.specs.Prelude.{◌≡◌, ◌++◌, ◌-◌, IfOk, IsSome, OnOk, Some, length, replicate, slice_set};
ghost use Rattle.flat_code.specs.Items.{carried, set_all, carried_variables};
ghost use Rattle.flat_code.specs.Machine.{first_variables};

use flat_code::{GraphMethod, Task};
use sdg_base::{Val, Vals, copy_of};
use sqlite_items::Items;
use std::alloc::{AllocError, Global};

/// The variables of a method as a call begins: the arguments, and nothing in each other.
pub fn first_variables(method: &GraphMethod, args: Vec<Val>) -> Result<Vec<Val>, AllocError>
    ensures { IfOk result (λ variables. variables.items ≡ first_variables method.now args.items) }
{
    let mut variables = args;
    let others = method.vars.len().saturating_sub(variables.len());
    push_units(&mut variables, others)?;
    Ok(variables)
}

/// The variables of a method as a task begins: those that the item carries, and nothing in each other.
pub fn carried_variables(
    alloc: Global,
    method: &GraphMethod,
    task: &Task,
    values: &[Val],
) -> Result<Vec<Val>, AllocError>
    ensures { IfOk result (λ variables. variables.items ≡ carried_variables method.now task.now values.now) }
{
    let mut variables = Vec::new(alloc);
    push_units(&mut variables, method.vars.len())?;
    set_all(alloc, task.vars.as_slice(), values, &mut variables)?;
    Ok(variables)
}

/// The same values again.
pub fn copied(alloc: Global, values: &[Val]) -> Result<Vec<Val>, AllocError>
    ensures { IfOk result (λ copy. copy.items ≡ values.now) }
{
    let mut copy = Vec::new(alloc);
    for value in values {
        copy.push(copy_of(alloc, value)?)?;
    }
    Ok(copy)
}

/// The variables of these numbers.
pub fn carried(alloc: Global, numbers: &[u32], variables: &[Val]) -> Result<Vals, AllocError>
    requires { IsSome (carried numbers.now variables.now) }
    ensures { IfOk result (λ values. carried numbers.now variables.now ≡ Some values) }
{
    let mut values = Items::new(alloc);
    for number in numbers {
        values.push(copy_of(alloc, &variables[*number as usize])?)?;
    }
    Ok(values)
}

/// So many variables more with nothing in them.
fn push_units(variables: &mut Vec<Val>, count: usize) -> Result<(), AllocError>
    ensures { OnOk result (variables.new.items ≡ variables.old.items ++ replicate count Val.Unit) }
{
    for _unit in 0..count {
        variables.push(Val::Unit)?;
    }
    Ok(())
}

/// Sets variables by number to values, as many as there are of both.
fn set_all(
    alloc: Global,
    numbers: &[u32],
    values: &[Val],
    variables: &mut Vec<Val>,
) -> Result<(), AllocError>
    ensures { OnOk result (variables.new.items ≡ set_all numbers.now values.now variables.old.items) }
{
    for (at, number) in numbers.iter().enumerate() {
        if at >= values.len() {
            return Ok(());
        }
        let value = copy_of(alloc, &values[at])?;
        set_variable(variables, *number as usize, value);
    }
    Ok(())
}

/// Sets the variable of a number. Where there is none, nothing is set.
fn set_variable(variables: &mut Vec<Val>, number: usize, value: Val)
    ensures { variables.new.items ≡ slice_set variables.old.items number value }
{
    if number < variables.len() {
        variables[number] = value;
    }
}
