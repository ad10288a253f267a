//! The instructions of the flat code, one function each.

ghost use Rattle.std.specs.Prelude.{◌≡◌, ℕ, ◌∷◌, ◌<◌, IfOk, IsSome, List, OnOk, Some, length, slice_get};
ghost use Rattle.sdg_base.specs.declared.val.Val.{Val};
ghost use Rattle.early_tables.specs.States.{State, arity};
ghost use Rattle.early_task_code.specs.Machine.{Setting, Rest, operated, casted, key_value, arguments, accessed, pushed_result, cut_to};
ghost use Rattle.early_task_code.specs.Steps.{Pushes, Operates, Casts, Stores, CanOperate, CanCast, CanStore, CanAccess, EndsAddressed, IsAddressed, leads, ran};

use crate::context::Context;
use crate::out::Out;
use crate::stack::Stack;
use crate::variables::carried;
use early_tables::{Access, Method};
use placement::slot_of;
use sdg_base::{BinOp, Item, Num, Outcome, Port, Val, Vals, add, copy_of};
use sqlite_items::Items;
use std::alloc::{AllocError, Global};

/// What an instruction leads to: the one behind it, or the end of the task.
pub enum Step {
    Next,
    End(Out),
}

/// The end of a call.
pub fn ended(call: u32, outcome: Outcome) -> Out
    ensures { result ≡ Out.Result (Item.Done call outcome) }
{
    Out::Result(Item::Done { call, outcome })
}

pub fn load(alloc: Global, variable: u32, vars: &Vals, stack: &mut Stack) -> Result<(), AllocError>
    requires { variable < length vars.now }
    ensures { OnOk result (Pushes (slice_get vars.now variable) stack.old stack.new) }
{
    let value = copy_of(alloc, &vars.as_slice()[variable as usize])?;
    stack.push(value)?;
    Ok(())
}

pub fn store(variable: u32, stack: &mut Stack, vars: &mut Vals)
    requires { CanStore variable stack.old vars.old }
    ensures { Stores variable stack.old vars.old stack.new vars.new }
{
    vars.set(variable as usize, stack.pop());
}

fn operated(op: BinOp, num: Num, left: &Val, right: &Val) -> Val
    requires { IsSome (operated op num left.now right.now) }
    ensures { operated op num left.now right.now ≡ Some result }
{
    match (op, num) {
        (BinOp::Add, Num::Int) => add(left, right),
        (BinOp::Add, Num::Long) => add(left, right),
        _ => unreachable!(),
    }
}

pub fn binary(op: BinOp, num: Num, stack: &mut Stack) -> Result<(), AllocError>
    requires { CanOperate op num stack.old }
    ensures { OnOk result (Operates op num stack.old stack.new) }
{
    let right = stack.pop();
    let left = stack.pop();
    stack.push(operated(op, num, &left, &right))
}

pub fn cast(num: Num, stack: &mut Stack) -> Result<(), AllocError>
    requires { CanCast num stack.old }
    ensures { OnOk result (Casts num stack.old stack.new) }
{
    match (num, stack.pop()) {
        (Num::Long, Val::Int(n)) => stack.push(Val::Long(i64::from(n))),
        _ => unreachable!(),
    }
}

pub fn push_key(key: Option<i64>, stack: &mut Stack) -> Result<(), AllocError>
    requires { IsSome (key_value key) }
    ensures { OnOk result (Pushes (key_value key) stack.old stack.new) }
{
    match key {
        Some(key) => stack.push(Val::Long(key)),
        None => unreachable!(),
    }
}

/// So many arguments off the stack, in the order in which they were pushed.
fn pop_arguments(alloc: Global, count: usize, stack: &mut Stack) -> Result<Vals, AllocError>
    requires { IsSome (arguments count stack.old) }
    ensures { IfOk result (λ args. arguments count stack.old ≡ Some (args, stack.new)) }
{
    if count == 0 {
        return Ok(Items::new(alloc));
    }
    let last = stack.pop();
    let mut args = pop_arguments(alloc, count - 1, stack)?;
    args.push(last)?;
    Ok(args)
}

/// Calls a method of the field with arguments off the stack.
pub fn access<A: Access>(
    alloc: Global,
    call: u32,
    method: Method,
    stack: &mut Stack,
    state: &mut A,
) -> Result<Step, AllocError>
    requires { CanAccess method stack.old (A.held state.old) }
    ensures addressed { IfOk result EndsAddressed }
    ensures leads { IfOk result (λ step. (s : Setting) (next : Rest) (vars : List Val) (turns : ℕ) → s.call ≡ call
        → accessed s next method (arguments (arity method) stack.old) vars turns (A.held state.old)
        ≡ leads next step stack.new vars turns (A.held state.new)) }
{
    let args = pop_arguments(alloc, method.arity(), stack)?;
    match state.call(alloc, method, &args)? {
        Outcome::Value(value) => {
            push_result(value, stack)?;
            Ok(Step::Next)
        }
        Outcome::Throws(exception) => Ok(Step::End(ended(call, Outcome::Throws(exception)))),
        Outcome::Limit => Ok(Step::End(ended(call, Outcome::Limit))),
    }
}

/// Pushes what a method gave, which is nothing after a void one.
fn push_result(value: Val, stack: &mut Stack) -> Result<(), AllocError>
    ensures { OnOk result (stack.new ≡ pushed_result value stack.old) }
{
    match value {
        Val::Unit => Ok(()),
        value => stack.push(value),
    }
}

/// Sends the work to the slot of the key on the stack.
pub fn cut(
    alloc: Global,
    context: &Context,
    task: u32,
    turns: u32,
    stack: &mut Stack,
    vars: &Vals,
) -> Result<Out, AllocError>
    requires { (state : State) × IsSome (cut_to context.now task (slice_get context.now.graph.tasks task) stack.old vars.now turns state) }
    ensures addressed { IfOk result IsAddressed }
    ensures ran { IfOk result (λ out. (state : State) → cut_to context.now task (slice_get context.now.graph.tasks task) stack.old vars.now turns state ≡ ran out state) }
{
    let to = &context.graph().tasks.as_slice()[task as usize];
    match (to.field, stack.pop()) {
        (Some(field), Val::Long(key)) => {
            let port = Port::Slot {
                field,
                slot: slot_of(key, context.slots()),
            };
            let work = Item::Work {
                call: context.call(),
                task,
                key: Some(key),
                turns,
                vars: carried(alloc, to.vars.as_slice(), vars.as_slice())?,
            };
            Ok(Out::Send(port, work))
        }
        _ => unreachable!(),
    }
}
