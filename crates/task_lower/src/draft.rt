//! The code of a method while it is written.

ghost use Rattle.std.specs.Prelude.{◌≡◌, ◌+◌, [], OnOk, IfOk, slice_set};
ghost use Rattle.body_code.specs.StatementCode as spec;
ghost use Rattle.task_lower.specs.Drafting.{Emits, exit_piece, filled, jump};

use crate::instructions::place;
use flat_code::{Instr, VariableType};
use sqlite_items::Items;
use std::alloc::{AllocError, Global};

/// What a jump out of a loop's body is for: the loop's test, a `break` or a `continue`.
#[derive(Clone, Copy, PartialEq, Eq)]
pub enum Exit {
    Test,
    Break,
    Continue,
}

/// A jump whose target is not known yet.
#[derive(Clone, Copy, PartialEq, Eq)]
pub struct Hole {
    pub at: u32,
    pub exit: Exit,
}

/// The instructions so far, the number of the next task, and the types of the variables so far.
#[derive(Drop)]
pub struct Draft {
    pub code: Items<Instr>,
    pub tasks: u32,
    pub variables: Items<VariableType>,
}

fn jump(exit: Exit, break_to: u32, continue_to: u32) -> Instr
    ensures { result ≡ jump exit (record { break_to = break_to; continue_to = continue_to }) }
{
    match exit {
        Exit::Test => Instr::IfFalse(break_to),
        Exit::Break => Instr::Jump(break_to),
        Exit::Continue => Instr::Jump(continue_to),
    }
}

fn fill_one(code: &mut Items<Instr>, at: u32, instr: Instr)
    ensures { code.new ≡ slice_set code.old at instr }
{
    let at = at as usize;
    if at < code.len() {
        code.set(at, instr);
    }
}

/// It is known where `break` and `continue` go.
#[tactic(auto, using(crate::proofs::Filled::filled_more))]
pub fn fill(code: &mut Items<Instr>, holes: Items<Hole>, break_to: u32, continue_to: u32)
    ensures { code.new ≡ filled code.old holes (record { break_to = break_to; continue_to = continue_to }) }
{
    let mut holes = holes;
    while let Some(hole) = holes.pop() {
        fill_one(code, hole.at, jump(hole.exit, break_to, continue_to));
    }
}

/// The piece is a jump out of the loop.
#[tactic(auto, using(crate::proofs::Emitted::exit_emitted))]
pub fn jump_out(alloc: Global, draft: &mut Draft, exit: Exit) -> Result<Items<Hole>, AllocError>
    ensures { IfOk result (λ holes. Emits (exit_piece exit) draft.old draft.new holes) }
{
    let at = place(&draft.code)?;
    draft.code.push(jump(exit, 0, 0))?;
    let mut holes = Items::new(alloc);
    holes.push(Hole { at, exit })?;
    Ok(holes)
}

/// The task ends, and the next one begins behind it.
#[tactic(auto, using(crate::proofs::Emitted::cut_emitted))]
pub fn cut(draft: &mut Draft) -> Result<(), AllocError>
    ensures { OnOk result (Emits spec.cut draft.old draft.new []) }
{
    draft.code.push(Instr::Turn)?;
    draft.code.push(Instr::Cut(draft.tasks))?;
    count_task(draft)
}

/// One task more.
pub fn count_task(draft: &mut Draft) -> Result<(), AllocError>
    ensures tasks { OnOk result (draft.new.tasks ≡ draft.old.tasks + 1) }
    ensures code { OnOk result (draft.new.code ≡ draft.old.code) }
    ensures variables { OnOk result (draft.new.variables ≡ draft.old.variables) }
{
    let Some(tasks) = draft.tasks.checked_add(1) else {
        return Err(AllocError);
    };
    draft.tasks = tasks;
    Ok(())
}
