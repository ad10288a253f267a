//! Instructions one behind the other, and jumps whose targets are known later.

ghost use Rattle.std.specs.Prelude.{◌≡◌, ◌+◌, ◌<◌, [], ◌∷◌, ◌++◌, length, slice_set, OnOk, IfOk};
ghost use Rattle.body_code.specs.Codes.{plain};
ghost use Rattle.task_lower.specs.Pushing.{Pushes};

use flat_code::Instr;
use sqlite_items::Items;
use std::alloc::AllocError;

/// A number as one of 32 bits. One that is too large counts as what memory does not hold.
pub fn narrow(number: usize) -> Result<u32, AllocError>
    ensures { IfOk result (λ n. n ≡ number) }
{
    if number > u32::MAX as usize {
        return Err(AllocError);
    }
    Ok(number as u32)
}

/// A number as one of 16 bits. One that is too large counts as what memory does not hold.
pub fn narrower(number: usize) -> Result<u16, AllocError>
    ensures { IfOk result (λ n. n ≡ number) }
{
    if number > u16::MAX as usize {
        return Err(AllocError);
    }
    Ok(number as u16)
}

/// The place behind the code.
pub fn place(code: &Items<Instr>) -> Result<u32, AllocError>
    ensures { IfOk result (λ at. at ≡ length code.now) }
{
    narrow(code.len())
}

/// One instruction more.
#[tactic(auto, using(crate::proofs::Pushed::pushed))]
pub fn push(code: &mut Items<Instr>, instr: Instr) -> Result<(), AllocError>
    ensures { OnOk result (Pushes (plain (instr ∷ [])) code.old code.new) }
{
    code.push(instr)?;
    Ok(())
}

/// Two instructions more.
#[tactic(auto, using(crate::proofs::Pushed::two_pushed))]
pub fn push_two(code: &mut Items<Instr>, first: Instr, second: Instr) -> Result<(), AllocError>
    ensures { OnOk result (Pushes (plain (first ∷ second ∷ [])) code.old code.new) }
{
    code.push(first)?;
    code.push(second)?;
    Ok(())
}

/// A jump where the top is false, whose target is not known yet: its place.
pub fn branch(code: &mut Items<Instr>) -> Result<u32, AllocError>
    ensures at { IfOk result (λ at. at ≡ length code.old) }
    ensures code { OnOk result (code.new ≡ code.old ++ Instr.IfFalse 0 ∷ []) }
{
    let at = place(code)?;
    code.push(Instr::IfFalse(0))?;
    Ok(at)
}

/// A jump whose target is not known yet: its place.
pub fn leave(code: &mut Items<Instr>) -> Result<u32, AllocError>
    ensures at { IfOk result (λ at. at ≡ length code.old) }
    ensures code { OnOk result (code.new ≡ code.old ++ Instr.Jump 0 ∷ []) }
{
    let at = place(code)?;
    code.push(Instr::Jump(0))?;
    Ok(at)
}

/// A jump where the top is false goes so far behind the code.
pub fn branch_behind(code: &mut Items<Instr>, at: u32, over: u32) -> Result<(), AllocError>
    requires { at < length code.old }
    ensures { OnOk result (code.new ≡ slice_set code.old at (Instr.IfFalse (length code.old + over))) }
{
    let behind = place(code)?;
    let Some(target) = behind.checked_add(over) else {
        return Err(AllocError);
    };
    code.set(at as usize, Instr::IfFalse(target));
    Ok(())
}

/// A jump goes behind the code.
pub fn leave_behind(code: &mut Items<Instr>, at: u32) -> Result<(), AllocError>
    requires { at < length code.old }
    ensures { OnOk result (code.new ≡ slice_set code.old at (Instr.Jump (length code.old))) }
{
    let target = place(code)?;
    code.set(at as usize, Instr::Jump(target));
    Ok(())
}
