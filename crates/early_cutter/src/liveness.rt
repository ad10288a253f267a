//! Live variables, one instruction after the other from the end of the code.

ghost use Rattle.std.specs.Prelude.{◌≡◌, ℕ, Bool, filter, OnOk, IfOk};
ghost use Rattle.std.specs.List.{range_with_len};
ghost use Rattle.early_cutter.specs.Liveness.{is_live_before};

use early_task_code::Instr;
use sqlite_items::Items;
use std::alloc::{AllocError, Global};
use std::collections::BTreeSet;

/// The live variables before an instruction, from those behind it. Of a method's variables, `count`
/// in number, no other is held.
pub fn step_back(live: &mut BTreeSet<u32>, count: u32, instr: &Instr) -> Result<(), AllocError>
    ensures { OnOk result ((behind : ℕ → Bool) → live.old.keys ≡ filter behind (range_with_len 0 count) → live.new.keys ≡ filter (λ x. is_live_before instr.now (behind x) x) (range_with_len 0 count)) }
{
    match instr {
        Instr::Load(variable) if *variable < count => {
            live.insert(*variable)?;
        }
        Instr::Store(variable) => {
            live.remove(variable);
        }
        Instr::Return | Instr::ReturnVoid => live.clear(),
        _ => {}
    }
    Ok(())
}

/// The held variables in rising order.
pub fn rising(alloc: Global, live: &BTreeSet<u32>) -> Result<Items<u32>, AllocError>
    ensures { IfOk result (λ variables. variables ≡ live.now.keys) }
{
    let variables = live.iter().copied().collect(alloc)?;
    Ok(Items::from_vec(variables))
}
