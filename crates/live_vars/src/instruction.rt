//! What single instructions read, write and lead to.

ghost use Rattle.std.specs.Prelude.{◌≡◌, ◌+◌, ◌<◌, ◌^◌, option_to_list};
ghost use Rattle.flat_code.specs.Ways.{reads};
ghost use Rattle.live_vars.specs.Steps.{behind, targets, is_written};

use flat_code::Instr;

/// The variable that an instruction reads.
pub fn read(instr: &Instr) -> Option<u32>
    ensures { option_to_list result ≡ reads instr.now }
{
    match instr {
        Instr::Load(variable) => Some(*variable),
        Instr::VectorSize(variable) => Some(*variable),
        Instr::VectorGet(variable) => Some(*variable),
        Instr::VectorSet(variable) => Some(*variable),
        Instr::CollectionLength(variable) => Some(*variable),
        Instr::CollectionItem(variable) => Some(*variable),
        Instr::CollectionSize(variable) => Some(*variable),
        Instr::CollectionCheck(variable) => Some(*variable),
        Instr::CollectionGet(variable) => Some(*variable),
        _ => None,
    }
}

/// Whether an instruction writes a variable.
pub fn is_written(instr: &Instr, variable: u32) -> bool
    ensures { result ≡ is_written instr.now variable }
{
    match instr {
        Instr::Store(written) => *written == variable,
        _ => false,
    }
}

/// The instruction behind one, where control may go on to it.
pub fn behind(instr: &Instr, at: u32) -> Option<u32>
    requires { at + 1 < 2 ^ 32 }
    ensures { option_to_list result ≡ behind at instr.now }
{
    match instr {
        Instr::Jump(_) => None,
        Instr::Return => None,
        Instr::ReturnVoid => None,
        _ => Some(at + 1),
    }
}

/// The instruction to which one may jump.
pub fn target(instr: &Instr) -> Option<u32>
    ensures { option_to_list result ≡ targets instr.now }
{
    match instr {
        Instr::Jump(to) => Some(*to),
        Instr::IfFalse(to) => Some(*to),
        _ => None,
    }
}
