//! Turns are spent.

ghost use Rattle.source_run.specs.Makes.{Spends};

use access_blocks::Halt;
use body_run::Stop;

/// What is left of so many turns once one is spent.
///
/// # Errors
/// The call ends where none is left.
pub(crate) fn spend(turns: u32) -> Result<u32, Stop>
    ensures { Spends result turns }
{
    if turns == 0 {
        return Err(Stop::Halt(Halt::OutOfTurns));
    }
    Ok(turns - 1)
}
