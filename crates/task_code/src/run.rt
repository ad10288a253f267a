//! Runs of code on a state.

ghost use Rattle.std.specs.Prelude.{◌≡◌, IfOk, IsSome, Some};
ghost use Rattle.task_code.specs.Begun.{begun_by};
ghost use Rattle.task_code.specs.Partway.{IsLeftBy};
ghost use Rattle.task_code.specs.Seen.{ends_so, running, seen_ran};

use crate::calls::push_result;
use crate::engine::Engine;
use crate::frame::Frame;
use crate::step::{Ending, Move};
use flat_code::Instr;
use sdg_base::Outcome;
use state_classes::Access;
use std::alloc::AllocError;

/// Runs code from a frame on, until it ends. Where memory ends, the first of its accesses may have
/// been made.
pub fn run<A: Access>(
    engine: &Engine,
    code: &[Instr],
    frame: &mut Frame,
    state: &mut A,
) -> Result<Ending, AllocError>
    requires { IsSome (running engine.now code.now frame.old (A.held state.old)) }
    ensures ends { IfOk result (λ ending. seen_ran (running engine.now code.now frame.old (A.held state.old)) ≡ ends_so ending frame.new (A.held state.new)) }
    ensures left { IsLeftBy (Some (begun_by engine.now code.now frame.old)) (A.held state.old) (A.held state.new) }
{
    while frame.at < code.len() {
        match engine.step(&code[frame.at], frame)? {
            Move::Go => {}
            Move::Access(method, args) => match state.call(engine.alloc, method, &args)? {
                Outcome::Value(value) => push_result(value, &mut frame.stack)?,
                Outcome::Throws(exception) => {
                    return Ok(Ending::Stopped(Outcome::Throws(exception)));
                }
                Outcome::Limit => return Ok(Ending::Stopped(Outcome::Limit)),
            },
            Move::End(ending) => return Ok(ending),
        }
    }
    unreachable!()
}
