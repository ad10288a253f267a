//! Calls of methods.

ghost use Rattle.std.specs.Prelude.{◌≡◌, ◌<◌, ◌∷◌, [], IfOk, IsSome, None, OnOk, Some};
ghost use Rattle.flat_code.specs.Machine.{after_call, no_state, pushed_result};
ghost use Rattle.task_code.specs.Seen.{Can, Moves, called_of, calling, ends_so, frame_at, method_given, moves, running, seen, seen_ran};

use crate::engine::Engine;
use crate::frame::Frame;
use crate::stack::Stack;
use crate::step::{Called, Ending, Move, Step};
use crate::variables::first_variables;
use flat_code::{GraphMethod, Instr};
use sdg_base::Val;
use sqlite_items::at;
use std::alloc::{AllocError, Global};

/// Pushes what a method gave, which is nothing after a void one.
pub fn push_result(value: Val, stack: &mut Stack) -> Result<(), AllocError>
    ensures { OnOk result (stack.new ≡ pushed_result value stack.old) }
{
    match value {
        Val::Unit => Ok(()),
        value => stack.push(value),
    }
}

/// Goes on after a call, or ends with it.
fn after_call(called: Called, at: usize, frame: &mut Frame) -> Result<Move, AllocError>
    requires { at < usize.MAX }
    ensures { IfOk result (λ move. seen (after_call (Some (called_of called)) frame.old.stack (frame_at at frame.old)) ≡ seen (moves move frame.new)) }
{
    match called {
        Called::Gave(value, turns) => {
            push_result(value, &mut frame.stack)?;
            frame.turns = turns;
            frame.at = at + 1;
            Ok(Move::Go)
        }
        Called::Failed(how, turns) => {
            frame.turns = turns;
            Ok(Move::End(Ending::Stopped(how)))
        }
    }
}

/// The one argument of a method on what the parts brought, which has no value of its own.
fn no_value(alloc: Global) -> Result<Vec<Val>, AllocError>
    ensures { IfOk result (λ args. args.items ≡ Val.Unit ∷ []) }
{
    let mut args = Vec::new(alloc);
    args.push(Val::Unit)?;
    Ok(args)
}

impl Engine<'_> {
    /// Performs an instruction, with the methods that it calls.
    #[cycle(calls)]
    pub fn step(&self, instr: &Instr, frame: &mut Frame) -> Result<Move, AllocError>
        requires room { frame.old.at < usize.MAX }
        requires right { Can self.now instr.now frame.old }
        ensures { IfOk result (λ move. Moves self.now instr.now frame.old frame.new move) }
    {
        let at = frame.at;
        match self.perform(instr, frame)? {
            Step::Next => {
                frame.at = at + 1;
                Ok(Move::Go)
            }
            Step::Jump(to) => {
                frame.at = to as usize;
                Ok(Move::Go)
            }
            Step::Call(method, args) => {
                let called = self.call_method(method, args, &[], frame.turns)?;
                after_call(called, at, frame)
            }
            Step::Merge(method) => {
                let args = no_value(self.alloc)?;
                let called = self.call_method(method, args, self.gathered, frame.turns)?;
                after_call(called, at, frame)
            }
            Step::Access(method, args) => {
                frame.at = at + 1;
                Ok(Move::Access(method, args))
            }
            Step::End(ending) => Ok(Move::End(ending)),
        }
    }

    /// Calls a method on arguments and on what the parts brought, with so many turns.
    #[cycle(calls)]
    fn call_method(
        &self,
        method: u16,
        args: Vec<Val>,
        gathered: &[Val],
        turns: u32,
    ) -> Result<Called, AllocError>
        requires { IsSome (calling self.now method args.items gathered.now turns) }
        ensures { IfOk result (λ called. calling self.now method args.items gathered.now turns ≡ Some (called_of called)) }
    {
        if self.depth == 0 {
            unreachable!()
        }
        match at(self.graph.methods.as_slice(), usize::from(method)) {
            Some(method) => {
                let field = None;
                let engine = Engine {
                    alloc: self.alloc,
                    graph: self.graph,
                    depth: self.depth - 1,
                    field: &field,
                    key: None,
                    gathered,
                };
                engine.method_called(method, args, turns)
            }
            None => unreachable!(),
        }
    }

    /// Runs a method on arguments.
    #[cycle(calls)]
    fn method_called(
        &self,
        method: &GraphMethod,
        args: Vec<Val>,
        turns: u32,
    ) -> Result<Called, AllocError>
        requires no_field { self.now.field.now ≡ None }
        requires right { IsSome (method_given self.now method.now args.items turns) }
        ensures { IfOk result (λ called. method_given self.now method.now args.items turns ≡ Some (called_of called)) }
    {
        let mut frame = Frame {
            at: 0,
            stack: Stack::new(self.alloc),
            variables: first_variables(method, args)?,
            turns,
        };
        match self.run_method(method.code.as_slice(), &mut frame)? {
            Ending::Returned(value) => Ok(Called::Gave(value, frame.turns)),
            Ending::Stopped(how) => Ok(Called::Failed(how, frame.turns)),
            Ending::CutTo(_) | Ending::PartFor(..) => unreachable!(),
        }
    }

    /// Runs the code of a method that others call, which accesses no state.
    #[cycle(calls)]
    fn run_method(&self, code: &[Instr], frame: &mut Frame) -> Result<Ending, AllocError>
        requires no_field { self.now.field.now ≡ None }
        requires right { IsSome (running self.now code.now frame.old no_state) }
        ensures { IfOk result (λ ending. seen_ran (running self.now code.now frame.old no_state) ≡ ends_so ending frame.new no_state) }
    {
        while frame.at < code.len() {
            match self.step(&code[frame.at], frame)? {
                Move::Go => {}
                Move::Access(..) => unreachable!(),
                Move::End(ending) => return Ok(ending),
            }
        }
        unreachable!()
    }
}
