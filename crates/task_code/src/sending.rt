//! What a task gives as it ends.

ghost use Rattle.std.specs.Prelude.{◌≡◌, slice_get, drop, IfOk};
ghost use Rattle.flat_code.specs.Items.{done, field_number, join_number, parted, sent, stopped, width_of, first_part};
ghost use Rattle.flat_code.specs.Items as items;
ghost use Rattle.flat_code.specs.declared.graph.TaskKind.TheVariants as kind;
ghost use Rattle.task_code.specs.Given.{CanGive, Gives, sender_of};
ghost use Rattle.graph_safety.specs.Safe.{IsWidth};
ghost use Rattle.task_code.specs.Seen.{ending_of, frame_of};

use crate::frame::Frame;
use crate::out::Out;
use crate::sender::Sender;
use crate::signatures::number_of;
use crate::step::Ending;
use crate::variables::carried;
use flat_code::{Instr, Task, TaskKind};
use placement::slot_of;
use sdg_base::{Item, Name, Outcome, Port, Val};
use sqlite_items::at;
use std::alloc::AllocError;

/// The join task of the first part in code, from an instruction on.
fn first_part(code: &[Instr], start: usize) -> Option<u32>
    ensures { result ≡ first_part (drop start code.now) }
{
    for at in start..code.len() {
        if let Instr::Part(join) = &code[at] {
            return Some(*join);
        }
    }
    None
}

impl Sender<'_> {
    /// The end of the call.
    pub fn done(&self, how: Outcome) -> Out
        ensures { Gives (done (sender_of self.now) how) result }
    {
        Out::Result(Item::Done {
            call: self.call,
            outcome: how,
        })
    }

    fn field_number(&self, name: &Option<Name>) -> Option<u16>
        ensures { result ≡ field_number self.now.graph.now name.now }
    {
        match name {
            Some(name) => match number_of(name.as_slice(), self.graph.fields.as_slice()) {
                Some(number) => Some(number as u16),
                None => None,
            },
            None => None,
        }
    }

    /// How many slots or instances a field has.
    fn width_of(&self, field: u16) -> u8
        ensures value { result ≡ width_of self.now.widths.now field }
        ensures fits { IsWidth result }
    {
        match at(self.widths.as_slice(), usize::from(field)) {
            Some(width) => *width,
            None => 1,
        }
    }

    /// The number of the join task of a visit's task.
    fn join_number(&self, task: u32) -> Option<u32>
        ensures { result ≡ join_number self.now.graph.now task }
    {
        match at(self.graph.tasks.as_slice(), task as usize) {
            Some(task) => match at(self.graph.methods.as_slice(), usize::from(task.method)) {
                Some(method) => first_part(method.code.as_slice(), task.at as usize),
                None => None,
            },
            None => None,
        }
    }

    /// A part of the visit, for a join task.
    fn parted(&self, join: u32, how: Outcome, frame: &Frame) -> Result<Out, AllocError>
        requires { CanGive (parted (sender_of self.now) (sender_of self.now).visited join (slice_get self.now.graph.now.tasks join) (frame_of frame.now) how) }
        ensures { IfOk result (λ out. Gives (parted (sender_of self.now) (sender_of self.now).visited join (slice_get self.now.graph.now.tasks join) (frame_of frame.now) how) out) }
    {
        match (self.visited, at(self.graph.tasks.as_slice(), join as usize)) {
            (Some(visited), Some(to)) => Ok(Out::Part(Item::Part {
                call: self.call,
                task: join,
                width: visited.width,
                instance: visited.instance,
                turns: frame.turns,
                vars: carried(self.alloc, to.vars.as_slice(), frame.variables.as_slice())?,
                value: how,
            })),
            _ => unreachable!(),
        }
    }

    /// The end of the call, which a visit brings as its part.
    fn stopped(&self, how: Outcome, frame: &Frame) -> Result<Out, AllocError>
        requires { CanGive (stopped (sender_of self.now) (sender_of self.now).visited (frame_of frame.now) how) }
        ensures { IfOk result (λ out. Gives (stopped (sender_of self.now) (sender_of self.now).visited (frame_of frame.now) how) out) }
    {
        match self.visited {
            None => Ok(self.done(how)),
            Some(visited) => match self.join_number(visited.task) {
                Some(join) => self.parted(join, how, frame),
                None => unreachable!(),
            },
        }
    }

    /// Work for the slot of the key on the stack.
    fn keyed(&self, task: u32, to: &Task, field: u16, frame: &mut Frame) -> Result<Out, AllocError>
        requires { CanGive (items.sent_for (sender_of self.now) task kind.Keyed (Some field) frame.old.stack frame.old.turns (items.carried to.now.vars frame.old.variables.items)) }
        ensures { IfOk result (λ out. Gives (items.sent_for (sender_of self.now) task kind.Keyed (Some field) frame.old.stack frame.old.turns (items.carried to.now.vars frame.old.variables.items)) out) }
    {
        match frame.stack.take() {
            Some(Val::Long(key)) => {
                let port = Port::Slot {
                    field,
                    slot: slot_of(key, self.width_of(field)),
                };
                let vars = carried(self.alloc, to.vars.as_slice(), frame.variables.as_slice())?;
                let work = Item::Work {
                    call: self.call,
                    task,
                    key: Some(key),
                    turns: frame.turns,
                    vars,
                };
                Ok(Out::Send(port, work))
            }
            _ => unreachable!(),
        }
    }

    /// Work for the instance that was picked.
    fn local(&self, task: u32, to: &Task, field: u16, frame: &Frame) -> Result<Out, AllocError>
        requires { CanGive (items.sent_for (sender_of self.now) task kind.Local (Some field) frame.now.stack frame.now.turns (items.carried to.now.vars frame.now.variables.items)) }
        ensures { IfOk result (λ out. Gives (items.sent_for (sender_of self.now) task kind.Local (Some field) frame.now.stack frame.now.turns (items.carried to.now.vars frame.now.variables.items)) out) }
    {
        let port = Port::Inst {
            field,
            number: self.pick % self.width_of(field),
        };
        let vars = carried(self.alloc, to.vars.as_slice(), frame.variables.as_slice())?;
        let work = Item::Work {
            call: self.call,
            task,
            key: None,
            turns: frame.turns,
            vars,
        };
        Ok(Out::Send(port, work))
    }

    /// A visit of each instance.
    fn visit(&self, task: u32, to: &Task, field: u16, frame: &Frame) -> Result<Out, AllocError>
        requires { CanGive (items.sent_for (sender_of self.now) task kind.Visit (Some field) frame.now.stack frame.now.turns (items.carried to.now.vars frame.now.variables.items)) }
        ensures { IfOk result (λ out. Gives (items.sent_for (sender_of self.now) task kind.Visit (Some field) frame.now.stack frame.now.turns (items.carried to.now.vars frame.now.variables.items)) out) }
    {
        let width = self.width_of(field);
        let vars = carried(self.alloc, to.vars.as_slice(), frame.variables.as_slice())?;
        let visit = Item::Visit {
            call: self.call,
            task,
            width,
            turns: frame.turns,
            vars,
        };
        Ok(Out::Broadcast(field, width, visit))
    }

    /// The item that begins a task.
    fn sent(&self, task: u32, frame: &mut Frame) -> Result<Out, AllocError>
        requires { CanGive (sent (sender_of self.now) task (slice_get self.now.graph.now.tasks task) (frame_of frame.old)) }
        ensures { IfOk result (λ out. Gives (sent (sender_of self.now) task (slice_get self.now.graph.now.tasks task) (frame_of frame.old)) out) }
    {
        match at(self.graph.tasks.as_slice(), task as usize) {
            Some(to) => match (to.kind, self.field_number(&to.field)) {
                (TaskKind::Keyed, Some(field)) => self.keyed(task, to, field, frame),
                (TaskKind::Local, Some(field)) => self.local(task, to, field, frame),
                (TaskKind::Visit, Some(field)) => self.visit(task, to, field, frame),
                _ => unreachable!(),
            },
            None => unreachable!(),
        }
    }

    /// What a run gives that ended so.
    pub fn ended(&self, ending: Ending, frame: &mut Frame) -> Result<Out, AllocError>
        requires { CanGive (items.ended (sender_of self.now) (ending_of ending) (frame_of frame.old)) }
        ensures { IfOk result (λ out. Gives (items.ended (sender_of self.now) (ending_of ending) (frame_of frame.old)) out) }
    {
        match ending {
            Ending::Returned(value) => Ok(self.done(Outcome::Value(value))),
            Ending::Stopped(how) => self.stopped(how, frame),
            Ending::CutTo(task) => self.sent(task, frame),
            Ending::PartFor(join, value) => self.parted(join, Outcome::Value(value), frame),
        }
    }
}
