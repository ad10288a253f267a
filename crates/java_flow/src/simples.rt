//! Declarations of locals, and simple statements (JLS 14.4, 14.8, 16.2.4).

ghost use Rattle.std.specs.Prelude.{◌≡◌, OnOk};
ghost use Rattle.java_flow.specs.Points.{seen, behind};
ghost use Rattle.java_flow.specs.Simples.{initialised, local_walk, target, step_here, simple_walk, simples_walk};

use crate::walk::Walk;
use java_tree::{AssignOp, Local, Simple, Value};
use sdg_base::Name;
use std::alloc::{AllocError, Global};

impl<'a> Walk<'a> {
    fn initialiser(&mut self, name: &Name, value: &Option<Value>) -> Result<(), AllocError>
        ensures walked { OnOk result (seen self.new ≡ initialised name.now value.now (seen self.old)) }
        ensures same { self.new.numbers.now ≡ self.old.numbers.now }
    {
        if let Some(value) = value {
            self.pass(1);
            self.value(value, false)?;
            self.assign(name);
        }
        Ok(())
    }

    /// Goes past the declaration of a local.
    pub fn local(&mut self, alloc: Global, local: &Local) -> Result<(), AllocError>
        ensures walked { OnOk result (seen self.new ≡ local_walk local.now (seen self.old)) }
        ensures same { self.new.numbers.now ≡ self.old.numbers.now }
    {
        self.pass_if(local.is_partial, 2);
        self.pass(2);
        self.declare(alloc, &local.name)?;
        self.initialiser(&local.name, &local.value)
    }

    /// Every assignment but a plain one reads its target.
    fn target(&mut self, op: AssignOp, name: &Name) -> Result<(), AllocError>
        ensures walked { OnOk result (seen self.new ≡ target op name.now (seen self.old)) }
        ensures same { self.new.numbers.now ≡ self.old.numbers.now }
    {
        match op {
            AssignOp::Assign => Ok(()),
            _ => self.read(false, name),
        }
    }

    /// A variable is stepped up or down, behind so many tokens and before so many.
    fn step(&mut self, before: usize, name: &Name, width: usize) -> Result<(), AllocError>
        ensures walked { OnOk result (seen self.new ≡ behind width (step_here name.now (behind before (seen self.old)))) }
        ensures same { self.new.numbers.now ≡ self.old.numbers.now }
    {
        self.pass(before);
        self.read(false, name)?;
        self.assign(name);
        self.pass(width);
        Ok(())
    }

    /// Goes past a simple statement.
    pub fn simple(&mut self, simple: &Simple) -> Result<(), AllocError>
        ensures walked { OnOk result (seen self.new ≡ simple_walk simple.now (seen self.old)) }
        ensures same { self.new.numbers.now ≡ self.old.numbers.now }
    {
        match simple {
            Simple::Assign(name, op, value) => {
                self.target(*op, name)?;
                self.pass(2);
                self.value(value, false)?;
                self.assign(name);
                Ok(())
            }
            Simple::PostIncrement(name) | Simple::PostDecrement(name) => self.step(0, name, 2),
            Simple::PreIncrement(name) | Simple::PreDecrement(name) => self.step(1, name, 1),
            Simple::Call(is_global, call) => {
                self.pass_if(*is_global, 2);
                self.call(call, false)
            }
        }
    }

    /// Goes past simple statements, before each of which one token stands.
    pub fn simples(&mut self, all: &[Simple]) -> Result<(), AllocError>
        ensures walked { OnOk result (seen self.new ≡ simples_walk all.now (seen self.old)) }
        ensures same { self.new.numbers.now ≡ self.old.numbers.now }
    {
        self.pass_if(all.is_empty(), 1);
        for simple in all {
            self.pass(1);
            self.simple(simple)?;
        }
        Ok(())
    }
}
