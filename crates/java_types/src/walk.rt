//! What is known while a class is read, from its first token to its last.

ghost use Rattle.std.specs.Prelude.{◌≡◌, length, IfOk, OnOk};
ghost use Rattle.java_types.specs.Walks as spec;

use crate::calls::{Call, Calls, METHODS_MAX};
use crate::fits;
use crate::names::Names;
use java_tree::{Declaration, ExprType, MethodKind};
use sdg_base::Name;
use sqlite_items::Items;
use std::alloc::AllocError;

/// A field, a parameter or a local.
#[derive(Clone, Copy)]
pub struct Variable {
    pub declaration: Declaration,
    pub found: ExprType,
}

/// What callers see of a method.
#[derive(Drop)]
pub struct Signature {
    pub number: usize,
    /// Whether its declaration breaks no rule. Nothing is found of calls of one that breaks one.
    pub is_sound: bool,
    pub kind: MethodKind,
    pub result: ExprType,
    pub params: Items<ExprType>,
}

/// What holds in the whole class.
#[derive(Drop)]
pub struct Env {
    /// How many tokens have a place.
    pub limit: usize,
    pub class_name: Name,
    pub fields: Names<Variable>,
    pub methods: Names<Signature>,
}

/// A rule that is broken, and the number of the token where.
#[derive(Clone, Copy)]
pub struct Finding {
    pub token: usize,
    pub rule: u8,
}

/// A value as it is handed on: whether `@Global` stands before it, and its type.
#[derive(Clone, Copy)]
pub struct Given {
    pub is_global: bool,
    pub found: ExprType,
}

/// The number of the next token, what is in scope there, and what has come of the tokens before it.
#[derive(Drop)]
pub struct Walk {
    pub at: usize,
    pub caller: usize,
    pub variables: Names<Variable>,
    pub locals: Items<ExprType>,
    pub calls: Calls,
    pub types: Items<ExprType>,
    pub names: Items<Declaration>,
    pub findings: Items<Finding>,
}

impl Walk {
    /// Goes behind the next tokens, as far as there are places.
    #[tactic(auto, unfolding(crate::specs::Walks::past))]
    pub fn pass(&mut self, env: &Env, tokens: usize)
        ensures { self.new ≡ spec.past env.now tokens self.old }
    {
        self.at = self.at.saturating_add(tokens).min(env.limit);
    }

    pub fn pass_if(&mut self, env: &Env, test: bool, tokens: usize)
        ensures { self.new ≡ spec.past_if env.now test tokens self.old }
    {
        if test {
            self.pass(env, tokens);
        }
    }

    /// Notes a broken rule.
    #[tactic(auto, unfolding(crate::specs::Walks::noted))]
    pub fn note(&mut self, broken: bool, token: usize, rule: u8) -> Result<(), AllocError>
        ensures { OnOk result (self.new ≡ spec.noted broken token rule self.old) }
    {
        if broken {
            return self.findings.push(Finding { token, rule });
        }
        Ok(())
    }

    /// Leaves room for the type of an expression before those of its parts.
    #[tactic(auto, unfolding(crate::specs::Walks::opened))]
    pub fn open(&mut self) -> Result<usize, AllocError>
        ensures { IfOk result (λ slot. (slot ≡ length self.old.types) × (self.new ≡ spec.opened self.old)) }
    {
        let slot = self.types.len();
        self.types.push(ExprType::Unknown)?;
        Ok(slot)
    }

    /// Fills the room.
    #[tactic(auto, unfolding(crate::specs::Walks::closed))]
    pub fn close(&mut self, slot: usize, found: ExprType) -> ExprType
        ensures same { result ≡ found }
        ensures walk { self.new ≡ spec.closed slot found self.old }
    {
        if slot < self.types.len() {
            self.types.set(slot, found);
        }
        found
    }

    /// Ends the block in which the variables after the first are in scope.
    #[tactic(auto, unfolding(crate::specs::Walks::left))]
    pub fn leave(&mut self, outer: usize)
        ensures { self.new ≡ spec.left outer self.old }
    {
        self.variables.truncate(outer);
    }

    /// What a name of a variable stands for: a local, a parameter, or a field that none of them hides.
    #[tactic(auto, unfolding(crate::specs::Walks::variable))]
    pub fn variable(&self, env: &Env, name: &[u8]) -> Option<Variable>
        ensures { result ≡ spec.variable env.now self.now name.now }
    {
        match self.variables.get(name) {
            Some(variable) => Some(*variable),
            None => env.fields.get(name).copied(),
        }
    }

    fn used_as(&mut self, at: usize, variable: Option<Variable>) -> Result<ExprType, AllocError>
        ensures found { IfOk result (λ t. t ≡ (spec.used_as at self.old variable).found) }
        ensures walk { OnOk result (self.new ≡ (spec.used_as at self.old variable).walk) }
    {
        match variable {
            Some(variable) => {
                self.names.push(variable.declaration)?;
                Ok(variable.found)
            }
            None => {
                self.note(true, at, 3)?;
                Ok(ExprType::Unknown)
            }
        }
    }

    /// The type of the variable whose name comes next.
    #[tactic(auto, unfolding(crate::specs::Walks::named))]
    pub fn named(&mut self, env: &Env, name: &[u8]) -> Result<ExprType, AllocError>
        ensures found { IfOk result (λ t. t ≡ (spec.named env.now name.now self.old).found) }
        ensures walk { OnOk result (self.new ≡ (spec.named env.now name.now self.old).walk) }
    {
        let at = self.at;
        let variable = self.variable(env, name);
        self.pass(env, 1);
        self.used_as(at, variable)
    }

    /// The type of a call that is a value.
    #[tactic(auto, unfolding(crate::specs::Walks::used))]
    pub fn used(&mut self, found: ExprType, at: usize) -> Result<ExprType, AllocError>
        ensures found { IfOk result (λ t. t ≡ (spec.used at (record { found = found; walk = self.old })).found) }
        ensures walk { OnOk result (self.new ≡ (spec.used at (record { found = found; walk = self.old })).walk) }
    {
        let broken = fits::is_void(found);
        self.note(broken, at, 7)?;
        Ok(fits::unless(broken, found))
    }

    /// Adds a call of a method, and says whether it closes a cycle.
    #[tactic(auto, unfolding(crate::specs::Walks::called))]
    pub fn called(&mut self, callee: usize) -> Result<bool, AllocError>
        ensures holds { IfOk result (λ t. t ≡ (spec.called callee self.old).holds) }
        ensures walk { OnOk result (self.new ≡ (spec.called callee self.old).walk) }
    {
        let caller = self.caller;
        if caller >= METHODS_MAX || callee >= METHODS_MAX {
            return Ok(false);
        }
        let closes = self.calls.reaches(callee, caller);
        self.calls.add(Call { caller, callee })?;
        Ok(closes)
    }
}
