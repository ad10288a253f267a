//! Declarations of locals, and statements that are expressions.

ghost use Rattle.std.specs.Prelude.{◌≡◌, OnOk};
ghost use Rattle.java_tree.specs.declared.tree.CallForm.{out-CallForm};
ghost use Rattle.annotations.specs.Simples as spec;

use crate::accesses::answers_value;
use crate::expressions::{call, value};
use crate::position::{Position, assigned_by, initialiser_of};
use crate::walk::{Awaited, Env, Walk, token_if};
use java_tree::{CallForm, Declaration, Expr, Local, Simple, Value};
use std::alloc::AllocError;

fn answers_by(env: &Env, name: &[u8], declaration: Option<Declaration>) -> bool
    ensures { result ≡ spec.answers_by env.now name.now declaration }
{
    match declaration {
        Some(Declaration::Field(n)) => answers_value(env, n, name),
        _ => false,
    }
}

fn answers_call(env: &Env, walk: &Walk, form: &CallForm) -> bool
    ensures { result ≡ spec.answers_call env.now walk.now (out-CallForm form.now) }
{
    match form {
        CallForm::Of(_, name, _) => answers_by(env, name.as_slice(), walk.coming(env)),
        CallForm::Own(_, _) | CallForm::OfMember(_, _, _, _) => false,
    }
}

/// Whether the expression that comes next is an access that answers a value.
fn answers(env: &Env, walk: &Walk, e: &Expr) -> bool
    ensures { result ≡ spec.answers env.now walk.now e.now }
{
    match e {
        Expr::Call(form) => answers_call(env, walk, form.get()),
        _ => false,
    }
}

fn gathers(env: &Env, walk: &Walk, v: &Value) -> bool
    ensures { result ≡ spec.gathers env.now walk.now v.now }
{
    v.is_global && answers(env, walk, &v.expr)
}

impl Walk {
    /// Goes behind the name of a local.
    #[tactic(auto, unfolding(crate::specs::Simples::declared))]
    fn declare(&mut self, env: &Env, is_partial: bool, at: usize) -> Result<(), AllocError>
        ensures { OnOk result (self.new ≡ spec.declared env.now is_partial at self.old) }
    {
        self.locals.push(token_if(is_partial, at))?;
        self.pass_if(env, is_partial, 2);
        self.pass(env, 2);
        Ok(())
    }

    /// The next statement is to merge this local, if it is a `@Partial` one.
    #[tactic(auto, unfolding(crate::specs::Simples::awaiting))]
    fn wait_for(&mut self, is_partial: bool, local: usize, token: usize)
        ensures { self.new ≡ spec.awaiting is_partial local token self.old }
    {
        if is_partial {
            self.awaited = Some(Awaited { local, token });
        }
    }
}

fn initialised(
    env: &Env,
    walk: &mut Walk,
    is_partial: bool,
    at: usize,
    initialiser: &Option<Value>,
) -> Result<(), AllocError>
    ensures { OnOk result (walk.new ≡ spec.initialised env.now is_partial at initialiser.now walk.old) }
{
    let Some(v) = initialiser else {
        return walk.note(is_partial, at, 7);
    };
    walk.pass(env, 1);
    let gathers = gathers(env, walk, v);
    walk.note(is_partial && !gathers, at, 7)?;
    value(env, walk, v, initialiser_of(is_partial))
}

/// Goes behind the declaration of a local.
#[tactic(auto, unfolding(crate::specs::Simples::local))]
pub fn local(env: &Env, walk: &mut Walk, l: &Local) -> Result<(), AllocError>
    ensures { OnOk result (walk.new ≡ spec.local env.now l.now walk.old) }
{
    let at = walk.at;
    let number = walk.locals.len();
    walk.declare(env, l.is_partial, at)?;
    initialised(env, walk, l.is_partial, at, &l.value)?;
    walk.end_wait()?;
    walk.wait_for(l.is_partial, number, at);
    Ok(())
}

fn call_alone(
    env: &Env,
    walk: &mut Walk,
    is_global: bool,
    form: &CallForm,
) -> Result<(), AllocError>
    ensures { OnOk result (walk.new ≡ spec.call_alone env.now is_global form.now walk.old) }
{
    let global = token_if(is_global, walk.at);
    walk.pass_if(env, is_global, 2);
    call(env, walk, form, Position::Statement, global)
}

/// Goes behind a statement that is an expression.
pub fn simple(env: &Env, walk: &mut Walk, s: &Simple) -> Result<(), AllocError>
    ensures { OnOk result (walk.new ≡ spec.simple_walk env.now s.now walk.old) }
{
    match s {
        Simple::Assign(_, op, v) => {
            walk.named(env)?;
            walk.pass(env, 1);
            value(env, walk, v, assigned_by(*op))
        }
        Simple::PostIncrement(_) | Simple::PostDecrement(_) => {
            walk.named(env)?;
            walk.pass(env, 1);
            Ok(())
        }
        Simple::PreIncrement(_) | Simple::PreDecrement(_) => {
            walk.pass(env, 1);
            walk.named(env)
        }
        Simple::Call(is_global, form) => call_alone(env, walk, *is_global, form),
    }
}

/// Goes behind simple statements with one token before each, and one where there is none.
#[tactic(auto, unfolding(crate::specs::Simples::simples))]
pub fn simples(env: &Env, walk: &mut Walk, all: &[Simple]) -> Result<(), AllocError>
    ensures { OnOk result (walk.new ≡ spec.simples env.now all.now walk.old) }
{
    for s in all {
        walk.pass(env, 1);
        simple(env, walk, s)?;
    }
    walk.pass_if(env, all.is_empty(), 1);
    Ok(())
}
