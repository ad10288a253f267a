//! Which names and accesses stand where in expressions.

ghost use Rattle.std.specs.Prelude.{◌≡◌, length, map, OnOk};
ghost use Rattle.annotations.specs.Walks.{coming};
ghost use Rattle.annotations.specs.Expressions as spec;

use crate::accesses::{literal_value, reach_of, variable_key};
use crate::position::Position;
use crate::site::Key;
use crate::walk::{Awaited, Env, Walk, is_merge_method, kind_at, token_if};
use java_tree::{CallForm, Declaration, Expr, Value};
use std::alloc::AllocError;

fn is_local(local: usize, awaited: Option<Awaited>) -> bool
    ensures { result ≡ spec.is_local local awaited }
{
    match awaited {
        Some(awaited) => local == awaited.local,
        None => false,
    }
}

fn is_awaited(declaration: Option<Declaration>, awaited: Option<Awaited>) -> bool
    ensures { result ≡ spec.is_awaited declaration awaited }
{
    match declaration {
        Some(Declaration::Local(local)) => is_local(local, awaited),
        _ => false,
    }
}

fn value_key(is_global: bool, key: Key) -> Key
    ensures { result ≡ spec.value_key is_global key }
{
    if is_global { Key::Compound } else { key }
}

fn argument_position(of_merge: bool, at: usize, merges: bool) -> Position
    ensures { result ≡ spec.argument_position of_merge at merges }
{
    if of_merge {
        Position::Merged { call: at, merges }
    } else {
        Position::Inside
    }
}

impl Walk {
    fn is_merged(&self, env: &Env, position: Position, global: Option<usize>) -> bool
        ensures { result ≡ spec.is_merged env.now position global self.now }
    {
        position.merges() && (global.is_some() && is_awaited(self.coming(env), self.awaited))
    }

    fn alone(&mut self, position: Position, global: Option<usize>) -> Result<(), AllocError>
        ensures { OnOk result (self.new ≡ spec.alone position global self.old) }
    {
        match global {
            Some(_) => Ok(()),
            None => self.unfit(position),
        }
    }

    #[tactic(auto, unfolding(crate::specs::Expressions::unmerged_name))]
    fn unmerged_name(
        &mut self,
        env: &Env,
        position: Position,
        global: Option<usize>,
    ) -> Result<(), AllocError>
        ensures { OnOk result (self.new ≡ spec.unmerged_name env.now position global self.old) }
    {
        let at = self.at;
        let collection = self.is_collection(self.coming(env));
        self.alone(position, global)?;
        self.note_at(global, 10)?;
        self.note(collection, at, 12)?;
        self.named(env)
    }

    /// A name that is an expression.
    #[tactic(auto, unfolding(crate::specs::Expressions::variable))]
    fn variable(
        &mut self,
        env: &Env,
        position: Position,
        global: Option<usize>,
    ) -> Result<(), AllocError>
        ensures { OnOk result (self.new ≡ spec.variable env.now position global self.old) }
    {
        if self.is_merged(env, position, global) {
            self.take(env);
            self.awaited = None;
            return Ok(());
        }
        self.unmerged_name(env, position, global)
    }

    /// Goes behind the name of a method of the class.
    #[tactic(auto, unfolding(crate::specs::Expressions::own_head))]
    fn own_head(&mut self, env: &Env, count: usize) -> Result<(), AllocError>
        ensures { OnOk result (self.new ≡ spec.own_head env.now count self.old) }
    {
        let at = self.at;
        let of_merge = is_merge_method(env, self.coming(env));
        self.note(of_merge && count != 1, at, 12)?;
        self.take(env);
        Ok(())
    }
}

#[cycle(expressions)]
fn inside(env: &Env, walk: &mut Walk, e: &Expr) -> Result<(), AllocError>
    ensures { OnOk result (walk.new ≡ spec.inside (spec.expr_of env.now e.now) walk.old) }
{
    expr(env, walk, e, Position::Inside, None)
}

/// Goes behind an expression, which stands behind `@Global` at some token or not.
#[cycle(expressions)]
pub fn expr(
    env: &Env,
    walk: &mut Walk,
    e: &Expr,
    position: Position,
    global: Option<usize>,
) -> Result<(), AllocError>
    ensures { OnOk result (walk.new ≡ (spec.expr_of env.now e.now).walk position global walk.old) }
{
    match e {
        Expr::Conditional(test, first, second) => {
            walk.unexpected(position, global)?;
            inside(env, walk, test.get())?;
            walk.pass(env, 1);
            inside(env, walk, first.get())?;
            walk.pass(env, 1);
            inside(env, walk, second.get())
        }
        Expr::Binary(_, left, right) => {
            walk.unexpected(position, global)?;
            inside(env, walk, left.get())?;
            walk.pass(env, 1);
            inside(env, walk, right.get())
        }
        Expr::Unary(_, operand) => {
            walk.unexpected(position, global)?;
            walk.pass(env, 1);
            inside(env, walk, operand.get())
        }
        Expr::Cast(_, operand) => {
            walk.unexpected(position, global)?;
            walk.pass(env, 3);
            inside(env, walk, operand.get())
        }
        Expr::Number { .. } | Expr::Bool(_) => {
            walk.unexpected(position, global)?;
            walk.pass(env, 1);
            Ok(())
        }
        Expr::Paren(inner) => {
            walk.unexpected(position, global)?;
            walk.pass(env, 1);
            inside(env, walk, inner.get())?;
            walk.pass(env, 1);
            Ok(())
        }
        Expr::New(_, size) => {
            walk.unexpected(position, global)?;
            walk.pass(env, 3);
            inside(env, walk, size.get())?;
            walk.pass(env, 1);
            Ok(())
        }
        Expr::Name(_) => walk.variable(env, position, global),
        Expr::Index(_, index) => {
            walk.unexpected(position, global)?;
            walk.named(env)?;
            walk.pass(env, 1);
            inside(env, walk, index.get())?;
            walk.pass(env, 1);
            Ok(())
        }
        Expr::Member(_, _) => {
            walk.unexpected(position, global)?;
            walk.named(env)?;
            walk.pass(env, 2);
            Ok(())
        }
        Expr::Call(form) => {
            walk.unfit(position)?;
            call(env, walk, form.get(), position, global)
        }
    }
}

/// The expression that comes next, as a key.
fn key(env: &Env, walk: &Walk, e: &Expr) -> Key
    ensures { result ≡ (spec.expr_of env.now e.now).key walk.now }
{
    match e {
        Expr::Number { digits, long, .. } => Key::Literal(literal_value(*digits, *long)),
        Expr::Name(_) => variable_key(walk.coming(env)),
        Expr::Paren(inner) => key(env, walk, inner.get()),
        _ => Key::Compound,
    }
}

fn first_key(env: &Env, walk: &Walk, args: &[Value]) -> Key
    ensures { result ≡ spec.first_key (map (spec.value_of env.now) args.now) walk.now }
{
    match args.first() {
        Some(v) => value_key(v.is_global, key(env, walk, &v.expr)),
        None => Key::Compound,
    }
}

/// Goes up to the arguments of an access to the field of this number.
#[tactic(auto, unfolding(crate::specs::Expressions::access_head))]
fn access_head(
    env: &Env,
    walk: &mut Walk,
    field: usize,
    position: Position,
    global: Option<usize>,
    name: &[u8],
    args: &[Value],
) -> Result<(), AllocError>
    ensures { OnOk result (walk.new ≡ spec.access_head env.now field position global name.now (spec.first_key (map (spec.value_of env.now) args.now)) walk.old) }
{
    walk.access(env, field, position, global, name)?;
    walk.take(env);
    let first = first_key(env, walk, args);
    walk.add_site(
        field,
        reach_of(kind_at(env, field), global.is_some(), first),
    )?;
    walk.pass(env, 2);
    Ok(())
}

#[tactic(auto, unfolding(crate::specs::Expressions::dotted_head))]
fn dotted_head(env: &Env, walk: &mut Walk, global: Option<usize>) -> Result<(), AllocError>
    ensures { OnOk result (walk.new ≡ spec.dotted_head env.now global walk.old) }
{
    walk.note_at(global, 10)?;
    walk.named(env)?;
    walk.pass(env, 2);
    Ok(())
}

/// Goes up to the arguments of a call of a method of what a name stands for.
fn head(
    env: &Env,
    walk: &mut Walk,
    position: Position,
    global: Option<usize>,
    name: &[u8],
    args: &[Value],
) -> Result<(), AllocError>
    ensures { OnOk result (walk.new ≡ spec.head_of env.now position global name.now (spec.first_key (map (spec.value_of env.now) args.now)) (coming env.now walk.old) walk.old) }
{
    match walk.coming(env) {
        Some(Declaration::Field(n)) => access_head(env, walk, n, position, global, name, args),
        _ => dotted_head(env, walk, global),
    }
}

/// Goes behind a call.
#[cycle(expressions)]
#[tactic(auto, using(crate::proofs::Lists::length_map))]
pub fn call(
    env: &Env,
    walk: &mut Walk,
    form: &CallForm,
    position: Position,
    global: Option<usize>,
) -> Result<(), AllocError>
    ensures { OnOk result (walk.new ≡ spec.call_of env.now form.now position global walk.old) }
{
    match form {
        CallForm::Own(_, args) => {
            walk.note_at(global, 10)?;
            let of_merge = is_merge_method(env, walk.coming(env));
            let merges = position.is_for_merge() && !global.is_some();
            let inner = argument_position(of_merge, walk.at, merges);
            walk.own_head(env, args.len())?;
            arguments(env, walk, inner, args.as_slice())
        }
        CallForm::Of(_, name, args) => {
            head(
                env,
                walk,
                position,
                global,
                name.as_slice(),
                args.as_slice(),
            )?;
            arguments(env, walk, Position::Inside, args.as_slice())
        }
        CallForm::OfMember(_, index, _, args) => {
            walk.note_at(global, 10)?;
            walk.named(env)?;
            walk.pass(env, 1);
            inside(env, walk, index.get())?;
            walk.pass(env, 3);
            arguments(env, walk, Position::Inside, args.as_slice())
        }
    }
}

#[cycle(expressions)]
#[tactic(auto, using(crate::proofs::Lists::length_map, crate::proofs::Lists::fold_map))]
fn arguments(
    env: &Env,
    walk: &mut Walk,
    position: Position,
    args: &[Value],
) -> Result<(), AllocError>
    ensures { OnOk result (walk.new ≡ spec.arguments env.now position (map (spec.value_of env.now) args.now) walk.old) }
{
    for v in args {
        walk.pass(env, 1);
        value(env, walk, v, position)?;
    }
    walk.pass_if(env, args.is_empty(), 1);
    walk.pass(env, 1);
    Ok(())
}

/// Goes behind a value.
#[cycle(expressions)]
pub fn value(env: &Env, walk: &mut Walk, v: &Value, position: Position) -> Result<(), AllocError>
    ensures { OnOk result (walk.new ≡ (spec.value_of env.now v.now).walk position walk.old) }
{
    let global = token_if(v.is_global, walk.at);
    walk.pass_if(env, v.is_global, 2);
    expr(env, walk, &v.expr, position, global)
}
