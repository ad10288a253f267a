//! Rules on statements.

ghost use Rattle.std.specs.Prelude.{◌≡◌, map, OnOk};
ghost use Rattle.std.specs.Option.{option_copied};
ghost use Rattle.java_types.specs.Statements as spec;
ghost use Rattle.java_types.specs.Expressions.{Passing};

use crate::expressions::{expr, value};
use crate::fits;
use crate::simples::{is_vector_parameter, local, simple, simples};
use crate::walk::{Env, Given, Walk};
use java_tree::{BlockItem, Expr, ExprType, ForHeader, ForInit, Stmt, Value};
use sqlite_items::Boxed;
use std::alloc::AllocError;

/// The result of the method around a statement, and whether a loop is around it.
#[derive(Clone, Copy)]
pub struct Around {
    pub result: ExprType,
    pub in_loop: bool,
}

fn in_loop(around: Around) -> Around
    ensures { result ≡ spec.in_loop around }
{
    Around {
        result: around.result,
        in_loop: true,
    }
}

/// Whether the expression, without parentheses, is a parameter of the type of vectors or a member.
#[tactic(auto, unfolding(crate::specs::Statements::is_borrowed))]
fn is_borrowed(env: &Env, walk: &Walk, e: &Expr) -> bool
    ensures { result ≡ spec.is_borrowed env.now walk.now e.now }
{
    match e {
        Expr::Paren(inner) => is_borrowed(env, walk, inner.get()),
        Expr::Name(name) => is_vector_parameter(walk.variable(env, name.as_slice())),
        Expr::Index(_, _) => true,
        _ => false,
    }
}

#[tactic(auto, unfolding(crate::specs::Statements::condition))]
fn condition(env: &Env, walk: &mut Walk, e: &Expr) -> Result<(), AllocError>
    ensures { OnOk result (walk.new ≡ spec.condition env.now e.now walk.old) }
{
    let at = walk.at;
    let found = expr(env, walk, e, false)?;
    walk.note(!fits::may_be_boolean(found), at, 8)
}

fn returned_value(
    env: &Env,
    walk: &mut Walk,
    wanted: ExprType,
    v: &Value,
    at: usize,
    given: Given,
) -> Result<(), AllocError>
    ensures { OnOk result (walk.new ≡ spec.returned_value env.now wanted v.now at (record { given = given; walk = walk.old })) }
{
    let shared = fits::is_vector(given.found) && is_borrowed(env, walk, &v.expr);
    let misfit = !fits::is_void(wanted) && !fits::fits(wanted, given.found);
    walk.note(misfit, at, 7)?;
    walk.note(shared, at, 10)
}

/// A `return` in a method of this result.
#[tactic(auto, unfolding(crate::specs::Statements::returned))]
fn returned(
    env: &Env,
    walk: &mut Walk,
    wanted: ExprType,
    value_of: &Option<Boxed<Value>>,
) -> Result<(), AllocError>
    ensures { OnOk result (walk.new ≡ spec.returned env.now wanted value_of.now walk.old) }
{
    let at = walk.at;
    walk.pass(env, 1);
    let Some(v) = value_of else {
        walk.note(!fits::is_void(wanted), at, 12)?;
        walk.pass(env, 1);
        return Ok(());
    };
    walk.note(fits::is_void(wanted), at, 12)?;
    let value_at = walk.at;
    let given = value(env, walk, v.get())?;
    returned_value(env, walk, wanted, v.get(), value_at, given)?;
    walk.pass(env, 1);
    Ok(())
}

fn init(env: &Env, walk: &mut Walk, i: &ForInit) -> Result<(), AllocError>
    ensures { OnOk result (walk.new ≡ spec.init_walk env.now i.now walk.old) }
{
    match i {
        ForInit::Nothing => {
            walk.pass(env, 1);
            Ok(())
        }
        ForInit::Local(l) => {
            walk.pass(env, 1);
            local(env, walk, l)
        }
        ForInit::Simples(all) => simples(env, walk, all.as_slice()),
    }
}

fn test(env: &Env, walk: &mut Walk, e: &Option<Expr>) -> Result<(), AllocError>
    ensures { OnOk result (walk.new ≡ spec.test_walk env.now e.now walk.old) }
{
    match e {
        Some(e) => condition(env, walk, e),
        None => Ok(()),
    }
}

#[tactic(auto, unfolding(crate::specs::Statements::header_walk))]
fn header(env: &Env, walk: &mut Walk, h: &ForHeader) -> Result<(), AllocError>
    ensures { OnOk result (walk.new ≡ spec.header_walk env.now h.now walk.old) }
{
    walk.pass(env, 1);
    init(env, walk, &h.init)?;
    walk.pass(env, 1);
    test(env, walk, &h.test)?;
    simples(env, walk, h.update.as_slice())?;
    walk.pass(env, 1);
    Ok(())
}

fn jump(env: &Env, walk: &mut Walk, around: Around) -> Result<(), AllocError>
    ensures { OnOk result (walk.new ≡ spec.jump_walk env.now around walk.old) }
{
    let at = walk.at;
    walk.note(!around.in_loop, at, 11)?;
    walk.pass(env, 2);
    Ok(())
}

#[cycle(statements)]
#[tactic(auto, using(crate::proofs::Lists::fold_map))]
pub fn block(
    env: &Env,
    walk: &mut Walk,
    around: Around,
    items: &[BlockItem],
) -> Result<(), AllocError>
    ensures { OnOk result (walk.new ≡ spec.in_block env.now (map (spec.item_walk env.now) items.now) around walk.old) }
{
    let outer = walk.variables.len();
    walk.pass(env, 1);
    for i in items {
        item(env, walk, around, i)?;
    }
    walk.pass(env, 1);
    walk.leave(outer);
    Ok(())
}

#[cycle(statements)]
fn item(env: &Env, walk: &mut Walk, around: Around, i: &BlockItem) -> Result<(), AllocError>
    ensures { OnOk result (walk.new ≡ spec.item_walk env.now i.now around walk.old) }
{
    match i {
        BlockItem::Local(l) => {
            local(env, walk, l.get())?;
            walk.pass(env, 1);
            Ok(())
        }
        BlockItem::Stmt(s) => statement(env, walk, around, s),
    }
}

#[cycle(statements)]
fn statement(env: &Env, walk: &mut Walk, around: Around, s: &Stmt) -> Result<(), AllocError>
    ensures { OnOk result (walk.new ≡ spec.statement_walk env.now s.now around walk.old) }
{
    match s {
        Stmt::Block(items) => block(env, walk, around, items.as_slice()),
        Stmt::Empty => {
            walk.pass(env, 1);
            Ok(())
        }
        Stmt::Simple(x) => {
            simple(env, walk, x.get())?;
            walk.pass(env, 1);
            Ok(())
        }
        Stmt::If(test, first, second) => {
            walk.pass(env, 2);
            condition(env, walk, test.get())?;
            walk.pass(env, 1);
            statement(env, walk, around, first.get())?;
            match second {
                Some(second) => {
                    walk.pass(env, 1);
                    statement(env, walk, around, second.get())
                }
                None => Ok(()),
            }
        }
        Stmt::While(test, body) => {
            walk.pass(env, 2);
            condition(env, walk, test.get())?;
            walk.pass(env, 1);
            statement(env, walk, in_loop(around), body.get())
        }
        Stmt::For(h, body) => {
            let outer = walk.variables.len();
            header(env, walk, h.get())?;
            statement(env, walk, in_loop(around), body.get())?;
            walk.leave(outer);
            Ok(())
        }
        Stmt::Break | Stmt::Continue => jump(env, walk, around),
        Stmt::Return(v) => returned(env, walk, around.result, v),
    }
}
