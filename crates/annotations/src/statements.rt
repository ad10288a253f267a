//! Statements.

ghost use Rattle.std.specs.Prelude.{◌≡◌, map, OnOk};
ghost use Rattle.annotations.specs.Expressions.{inside, expr_of};
ghost use Rattle.annotations.specs.Statements as spec;

use crate::expressions::{expr, value};
use crate::position::Position;
use crate::simples::{local, simple, simples};
use crate::walk::{Env, Walk};
use java_tree::{BlockItem, Expr, ForHeader, ForInit, Stmt, Value};
use sqlite_items::Boxed;
use std::alloc::AllocError;

fn condition(env: &Env, walk: &mut Walk, e: &Expr) -> Result<(), AllocError>
    ensures { OnOk result (walk.new ≡ inside (expr_of env.now e.now) walk.old) }
{
    expr(env, walk, e, Position::Inside, None)
}

fn returned(env: &Env, walk: &mut Walk, v: &Option<Boxed<Value>>) -> Result<(), AllocError>
    ensures { OnOk result (walk.new ≡ spec.returned env.now v.now walk.old) }
{
    let Some(v) = v else {
        walk.pass(env, 2);
        return Ok(());
    };
    walk.pass(env, 1);
    value(env, walk, v.get(), Position::Whole)?;
    walk.pass(env, 1);
    Ok(())
}

fn init(env: &Env, walk: &mut Walk, i: &ForInit) -> Result<(), AllocError>
    ensures { OnOk result (walk.new ≡ spec.init_walk env.now i.now walk.old) }
{
    match i {
        ForInit::Nothing => {
            walk.pass(env, 1);
            Ok(())
        }
        ForInit::Local(l) => {
            walk.pass(env, 1);
            local(env, walk, l)?;
            walk.end_wait()
        }
        ForInit::Simples(all) => simples(env, walk, all.as_slice()),
    }
}

fn test(env: &Env, walk: &mut Walk, e: &Option<Expr>) -> Result<(), AllocError>
    ensures { OnOk result (walk.new ≡ spec.test_walk env.now e.now walk.old) }
{
    match e {
        Some(e) => condition(env, walk, e),
        None => Ok(()),
    }
}

#[tactic(auto, unfolding(crate::specs::Statements::header_walk))]
fn header(env: &Env, walk: &mut Walk, h: &ForHeader) -> Result<(), AllocError>
    ensures { OnOk result (walk.new ≡ spec.header_walk env.now h.now walk.old) }
{
    walk.in_header = true;
    walk.pass(env, 1);
    init(env, walk, &h.init)?;
    walk.pass(env, 1);
    test(env, walk, &h.test)?;
    simples(env, walk, h.update.as_slice())?;
    walk.pass(env, 1);
    walk.in_header = false;
    Ok(())
}

/// Goes behind a block.
#[cycle(statements)]
#[tactic(auto, using(crate::proofs::Lists::fold_map))]
pub fn block(env: &Env, walk: &mut Walk, items: &[BlockItem]) -> Result<(), AllocError>
    ensures { OnOk result (walk.new ≡ spec.in_block env.now (map (spec.item_walk env.now) items.now) walk.old) }
{
    walk.pass(env, 1);
    for i in items {
        item(env, walk, i)?;
    }
    walk.end_wait()?;
    walk.pass(env, 1);
    Ok(())
}

#[cycle(statements)]
fn item(env: &Env, walk: &mut Walk, i: &BlockItem) -> Result<(), AllocError>
    ensures { OnOk result (walk.new ≡ spec.item_walk env.now i.now walk.old) }
{
    match i {
        BlockItem::Local(l) => {
            local(env, walk, l.get())?;
            walk.pass(env, 1);
            Ok(())
        }
        BlockItem::Stmt(s) => statement(env, walk, s),
    }
}

#[cycle(statements)]
fn statement(env: &Env, walk: &mut Walk, s: &Stmt) -> Result<(), AllocError>
    ensures { OnOk result (walk.new ≡ spec.statement_walk env.now s.now walk.old) }
{
    match s {
        Stmt::Block(items) => {
            walk.end_wait()?;
            block(env, walk, items.as_slice())
        }
        Stmt::Empty => {
            walk.end_wait()?;
            walk.pass(env, 1);
            Ok(())
        }
        Stmt::Simple(x) => {
            simple(env, walk, x.get())?;
            walk.end_wait()?;
            walk.pass(env, 1);
            Ok(())
        }
        Stmt::If(test, first, second) => {
            walk.end_wait()?;
            walk.pass(env, 2);
            condition(env, walk, test.get())?;
            walk.pass(env, 1);
            statement(env, walk, first.get())?;
            match second {
                Some(second) => {
                    walk.pass(env, 1);
                    statement(env, walk, second.get())
                }
                None => Ok(()),
            }
        }
        Stmt::While(test, body) => {
            walk.end_wait()?;
            walk.pass(env, 2);
            condition(env, walk, test.get())?;
            walk.pass(env, 1);
            statement(env, walk, body.get())
        }
        Stmt::For(h, body) => {
            walk.end_wait()?;
            header(env, walk, h.get())?;
            statement(env, walk, body.get())
        }
        Stmt::Break | Stmt::Continue => {
            walk.end_wait()?;
            walk.pass(env, 2);
            Ok(())
        }
        Stmt::Return(v) => {
            returned(env, walk, v)?;
            walk.end_wait()
        }
    }
}
