//! The code of statements.

ghost use Rattle.std.specs.Prelude.{◌≡◌, [], None, Some, OnOk, IfOk, map};
ghost use Rattle.body_code.specs.Codes.{plain, followed_by};
ghost use Rattle.body_code.specs.ExpressionCode.{behind, code_of};
ghost use Rattle.body_code.specs.Typing.{type_of};
ghost use Rattle.body_code.specs.StatementCode as spec;
ghost use Rattle.task_lower.specs.Pushing.{Pushes};
ghost use Rattle.task_lower.specs.Drafting.{Emits};

use crate::accesses::{access, gather, mark, pop};
use crate::draft::{Draft, Exit, Hole, fill, jump_out};
use crate::expressions::expression;
use crate::instructions::{branch, branch_behind, leave, leave_behind, narrow, place, push};
use crate::scope::Scope;
use access_blocks::{Expression, Mark, Statement};
use flat_code::Instr;
use sdg_base::ValueType;
use sqlite_items::{Boxed, Items};
use std::alloc::{AllocError, Global};

fn assign(
    alloc: Global,
    scope: &Scope<'_>,
    code: &mut Items<Instr>,
    variable: usize,
    e: &Expression,
) -> Result<(), AllocError>
    ensures { OnOk result (Pushes (behind (code_of scope.now.context e.now) (Instr.Store variable)) code.old code.new) }
{
    expression(alloc, scope, code, e)?;
    push(code, Instr::Store(narrow(variable)?))
}

fn set_element(
    alloc: Global,
    scope: &Scope<'_>,
    code: &mut Items<Instr>,
    variable: usize,
    at: &Expression,
    element: &Expression,
) -> Result<(), AllocError>
    ensures { OnOk result (Pushes (behind (followed_by (code_of scope.now.context at.now) (code_of scope.now.context element.now)) (Instr.VectorSet variable)) code.old code.new) }
{
    expression(alloc, scope, code, at)?;
    expression(alloc, scope, code, element)?;
    push(code, Instr::VectorSet(narrow(variable)?))
}

fn drop_value(code: &mut Items<Instr>, found: Option<ValueType>) -> Result<(), AllocError>
    ensures { OnOk result (Pushes (plain (spec.dropped found)) code.old code.new) }
{
    match found {
        None => Ok(()),
        Some(found) => pop(code, found),
    }
}

fn evaluate(
    alloc: Global,
    scope: &Scope<'_>,
    code: &mut Items<Instr>,
    e: &Expression,
) -> Result<(), AllocError>
    ensures { OnOk result (Pushes (followed_by (code_of scope.now.context e.now) (plain (spec.dropped (type_of scope.now.context e.now)))) code.old code.new) }
{
    let found = expression(alloc, scope, code, e)?;
    drop_value(code, found)?;
    Ok(())
}

fn return_value(
    alloc: Global,
    scope: &Scope<'_>,
    code: &mut Items<Instr>,
    e: &Option<Boxed<Expression>>,
) -> Result<(), AllocError>
    ensures { OnOk result (Pushes (spec.returned scope.now.context e.now) code.old code.new) }
{
    match e {
        None => push(code, Instr::ReturnVoid),
        Some(e) => {
            expression(alloc, scope, code, e.get())?;
            push(code, Instr::Return)
        }
    }
}

/// The condition of a loop, which leaves it where it is false.
fn tested(
    alloc: Global,
    scope: &Scope<'_>,
    draft: &mut Draft,
    test: &Option<Boxed<Expression>>,
) -> Result<Items<Hole>, AllocError>
    ensures { IfOk result (λ holes. Emits (spec.tested scope.now.context test.now) draft.old draft.new holes) }
{
    match test {
        None => Ok(Items::new(alloc)),
        Some(test) => {
            expression(alloc, scope, &mut draft.code, test.get())?;
            let holes = jump_out(alloc, draft, Exit::Test)?;
            Ok(holes)
        }
    }
}

/// The code of a statement behind a draft: what waits in it for where `break` and `continue` go.
#[cycle(lowering)]
pub fn statement(
    alloc: Global,
    scope: &Scope<'_>,
    draft: &mut Draft,
    st: &Statement,
) -> Result<Items<Hole>, AllocError>
    ensures { IfOk result (λ holes. Emits (spec.piece_of scope.now st.now) draft.old draft.new holes) }
{
    match st {
        Statement::Assign(variable, e) => {
            assign(alloc, scope, &mut draft.code, *variable, e.get())?;
            Ok(Items::new(alloc))
        }
        Statement::SetElement(variable, at, element) => {
            set_element(
                alloc,
                scope,
                &mut draft.code,
                *variable,
                at.get(),
                element.get(),
            )?;
            Ok(Items::new(alloc))
        }
        Statement::Evaluate(e) => {
            evaluate(alloc, scope, &mut draft.code, e.get())?;
            Ok(Items::new(alloc))
        }
        Statement::Access(a) => {
            access(alloc, scope, &mut draft.code, a.get())?;
            Ok(Items::new(alloc))
        }
        Statement::Gather(g) => {
            gather(alloc, scope, draft, g.get())?;
            Ok(Items::new(alloc))
        }
        Statement::Marked(mark, body) => marked(alloc, scope, draft, mark.get(), body.get()),
        Statement::Opened(body) => statement(alloc, scope, draft, body.get()),
        Statement::Block(items) => statements(alloc, scope, draft, items.as_slice()),
        Statement::If(test, first, None) => {
            if_alone(alloc, scope, draft, test.get(), first.get())
        }
        Statement::If(test, first, Some(second)) => {
            if_else(alloc, scope, draft, test.get(), first.get(), second.get())
        }
        Statement::Loop(start, test, update, body) => {
            let holes = statements(alloc, scope, draft, start.as_slice())?;
            passes(alloc, scope, draft, test, update.as_slice(), body.get())?;
            Ok(holes)
        }
        Statement::Break => jump_out(alloc, draft, Exit::Break),
        Statement::Continue => jump_out(alloc, draft, Exit::Continue),
        Statement::Return(e) => {
            return_value(alloc, scope, &mut draft.code, e)?;
            Ok(Items::new(alloc))
        }
    }
}

/// The mark, and behind it the block.
#[cycle(lowering)]
fn marked(
    alloc: Global,
    scope: &Scope<'_>,
    draft: &mut Draft,
    before: &Mark,
    body: &Statement,
) -> Result<Items<Hole>, AllocError>
    ensures { IfOk result (λ holes. Emits (spec.marked scope.now before.now (spec.piece_of scope.now body.now)) draft.old draft.new holes) }
{
    mark(alloc, scope, draft, before)?;
    let holes = statement(alloc, scope, draft, body)?;
    Ok(holes)
}

/// A statement behind a test, and where it goes if that is false: so far behind the statement.
#[cycle(lowering)]
fn guarded(
    alloc: Global,
    scope: &Scope<'_>,
    draft: &mut Draft,
    over: u32,
    body: &Statement,
) -> Result<Items<Hole>, AllocError>
    ensures { IfOk result (λ holes. Emits (spec.guarded over (spec.piece_of scope.now body.now)) draft.old draft.new holes) }
{
    let at = branch(&mut draft.code)?;
    let holes = statement(alloc, scope, draft, body)?;
    branch_behind(&mut draft.code, at, over)?;
    Ok(holes)
}

/// A statement behind a jump over it.
#[cycle(lowering)]
fn jumped_over(
    alloc: Global,
    scope: &Scope<'_>,
    draft: &mut Draft,
    body: &Statement,
) -> Result<Items<Hole>, AllocError>
    ensures { IfOk result (λ holes. Emits (spec.jumped_over (spec.piece_of scope.now body.now)) draft.old draft.new holes) }
{
    let at = leave(&mut draft.code)?;
    let holes = statement(alloc, scope, draft, body)?;
    leave_behind(&mut draft.code, at)?;
    Ok(holes)
}

#[cycle(lowering)]
fn if_alone(
    alloc: Global,
    scope: &Scope<'_>,
    draft: &mut Draft,
    test: &Expression,
    first: &Statement,
) -> Result<Items<Hole>, AllocError>
    ensures { IfOk result (λ holes. Emits (spec.branches (code_of scope.now.context test.now) (spec.piece_of scope.now first.now) None) draft.old draft.new holes) }
{
    expression(alloc, scope, &mut draft.code, test)?;
    let holes = guarded(alloc, scope, draft, 0, first)?;
    Ok(holes)
}

#[cycle(lowering)]
fn if_else(
    alloc: Global,
    scope: &Scope<'_>,
    draft: &mut Draft,
    test: &Expression,
    first: &Statement,
    second: &Statement,
) -> Result<Items<Hole>, AllocError>
    ensures { IfOk result (λ holes. Emits (spec.branches (code_of scope.now.context test.now) (spec.piece_of scope.now first.now) (Some (spec.piece_of scope.now second.now))) draft.old draft.new holes) }
{
    expression(alloc, scope, &mut draft.code, test)?;
    let mut holes = guarded(alloc, scope, draft, 1, first)?;
    let later = jumped_over(alloc, scope, draft, second)?;
    holes.append(later)?;
    Ok(holes)
}

/// Where `continue` goes: to the update, where there is one (JLS 14.16).
fn next_pass(again: u32, behind: u32, update: &[Statement]) -> u32
    ensures { (f : Statement → spec.Piece) → result ≡ spec.next_pass again behind (map f update.now) }
{
    if update.is_empty() { again } else { behind }
}

/// The passes of a loop.
#[cycle(lowering)]
fn passes(
    alloc: Global,
    scope: &Scope<'_>,
    draft: &mut Draft,
    test: &Option<Boxed<Expression>>,
    update: &[Statement],
    body: &Statement,
) -> Result<(), AllocError>
    ensures { OnOk result (Emits (spec.passes scope.now.context test.now (map (spec.piece_of scope.now) update.now) (spec.piece_of scope.now body.now)) draft.old draft.new []) }
{
    let again = place(&draft.code)?;
    let mut holes = tested(alloc, scope, draft, test)?;
    push(&mut draft.code, Instr::Turn)?;
    let within = statement(alloc, scope, draft, body)?;
    holes.append(within)?;
    let behind = place(&draft.code)?;
    let later = statements(alloc, scope, draft, update)?;
    holes.append(later)?;
    push(&mut draft.code, Instr::Jump(again))?;
    let end = place(&draft.code)?;
    let next = next_pass(again, behind, update);
    fill(&mut draft.code, holes, end, next);
    Ok(())
}

/// The code of statements in order.
#[cycle(lowering)]
pub fn statements(
    alloc: Global,
    scope: &Scope<'_>,
    draft: &mut Draft,
    all: &[Statement],
) -> Result<Items<Hole>, AllocError>
    ensures { IfOk result (λ holes. Emits (spec.in_order (map (spec.piece_of scope.now) all.now)) draft.old draft.new holes) }
{
    let mut holes = Items::new(alloc);
    for st in all {
        let more = statement(alloc, scope, draft, st)?;
        holes.append(more)?;
    }
    Ok(holes)
}
