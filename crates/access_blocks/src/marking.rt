//! Where blocks begin.

ghost use Rattle.std.specs.Prelude.{◌≡◌, None, IfOk, map};
ghost use Rattle.std.specs.Option.{option_map};
ghost use Rattle.access_blocks.specs.declared.body.Statement.{out-Statement};
ghost use Rattle.access_blocks.specs.Marks as spec;

use crate::body::{Access, Choice, Expression, Mark, Statement};
use crate::copies::{
    copy_boxed, copy_expression, copy_expressions, copy_option, copy_statement, copy_statements,
};
use crate::place::{Placed, Site};
use crate::units::{has_access, kept, same_site, unit_of};
use sqlite_items::{Boxed, Items};
use std::alloc::{AllocError, Global};

/// The first argument.
fn first_argument(alloc: Global, args: &[Expression]) -> Result<Option<Expression>, AllocError>
    ensures { IfOk result (λ key. key ≡ spec.first_argument args.now) }
{
    match args.first() {
        None => Ok(None),
        Some(key) => Ok(Some(copy_expression(alloc, key)?)),
    }
}

/// The key of an access. A block on an instance has none.
fn key_by(
    alloc: Global,
    choice: Choice,
    args: &[Expression],
) -> Result<Option<Expression>, AllocError>
    ensures { IfOk result (λ key. key ≡ spec.key_by choice args.now) }
{
    match choice {
        Choice::Instance => Ok(None),
        _ => first_argument(alloc, args),
    }
}

/// The key of the first access in text order.
#[cycle(keys)]
fn key_of(alloc: Global, st: &Statement) -> Result<Option<Expression>, AllocError>
    ensures { IfOk result (λ key. key ≡ spec.key_of st.now) }
{
    match st {
        Statement::Access(access) => {
            let access = access.get();
            key_by(alloc, access.choice, access.args.as_slice())
        }
        Statement::Marked(_, body) | Statement::Opened(body) => key_of(alloc, body.get()),
        Statement::Block(items) => first_key(alloc, items.as_slice()),
        Statement::If(_, first, second) => match key_of(alloc, first.get())? {
            Some(key) => Ok(Some(key)),
            None => second_key(alloc, second),
        },
        Statement::Loop(start, _, update, body) => match first_key(alloc, start.as_slice())? {
            Some(key) => Ok(Some(key)),
            None => match first_key(alloc, update.as_slice())? {
                Some(key) => Ok(Some(key)),
                None => key_of(alloc, body.get()),
            },
        },
        Statement::Assign(_, _)
        | Statement::SetElement(_, _, _)
        | Statement::Evaluate(_)
        | Statement::Gather(_)
        | Statement::Break
        | Statement::Continue
        | Statement::Return(_) => Ok(None),
    }
}

#[cycle(keys)]
fn second_key(
    alloc: Global,
    second: &Option<Boxed<Statement>>,
) -> Result<Option<Expression>, AllocError>
    ensures { IfOk result (λ key. key ≡ spec.key_in_second (option_map spec.key_of second.now)) }
{
    match second {
        None => Ok(None),
        Some(second) => key_of(alloc, second.get()),
    }
}

#[cycle(keys)]
fn first_key(alloc: Global, all: &[Statement]) -> Result<Option<Expression>, AllocError>
    ensures { IfOk result (λ key. key ≡ spec.first_in (map spec.key_of all.now)) }
{
    for st in all {
        if let Some(key) = key_of(alloc, st)? {
            return Ok(Some(key));
        }
    }
    Ok(None)
}

/// Arguments behind a key that was evaluated at the mark.
fn carried_args(alloc: Global, args: &[Expression]) -> Result<Items<Expression>, AllocError>
    ensures { IfOk result (λ all. all ≡ spec.carried_args args.now) }
{
    let mut all = Items::new(alloc);
    if args.is_empty() {
        return Ok(all);
    }
    all.push(Expression::CarriedKey)?;
    all.append(copy_expressions(alloc, &args[1..])?)?;
    Ok(all)
}

/// An access behind its own mark. A compound key is evaluated at the mark alone.
fn carrying_access(alloc: Global, access: &Access) -> Result<Statement, AllocError>
    ensures { IfOk result (λ st. st ≡ Statement.Access (spec.carrying_access access.now access.now.choice)) }
{
    let args = match access.choice {
        Choice::Compound => carried_args(alloc, access.args.as_slice())?,
        _ => copy_expressions(alloc, access.args.as_slice())?,
    };
    let access = Access {
        target: access.target,
        field: access.field,
        choice: access.choice,
        method: access.method,
        args,
    };
    Ok(Statement::Access(Boxed::new(alloc, access)?))
}

fn carrying(alloc: Global, st: &Statement) -> Result<Statement, AllocError>
    ensures { IfOk result (λ it. it ≡ spec.carrying_in st.now (out-Statement st.now)) }
{
    match st {
        Statement::Access(access) => carrying_access(alloc, access.get()),
        _ => copy_statement(alloc, st),
    }
}

/// A statement with a mark before it.
fn marked(alloc: Global, site: Site, st: &Statement) -> Result<Statement, AllocError>
    ensures { IfOk result (λ it. it ≡ spec.marked site st.now) }
{
    let key = key_of(alloc, st)?;
    let field = site.field;
    let mark = Boxed::new(alloc, Mark { field, key })?;
    let body = carrying(alloc, st)?;
    Ok(Statement::Marked(mark, Boxed::new(alloc, body)?))
}

fn is_current(current: Option<Site>, site: Site) -> bool
    ensures { result ≡ spec.is_current current site }
{
    match current {
        None => false,
        Some(current) => same_site(current, site),
    }
}

/// A unit, which begins a block where its site isn't the current one.
fn unit_placed(
    alloc: Global,
    current: Option<Site>,
    site: Site,
    st: &Statement,
) -> Result<Placed, AllocError>
    ensures { IfOk result (λ p. p ≡ spec.unit_placed current site st.now) }
{
    let statement = if is_current(current, site) {
        copy_statement(alloc, st)?
    } else {
        marked(alloc, site, st)?
    };
    let site = kept(st, Some(site));
    Ok(Placed { statement, site })
}

/// A statement in its list, from the current site on.
#[cycle(marks)]
#[tactic(auto, using(crate::proofs::Markings::whole_is))]
fn placed(alloc: Global, current: Option<Site>, st: &Statement) -> Result<Placed, AllocError>
    ensures { IfOk result (λ p. p ≡ spec.placed current (spec.marking_of st.now)) }
{
    match unit_of(st) {
        Some(site) => unit_placed(alloc, current, site, st),
        None => {
            if has_access(st) {
                let statement = opened(alloc, st)?;
                let site = None;
                Ok(Placed { statement, site })
            } else {
                let statement = copy_statement(alloc, st)?;
                let site = kept(st, current);
                Ok(Placed { statement, site })
            }
        }
    }
}

/// A list of statements.
#[cycle(marks)]
fn listed(alloc: Global, all: &[Statement]) -> Result<Items<Statement>, AllocError>
    ensures { IfOk result (λ it. it ≡ spec.list_placed None (map spec.marking_of all.now)) }
{
    let mut made = Items::new(alloc);
    let mut current = None;
    for st in all {
        let Placed { statement, site } = placed(alloc, current, st)?;
        made.push(statement)?;
        current = site;
    }
    Ok(made)
}

/// A statement in a box.
fn boxed(alloc: Global, st: Statement) -> Result<Boxed<Statement>, AllocError>
    ensures { IfOk result (λ it. it ≡ st) }
{
    Boxed::new(alloc, st)
}

fn in_opened(alloc: Global, st: Statement) -> Result<Statement, AllocError>
    ensures { IfOk result (λ it. it ≡ Statement.Opened st) }
{
    Ok(Statement::Opened(Boxed::new(alloc, st)?))
}

/// A statement with the marks within it.
#[cycle(marks)]
#[tactic(auto, using(crate::proofs::Markings::opened_loop, crate::proofs::Markings::opened_marked, crate::proofs::Markings::opened_opened))]
fn opened(alloc: Global, st: &Statement) -> Result<Statement, AllocError>
    ensures { IfOk result (λ it. it ≡ (spec.marking_of st.now).opened) }
{
    match st {
        Statement::Block(items) => {
            let items = listed(alloc, items.as_slice())?;
            in_opened(alloc, Statement::Block(items))
        }
        Statement::If(test, first, second) => {
            let test = copy_boxed(alloc, test)?;
            let first = branch(alloc, first.get())?;
            let second = second_branch(alloc, second)?;
            in_opened(alloc, Statement::If(test, first, second))
        }
        Statement::Loop(start, test, update, body) => {
            let start = copy_statements(alloc, start.as_slice())?;
            let test = copy_option(alloc, test)?;
            let update = copy_statements(alloc, update.as_slice())?;
            let body = branch(alloc, body.get())?;
            in_opened(alloc, Statement::Loop(start, test, update, body))
        }
        Statement::Marked(_, _) => copy_statement(alloc, st),
        Statement::Opened(_) => copy_statement(alloc, st),
        Statement::Assign(_, _)
        | Statement::SetElement(_, _, _)
        | Statement::Evaluate(_)
        | Statement::Access(_)
        | Statement::Gather(_)
        | Statement::Break
        | Statement::Continue
        | Statement::Return(_) => copy_statement(alloc, st),
    }
}

/// The body of a statement. Where it isn't a block it counts as a list of one statement.
#[cycle(marks)]
#[tactic(auto, using(crate::proofs::Markings::whole_is))]
fn branch(alloc: Global, st: &Statement) -> Result<Boxed<Statement>, AllocError>
    ensures { IfOk result (λ it. it ≡ spec.branch (spec.marking_of st.now)) }
{
    match st {
        Statement::Block(_) => {
            if has_access(st) {
                boxed(alloc, opened(alloc, st)?)
            } else {
                boxed(alloc, copy_statement(alloc, st)?)
            }
        }
        _ => boxed(alloc, placed(alloc, None, st)?.statement),
    }
}

#[cycle(marks)]
fn second_branch(
    alloc: Global,
    second: &Option<Boxed<Statement>>,
) -> Result<Option<Boxed<Statement>>, AllocError>
    ensures { IfOk result (λ it. it ≡ spec.second_branch (option_map spec.marking_of second.now)) }
{
    match second {
        None => Ok(None),
        Some(second) => Ok(Some(branch(alloc, second.get())?)),
    }
}

/// The list of a body's statements with its marks.
pub fn with_marks(alloc: Global, all: &[Statement]) -> Result<Items<Statement>, AllocError>
    ensures { IfOk result (λ it. it ≡ spec.with_marks all.now) }
{
    listed(alloc, all)
}
