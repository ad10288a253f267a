//! Values, where they go.

ghost use Rattle.std.specs.Prelude.{◌≡◌, IfOk, OnOk};
ghost use Rattle.access_blocks.specs.ResolvingStatements as spec;

use crate::body::{Access, Expression, Gather, Statement, Target};
use crate::conversions::converted_to;
use crate::cursor::Cursor;
use crate::expressions::{call, expression};
use crate::resolved::{Invoked, Resolved, Whole};
use crate::scope::Scope;
use java_tree::{CallForm, Expr, ExprType, Value};
use sqlite_items::Boxed;
use std::alloc::{AllocError, Global};

/// A call in the place of a value, before which its type stands.
fn whole_call(
    alloc: Global,
    scope: &Scope,
    cursor: &mut Cursor<'_>,
    form: &CallForm,
) -> Result<Whole, AllocError>
    ensures it { IfOk result (λ w. w ≡ (spec.whole_call_of scope.now form.now cursor.old).it) }
    ensures cursor { OnOk result (cursor.new ≡ (spec.whole_call_of scope.now form.now cursor.old).cursor) }
{
    let found = cursor.next_type();
    let invoked = call(alloc, scope, cursor, form)?;
    Ok(Whole { invoked, found })
}

fn of_resolved(r: Resolved) -> Whole
    ensures { result ≡ spec.whole_resolved r }
{
    Whole {
        invoked: Invoked::Value(r.expression),
        found: r.found,
    }
}

/// What stands in the place of a value: an expression, or a call of a method of a field.
fn whole(
    alloc: Global,
    scope: &Scope,
    cursor: &mut Cursor<'_>,
    v: &Value,
) -> Result<Whole, AllocError>
    ensures it { IfOk result (λ w. w ≡ (spec.whole_of scope.now v.now cursor.old).it) }
    ensures cursor { OnOk result (cursor.new ≡ (spec.whole_of scope.now v.now cursor.old).cursor) }
{
    match &v.expr {
        Expr::Call(form) => whole_call(alloc, scope, cursor, form.get()),
        e => Ok(of_resolved(expression(alloc, scope, cursor, e)?)),
    }
}

/// An expression goes to its target.
fn put(alloc: Global, target: Target, a: Expression) -> Result<Statement, AllocError>
    ensures { IfOk result (λ s. s ≡ spec.put target a) }
{
    let a = Boxed::new(alloc, a)?;
    match target {
        Target::Dropped => Ok(Statement::Evaluate(a)),
        Target::Variable(variable) => Ok(Statement::Assign(variable, a)),
        Target::Returned => Ok(Statement::Return(Some(a))),
    }
}

/// Behind `@Global` an access is of each instance.
fn accessing(
    alloc: Global,
    is_global: bool,
    target: Target,
    access: Access,
) -> Result<Statement, AllocError>
    ensures { IfOk result (λ s. s ≡ spec.accessing is_global target access) }
{
    if is_global {
        let gather = Gather {
            field: access.field,
            method: access.method,
            args: access.args,
        };
        Ok(Statement::Gather(Boxed::new(alloc, gather)?))
    } else {
        let access = Access {
            target,
            field: access.field,
            choice: access.choice,
            method: access.method,
            args: access.args,
        };
        Ok(Statement::Access(Boxed::new(alloc, access)?))
    }
}

fn set_element(
    alloc: Global,
    variable: usize,
    at: Expression,
    element: Expression,
) -> Result<Statement, AllocError>
    ensures { IfOk result (λ s. s ≡ Statement.SetElement variable at element) }
{
    let at = Boxed::new(alloc, at)?;
    let element = Boxed::new(alloc, element)?;
    Ok(Statement::SetElement(variable, at, element))
}

/// What stands in the place of a value goes to its target, which has the type that is wanted.
pub fn given_to(
    alloc: Global,
    is_global: bool,
    target: Target,
    wanted: ExprType,
    whole: Whole,
) -> Result<Statement, AllocError>
    ensures { IfOk result (λ s. s ≡ spec.given_to is_global target wanted whole.found whole.invoked) }
{
    let Whole { invoked, found } = whole;
    match invoked {
        Invoked::Value(a) => {
            let a = converted_to(alloc, wanted, found, a)?;
            put(alloc, target, a)
        }
        Invoked::Sets(variable, at, element) => set_element(alloc, variable, at, element),
        Invoked::Accesses(access) => accessing(alloc, is_global, target, access),
    }
}

/// A value that goes to a target of some type.
pub fn value_to(
    alloc: Global,
    scope: &Scope,
    cursor: &mut Cursor<'_>,
    target: Target,
    wanted: ExprType,
    v: &Value,
) -> Result<Statement, AllocError>
    ensures it { IfOk result (λ s. s ≡ (spec.value_to scope.now target wanted v.now cursor.old).it) }
    ensures cursor { OnOk result (cursor.new ≡ (spec.value_to scope.now target wanted v.now cursor.old).cursor) }
{
    let whole = whole(alloc, scope, cursor, v)?;
    given_to(alloc, v.is_global, target, wanted, whole)
}
