//! Bodies of methods, as statements and an ending.

ghost use Rattle.std.specs.Prelude.{◌≡◌, ◌≢◌, ℕ, false, List, [], ◌∷◌, map, codes, IfOk, MatchOption};
ghost use Rattle.std.specs.Option.{option_copied};
ghost use Rattle.java_tree.specs.declared.tree.Expr.{Expr};
ghost use Rattle.java_tree.specs.declared.tree.Value.{Value};
ghost use Rattle.early_forms.specs.Trees.{sum_tree, plain, got, return_value, long_local, put_statement, statement_tree, ending_tree};
ghost use Rattle.early_forms.specs.Parts.{PartsOf, StatementsBefore, paired_body};

use crate::straight::{Ending, Statement, Sum};
use crate::sums::{copy_name, sum_of};
use java_tree::{BlockItem, CallForm, Expr, Simple, Stmt, TypeName, Value};
use sdg_base::Name;
use sqlite_items::Items;
use std::alloc::{AllocError, Global};

fn plain_of(value: &Value) -> Option<&Expr>
    ensures { PartsOf plain value.now (option_copied result) }
{
    if value.is_global {
        None
    } else {
        Some(&value.expr)
    }
}

fn plain_sum_of(alloc: Global, value: &Value) -> Result<Option<Sum>, AllocError>
    ensures { IfOk result (PartsOf (λ s. plain (sum_tree s)) value.now) }
{
    let Some(expr) = plain_of(value) else {
        return Ok(None);
    };
    sum_of(alloc, expr)
}

/// The field and the arguments of a call of a field's method of this name.
fn access_of<'a>(method: &[u8], call: &'a CallForm) -> Option<(&'a Name, &'a [Value])>
    ensures { MatchOption result ((field : List ℕ) (arguments : List Value) → call.now ≢ CallForm.Of field method.now arguments) (λ (field, arguments). call.now ≡ CallForm.Of field.now method.now arguments.now) }
{
    match call {
        CallForm::Of(field, name, arguments) => {
            if name.as_slice() == method {
                Some((field, arguments.as_slice()))
            } else {
                None
            }
        }
        _ => None,
    }
}

fn call_of(expr: &Expr) -> Option<&CallForm>
    ensures { PartsOf Expr.Call expr.now (option_copied result) }
{
    match expr {
        Expr::Call(call) => Some(call.get()),
        _ => None,
    }
}

fn plain_call_of(value: &Value) -> Option<&CallForm>
    ensures { PartsOf (λ call. plain (Expr.Call call)) value.now (option_copied result) }
{
    match plain_of(value) {
        Some(expr) => call_of(expr),
        None => None,
    }
}

fn only_plain_sum_of(alloc: Global, values: &[Value]) -> Result<Option<Sum>, AllocError>
    ensures { IfOk result (PartsOf (λ s. plain (sum_tree s) ∷ []) values.now) }
{
    match values {
        [value] => plain_sum_of(alloc, value),
        _ => Ok(None),
    }
}

/// The field and the key of a plain `get`.
fn got_of(alloc: Global, value: &Value) -> Result<Option<(Name, Sum)>, AllocError>
    ensures { IfOk result (PartsOf (λ (field, key). got field key) value.now) }
{
    let Some(call) = plain_call_of(value) else {
        return Ok(None);
    };
    let Some((field, arguments)) = access_of(b"get", call) else {
        return Ok(None);
    };
    let Some(key) = only_plain_sum_of(alloc, arguments)? else {
        return Ok(None);
    };
    Ok(Some((copy_name(alloc, field)?, key)))
}

fn two_plain_sums_of(alloc: Global, values: &[Value]) -> Result<Option<(Sum, Sum)>, AllocError>
    ensures { IfOk result (PartsOf (λ (s, t). plain (sum_tree s) ∷ plain (sum_tree t) ∷ []) values.now) }
{
    let [first, second] = values else {
        return Ok(None);
    };
    let Some(first) = plain_sum_of(alloc, first)? else {
        return Ok(None);
    };
    let Some(second) = plain_sum_of(alloc, second)? else {
        return Ok(None);
    };
    Ok(Some((first, second)))
}

fn statement_call_of(item: &BlockItem) -> Option<&CallForm>
    ensures { PartsOf (λ call. BlockItem.Stmt (Stmt.Simple (Simple.Call false call))) item.now (option_copied result) }
{
    match item {
        BlockItem::Stmt(Stmt::Simple(simple)) => match simple.get() {
            Simple::Call(false, call) => Some(call),
            _ => None,
        },
        _ => None,
    }
}

fn put_of(alloc: Global, item: &BlockItem) -> Result<Option<(Name, Sum, Sum)>, AllocError>
    ensures { IfOk result (PartsOf (λ (field, key, value). put_statement field key value) item.now) }
{
    let Some(call) = statement_call_of(item) else {
        return Ok(None);
    };
    let Some((field, arguments)) = access_of(b"put", call) else {
        return Ok(None);
    };
    let Some((key, value)) = two_plain_sums_of(alloc, arguments)? else {
        return Ok(None);
    };
    Ok(Some((copy_name(alloc, field)?, key, value)))
}

fn returned_of(item: &BlockItem) -> Option<&Value>
    ensures { PartsOf return_value item.now (option_copied result) }
{
    match item {
        BlockItem::Stmt(Stmt::Return(Some(value))) => Some(value.get()),
        _ => None,
    }
}

fn local_of(item: &BlockItem) -> Option<(&Name, &Value)>
    ensures { MatchOption result ((name : List ℕ) (value : Value) → item.now ≢ long_local name value) (λ (name, value). item.now ≡ long_local name.now value.now) }
{
    match item {
        BlockItem::Local(local) => {
            let local = local.get();
            match (&local.type_name, &local.value) {
                (TypeName::Long, Some(value)) if !local.is_partial => Some((&local.name, value)),
                _ => None,
            }
        }
        _ => None,
    }
}

/// The declaration of a local with this name and this value.
fn declaration_of(
    alloc: Global,
    local: &Name,
    value: &Value,
) -> Result<Option<Statement>, AllocError>
    ensures { IfOk result (PartsOf statement_tree (long_local local.now value.now)) }
{
    if let Some((field, key)) = got_of(alloc, value)? {
        let local = copy_name(alloc, local)?;
        return Ok(Some(Statement::Get { local, field, key }));
    }
    let Some(value) = plain_sum_of(alloc, value)? else {
        return Ok(None);
    };
    let local = copy_name(alloc, local)?;
    Ok(Some(Statement::Set { local, value }))
}

fn statement_of(alloc: Global, item: &BlockItem) -> Result<Option<Statement>, AllocError>
    ensures { IfOk result (PartsOf statement_tree item.now) }
{
    if let Some((local, value)) = local_of(item) {
        return declaration_of(alloc, local, value);
    }
    let Some((field, key, value)) = put_of(alloc, item)? else {
        return Ok(None);
    };
    Ok(Some(Statement::Put { field, key, value }))
}

#[tactic(auto, using(crate::proofs::Maps::map_more, crate::proofs::Maps::map_all, crate::proofs::Maps::map_none))]
fn statements_of(alloc: Global, items: &[BlockItem]) -> Result<Option<Items<Statement>>, AllocError>
    ensures { IfOk result (PartsOf (map statement_tree) items.now) }
{
    let mut statements = Items::new(alloc);
    for item in items {
        let Some(statement) = statement_of(alloc, item)? else {
            return Ok(None);
        };
        statements.push(statement)?;
    }
    Ok(Some(statements))
}

/// What a `return` of the form ends a body with.
fn ending_of(alloc: Global, item: &BlockItem) -> Result<Option<Ending>, AllocError>
    ensures { IfOk result (PartsOf ending_tree (item.now ∷ [])) }
{
    let Some(value) = returned_of(item) else {
        return Ok(None);
    };
    if let Some((field, key)) = got_of(alloc, value)? {
        return Ok(Some(Ending::Get { field, key }));
    }
    let Some(value) = plain_sum_of(alloc, value)? else {
        return Ok(None);
    };
    Ok(Some(Ending::Sum { value }))
}

/// The statements, with the ending that stands behind them.
fn ended_by(
    alloc: Global,
    items: &[BlockItem],
    ending: Ending,
) -> Result<Option<(Items<Statement>, Ending)>, AllocError>
    ensures { IfOk result (StatementsBefore ending items.now) }
{
    let Some(statements) = statements_of(alloc, items)? else {
        return Ok(None);
    };
    Ok(Some((statements, ending)))
}

/// The statements and the ending of a body.
pub fn body_of(
    alloc: Global,
    items: &[BlockItem],
) -> Result<Option<(Items<Statement>, Ending)>, AllocError>
    ensures { IfOk result (PartsOf paired_body items.now) }
{
    let Some((last, front)) = items.split_last() else {
        return ended_by(alloc, items, Ending::Nothing);
    };
    match ending_of(alloc, last)? {
        Some(ending) => ended_by(alloc, front, ending),
        None => ended_by(alloc, items, Ending::Nothing),
    }
}
