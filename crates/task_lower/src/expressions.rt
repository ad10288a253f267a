//! The code of expressions: it pushes their value.

ghost use Rattle.std.specs.Prelude.{◌≡◌, [], ◌∷◌, OnOk, IfOk, map, slice_get};
ghost use Rattle.sdg_base.specs.Types as types;
ghost use Rattle.body_code.specs.Typing as typing;
ghost use Rattle.body_code.specs.Codes.{plain, followed_by, all_of};
ghost use Rattle.body_code.specs.ExpressionCode as spec;
ghost use Rattle.task_lower.specs.Pushing.{Pushes};

use crate::instructions::{
    branch, branch_behind, leave, leave_behind, narrow, narrower, push, push_two,
};
use crate::scope::Scope;
use crate::types::{
    and_then, binary_by, called_type, cast_type, chosen_type, merged_type, operand_of, unary_by,
    variable_type, where_type, with_type,
};
use access_blocks::Expression;
use flat_code::Instr;
use sdg_base::{BinOp, Num, UnOp, ValueType};
use sqlite_items::Items;
use std::alloc::{AllocError, Global};

/// The code of an expression behind other code, and its type.
#[cycle(lowering)]
pub fn expression(
    alloc: Global,
    scope: &Scope<'_>,
    code: &mut Items<Instr>,
    e: &Expression,
) -> Result<Option<ValueType>, AllocError>
    ensures found { IfOk result (λ found. found ≡ (spec.lowered scope.now.context e.now).type) }
    ensures code { OnOk result (Pushes (spec.lowered scope.now.context e.now).code code.old code.new) }
{
    match e {
        Expression::Nothing => {
            push(code, Instr::Int(0))?;
            Ok(None)
        }
        Expression::Int(number) => {
            push(code, Instr::Int(*number))?;
            Ok(Some(ValueType::Int))
        }
        Expression::Long(number) => {
            push(code, Instr::Long(*number))?;
            Ok(Some(ValueType::Long))
        }
        Expression::Bool(truth) => {
            push(code, Instr::Bool(*truth))?;
            Ok(Some(ValueType::Boolean))
        }
        Expression::Variable(variable) => {
            push(code, Instr::Load(narrow(*variable)?))?;
            Ok(variable_type(scope, *variable))
        }
        Expression::CarriedKey => {
            push(code, Instr::Key)?;
            Ok(Some(ValueType::Long))
        }
        Expression::Unary(op, a) => unary(alloc, scope, code, *op, a.get()),
        Expression::Binary(op, a, b) => binary(alloc, scope, code, *op, a.get(), b.get()),
        Expression::Cast(to, a) => cast(alloc, scope, code, *to, a.get()),
        Expression::Conditional(test, a, b) => {
            conditional(alloc, scope, code, test.get(), a.get(), b.get())
        }
        Expression::NewVector(size) => {
            let found = expression(alloc, scope, code, size.get())?;
            push(code, Instr::NewVector)?;
            Ok(where_type(found, ValueType::Int, ValueType::Vector))
        }
        Expression::VectorSize(variable) => {
            push(code, Instr::VectorSize(narrow(*variable)?))?;
            Ok(where_type(
                variable_type(scope, *variable),
                ValueType::Vector,
                ValueType::Int,
            ))
        }
        Expression::VectorElement(variable, at) => {
            vector_element(alloc, scope, code, *variable, at.get())
        }
        Expression::GatheredLength => {
            push(code, Instr::CollectionLength(0))?;
            Ok(and_then(scope.members(), Some(ValueType::Int)))
        }
        Expression::Gathered(at) => {
            let found = expression(alloc, scope, code, at.get())?;
            push(code, Instr::CollectionItem(0))?;
            Ok(and_then(
                where_type(found, ValueType::Int, ValueType::Int),
                scope.members(),
            ))
        }
        Expression::GatheredSize(at) => {
            let found = expression(alloc, scope, code, at.get())?;
            push(code, Instr::CollectionSize(0))?;
            Ok(and_then(
                where_type(found, ValueType::Int, ValueType::Int),
                where_type(scope.members(), ValueType::Vector, ValueType::Int),
            ))
        }
        Expression::GatheredElement(at, index) => {
            gathered_element(alloc, scope, code, at.get(), index.get())
        }
        Expression::Call(method, args) => called(alloc, scope, code, *method, args.as_slice()),
        Expression::Merge(method) => {
            push_two(code, Instr::Turn, Instr::Merge(narrower(*method)?))?;
            Ok(merged_type(scope.method(*method)))
        }
    }
}

#[cycle(lowering)]
fn unary(
    alloc: Global,
    scope: &Scope<'_>,
    code: &mut Items<Instr>,
    op: UnOp,
    a: &Expression,
) -> Result<Option<ValueType>, AllocError>
    ensures found { IfOk result (λ found. found ≡ typing.of_one (types.unary_type op) (spec.lowered scope.now.context a.now).type) }
    ensures code { OnOk result (Pushes (spec.unary op (spec.lowered scope.now.context a.now).code) code.old code.new) }
{
    let found = expression(alloc, scope, code, a)?;
    match op {
        UnOp::Plus => {}
        UnOp::Minus | UnOp::Complement | UnOp::Not => push(code, Instr::Un(op))?,
    }
    Ok(unary_by(op, found))
}

#[cycle(lowering)]
fn cast(
    alloc: Global,
    scope: &Scope<'_>,
    code: &mut Items<Instr>,
    to: Num,
    a: &Expression,
) -> Result<Option<ValueType>, AllocError>
    ensures found { IfOk result (λ found. found ≡ typing.cast_type to (spec.lowered scope.now.context a.now).type) }
    ensures code { OnOk result (Pushes (spec.behind (spec.lowered scope.now.context a.now).code (Instr.Cast to)) code.old code.new) }
{
    let found = expression(alloc, scope, code, a)?;
    push(code, Instr::Cast(to))?;
    Ok(cast_type(to, found))
}

#[cycle(lowering)]
fn binary(
    alloc: Global,
    scope: &Scope<'_>,
    code: &mut Items<Instr>,
    op: BinOp,
    a: &Expression,
    b: &Expression,
) -> Result<Option<ValueType>, AllocError>
    ensures found { IfOk result (λ found. found ≡ typing.of_two (types.binary_type op) (spec.lowered scope.now.context a.now).type (spec.lowered scope.now.context b.now).type) }
    ensures code { OnOk result (Pushes (spec.binary op (spec.lowered scope.now.context a.now) (spec.lowered scope.now.context b.now)) code.old code.new) }
{
    match op {
        BinOp::AndAlso => and_also(alloc, scope, code, a, b),
        BinOp::OrElse => or_else(alloc, scope, code, a, b),
        _ => {
            let left = expression(alloc, scope, code, a)?;
            let right = expression(alloc, scope, code, b)?;
            push(code, Instr::Bin(op, operand_of(left)))?;
            Ok(binary_by(op, left, right))
        }
    }
}

#[cycle(lowering)]
fn and_also(
    alloc: Global,
    scope: &Scope<'_>,
    code: &mut Items<Instr>,
    a: &Expression,
    b: &Expression,
) -> Result<Option<ValueType>, AllocError>
    ensures found { IfOk result (λ found. found ≡ typing.of_two (types.binary_type BinOp.AndAlso) (spec.lowered scope.now.context a.now).type (spec.lowered scope.now.context b.now).type) }
    ensures code { OnOk result (Pushes (spec.binary BinOp.AndAlso (spec.lowered scope.now.context a.now) (spec.lowered scope.now.context b.now)) code.old code.new) }
{
    let left = expression(alloc, scope, code, a)?;
    let to_second = branch(code)?;
    let right = expression(alloc, scope, code, b)?;
    let to_end = leave(code)?;
    branch_behind(code, to_second, 0)?;
    push(code, Instr::Bool(false))?;
    leave_behind(code, to_end)?;
    Ok(binary_by(BinOp::AndAlso, left, right))
}

#[cycle(lowering)]
fn or_else(
    alloc: Global,
    scope: &Scope<'_>,
    code: &mut Items<Instr>,
    a: &Expression,
    b: &Expression,
) -> Result<Option<ValueType>, AllocError>
    ensures found { IfOk result (λ found. found ≡ typing.of_two (types.binary_type BinOp.OrElse) (spec.lowered scope.now.context a.now).type (spec.lowered scope.now.context b.now).type) }
    ensures code { OnOk result (Pushes (spec.binary BinOp.OrElse (spec.lowered scope.now.context a.now) (spec.lowered scope.now.context b.now)) code.old code.new) }
{
    let left = expression(alloc, scope, code, a)?;
    let to_second = branch(code)?;
    push(code, Instr::Bool(true))?;
    let to_end = leave(code)?;
    branch_behind(code, to_second, 0)?;
    let right = expression(alloc, scope, code, b)?;
    leave_behind(code, to_end)?;
    Ok(binary_by(BinOp::OrElse, left, right))
}

#[cycle(lowering)]
fn conditional(
    alloc: Global,
    scope: &Scope<'_>,
    code: &mut Items<Instr>,
    test: &Expression,
    a: &Expression,
    b: &Expression,
) -> Result<Option<ValueType>, AllocError>
    ensures found { IfOk result (λ found. found ≡ typing.chosen_type (spec.lowered scope.now.context test.now).type (spec.lowered scope.now.context a.now).type (spec.lowered scope.now.context b.now).type) }
    ensures code { OnOk result (Pushes (followed_by (spec.lowered scope.now.context test.now).code (spec.either (spec.lowered scope.now.context a.now).code (spec.lowered scope.now.context b.now).code)) code.old code.new) }
{
    let tested = expression(alloc, scope, code, test)?;
    let to_second = branch(code)?;
    let first = expression(alloc, scope, code, a)?;
    let to_end = leave(code)?;
    branch_behind(code, to_second, 0)?;
    let second = expression(alloc, scope, code, b)?;
    leave_behind(code, to_end)?;
    Ok(chosen_type(tested, first, second))
}

#[cycle(lowering)]
fn vector_element(
    alloc: Global,
    scope: &Scope<'_>,
    code: &mut Items<Instr>,
    variable: usize,
    at: &Expression,
) -> Result<Option<ValueType>, AllocError>
    ensures found { IfOk result (λ found. found ≡ typing.and_then (typing.where_type (typing.variable_type scope.now.context variable) ValueType.Vector ValueType.Long) (typing.where_type (spec.lowered scope.now.context at.now).type ValueType.Int ValueType.Long)) }
    ensures code { OnOk result (Pushes (spec.behind (spec.lowered scope.now.context at.now).code (Instr.VectorGet variable)) code.old code.new) }
{
    let found = expression(alloc, scope, code, at)?;
    push(code, Instr::VectorGet(narrow(variable)?))?;
    Ok(and_then(
        where_type(
            variable_type(scope, variable),
            ValueType::Vector,
            ValueType::Long,
        ),
        where_type(found, ValueType::Int, ValueType::Long),
    ))
}

#[cycle(lowering)]
fn gathered_element(
    alloc: Global,
    scope: &Scope<'_>,
    code: &mut Items<Instr>,
    at: &Expression,
    index: &Expression,
) -> Result<Option<ValueType>, AllocError>
    ensures found { IfOk result (λ found. found ≡ typing.and_then (typing.where_type (spec.lowered scope.now.context at.now).type ValueType.Int ValueType.Int) (typing.and_then (typing.where_type scope.now.context.members ValueType.Vector ValueType.Long) (typing.where_type (spec.lowered scope.now.context index.now).type ValueType.Int ValueType.Long))) }
    ensures code { OnOk result (Pushes (spec.behind (followed_by (spec.behind (spec.lowered scope.now.context at.now).code (Instr.CollectionCheck 0)) (spec.lowered scope.now.context index.now).code) (Instr.CollectionGet 0)) code.old code.new) }
{
    let which = expression(alloc, scope, code, at)?;
    push(code, Instr::CollectionCheck(0))?;
    let found = expression(alloc, scope, code, index)?;
    push(code, Instr::CollectionGet(0))?;
    Ok(and_then(
        where_type(which, ValueType::Int, ValueType::Int),
        and_then(
            where_type(scope.members(), ValueType::Vector, ValueType::Long),
            where_type(found, ValueType::Int, ValueType::Long),
        ),
    ))
}

#[cycle(lowering)]
fn called(
    alloc: Global,
    scope: &Scope<'_>,
    code: &mut Items<Instr>,
    method: usize,
    args: &[Expression],
) -> Result<Option<ValueType>, AllocError>
    ensures found { IfOk result (λ found. found ≡ typing.called_type (slice_get scope.now.context.methods method) (typing.all_types (map (λ a. a.type) (map (spec.lowered scope.now.context) args.now)))) }
    ensures code { OnOk result (Pushes (followed_by (all_of (map (λ a. a.code) (map (spec.lowered scope.now.context) args.now))) (plain (Instr.Turn ∷ Instr.Call method ∷ []))) code.old code.new) }
{
    let found = expressions(alloc, scope, code, args)?;
    push_two(code, Instr::Turn, Instr::Call(narrower(method)?))?;
    Ok(called_type(scope.method(method), &found))
}

/// The code of several expressions, one behind the other, and their types, where each has one.
#[cycle(lowering)]
pub fn expressions(
    alloc: Global,
    scope: &Scope<'_>,
    code: &mut Items<Instr>,
    all: &[Expression],
) -> Result<Option<Items<ValueType>>, AllocError>
    ensures found { IfOk result (λ found. found ≡ typing.all_types (map (λ a. a.type) (map (spec.lowered scope.now.context) all.now))) }
    ensures code { OnOk result (Pushes (all_of (map (λ a. a.code) (map (spec.lowered scope.now.context) all.now))) code.old code.new) }
{
    let mut types = Some(Items::new(alloc));
    for e in all {
        let found = expression(alloc, scope, code, e)?;
        types = with_type(types, found)?;
    }
    Ok(types)
}
