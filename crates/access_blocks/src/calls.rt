//! What calls are: expressions, `set` on a vector, and accesses to fields.

ghost use Rattle.std.specs.Prelude.{◌≡◌, IfOk, OnOk, map};
ghost use Rattle.std.specs.Option.{option_copied, option_map};
ghost use Rattle.state_classes.specs.Shown.{signature_of};
ghost use Rattle.access_blocks.specs.Resolving as spec;

use crate::body::{Access, Choice, Expression, Target};
use crate::cursor::Cursor;
use crate::resolved::Invoked;
use crate::scope::{Header, Scope};
use annotations::{Key, Reach, Site};
use java_tree::words::is_text;
use java_tree::{Declaration, ExprType, ValueType};
use sdg_base::{ClassName, ValueType as SignatureType};
use sqlite_items::{Boxed, Items};
use state_classes::{Method, Signature};
use std::alloc::{AllocError, Global};

/// What callers see of the method that a name stands for.
pub fn header_at(scope: &Scope, declaration: Option<Declaration>) -> Option<&Header>
    ensures { option_copied result ≡ spec.header_at scope.now declaration }
{
    match declaration {
        Some(Declaration::Method(number)) => scope.methods.get(number),
        _ => None,
    }
}

pub fn params_of(header: Option<&Header>) -> &[ExprType]
    ensures { result.now ≡ spec.params_of (option_copied header.entry) }
{
    match header {
        None => &[],
        Some(header) => header.params.as_slice(),
    }
}

fn own_call(number: usize, header: Option<&Header>, args: Items<Expression>) -> Expression
    ensures { Invoked.Value result ≡ spec.own_call number (option_copied header.entry) args }
{
    match header {
        None => Expression::Nothing,
        Some(header) if header.is_merge => Expression::Merge(number),
        Some(_) => Expression::Call(number, args),
    }
}

/// A call of a method of the class.
pub fn own(
    declaration: Option<Declaration>,
    header: Option<&Header>,
    args: Items<Expression>,
) -> Invoked
    ensures { result ≡ spec.own declaration (option_copied header.entry) args }
{
    match declaration {
        Some(Declaration::Method(number)) => Invoked::Value(own_call(number, header, args)),
        _ => Invoked::Value(Expression::Nothing),
    }
}

fn wanted_by(found: SignatureType) -> ExprType
    ensures { result ≡ spec.wanted_by found }
{
    match found {
        SignatureType::Int => ExprType::Value(ValueType::Int),
        SignatureType::Long => ExprType::Value(ValueType::Long),
        SignatureType::Boolean => ExprType::Value(ValueType::Boolean),
        SignatureType::Vector => ExprType::Value(ValueType::Vector),
        SignatureType::Void => ExprType::Void,
    }
}

fn all_wanted(alloc: Global, arguments: &[SignatureType]) -> Result<Items<ExprType>, AllocError>
    ensures { IfOk result (λ all. all ≡ map spec.wanted_by arguments.now) }
{
    let mut all = Items::new(alloc);
    for argument in arguments {
        all.push(wanted_by(*argument))?;
    }
    Ok(all)
}

/// What the method of a signature takes.
pub fn params_by(alloc: Global, signature: Option<Signature>) -> Result<Items<ExprType>, AllocError>
    ensures { IfOk result (λ all. all ≡ spec.params_by (option_map signature_of signature)) }
{
    match signature {
        None => Ok(Items::new(alloc)),
        Some(signature) => all_wanted(alloc, signature.arguments),
    }
}

/// Takes an argument out of them.
fn take_argument(args: &mut Items<Expression>, at: usize) -> Expression
    ensures taken { result ≡ spec.argument args.old at }
    ensures rest { args.new ≡ spec.without_argument args.old at }
{
    if at < args.len() {
        args.remove(at)
    } else {
        Expression::Nothing
    }
}

fn first_argument(alloc: Global, args: Items<Expression>) -> Result<Boxed<Expression>, AllocError>
    ensures { IfOk result (λ e. e ≡ spec.argument args 0) }
{
    let mut args = args;
    Boxed::new(alloc, take_argument(&mut args, 0))
}

fn sets(variable: usize, args: Items<Expression>) -> Invoked
    ensures { result ≡ Invoked.Sets variable (spec.argument args 0) (spec.argument args 1) }
{
    let mut args = args;
    let element = take_argument(&mut args, 1);
    let at = take_argument(&mut args, 0);
    Invoked::Sets(variable, at, element)
}

/// A method of the vector in a variable.
pub fn vector_call(
    alloc: Global,
    variable: usize,
    name: &[u8],
    args: Items<Expression>,
) -> Result<Invoked, AllocError>
    ensures { IfOk result (λ it. it ≡ spec.vector_call variable name.now args) }
{
    if is_text(name, b"size") {
        Ok(Invoked::Value(Expression::VectorSize(variable)))
    } else if is_text(name, b"get") {
        let at = first_argument(alloc, args)?;
        Ok(Invoked::Value(Expression::VectorElement(variable, at)))
    } else if is_text(name, b"set") {
        Ok(sets(variable, args))
    } else {
        Ok(Invoked::Value(Expression::Nothing))
    }
}

/// A method of a gathered vector.
pub fn member_call(
    alloc: Global,
    at: Expression,
    name: &[u8],
    args: Items<Expression>,
) -> Result<Invoked, AllocError>
    ensures { IfOk result (λ it. it ≡ spec.member_call at name.now args) }
{
    if is_text(name, b"size") {
        let at = Boxed::new(alloc, at)?;
        Ok(Invoked::Value(Expression::GatheredSize(at)))
    } else if is_text(name, b"get") {
        let at = Boxed::new(alloc, at)?;
        let element = first_argument(alloc, args)?;
        Ok(Invoked::Value(Expression::GatheredElement(at, element)))
    } else {
        Ok(Invoked::Value(Expression::Nothing))
    }
}

/// The class of a field.
pub fn class_at(scope: &Scope, field: usize) -> ClassName
    ensures { result ≡ spec.class_at scope.now field }
{
    scope.fields.get(field).copied().unwrap_or(ClassName::Table)
}

fn chosen_by(cursor: &Cursor<'_>, key: Key) -> Choice
    ensures { result ≡ spec.chosen_by cursor.now key }
{
    match key {
        Key::Literal(number) => Choice::Literal(number),
        Key::Variable(declaration) => Choice::Variable(cursor.variable_of(Some(declaration))),
        Key::Compound => Choice::Compound,
    }
}

/// How an access to a site chooses its part.
pub fn chosen(cursor: &Cursor<'_>, site: Option<Site>) -> Choice
    ensures { result ≡ spec.chosen cursor.now site }
{
    match site {
        None => Choice::Instance,
        Some(site) => match site.reach {
            Reach::Key(key) => chosen_by(cursor, key),
            Reach::Local | Reach::Global => Choice::Instance,
        },
    }
}

/// An access to a field.
pub fn accessed(
    field: usize,
    choice: Choice,
    method: Option<Method>,
    args: Items<Expression>,
) -> Invoked
    ensures { result ≡ spec.accessed field choice method args }
{
    match method {
        None => Invoked::Value(Expression::Nothing),
        Some(method) => Invoked::Accesses(Access {
            target: Target::Dropped,
            field,
            choice,
            method,
            args,
        }),
    }
}
