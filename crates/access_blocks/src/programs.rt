//! The fields and methods of a class, resolved.

ghost use Rattle.std.specs.Prelude.{◌≡◌, [], IfOk, OnOk, fold, map};
ghost use Rattle.access_blocks.specs.Cursors.{read};
ghost use Rattle.access_blocks.specs.Programs as spec;

use crate::body::{Body, Holder, Program};
use crate::cursor::Cursor;
use crate::marking::with_marks;
use crate::scope::{Header, Scope};
use crate::simples::declared_type;
use crate::statements::block;
use annotations::{Annotated, FieldKind};
use java_tree::words::state_class;
use java_tree::{
    ExprType, Field, Member, Method, MethodKind, Param, ResultType, Typed, ValueType, discard,
    kind_of,
};
use sdg_base::ClassName;
use sqlite_items::Items;
use std::alloc::{AllocError, Global};

fn class_of(field: &Field) -> ClassName
    ensures { result ≡ spec.class_of field.now }
{
    state_class(field.type_name.as_slice()).unwrap_or(ClassName::Table)
}

fn classes_of(alloc: Global, members: &[Member]) -> Result<Items<ClassName>, AllocError>
    ensures { IfOk result (λ all. all ≡ map spec.class_of (spec.fields_in members.now)) }
{
    let mut all = Items::new(alloc);
    for member in members {
        if let Member::Field(field) = member {
            all.push(class_of(field))?;
        }
    }
    Ok(all)
}

fn result_type(found: &ResultType) -> ExprType
    ensures { result ≡ spec.result_type found.now }
{
    match found {
        ResultType::Void => ExprType::Void,
        ResultType::Type(name) => ExprType::Value(declared_type(name)),
    }
}

fn param_type(param: &Param) -> ExprType
    ensures { result ≡ spec.param_type param.now }
{
    let found = declared_type(&param.type_name);
    if param.is_array {
        ExprType::Collection(found)
    } else {
        ExprType::Value(found)
    }
}

fn param_types(alloc: Global, params: &[Param]) -> Result<Items<ExprType>, AllocError>
    ensures { IfOk result (λ all. all ≡ map spec.param_type params.now) }
{
    let mut all = Items::new(alloc);
    for param in params {
        all.push(param_type(param))?;
    }
    Ok(all)
}

fn param_variables(alloc: Global, params: &[Param]) -> Result<Items<ValueType>, AllocError>
    ensures { IfOk result (λ all. all ≡ map spec.param_variable params.now) }
{
    let mut all = Items::new(alloc);
    for param in params {
        all.push(declared_type(&param.type_name))?;
    }
    Ok(all)
}

fn is_merge(kind: MethodKind) -> bool
    ensures { result ≡ spec.is_merge kind }
{
    matches!(kind, MethodKind::Merge)
}

fn header_of(alloc: Global, method: &Method) -> Result<Header, AllocError>
    ensures { IfOk result (λ h. h ≡ spec.header_of method.now) }
{
    let params = param_types(alloc, method.params.as_slice())?;
    Ok(Header {
        is_merge: is_merge(kind_of(method)),
        params,
        result: result_type(&method.result),
    })
}

fn headers_of(alloc: Global, members: &[Member]) -> Result<Items<Header>, AllocError>
    ensures { IfOk result (λ all. all ≡ map spec.header_of (spec.methods_in members.now)) }
{
    let mut all = Items::new(alloc);
    for member in members {
        if let Member::Method(method) = member {
            all.push(header_of(alloc, method)?)?;
        }
    }
    Ok(all)
}

/// A method begins: its parameters are variables, and it has no locals yet.
fn enter(alloc: Global, cursor: &mut Cursor<'_>, method: &Method) -> Result<(), AllocError>
    ensures { OnOk result (cursor.new ≡ spec.in_method method.now cursor.old) }
{
    let parameters = param_variables(alloc, method.params.as_slice())?;
    cursor.enter(alloc, parameters);
    Ok(())
}

/// A method, resolved.
fn body(
    alloc: Global,
    scope: &Scope,
    cursor: &mut Cursor<'_>,
    method: &Method,
) -> Result<Body, AllocError>
    ensures it { IfOk result (λ b. b ≡ (spec.body_of scope.now method.now cursor.old).it) }
    ensures cursor { OnOk result (cursor.new ≡ (spec.body_of scope.now method.now cursor.old).cursor) }
{
    enter(alloc, cursor, method)?;
    let wanted = result_type(&method.result);
    let statements = block(alloc, scope, cursor, wanted, method.body.as_slice())?;
    let variables = cursor.variables(alloc)?;
    let statements = with_marks(alloc, statements.as_slice())?;
    Ok(Body {
        kind: kind_of(method),
        arity: method.params.len(),
        variables,
        statements,
    })
}

fn bodies(
    alloc: Global,
    scope: &Scope,
    cursor: &mut Cursor<'_>,
    members: &[Member],
) -> Result<Items<Body>, AllocError>
    ensures { IfOk result (λ all. all ≡ (fold (spec.with_method scope.now) (read [] cursor.old) (spec.methods_in members.now)).it) }
{
    let mut all = Items::new(alloc);
    for member in members {
        if let Member::Method(method) = member {
            all.push(body(alloc, scope, cursor, method)?)?;
        }
    }
    Ok(all)
}

fn is_partial(kind: FieldKind) -> bool
    ensures { result ≡ spec.is_partial kind }
{
    match kind {
        FieldKind::Partitioned => false,
        FieldKind::Partial => true,
    }
}

/// Each field beside its kind.
fn holders(
    alloc: Global,
    classes: &[ClassName],
    kinds: &[FieldKind],
) -> Result<Items<Holder>, AllocError>
    ensures { IfOk result (λ all. all ≡ spec.holders classes.now kinds.now) }
{
    let mut all = Items::new(alloc);
    for (number, class) in classes.iter().enumerate() {
        let Some(kind) = kinds.get(number) else {
            return Ok(all);
        };
        all.push(Holder {
            class: *class,
            is_partial: is_partial(*kind),
        })?;
    }
    Ok(all)
}

fn program(alloc: Global, annotated: &Annotated) -> Result<Program, AllocError>
    ensures { IfOk result (λ p. p ≡ spec.program_of annotated.now) }
{
    let members = annotated.typed.class.members.as_slice();
    let scope = Scope {
        fields: classes_of(alloc, members)?,
        methods: headers_of(alloc, members)?,
    };
    let types = &annotated.typed.types;
    let mut cursor = Cursor::new(
        alloc,
        types.names.as_slice(),
        types.exprs.as_slice(),
        annotated.sites.as_slice(),
    );
    let methods = bodies(alloc, &scope, &mut cursor, members)?;
    let fields = holders(alloc, scope.fields.as_slice(), annotated.kinds.as_slice())?;
    Ok(Program { fields, methods })
}

/// A class beside its program. It is taken apart and not let go: its class goes by `java_tree::discard`.
pub struct Marked {
    pub annotated: Annotated,
    pub program: Program,
}

/// The program of a class: its methods with names as numbers, conversions (JLS 5.6) and start values written out, and a
/// mark before each statement that begins a block. `AllocError` says that memory is wanting.
pub fn marks(alloc: Global, annotated: Annotated) -> Result<Marked, AllocError>
    ensures same { IfOk result (λ m. m.annotated ≡ annotated) }
    ensures program { IfOk result (λ m. m.program ≡ spec.program_of annotated) }
{
    match program(alloc, &annotated) {
        Ok(program) => Ok(Marked { annotated, program }),
        Err(error) => {
            let Annotated { typed, .. } = annotated;
            let Typed { class, .. } = typed;
            discard(class);
            Err(error)
        }
    }
}
