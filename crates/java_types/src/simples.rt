//! Declarations of locals, and statements that are expressions.

ghost use Rattle.std.specs.Prelude.{◌≡◌, IfOk, OnOk};
ghost use Rattle.java_types.specs.Simples as spec;
ghost use Rattle.java_types.specs.Expressions.{Passing};

use crate::expressions::{Operand, call, value};
use crate::fits;
use crate::walk::{Env, Given, Variable, Walk};
use java_tree::{
    AssignOp, CallForm, Declaration, Expr, ExprType, Local, Simple, TypeName, Value, ValueType,
    words,
};
use sdg_base::{BinOp, Name};
use std::alloc::AllocError;

/// The operator of a compound assignment.
fn operator_of(op: AssignOp) -> Option<BinOp>
    ensures { result ≡ spec.operator_of op }
{
    match op {
        AssignOp::Assign => None,
        AssignOp::Add => Some(BinOp::Add),
        AssignOp::Sub => Some(BinOp::Sub),
        AssignOp::Mul => Some(BinOp::Mul),
        AssignOp::Div => Some(BinOp::Div),
        AssignOp::Rem => Some(BinOp::Rem),
        AssignOp::And => Some(BinOp::And),
        AssignOp::Or => Some(BinOp::Or),
        AssignOp::Xor => Some(BinOp::Xor),
        AssignOp::Shl => Some(BinOp::Shl),
        AssignOp::Shr => Some(BinOp::Shr),
        AssignOp::UShr => Some(BinOp::UShr),
    }
}

/// Whether the expression by its form gives a vector that no variable has.
fn is_fresh(e: &Expr) -> bool
    ensures { result ≡ spec.is_fresh e.now }
{
    matches!(e, Expr::New(_, _) | Expr::Call(_))
}

fn value_or_none(found: Option<ValueType>) -> ExprType
    ensures { result ≡ spec.value_or_none found }
{
    match found {
        Some(found) => ExprType::Value(found),
        None => ExprType::Unknown,
    }
}

/// The type of a variable that is declared so, or none.
pub fn declared_type(name: &TypeName) -> ExprType
    ensures { result ≡ spec.declared_type name.now }
{
    value_or_none(words::value_type(name))
}

fn is_of_method(declaration: Declaration) -> bool
    ensures { result ≡ spec.is_of_method declaration }
{
    match declaration {
        Declaration::Field(_) | Declaration::Method(_) => false,
        Declaration::Parameter(_) | Declaration::Local(_) => true,
    }
}

fn is_parameter(declaration: Declaration) -> bool
    ensures { result ≡ spec.is_parameter declaration }
{
    match declaration {
        Declaration::Parameter(_) => true,
        Declaration::Field(_) | Declaration::Method(_) | Declaration::Local(_) => false,
    }
}

fn is_collection(found: ExprType) -> bool
    ensures { result ≡ spec.is_collection found }
{
    matches!(found, ExprType::Collection(_))
}

/// A variable that may be assigned: a local or a parameter, and no collection.
fn target_of(variable: Option<Variable>) -> Option<Variable>
    ensures { result ≡ spec.target_of variable }
{
    let v = variable?;
    if is_of_method(v.declaration) && !is_collection(v.found) {
        Some(v)
    } else {
        None
    }
}

fn type_of(variable: Option<Variable>) -> ExprType
    ensures { result ≡ spec.type_of variable }
{
    match variable {
        Some(variable) => variable.found,
        None => ExprType::Unknown,
    }
}

pub fn is_vector_parameter(variable: Option<Variable>) -> bool
    ensures { result ≡ spec.is_vector_parameter variable }
{
    match variable {
        Some(variable) => is_parameter(variable.declaration) && fits::is_vector(variable.found),
        None => false,
    }
}

impl Walk {
    /// Goes behind a type, which is that of the construct that begins at `at`.
    #[tactic(auto, unfolding(crate::specs::Simples::typed_name))]
    pub fn typed_name(
        &mut self,
        env: &Env,
        at: usize,
        name: &TypeName,
    ) -> Result<ExprType, AllocError>
        ensures found { IfOk result (λ t. t ≡ (spec.typed_name env.now at name.now self.old).found) }
        ensures walk { OnOk result (self.new ≡ (spec.typed_name env.now at name.now self.old).walk) }
    {
        let found = declared_type(name);
        let declared = words::is_declared(env.class_name.as_slice(), name);
        let name_at = self.at;
        self.note(!declared, name_at, 3)?;
        self.note(!fits::is_known(found), at, 5)?;
        self.pass(env, 1);
        Ok(found)
    }

    /// Brings a variable into scope, unless one of its name is there.
    #[tactic(auto, unfolding(crate::specs::Simples::declared, crate::specs::Walks::noted))]
    pub fn declare(
        &mut self,
        env: &Env,
        at: usize,
        name: &[u8],
        variable: Variable,
    ) -> Result<(), AllocError>
        ensures { OnOk result (self.new ≡ spec.declared env.now at name.now variable self.old) }
    {
        let twice = self.variables.get(name).is_some();
        self.note(twice || words::is_reserved(name), at, 2)?;
        self.variables.add(name, variable)?;
        self.pass(env, 1);
        Ok(())
    }

    #[tactic(auto, unfolding(crate::specs::Simples::declared_local))]
    fn declare_local(
        &mut self,
        env: &Env,
        at: usize,
        name: &[u8],
        found: ExprType,
    ) -> Result<(), AllocError>
        ensures { OnOk result (self.new ≡ spec.declared_local env.now at name.now found self.old) }
    {
        let variable = Variable {
            declaration: Declaration::Local(self.locals.len()),
            found,
        };
        self.locals.push(found)?;
        self.declare(env, at, name, variable)
    }

    /// What a variable is initialised or assigned with.
    #[tactic(auto, unfolding(crate::specs::Simples::put))]
    fn put(&mut self, wanted: ExprType, given: Given, e: &Expr, at: usize) -> Result<(), AllocError>
        ensures { OnOk result (self.new ≡ spec.put wanted (record { given = given; walk = self.old }) e.now at) }
    {
        let shared = fits::is_vector(wanted) && (fits::is_vector(given.found) && !is_fresh(e));
        self.note(!fits::fits(wanted, given.found), at, 7)?;
        self.note(shared, at, 10)
    }

    /// The variable whose name comes next, in an assignment that begins at `at`.
    #[tactic(auto, unfolding(crate::specs::Simples::target))]
    fn target(&mut self, env: &Env, at: usize, name: &[u8]) -> Result<Option<Variable>, AllocError>
        ensures variable { IfOk result (λ v. v ≡ (spec.target env.now at name.now self.old).variable) }
        ensures walk { OnOk result (self.new ≡ (spec.target env.now at name.now self.old).walk) }
    {
        let target = target_of(self.variable(env, name));
        self.named(env, name)?;
        self.note(!target.is_some(), at, 9)?;
        Ok(target)
    }

    /// `++` or `--`, whose name comes next, in a statement that begins at `at`.
    #[tactic(auto, unfolding(crate::specs::Simples::stepped))]
    fn stepped(&mut self, env: &Env, at: usize, name: &[u8]) -> Result<(), AllocError>
        ensures { OnOk result (self.new ≡ spec.stepped env.now at name.now self.old) }
    {
        let name_at = self.at;
        let target = self.target(env, at, name)?;
        self.note(!fits::may_be_number(type_of(target)), name_at, 7)
    }

    /// Whether a vector is written that is a parameter or a member of a collection.
    fn writes(&self, env: &Env, form: &CallForm) -> bool
        ensures { result ≡ spec.writes env.now self.now form.now }
    {
        match form {
            CallForm::Own(_, _) => false,
            CallForm::Of(object, name, _) => {
                words::is_text(name.as_slice(), b"set")
                    && is_vector_parameter(self.variable(env, object.as_slice()))
            }
            CallForm::OfMember(object, _, name, _) => {
                words::is_text(name.as_slice(), b"set")
                    && fits::is_vector(fits::item_type(type_of(self.variable(
                        env,
                        object.as_slice(),
                    ))))
            }
        }
    }
}

fn initialised(
    env: &Env,
    walk: &mut Walk,
    wanted: ExprType,
    initialiser: &Option<Value>,
) -> Result<(), AllocError>
    ensures { OnOk result (walk.new ≡ spec.initialised env.now wanted initialiser.now walk.old) }
{
    let Some(v) = initialiser else {
        return Ok(());
    };
    walk.pass(env, 1);
    let at = walk.at;
    let given = value(env, walk, v)?;
    walk.put(wanted, given, &v.expr, at)
}

#[tactic(auto, unfolding(crate::specs::Simples::local))]
pub fn local(env: &Env, walk: &mut Walk, l: &Local) -> Result<(), AllocError>
    ensures { OnOk result (walk.new ≡ spec.local env.now l.now walk.old) }
{
    let at = walk.at;
    walk.pass_if(env, l.is_partial, 2);
    let found = walk.typed_name(env, at, &l.type_name)?;
    walk.declare_local(env, at, l.name.as_slice(), found)?;
    initialised(env, walk, found, &l.value)
}

fn assigned_by(
    walk: &mut Walk,
    op: Option<BinOp>,
    target: Option<Variable>,
    at: usize,
    e: &Expr,
    given: Given,
    value_at: usize,
) -> Result<(), AllocError>
    ensures { OnOk result (walk.new ≡ spec.assigned_by op at target value_at e.now (record { given = given; walk = walk.old })) }
{
    match op {
        None => {
            walk.note(is_vector_parameter(target), at, 10)?;
            walk.put(type_of(target), given, e, value_at)
        }
        Some(op) => {
            let left = Operand {
                found: type_of(target),
                at,
            };
            let right = Operand {
                found: given.found,
                at: value_at,
            };
            walk.operated(op, left, right)?;
            Ok(())
        }
    }
}

#[tactic(auto, unfolding(crate::specs::Simples::assigned))]
fn assigned(
    env: &Env,
    walk: &mut Walk,
    name: &Name,
    op: AssignOp,
    v: &Value,
) -> Result<(), AllocError>
    ensures { OnOk result (walk.new ≡ spec.assigned env.now name.now op v.now walk.old) }
{
    let at = walk.at;
    let target = walk.target(env, at, name.as_slice())?;
    walk.pass(env, 1);
    let value_at = walk.at;
    let given = value(env, walk, v)?;
    assigned_by(walk, operator_of(op), target, at, &v.expr, given, value_at)
}

#[tactic(auto, unfolding(crate::specs::Simples::call_alone))]
fn call_alone(
    env: &Env,
    walk: &mut Walk,
    is_global: bool,
    form: &CallForm,
) -> Result<(), AllocError>
    ensures { OnOk result (walk.new ≡ spec.call_alone env.now is_global form.now walk.old) }
{
    let at = walk.at;
    walk.pass_if(env, is_global, 2);
    let writes = walk.writes(env, form);
    walk.note(writes, at, 10)?;
    let slot = walk.open()?;
    let found = call(env, walk, form)?;
    walk.close(slot, found);
    Ok(())
}

pub fn simple(env: &Env, walk: &mut Walk, s: &Simple) -> Result<(), AllocError>
    ensures { OnOk result (walk.new ≡ spec.simple_walk env.now s.now walk.old) }
{
    let at = walk.at;
    match s {
        Simple::Assign(name, op, v) => assigned(env, walk, name, *op, v),
        Simple::PostIncrement(name) | Simple::PostDecrement(name) => {
            walk.stepped(env, at, name.as_slice())?;
            walk.pass(env, 1);
            Ok(())
        }
        Simple::PreIncrement(name) | Simple::PreDecrement(name) => {
            walk.pass(env, 1);
            walk.stepped(env, at, name.as_slice())
        }
        Simple::Call(is_global, form) => call_alone(env, walk, *is_global, form),
    }
}

/// Simple statements with one token before each, and one where there is none.
#[tactic(auto, unfolding(crate::specs::Simples::simples))]
pub fn simples(env: &Env, walk: &mut Walk, all: &[Simple]) -> Result<(), AllocError>
    ensures { OnOk result (walk.new ≡ spec.simples env.now all.now walk.old) }
{
    for s in all {
        walk.pass(env, 1);
        simple(env, walk, s)?;
    }
    walk.pass_if(env, all.is_empty(), 1);
    Ok(())
}
