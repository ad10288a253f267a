//! Types of expressions.

ghost use Rattle.std.specs.Prelude.{◌≡◌, length, map, IfOk, OnOk};
ghost use Rattle.std.specs.Option.{option_copied};
ghost use Rattle.java_types.specs.Expressions as spec;

use crate::fits::{self, BOOLEAN, INT, Sort};
use crate::methods::{Params, Shape, method_of, params_of};
use crate::walk::{Env, Given, Signature, Walk};
use java_tree::{CallForm, Declaration, Expr, ExprType, MethodKind, Value, words};
use sdg_base::{BinOp, Num, UnOp};
use std::alloc::AllocError;

/// A part of an expression, by its type and the number of its first token.
#[derive(Clone, Copy)]
pub struct Operand {
    pub found: ExprType,
    pub at: usize,
}

impl Walk {
    /// Whether two values do not go with an operator, which is noted at those that do not fit.
    #[tactic(auto, unfolding(crate::specs::Expressions::clash))]
    fn clash(
        &mut self,
        sort: Sort,
        at: usize,
        left: Operand,
        right: Operand,
    ) -> Result<bool, AllocError>
        ensures holds { IfOk result (λ t. t ≡ (spec.clash sort at left right self.old).holds) }
        ensures walk { OnOk result (self.new ≡ (spec.clash sort at left right self.old).walk) }
    {
        if fits::are_vectors_compared(sort, left.found, right.found) {
            self.note(true, at, 7)?;
            return Ok(true);
        }
        let left_misfits = !fits::is_operand(sort, left.found);
        let right_misfits = fits::misfits_behind(sort, left.found, right.found);
        self.note(left_misfits, left.at, 7)?;
        self.note(right_misfits, right.at, 7)?;
        Ok(left_misfits || right_misfits)
    }

    #[tactic(auto, unfolding(crate::specs::Expressions::operated))]
    pub fn operated(
        &mut self,
        op: BinOp,
        left: Operand,
        right: Operand,
    ) -> Result<ExprType, AllocError>
        ensures found { IfOk result (λ t. t ≡ (spec.operated op left right self.old).found) }
        ensures walk { OnOk result (self.new ≡ (spec.operated op left right self.old).walk) }
    {
        let sort = fits::sort_of(op);
        let broken = self.clash(sort, left.at, left, right)?;
        Ok(fits::outcome(broken, sort, left.found, right.found))
    }

    #[tactic(auto, unfolding(crate::specs::Expressions::chosen))]
    fn chosen(
        &mut self,
        test: Operand,
        first: Operand,
        second: Operand,
    ) -> Result<ExprType, AllocError>
        ensures found { IfOk result (λ t. t ≡ (spec.chosen test first second self.old).found) }
        ensures walk { OnOk result (self.new ≡ (spec.chosen test first second self.old).walk) }
    {
        let untested = !fits::may_be_boolean(test.found);
        self.note(untested, test.at, 7)?;
        let clash = self.clash(Sort::Equality, test.at, first, second)?;
        let broken = untested || clash;
        Ok(fits::choice(broken, test.found, first.found, second.found))
    }

    #[tactic(auto, unfolding(crate::specs::Expressions::unary))]
    fn unary(&mut self, op: UnOp, operand: Operand) -> Result<ExprType, AllocError>
        ensures found { IfOk result (λ t. t ≡ (spec.unary op operand self.old).found) }
        ensures walk { OnOk result (self.new ≡ (spec.unary op operand self.old).walk) }
    {
        let broken = !fits::takes(op, operand.found);
        self.note(broken, operand.at, 7)?;
        Ok(fits::unless(broken, operand.found))
    }

    #[tactic(auto, unfolding(crate::specs::Expressions::cast))]
    fn cast(&mut self, to: Num, operand: Operand) -> Result<ExprType, AllocError>
        ensures found { IfOk result (λ t. t ≡ (spec.cast to operand self.old).found) }
        ensures walk { OnOk result (self.new ≡ (spec.cast to operand self.old).walk) }
    {
        let broken = !fits::may_be_number(operand.found);
        self.note(broken, operand.at, 7)?;
        Ok(fits::with_part(broken, operand.found, fits::type_of_num(to)))
    }

    #[tactic(auto, unfolding(crate::specs::Expressions::number))]
    fn number(&mut self, env: &Env, broken: bool, long: bool) -> Result<ExprType, AllocError>
        ensures found { IfOk result (λ t. t ≡ (spec.number env.now broken long self.old).found) }
        ensures walk { OnOk result (self.new ≡ (spec.number env.now broken long self.old).walk) }
    {
        let at = self.at;
        self.note(broken, at, 1)?;
        self.pass(env, 1);
        Ok(fits::unless(broken, fits::literal(long)))
    }

    /// Goes behind `new` and the name of a class up to its argument, and says whether it is the vector's.
    #[tactic(auto, unfolding(crate::specs::Expressions::made))]
    fn made(&mut self, env: &Env, name: &[u8]) -> Result<bool, AllocError>
        ensures holds { IfOk result (λ t. t ≡ (spec.made env.now name.now self.old).holds) }
        ensures walk { OnOk result (self.new ≡ (spec.made env.now name.now self.old).walk) }
    {
        let at = self.at;
        let declared = words::is_type(env.class_name.as_slice(), name);
        let is_vector = words::is_vector_name(name);
        self.pass(env, 1);
        let name_at = self.at;
        self.note(!declared, name_at, 3)?;
        self.note(declared && !is_vector, at, 6)?;
        self.pass(env, 2);
        Ok(is_vector)
    }

    /// The type of what takes one `int`.
    #[tactic(auto, unfolding(crate::specs::Expressions::sized))]
    fn sized(&mut self, whole: ExprType, size: Operand) -> Result<ExprType, AllocError>
        ensures found { IfOk result (λ t. t ≡ (spec.sized whole size self.old).found) }
        ensures walk { OnOk result (self.new ≡ (spec.sized whole size self.old).walk) }
    {
        let broken = !fits::fits(INT, size.found);
        self.note(broken, size.at, 7)?;
        Ok(fits::with_part(broken, size.found, whole))
    }

    /// The type of a member of the collection whose name comes next, up to the index.
    #[tactic(auto, unfolding(crate::specs::Expressions::indexed))]
    fn indexed(&mut self, env: &Env, name: &[u8]) -> Result<ExprType, AllocError>
        ensures found { IfOk result (λ t. t ≡ (spec.indexed env.now name.now self.old).found) }
        ensures walk { OnOk result (self.new ≡ (spec.indexed env.now name.now self.old).walk) }
    {
        let at = self.at;
        let found = self.named(env, name)?;
        self.pass(env, 1);
        self.note(!fits::may_be_collection(found), at, 7)?;
        Ok(fits::item_type(found))
    }

    #[tactic(auto, unfolding(crate::specs::Expressions::member))]
    fn member(&mut self, env: &Env, object: &[u8], name: &[u8]) -> Result<ExprType, AllocError>
        ensures found { IfOk result (λ t. t ≡ (spec.member env.now object.now name.now self.old).found) }
        ensures walk { OnOk result (self.new ≡ (spec.member env.now object.now name.now self.old).walk) }
    {
        let owner = self.named(env, object)?;
        let broken = !fits::may_have_length(owner, name);
        self.pass(env, 1);
        let at = self.at;
        self.note(broken, at, 3)?;
        self.pass(env, 1);
        Ok(fits::with_part(broken, owner, INT))
    }

    /// Notes whether an argument fits, and says so.
    #[tactic(auto, unfolding(crate::specs::Expressions::passed))]
    fn passed(&mut self, wanted: ExprType, given: Given, at: usize) -> Result<bool, AllocError>
        ensures holds { IfOk result (λ t. t ≡ (spec.passed wanted given at self.old).holds) }
        ensures walk { OnOk result (self.new ≡ (spec.passed wanted given at self.old).walk) }
    {
        let fit = fits::may_be_passed(wanted, given);
        self.note(!fit, at, 7)?;
        Ok(fit && fits::is_known(given.found))
    }

    /// Whether a method may not be called here.
    fn refused_call(&mut self, signature: &Signature) -> Result<bool, AllocError>
        ensures holds { IfOk result (λ t. t ≡ (spec.refused_call signature.now self.old).holds) }
        ensures walk { OnOk result (self.new ≡ (spec.refused_call signature.now self.old).walk) }
    {
        match signature.kind {
            MethodKind::Entry => Ok(true),
            MethodKind::Helper | MethodKind::Merge => self.called(signature.number),
        }
    }

    fn sound_call(
        &mut self,
        at: usize,
        count: usize,
        signature: &Signature,
    ) -> Result<ExprType, AllocError>
        ensures found { IfOk result (λ t. t ≡ (spec.sound_call at count signature.now self.old).found) }
        ensures walk { OnOk result (self.new ≡ (spec.sound_call at count signature.now self.old).walk) }
    {
        let refused = self.refused_call(signature)?;
        let miscounted = signature.params.len() != count;
        self.note(refused, at, 13)?;
        self.note(miscounted, at, 6)?;
        Ok(fits::unless(refused || miscounted, signature.result))
    }

    fn own_of(
        &mut self,
        at: usize,
        count: usize,
        signature: Option<&Signature>,
    ) -> Result<ExprType, AllocError>
        ensures found { IfOk result (λ t. t ≡ (spec.own_of at count self.old (option_copied signature.entry)).found) }
        ensures walk { OnOk result (self.new ≡ (spec.own_of at count self.old (option_copied signature.entry)).walk) }
    {
        let Some(signature) = signature else {
            self.note(true, at, 3)?;
            return Ok(ExprType::Unknown);
        };
        self.names.push(Declaration::Method(signature.number))?;
        if signature.is_sound {
            self.sound_call(at, count, signature)
        } else {
            Ok(ExprType::Unknown)
        }
    }

    /// The type of a call of a method of the class, whose name comes next.
    #[tactic(auto, unfolding(crate::specs::Expressions::own))]
    fn own(&mut self, env: &Env, name: &[u8], count: usize) -> Result<ExprType, AllocError>
        ensures found { IfOk result (λ t. t ≡ (spec.own env.now name.now count self.old).found) }
        ensures walk { OnOk result (self.new ≡ (spec.own env.now name.now count self.old).walk) }
    {
        let at = self.at;
        self.pass(env, 1);
        self.own_of(at, count, env.methods.get(name))
    }

    fn callee_of(
        &mut self,
        at: usize,
        name_at: usize,
        count: usize,
        known: bool,
        shape: Option<Shape>,
    ) -> Result<Shape, AllocError>
        ensures shape { IfOk result (λ s. s ≡ (spec.callee_of at name_at count known self.old shape).shape) }
        ensures walk { OnOk result (self.new ≡ (spec.callee_of at name_at count known self.old shape).walk) }
    {
        let Some(shape) = shape else {
            self.note(known, name_at, 3)?;
            return Ok(Shape {
                params: Params::Nothing,
                result: ExprType::Unknown,
            });
        };
        let miscounted = params_of(shape.params).len() != count;
        self.note(miscounted, at, 6)?;
        Ok(Shape {
            params: shape.params,
            result: fits::unless(miscounted, shape.result),
        })
    }

    /// What is called by the name of a method of what stands before the dot that comes next.
    #[tactic(auto, unfolding(crate::specs::Expressions::of))]
    fn of(
        &mut self,
        env: &Env,
        at: usize,
        owner: ExprType,
        name: &[u8],
        count: usize,
    ) -> Result<Shape, AllocError>
        ensures shape { IfOk result (λ s. s ≡ (spec.of env.now at owner name.now count self.old).shape) }
        ensures walk { OnOk result (self.new ≡ (spec.of env.now at owner name.now count self.old).walk) }
    {
        let shape = method_of(owner, name);
        self.pass(env, 1);
        let name_at = self.at;
        self.pass(env, 1);
        self.callee_of(at, name_at, count, fits::is_known(owner), shape)
    }
}

/// The types of the parameters of a method of the class.
#[tactic(auto, unfolding(crate::specs::Expressions::own_params))]
fn own_params<'a>(env: &'a Env, name: &[u8]) -> &'a [ExprType]
    ensures { result.now ≡ spec.own_params env.now name.now }
{
    match env.methods.get(name) {
        Some(signature) if signature.is_sound => signature.params.as_slice(),
        _ => &[],
    }
}

/// How many arguments there are.
#[tactic(auto, using(crate::proofs::Lists::length_map))]
fn count_of(env: &Env, args: &[Value]) -> usize
    ensures { result ≡ length (map (spec.value_walk env.now) args.now) }
{
    let _ = env;
    args.len()
}

/// The type of a parameter; what has none takes everything.
fn param_at(params: &[ExprType], at: usize) -> ExprType
    ensures { result ≡ spec.param_at params.now at }
{
    params.get(at).copied().unwrap_or(ExprType::Unknown)
}

#[cycle(expressions)]
pub fn expr(env: &Env, walk: &mut Walk, e: &Expr, negated: bool) -> Result<ExprType, AllocError>
    ensures found { IfOk result (λ t. t ≡ (spec.expr_walk env.now e.now negated walk.old).found) }
    ensures walk { OnOk result (walk.new ≡ (spec.expr_walk env.now e.now negated walk.old).walk) }
{
    let slot = walk.open()?;
    match e {
        Expr::Conditional(test, first, second) => {
            let test = placed(env, walk, test.get(), false)?;
            walk.pass(env, 1);
            let first = placed(env, walk, first.get(), false)?;
            walk.pass(env, 1);
            let second = placed(env, walk, second.get(), false)?;
            let found = walk.chosen(test, first, second)?;
            Ok(walk.close(slot, found))
        }
        Expr::Binary(op, left, right) => {
            let left = placed(env, walk, left.get(), false)?;
            walk.pass(env, 1);
            let right = placed(env, walk, right.get(), false)?;
            let found = walk.operated(*op, left, right)?;
            Ok(walk.close(slot, found))
        }
        Expr::Unary(op, inner) => {
            walk.pass(env, 1);
            let inner = placed(env, walk, inner.get(), fits::is_minus(*op))?;
            let found = walk.unary(*op, inner)?;
            Ok(walk.close(slot, found))
        }
        Expr::Cast(to, inner) => {
            walk.pass(env, 3);
            let inner = placed(env, walk, inner.get(), false)?;
            let found = walk.cast(*to, inner)?;
            Ok(walk.close(slot, found))
        }
        Expr::Number {
            digits,
            decimal,
            long,
        } => {
            let broken = fits::is_minimum(*digits, *decimal, *long) && !negated;
            let found = walk.number(env, broken, *long)?;
            Ok(walk.close(slot, found))
        }
        Expr::Bool(_) => {
            walk.pass(env, 1);
            Ok(walk.close(slot, BOOLEAN))
        }
        Expr::Paren(inner) => {
            walk.pass(env, 1);
            let found = expr(env, walk, inner.get(), false)?;
            walk.pass(env, 1);
            Ok(walk.close(slot, found))
        }
        Expr::New(name, size) => {
            let is_vector = walk.made(env, name.as_slice())?;
            let size = placed(env, walk, size.get(), false)?;
            walk.pass(env, 1);
            let found = walk.sized(fits::made_type(is_vector), size)?;
            Ok(walk.close(slot, found))
        }
        Expr::Name(name) => {
            let found = walk.named(env, name.as_slice())?;
            Ok(walk.close(slot, found))
        }
        Expr::Index(name, index) => {
            let found = item(env, walk, name.as_slice(), index.get())?;
            Ok(walk.close(slot, found))
        }
        Expr::Member(object, name) => {
            let found = walk.member(env, object.as_slice(), name.get().as_slice())?;
            Ok(walk.close(slot, found))
        }
        Expr::Call(form) => {
            let at = walk.at;
            let found = call(env, walk, form.get())?;
            let found = walk.used(found, at)?;
            Ok(walk.close(slot, found))
        }
    }
}

#[cycle(expressions)]
fn placed(env: &Env, walk: &mut Walk, e: &Expr, negated: bool) -> Result<Operand, AllocError>
    ensures operand { IfOk result (λ o. o ≡ (spec.placed (spec.expr_walk env.now e.now) negated walk.old).operand) }
    ensures walk { OnOk result (walk.new ≡ (spec.placed (spec.expr_walk env.now e.now) negated walk.old).walk) }
{
    let at = walk.at;
    let found = expr(env, walk, e, negated)?;
    Ok(Operand { found, at })
}

/// The member of a collection at an index.
#[cycle(expressions)]
fn item(env: &Env, walk: &mut Walk, name: &[u8], index: &Expr) -> Result<ExprType, AllocError>
    ensures found { let r = spec.item env.now name.now (spec.expr_walk env.now index.now) walk.old in IfOk result (λ t. t ≡ r.found) }
    ensures walk { let r = spec.item env.now name.now (spec.expr_walk env.now index.now) walk.old in OnOk result (walk.new ≡ r.walk) }
{
    let found = walk.indexed(env, name)?;
    let index = placed(env, walk, index, false)?;
    walk.pass(env, 1);
    walk.sized(found, index)
}

/// What is called by the name of a method of a member of a collection.
#[cycle(expressions)]
fn item_callee(
    env: &Env,
    walk: &mut Walk,
    object: &[u8],
    index: &Expr,
    name: &[u8],
    count: usize,
) -> Result<Shape, AllocError>
    ensures shape { let t = spec.item env.now object.now (spec.expr_walk env.now index.now) walk.old in IfOk result (λ s. s ≡ (spec.of env.now walk.old.at t.found name.now count t.walk).shape) }
    ensures walk { let t = spec.item env.now object.now (spec.expr_walk env.now index.now) walk.old in OnOk result (walk.new ≡ (spec.of env.now walk.old.at t.found name.now count t.walk).walk) }
{
    let at = walk.at;
    let owner = item(env, walk, object, index)?;
    walk.of(env, at, owner, name, count)
}

#[cycle(expressions)]
pub fn call(env: &Env, walk: &mut Walk, form: &CallForm) -> Result<ExprType, AllocError>
    ensures found { IfOk result (λ t. t ≡ (spec.call_walk env.now form.now walk.old).found) }
    ensures walk { OnOk result (walk.new ≡ (spec.call_walk env.now form.now walk.old).walk) }
{
    match form {
        CallForm::Own(name, args) => {
            let count = count_of(env, args.as_slice());
            let found = walk.own(env, name.as_slice(), count)?;
            let params = own_params(env, name.as_slice());
            let fit = arguments(env, walk, params, args.as_slice())?;
            Ok(fits::unless(!fit, found))
        }
        CallForm::Of(object, name, args) => {
            let at = walk.at;
            let owner = walk.named(env, object.as_slice())?;
            let count = count_of(env, args.as_slice());
            let shape = walk.of(env, at, owner, name.as_slice(), count)?;
            let fit = arguments(env, walk, params_of(shape.params), args.as_slice())?;
            Ok(fits::unless(!fit, shape.result))
        }
        CallForm::OfMember(object, index, name, args) => {
            let count = count_of(env, args.as_slice());
            let shape = item_callee(
                env,
                walk,
                object.as_slice(),
                index.get(),
                name.as_slice(),
                count,
            )?;
            let fit = arguments(env, walk, params_of(shape.params), args.as_slice())?;
            Ok(fits::unless(!fit, shape.result))
        }
    }
}

/// Whether all arguments have types and fit.
#[cycle(expressions)]
#[tactic(auto, using(crate::proofs::Lists::length_map, crate::proofs::Lists::fold_map))]
fn arguments(
    env: &Env,
    walk: &mut Walk,
    params: &[ExprType],
    args: &[Value],
) -> Result<bool, AllocError>
    ensures holds { IfOk result (λ t. t ≡ (spec.arguments env.now params.now (map (spec.value_walk env.now) args.now) walk.old).holds) }
    ensures walk { OnOk result (walk.new ≡ (spec.arguments env.now params.now (map (spec.value_walk env.now) args.now) walk.old).walk) }
{
    let mut fit = true;
    for (number, v) in args.iter().enumerate() {
        let one = argument(env, walk, param_at(params, number), v)?;
        fit = fit && one;
    }
    walk.pass_if(env, args.is_empty(), 1);
    walk.pass(env, 1);
    Ok(fit)
}

#[cycle(expressions)]
fn argument(env: &Env, walk: &mut Walk, wanted: ExprType, v: &Value) -> Result<bool, AllocError>
    ensures holds { IfOk result (λ t. t ≡ (spec.argument env.now wanted (spec.value_walk env.now v.now) walk.old).holds) }
    ensures walk { OnOk result (walk.new ≡ (spec.argument env.now wanted (spec.value_walk env.now v.now) walk.old).walk) }
{
    walk.pass(env, 1);
    let at = walk.at;
    let given = value(env, walk, v)?;
    walk.passed(wanted, given, at)
}

#[cycle(expressions)]
pub fn value(env: &Env, walk: &mut Walk, v: &Value) -> Result<Given, AllocError>
    ensures given { IfOk result (λ g. g ≡ (spec.value_walk env.now v.now walk.old).given) }
    ensures walk { OnOk result (walk.new ≡ (spec.value_walk env.now v.now walk.old).walk) }
{
    walk.pass_if(env, v.is_global, 2);
    let found = expr(env, walk, &v.expr, false)?;
    Ok(Given {
        is_global: v.is_global,
        found,
    })
}
