//! What expressions read, and whether they are constant (JLS 15.28, 16.1).

ghost use Rattle.std.specs.Prelude.{◌≡◌, true, IfOk, OnOk, List, [], map};
ghost use Rattle.java_tree.specs.declared.tree.CallForm.TheOpen as e;
ghost use Rattle.java_flow.specs.Points.{seen, behind, reading};
ghost use Rattle.java_flow.specs.Expressions.{expr_step, judged, verdict_of, value_walk, call_walk, args_walk};

use crate::constants::{converted, is_long_number, literal, unary};
use crate::judging::{binary_verdict, conditional_verdict, cut_between, settled};
use crate::verdict::Verdict;
use crate::walk::Walk;
use java_tree::{CallForm, Expr, Value};
use sdg_base::{Name, Num, UnOp, Val};
use std::alloc::AllocError;

impl<'a> Walk<'a> {
    /// Goes past an expression, before which every variable is assigned or not.
    #[cycle(expressions)]
    pub fn expr(&mut self, expr: &Expr, cut: bool) -> Result<Verdict, AllocError>
        ensures verdict { IfOk result (λ v. v ≡ verdict_of (judged expr.now) cut) }
        ensures walked { OnOk result (seen self.new ≡ (judged expr.now).walk cut (seen self.old)) }
        ensures same { self.new.numbers.now ≡ self.old.numbers.now }
    {
        match expr {
            Expr::Conditional(test, first, second) => {
                let test = self.expr(test.get(), cut)?;
                self.pass(1);
                let first = self.expr(first.get(), test.when_true)?;
                self.pass(1);
                let second = self.expr(second.get(), test.when_false)?;
                Ok(conditional_verdict(test, first, second))
            }
            Expr::Binary(op, left, right) => {
                let left = self.expr(left.get(), cut)?;
                self.pass(1);
                let between = cut_between(*op, left.when_true, left.when_false, cut);
                let right = self.expr(right.get(), between)?;
                Ok(binary_verdict(*op, left, right, cut))
            }
            Expr::Unary(op, operand) => self.unary(*op, operand.get(), cut),
            Expr::Cast(to, operand) => self.cast(*to, operand.get(), cut),
            Expr::Number { digits, long, .. } => Ok(self.number(*digits, *long, cut)),
            Expr::Bool(value) => Ok(self.truth(*value, cut)),
            Expr::Paren(inner) => self.paren(inner.get(), cut),
            Expr::New(_, size) => self.new_vector(size.get(), cut),
            Expr::Name(name) => self.name(name, 1, cut),
            Expr::Index(name, at) => self.index(name, at.get(), cut),
            Expr::Member(object, _) => self.name(object, 3, cut),
            Expr::Call(call) => {
                self.call(call.get(), cut)?;
                Ok(settled(None, false, cut, cut))
            }
        }
    }

    /// Goes past an expression of which no more is asked, and so many tokens behind it.
    #[cycle(expressions)]
    fn operand(&mut self, expr: &Expr, width: usize, cut: bool) -> Result<(), AllocError>
        ensures walked { OnOk result (seen self.new ≡ behind width ((judged expr.now).walk cut (seen self.old))) }
        ensures same { self.new.numbers.now ≡ self.old.numbers.now }
    {
        self.expr(expr, cut)?;
        self.pass(width);
        Ok(())
    }

    /// A variable is read, and then so many tokens are passed.
    fn variable(&mut self, name: &Name, width: usize, cut: bool) -> Result<(), AllocError>
        ensures walked { OnOk result (seen self.new ≡ behind width (reading cut name.now (seen self.old))) }
        ensures same { self.new.numbers.now ≡ self.old.numbers.now }
    {
        self.read(cut, name)?;
        self.pass(width);
        Ok(())
    }

    fn number(&mut self, digits: u64, long: bool, cut: bool) -> Verdict
        ensures verdict { result ≡ verdict_of (expr_step (e.Number digits true long)) cut }
        ensures walked { seen self.new ≡ (expr_step (e.Number digits true long)).walk cut (seen self.old) }
        ensures same { self.new.numbers.now ≡ self.old.numbers.now }
    {
        self.pass(1);
        settled(literal(digits, long), long, cut, cut)
    }

    fn truth(&mut self, value: bool, cut: bool) -> Verdict
        ensures verdict { result ≡ verdict_of (expr_step (e.Bool value)) cut }
        ensures walked { seen self.new ≡ (expr_step (e.Bool value)).walk cut (seen self.old) }
        ensures same { self.new.numbers.now ≡ self.old.numbers.now }
    {
        self.pass(1);
        settled(Some(Some(Val::Bool(value))), false, cut, cut)
    }

    fn name(&mut self, name: &Name, width: usize, cut: bool) -> Result<Verdict, AllocError>
        ensures verdict { IfOk result (λ v. v ≡ verdict_of (expr_step (e.Name name.now)) cut) }
        ensures walked { OnOk result (seen self.new ≡ behind width (reading cut name.now (seen self.old))) }
        ensures same { self.new.numbers.now ≡ self.old.numbers.now }
    {
        self.variable(name, width, cut)?;
        Ok(settled(None, false, cut, cut))
    }

    #[cycle(expressions)]
    fn unary(&mut self, op: UnOp, operand: &Expr, cut: bool) -> Result<Verdict, AllocError>
        ensures verdict { IfOk result (λ v. v ≡ verdict_of (expr_step (e.Unary op (judged operand.now))) cut) }
        ensures walked { OnOk result (seen self.new ≡ (expr_step (e.Unary op (judged operand.now))).walk cut (seen self.old)) }
        ensures same { self.new.numbers.now ≡ self.old.numbers.now }
    {
        self.pass(1);
        let operand = self.expr(operand, cut)?;
        let constant = unary(op, operand.constant);
        match op {
            UnOp::Not => Ok(settled(
                constant,
                operand.is_long,
                operand.when_false,
                operand.when_true,
            )),
            _ => Ok(settled(constant, operand.is_long, cut, cut)),
        }
    }

    #[cycle(expressions)]
    fn cast(&mut self, to: Num, operand: &Expr, cut: bool) -> Result<Verdict, AllocError>
        ensures verdict { IfOk result (λ v. v ≡ verdict_of (expr_step (e.Cast to (judged operand.now))) cut) }
        ensures walked { OnOk result (seen self.new ≡ (expr_step (e.Cast to (judged operand.now))).walk cut (seen self.old)) }
        ensures same { self.new.numbers.now ≡ self.old.numbers.now }
    {
        self.pass(3);
        let operand = self.expr(operand, cut)?;
        let constant = converted(to, operand.constant);
        Ok(settled(constant, is_long_number(to), cut, cut))
    }

    #[cycle(expressions)]
    fn paren(&mut self, inner: &Expr, cut: bool) -> Result<Verdict, AllocError>
        ensures verdict { IfOk result (λ v. v ≡ verdict_of (expr_step (e.Paren (judged inner.now))) cut) }
        ensures walked { OnOk result (seen self.new ≡ (expr_step (e.Paren (judged inner.now))).walk cut (seen self.old)) }
        ensures same { self.new.numbers.now ≡ self.old.numbers.now }
    {
        self.pass(1);
        let inner = self.expr(inner, cut)?;
        self.pass(1);
        Ok(settled(
            inner.constant,
            inner.is_long,
            inner.when_true,
            inner.when_false,
        ))
    }

    #[cycle(expressions)]
    fn new_vector(&mut self, size: &Expr, cut: bool) -> Result<Verdict, AllocError>
        ensures verdict { IfOk result (λ v. v ≡ verdict_of (expr_step (e.New [] (judged size.now))) cut) }
        ensures walked { OnOk result (seen self.new ≡ (expr_step (e.New [] (judged size.now))).walk cut (seen self.old)) }
        ensures same { self.new.numbers.now ≡ self.old.numbers.now }
    {
        self.pass(3);
        self.operand(size, 1, cut)?;
        Ok(settled(None, false, cut, cut))
    }

    #[cycle(expressions)]
    fn index(&mut self, name: &Name, at: &Expr, cut: bool) -> Result<Verdict, AllocError>
        ensures verdict { IfOk result (λ v. v ≡ verdict_of (expr_step (e.Index name.now (judged at.now))) cut) }
        ensures walked { OnOk result (seen self.new ≡ (expr_step (e.Index name.now (judged at.now))).walk cut (seen self.old)) }
        ensures same { self.new.numbers.now ≡ self.old.numbers.now }
    {
        self.variable(name, 2, cut)?;
        self.operand(at, 1, cut)?;
        Ok(settled(None, false, cut, cut))
    }

    /// Goes past a call.
    #[cycle(expressions)]
    pub fn call(&mut self, call: &CallForm, cut: bool) -> Result<(), AllocError>
        ensures walked { OnOk result (seen self.new ≡ call_walk call.now cut (seen self.old)) }
        ensures same { self.new.numbers.now ≡ self.old.numbers.now }
    {
        match call {
            CallForm::Own(_, args) => {
                self.pass(1);
                self.args(args.as_slice(), cut)
            }
            CallForm::Of(object, _, args) => {
                self.variable(object, 3, cut)?;
                self.args(args.as_slice(), cut)
            }
            CallForm::OfMember(object, at, _, args) => {
                self.variable(object, 2, cut)?;
                self.operand(at.get(), 3, cut)?;
                self.args(args.as_slice(), cut)
            }
        }
    }

    /// Goes past arguments and their parentheses.
    #[cycle(expressions)]
    fn args(&mut self, args: &[Value], cut: bool) -> Result<(), AllocError>
        ensures walked { OnOk result (seen self.new ≡ args_walk (map value_walk args.now) cut (seen self.old)) }
        ensures same { self.new.numbers.now ≡ self.old.numbers.now }
    {
        self.pass_if(args.is_empty(), 1);
        for arg in args {
            self.pass(1);
            self.value(arg, cut)?;
        }
        self.pass(1);
        Ok(())
    }

    /// Goes past a value.
    #[cycle(expressions)]
    pub fn value(&mut self, value: &Value, cut: bool) -> Result<(), AllocError>
        ensures walked { OnOk result (seen self.new ≡ value_walk value.now cut (seen self.old)) }
        ensures same { self.new.numbers.now ≡ self.old.numbers.now }
    {
        self.pass_if(value.is_global, 2);
        self.operand(&value.expr, 0, cut)
    }
}
