//! The expression that a class's first statement returns, with its groups.

use crate::tokens::add_name;
use java_tree::{BlockItem, Class, Expr, Member, Stmt};
use sdg_base::{BinOp, Num, UnOp};
use std::alloc::{AllocError, Global};

fn operator_text(op: BinOp) -> &'static str {
    match op {
        BinOp::Mul => "*",
        BinOp::Div => "/",
        BinOp::Rem => "%",
        BinOp::Add => "+",
        BinOp::Sub => "-",
        BinOp::Shl => "<<",
        BinOp::Shr => ">>",
        BinOp::UShr => ">>>",
        BinOp::Lt => "<",
        BinOp::Le => "<=",
        BinOp::Gt => ">",
        BinOp::Ge => ">=",
        BinOp::Eq => "==",
        BinOp::Ne => "!=",
        BinOp::And => "&",
        BinOp::Xor => "^",
        BinOp::Or => "|",
        BinOp::AndAlso => "&&",
        BinOp::OrElse => "||",
    }
}

fn unary_text(op: UnOp) -> &'static str {
    match op {
        UnOp::Plus => "+",
        UnOp::Minus => "-",
        UnOp::Complement => "~",
        UnOp::Not => "!",
    }
}

fn cast_text(to: Num) -> &'static str {
    match to {
        Num::Int => "int ",
        Num::Long => "long ",
    }
}

/// Adds an expression of names and operators, with every grouping in brackets of its own kind: a binary operator in
/// `[ ]`, a unary operator or a cast in `{ }`, a conditional in `< >`.
fn add_expr(line: &mut String, expr: &Expr) -> Result<(), AllocError> {
    match expr {
        Expr::Name(name) => add_name(line, name),
        Expr::Paren(inner) => {
            line.push_str("(")?;
            add_expr(line, inner.get())?;
            line.push_str(")")
        }
        Expr::Unary(op, operand) => {
            line.push_str("{")?;
            line.push_str(unary_text(*op))?;
            add_expr(line, operand.get())?;
            line.push_str("}")
        }
        Expr::Cast(to, operand) => {
            line.push_str("{")?;
            line.push_str(cast_text(*to))?;
            add_expr(line, operand.get())?;
            line.push_str("}")
        }
        Expr::Conditional(test, first, second) => {
            line.push_str("<")?;
            add_expr(line, test.get())?;
            line.push_str("?")?;
            add_expr(line, first.get())?;
            line.push_str(":")?;
            add_expr(line, second.get())?;
            line.push_str(">")
        }
        Expr::Binary(op, left, right) => {
            line.push_str("[")?;
            add_expr(line, left.get())?;
            line.push_str(operator_text(*op))?;
            add_expr(line, right.get())?;
            line.push_str("]")
        }
        _ => line.push_str("_"),
    }
}

/// The first statement of a class's first member, if it is a method.
fn first_statement(class: &Class) -> Option<&Stmt> {
    match class.members.as_slice() {
        [Member::Method(method), ..] => match method.body.as_slice() {
            [BlockItem::Stmt(body), ..] => Some(body),
            _ => None,
        },
        _ => None,
    }
}

/// The expression that a class's first statement returns, with its groups.
pub(crate) fn grouped(alloc: Global, class: &Class) -> Result<String, AllocError> {
    let mut line = String::new(alloc);
    if let Some(Stmt::Return(Some(value))) = first_statement(class) {
        add_expr(&mut line, &value.get().expr)?;
    }
    Ok(line)
}
