//! Sums of literals and names, as parts of an expression.

ghost use Rattle.std.specs.Prelude.{◌≡◌, IfOk};
ghost use Rattle.early_forms.specs.Trees.{atom_tree, sum_tree};
ghost use Rattle.early_forms.specs.Parts.{PartsOf};

use crate::straight::{Atom, Sum};
use java_tree::Expr;
use sdg_base::{BinOp, Name};
use sqlite_items::Items;
use std::alloc::{AllocError, Global};

/// The same name again.
///
/// # Errors
///
/// There is no memory left.
pub fn copy_name(alloc: Global, name: &Name) -> Result<Name, AllocError>
    ensures { IfOk result (λ copy. copy ≡ name.now) }
{
    Items::from_slice(alloc, name.as_slice())
}

fn atom_of(alloc: Global, expr: &Expr) -> Result<Option<Atom>, AllocError>
    ensures { IfOk result (PartsOf atom_tree expr.now) }
{
    match expr {
        Expr::Number {
            digits,
            decimal: true,
            long: false,
        } => Ok(Some(Atom::Literal(*digits))),
        Expr::Name(name) => Ok(Some(Atom::Variable(copy_name(alloc, name)?))),
        _ => Ok(None),
    }
}

#[tactic(auto, using(crate::proofs::Chains::chain_more, crate::proofs::Chains::chain_none_op, crate::proofs::Chains::chain_none_left, crate::proofs::Chains::chain_none_right, crate::proofs::Chains::alone_none))]
pub fn sum_of(alloc: Global, expr: &Expr) -> Result<Option<Sum>, AllocError>
    ensures { IfOk result (PartsOf sum_tree expr.now) }
{
    let Expr::Binary(op, left, right) = expr else {
        let Some(first) = atom_of(alloc, expr)? else {
            return Ok(None);
        };
        let others = Items::new(alloc);
        return Ok(Some(Sum { first, others }));
    };
    if *op != BinOp::Add {
        return Ok(None);
    }
    let Some(Sum { first, mut others }) = sum_of(alloc, left.get())? else {
        return Ok(None);
    };
    let Some(atom) = atom_of(alloc, right.get())? else {
        return Ok(None);
    };
    others.push(atom)?;
    Ok(Some(Sum { first, others }))
}
