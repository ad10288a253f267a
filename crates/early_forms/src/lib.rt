//! The classes that run today: one or two partitioned tables, and methods that run straight through.
#![tactic(auto)]

ghost use Rattle.std.specs.Prelude.{◌≡◌, IfOk, IfSome, IfNone};
ghost use Rattle.early_forms.specs.Trees.{class_tree};
ghost use Rattle.early_forms.specs.Names.{IsProper};
ghost use Rattle.early_forms.specs.Forms.{IsStraightForm};

mod bodies;
mod names;
mod parts;
mod scope;
mod straight;
mod sums;

use java_tree::Class;
use names::is_proper;
use parts::parts_of;
use std::alloc::{AllocError, Global};
pub use straight::{Atom, Ending, Statement, StraightClass, StraightMethod, Sum};

/// The parts of a class of the straight form, or `None` where the class is not of the form: it has
/// another production, or its names or literals are not proper. Nothing recurses but over the levels
/// of a sum.
///
/// # Errors
///
/// There is no memory left.
pub fn straight_form(alloc: Global, class: &Class) -> Result<Option<StraightClass>, AllocError>
    ensures found { IfOk result (λ o. IfSome o (λ c. (class.now ≡ class_tree c) × IsProper c)) }
    ensures refused { IfOk result (λ o. IfNone o (IsStraightForm class.now → ⊥)) }
{
    let Some(parts) = parts_of(alloc, class)? else {
        return Ok(None);
    };
    if is_proper(alloc, &parts)? {
        Ok(Some(parts))
    } else {
        Ok(None)
    }
}
