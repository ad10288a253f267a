//! Lists without spare room: a tree keeps many short ones.

ghost use Rattle.std.specs.Prelude.{◌≡◌, ◌∷◌, IfOk};

use sqlite_items::Items;
use std::alloc::{AllocError, Global};

/// The same items.
pub(crate) fn fitted<T: Drop>(alloc: Global, items: Items<T>) -> Result<Items<T>, AllocError>
    ensures { IfOk result (λ it. it ≡ items) }
{
    let room = Vec::with_capacity(alloc, items.len())?;
    let mut fit = Items::from_vec(room);
    fit.append(items)?;
    Ok(fit)
}

/// The first item, and the others behind it.
pub(crate) fn listed<T: Drop>(
    alloc: Global,
    first: T,
    others: Items<T>,
) -> Result<Items<T>, AllocError>
    ensures { IfOk result (λ it. it ≡ first ∷ others) }
{
    let room = Vec::with_capacity(alloc, others.len().saturating_add(1))?;
    let mut all = Items::from_vec(room);
    all.push(first)?;
    all.append(others)?;
    Ok(all)
}
