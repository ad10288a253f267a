//! Results and the history as they are printed.

ghost use Rattle.std.specs.Prelude.{◌≡◌, map, IfOk};
ghost use Rattle.std.specs.List.{filter_map};

use cluster::{Committed, Past};
use sdg_base::{Outcome, Step, copy_outcome};
use std::alloc::{AllocError, Global};

/// The results that were committed, in their order, beside the numbers of their calls.
pub(crate) fn results_of(
    alloc: Global,
    commits: &[Committed],
) -> Result<Vec<(u32, Outcome)>, AllocError>
    ensures { IfOk result (λ v. v.items ≡ map (λ c. (c.shown.call, c.shown.outcome)) commits.now) }
{
    let mut results = Vec::new(alloc);
    for commit in commits {
        let outcome = copy_outcome(alloc, &commit.shown.outcome)?;
        results.push((commit.shown.call, outcome))?;
    }
    Ok(results)
}

/// The steps as which a history is printed.
pub(crate) fn history_of(alloc: Global, history: &[Past]) -> Result<Vec<Step>, AllocError>
    ensures { IfOk result (λ v. v.items ≡ filter_map (λ past. past.shown) history.now) }
{
    history.iter().filter_map(|past| past.shown).collect(alloc)
}
