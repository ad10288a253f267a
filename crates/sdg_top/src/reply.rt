//! What `plain` and `replay` write.

ghost use Rattle.std.specs.Prelude.{◌≡◌, ◌++◌, IfOk, OnOk};
ghost use Rattle.std.specs.List.{flat_map, enumerate_from};
ghost use Rattle.sdg_top.specs.Report.{result_line};
ghost use Rattle.sdg_top.specs.Replies as replies;

use crate::report::{print_result, print_results, push};
use sdg_base::{Bytes, Outcome};
use sqlite_items::Items;
use std::alloc::{AllocError, Global};

/// How each call ended, by its number from 1 on, and how many there are.
#[tactic(auto, unfolding(crate::specs::Replies::plain_text))]
pub(crate) fn print_plain(alloc: Global, outcomes: &[Outcome]) -> Result<Bytes, AllocError>
    ensures { IfOk result (λ text. text ≡ replies.plain_text outcomes.now) }
{
    let mut out = Vec::new(alloc);
    print_outcomes(&mut out, outcomes)?;
    print_plain_end(&mut out, outcomes.len())?;
    Ok(Items::from_vec(out))
}

fn print_outcomes(out: &mut Vec<u8>, outcomes: &[Outcome]) -> Result<(), AllocError>
    ensures { OnOk result (out.new.items ≡ out.old.items ++ flat_map result_line (enumerate_from 1 outcomes.now)) }
{
    for (index, outcome) in outcomes.iter().enumerate() {
        print_result(out, index + 1, outcome)?;
    }
    Ok(())
}

#[tactic(auto, unfolding(crate::specs::Replies::plain_end_line))]
fn print_plain_end(out: &mut Vec<u8>, results: usize) -> Result<(), AllocError>
    ensures { OnOk result (out.new.items ≡ out.old.items ++ replies.plain_end_line results) }
{
    push(
        out,
        &format!(in *out.allocator(); "end {results} results\n")?,
    )
}

/// How calls ended, in the order in which they did, how many did, and how many steps there are.
#[tactic(auto, unfolding(crate::specs::Replies::replay_text))]
pub(crate) fn print_replay(
    alloc: Global,
    results: &[(u32, Outcome)],
    steps: usize,
) -> Result<Bytes, AllocError>
    ensures { IfOk result (λ text. text ≡ replies.replay_text results.now steps) }
{
    let mut out = Vec::new(alloc);
    print_results(&mut out, results)?;
    print_replay_end(&mut out, results.len(), steps)?;
    Ok(Items::from_vec(out))
}

#[tactic(auto, unfolding(crate::specs::Replies::replay_end_line))]
fn print_replay_end(out: &mut Vec<u8>, results: usize, steps: usize) -> Result<(), AllocError>
    ensures { OnOk result (out.new.items ≡ out.old.items ++ replies.replay_end_line results steps) }
{
    push(
        out,
        &format!(in *out.allocator(); "end {results} results, {steps} steps\n")?,
    )
}
