//! The least finding of a class.

ghost use Rattle.std.specs.Prelude.{◌≡◌, List, [], IfOk, MatchOption, MatchResult};
ghost use Rattle.java_flow.specs.declared.finding.Finding.{Finding};
ghost use Rattle.java_flow.specs.Findings.{findings, number, is_less, is_earlier, earlier_of, IsLeast, Refuses};

use crate::error::FlowError;
use crate::finding::{Finding, Rule};
use crate::locals::numbers_of;
use crate::walk::Walk;
use java_tree::{Class, Typed};
use sqlite_items::Items;
use std::alloc::{AllocError, Global};

fn number(rule: Rule) -> u8
    ensures { result ≡ number rule }
{
    match rule {
        Rule::Unreachable => 1,
        Rule::MissingReturn => 2,
        Rule::Unassigned => 3,
    }
}

fn is_less(a: u32, b: u32, otherwise: bool) -> bool
    ensures { result ≡ is_less a b otherwise }
{
    if a < b {
        true
    } else if b < a {
        false
    } else {
        otherwise
    }
}

fn is_earlier(f: &Finding, g: &Finding) -> bool
    ensures { result ≡ is_earlier f.now g.now }
{
    let rule = number(f.rule) < number(g.rule);
    let column = is_less(f.place.column, g.place.column, rule);
    is_less(f.place.line, g.place.line, column)
}

fn earlier_of(f: &Finding, least: Finding) -> Finding
    ensures { result ≡ earlier_of f.now least }
{
    if is_earlier(f, &least) { *f } else { least }
}

fn least(findings: &[Finding]) -> Option<Finding>
    ensures { MatchOption result (findings.now ≡ []) (IsLeast findings.now) }
{
    let mut least = *findings.first()?;
    for finding in findings {
        least = earlier_of(finding, least);
    }
    Some(least)
}

fn error_of(finding: Finding) -> FlowError
    ensures { (all : List Finding) → IsLeast all finding → Refuses all result }
{
    match finding.rule {
        Rule::Unreachable => FlowError::Unreachable(finding.place),
        Rule::MissingReturn => FlowError::MissingReturn(finding.place),
        Rule::Unassigned => FlowError::Unassigned(finding.place),
    }
}

/// The least of these findings as an error.
fn judged(all: &[Finding]) -> Result<(), FlowError>
    ensures { MatchResult result (λ _. all.now ≡ []) (Refuses all.now) }
{
    match least(all) {
        None => Ok(()),
        Some(finding) => Err(error_of(finding)),
    }
}

#[tactic(auto, unfolding(crate::specs::Findings::findings))]
fn findings(alloc: Global, class: &Class) -> Result<Items<Finding>, AllocError>
    ensures { IfOk result (λ all. all ≡ findings class.now) }
{
    let numbers = numbers_of(alloc, class)?;
    let mut walk = Walk::fresh(alloc, &numbers, class.places.as_slice());
    walk.class(alloc, class)?;
    Ok(walk.findings)
}

/// Checks that each statement can be reached (JLS 14.22), that a method with a result ends by a
/// `return` (JLS 8.4.7), and that each local is definitely assigned where it is read (JLS 16).
///
/// The class is one that the rules on types accept, with its types. The error is the finding at the least place, and
/// at one place that of the least rule. A finding stands at a statement's first token, at a method's
/// closing brace, or at a local's name. `Memory` says that an allocation failed.
pub fn flow(alloc: Global, typed: &Typed) -> Result<(), FlowError>
    ensures { MatchResult result (λ _. findings typed.now.class ≡ []) (Refuses (findings typed.now.class)) }
{
    let Ok(all) = findings(alloc, &typed.class) else {
        return Err(FlowError::Memory);
    };
    judged(all.as_slice())
}
