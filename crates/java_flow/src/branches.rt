//! Where ways part and meet: branches and loops (JLS 14.22, 16.2.7, 16.2.10, 16.2.12).

ghost use Rattle.std.specs.Prelude.{◌≡◌, IfOk, OnOk};
ghost use Rattle.java_flow.specs.Assigned.{unless};
ghost use Rattle.java_flow.specs.Points.{seen, with_assigned};
ghost use Rattle.java_flow.specs.Statements.{told, always, when_true, when_false, branch_end, branch_start, joined, outside, loop_start, loop_end};
ghost use Rattle.java_flow.specs.Seen.{seen_branch, seen_outside};

use crate::constants::{is_false, is_true};
use crate::names::{self, Unassigned};
use crate::verdict::Verdict;
use crate::walk::Walk;
use java_tree::{ForHeader, Place};
use std::alloc::{AllocError, Global};
use std::mem::replace;

/// What is known of a condition: whether it is the constant `true`, or `false`, and whether every
/// variable is assigned after it when true, and when false.
#[derive(Clone, Copy)]
pub struct Test {
    pub is_true: bool,
    pub is_false: bool,
    pub when_true: bool,
    pub when_false: bool,
}

/// What is known at the start or the end of another branch.
#[derive(Drop)]
pub struct Branch {
    pub is_reachable: bool,
    pub unassigned: Unassigned,
}

/// What is known round a loop: where its condition is false, and of the loop that it stands in.
#[derive(Drop)]
pub struct Outside {
    pub exit: Branch,
    pub is_left: bool,
    pub at_breaks: Unassigned,
    pub at_continues: Unassigned,
}

pub fn told(verdict: &Verdict) -> Test
    ensures { result ≡ told verdict.now }
{
    Test {
        is_true: is_true(&verdict.constant),
        is_false: is_false(&verdict.constant),
        when_true: verdict.when_true,
        when_false: verdict.when_false,
    }
}

/// No condition stands for `true` (JLS 14.14.1.2).
pub fn always() -> Test
    ensures { result ≡ always }
{
    Test {
        is_true: true,
        is_false: false,
        when_true: false,
        when_false: true,
    }
}

impl<'a> Walk<'a> {
    fn other_branch(&self, alloc: Global, test: Test) -> Result<Branch, AllocError>
        ensures { IfOk result (λ b. seen_branch self.now.numbers.now b ≡ when_false test (seen self.now)) }
    {
        Ok(Branch {
            is_reachable: self.is_reachable,
            unassigned: names::copy_unless(alloc, test.when_false, &self.unassigned)?,
        })
    }

    fn assign_all_if(&mut self, alloc: Global, is_cut: bool)
        ensures walked { seen self.new ≡ with_assigned (unless is_cut) (seen self.old) }
        ensures same { self.new.numbers.now ≡ self.old.numbers.now }
    {
        if is_cut {
            self.unassigned = names::none(alloc);
        }
    }

    /// The branch begins that is taken where the condition is true. The other one is kept.
    pub fn enter_branch(&mut self, alloc: Global, test: Test) -> Result<Branch, AllocError>
        ensures other { IfOk result (λ b. seen_branch self.old.numbers.now b ≡ when_false test (seen self.old)) }
        ensures entered { OnOk result (seen self.new ≡ when_true test (seen self.old)) }
        ensures same { self.new.numbers.now ≡ self.old.numbers.now }
    {
        let other = self.other_branch(alloc, test)?;
        self.assign_all_if(alloc, test.when_true);
        Ok(other)
    }

    /// The other branch begins, and the end of this one is kept.
    pub fn switch(&mut self, other: Branch) -> Branch
        ensures end { seen_branch self.old.numbers.now result ≡ branch_end (seen self.old) }
        ensures start { seen self.new ≡ branch_start (seen_branch self.old.numbers.now other) (seen self.old) }
        ensures same { self.new.numbers.now ≡ self.old.numbers.now }
    {
        Branch {
            is_reachable: replace(&mut self.is_reachable, other.is_reachable),
            unassigned: replace(&mut self.unassigned, other.unassigned),
        }
    }

    /// Two branches meet.
    pub fn meet(&mut self, alloc: Global, other: Branch) -> Result<(), AllocError>
        ensures walked { OnOk result (seen self.new ≡ joined (seen_branch self.old.numbers.now other) (seen self.old)) }
        ensures same { self.new.numbers.now ≡ self.old.numbers.now }
    {
        self.is_reachable = self.is_reachable || other.is_reachable;
        names::join(alloc, &mut self.unassigned, &other.unassigned)
    }

    /// The body of a loop begins. What is known round it is kept.
    pub fn enter_loop(&mut self, alloc: Global, test: Test) -> Result<Outside, AllocError>
        ensures outside { IfOk result (λ o. seen_outside self.old.numbers.now o ≡ outside test (seen self.old)) }
        ensures entered { OnOk result (seen self.new ≡ loop_start test (seen self.old)) }
        ensures same { self.new.numbers.now ≡ self.old.numbers.now }
    {
        let exit = self.other_branch(alloc, test)?;
        self.assign_all_if(alloc, test.when_true);
        self.is_reachable = self.is_reachable && !test.is_false;
        Ok(Outside {
            exit,
            is_left: replace(&mut self.is_left, false),
            at_breaks: replace(&mut self.at_breaks, names::none(alloc)),
            at_continues: replace(&mut self.at_continues, names::none(alloc)),
        })
    }

    /// A loop has ended.
    pub fn leave_loop(
        &mut self,
        alloc: Global,
        test: Test,
        outside: Outside,
    ) -> Result<(), AllocError>
        ensures walked { OnOk result (seen self.new ≡ loop_end test (seen_outside self.old.numbers.now outside) (seen self.old)) }
        ensures same { self.new.numbers.now ≡ self.old.numbers.now }
    {
        let Outside {
            exit,
            is_left,
            at_breaks,
            at_continues,
        } = outside;
        let Branch {
            is_reachable,
            mut unassigned,
        } = exit;
        names::join(alloc, &mut unassigned, &self.at_breaks)?;
        self.is_reachable = is_reachable && (!test.is_true || self.is_left);
        self.unassigned = unassigned;
        self.is_left = is_left;
        self.at_breaks = at_breaks;
        self.at_continues = at_continues;
        Ok(())
    }
}
