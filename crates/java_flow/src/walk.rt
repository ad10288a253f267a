//! A walk through the text of a class.

ghost use Rattle.std.specs.Prelude.{◌≡◌, OnOk, drop};
ghost use Rattle.java_flow.specs.Assigned.{also, except};
ghost use Rattle.java_flow.specs.Points.{seen, behind, behind_if, found, found_unless, reading, begun, stopped, with_assigned};

use crate::finding::{Finding, Rule};
use crate::names::{self, Unassigned};
use crate::numbers::Numbers;
use java_tree::Place;
use sdg_base::Name;
use sqlite_items::Items;
use std::alloc::{AllocError, Global};

/// Where a walk is: before these tokens, with what is known of the point there.
#[derive(Drop)]
pub struct Walk<'a> {
    pub numbers: &'a Numbers,
    pub places: &'a [Place],
    pub is_reachable: bool,
    pub unassigned: Unassigned,
    pub is_left: bool,
    pub at_breaks: Unassigned,
    pub at_continues: Unassigned,
    pub findings: Items<Finding>,
}

fn rest(places: &[Place], count: usize) -> &[Place]
    ensures { result.now ≡ drop count places.now }
{
    if count <= places.len() {
        &places[count..]
    } else {
        &[]
    }
}

impl<'a> Walk<'a> {
    /// Goes on behind so many tokens.
    pub fn pass(&mut self, count: usize)
        ensures walked { seen self.new ≡ behind count (seen self.old) }
        ensures same { self.new.numbers.now ≡ self.old.numbers.now }
    {
        self.places = rest(self.places, count);
    }

    pub fn pass_if(&mut self, stands_there: bool, count: usize)
        ensures walked { seen self.new ≡ behind_if stands_there count (seen self.old) }
        ensures same { self.new.numbers.now ≡ self.old.numbers.now }
    {
        if stands_there {
            self.pass(count);
        }
    }

    /// Notes a finding at the next token.
    pub fn note(&mut self, rule: Rule) -> Result<(), AllocError>
        ensures walked { OnOk result (seen self.new ≡ found rule (seen self.old)) }
        ensures same { self.new.numbers.now ≡ self.old.numbers.now }
    {
        if let Some(place) = self.places.first() {
            self.findings.push(Finding {
                rule,
                place: *place,
            })?;
        }
        Ok(())
    }

    pub fn note_unless(&mut self, is_fine: bool, rule: Rule) -> Result<(), AllocError>
        ensures walked { OnOk result (seen self.new ≡ found_unless is_fine rule (seen self.old)) }
        ensures same { self.new.numbers.now ≡ self.old.numbers.now }
    {
        if !is_fine {
            self.note(rule)?;
        }
        Ok(())
    }

    /// The variable at the next token is read.
    pub fn read(&mut self, is_cut: bool, name: &Name) -> Result<(), AllocError>
        ensures walked { OnOk result (seen self.new ≡ reading is_cut name.now (seen self.old)) }
        ensures same { self.new.numbers.now ≡ self.old.numbers.now }
    {
        let is_assigned = is_cut || names::is_assigned(self.numbers, &self.unassigned, name);
        self.note_unless(is_assigned, Rule::Unassigned)
    }

    /// A statement begins at the next token.
    pub fn begin(&mut self) -> Result<(), AllocError>
        ensures walked { OnOk result (seen self.new ≡ begun (seen self.old)) }
        ensures same { self.new.numbers.now ≡ self.old.numbers.now }
    {
        let is_reachable = self.is_reachable;
        self.note_unless(is_reachable, Rule::Unreachable)
    }

    pub fn declare(&mut self, alloc: Global, name: &Name) -> Result<(), AllocError>
        ensures walked { OnOk result (seen self.new ≡ with_assigned (except name.now) (seen self.old)) }
        ensures same { self.new.numbers.now ≡ self.old.numbers.now }
    {
        names::declare(alloc, self.numbers, &mut self.unassigned, name)
    }

    pub fn assign(&mut self, name: &Name)
        ensures walked { seen self.new ≡ with_assigned (also name.now) (seen self.old) }
        ensures same { self.new.numbers.now ≡ self.old.numbers.now }
    {
        names::assign(self.numbers, &mut self.unassigned, name);
    }

    /// What stands here doesn't complete normally.
    pub fn stop(&mut self, alloc: Global)
        ensures walked { seen self.new ≡ stopped (seen self.old) }
        ensures same { self.new.numbers.now ≡ self.old.numbers.now }
    {
        self.is_reachable = false;
        self.unassigned = names::none(alloc);
    }
}
