//! The parts of statements: conditions, headers, jumps and scopes (JLS 6.3, 14.14, 14.15 to 14.17).

ghost use Rattle.std.specs.Prelude.{◌≡◌, IfOk, OnOk, map, [], ◌∷◌};
ghost use Rattle.std.specs.List.{flat_map};
ghost use Rattle.java_flow.specs.Points.{seen};
ghost use Rattle.java_flow.specs.Seen.{seen_outside};
ghost use Rattle.java_flow.specs.Statements.{test_of, test_walk, header_test, header_test_walk, init_walk, init_names, fresh, behind_update, update_start, for_end, break_here, continue_here, returned, scope_end, item_of};

use crate::branches::{Outside, Test, always, told};
use crate::names;
use crate::numbers::Numbers;
use crate::walk::Walk;
use java_tree::{BlockItem, Expr, ForHeader, ForInit, Place, Value};
use sdg_base::Name;
use sqlite_items::{Boxed, Items};
use std::alloc::{AllocError, Global};

impl<'a> Walk<'a> {
    /// Goes past a condition.
    pub fn condition(&mut self, expr: &Expr) -> Result<Test, AllocError>
        ensures test { IfOk result (λ t. t ≡ test_of expr.now) }
        ensures walked { OnOk result (seen self.new ≡ test_walk expr.now (seen self.old)) }
        ensures same { self.new.numbers.now ≡ self.old.numbers.now }
    {
        let verdict = self.expr(expr, false)?;
        Ok(told(&verdict))
    }

    /// Goes past the condition of a `for`, if it has one.
    pub fn header_test(&mut self, test: &Option<Expr>) -> Result<Test, AllocError>
        ensures test { IfOk result (λ t. t ≡ header_test test.now) }
        ensures walked { OnOk result (seen self.new ≡ header_test_walk test.now (seen self.old)) }
        ensures same { self.new.numbers.now ≡ self.old.numbers.now }
    {
        match test {
            None => Ok(always()),
            Some(expr) => self.condition(expr),
        }
    }

    /// Goes past the start of a `for`, and the token before it.
    pub fn init(&mut self, alloc: Global, init: &ForInit) -> Result<(), AllocError>
        ensures walked { OnOk result (seen self.new ≡ init_walk init.now (seen self.old)) }
        ensures same { self.new.numbers.now ≡ self.old.numbers.now }
    {
        match init {
            ForInit::Nothing => {
                self.pass(1);
                Ok(())
            }
            ForInit::Local(local) => {
                self.pass(1);
                self.local(alloc, local)
            }
            ForInit::Simples(all) => self.simples(all.as_slice()),
        }
    }

    /// A walk of which only the places count.
    pub fn fresh(alloc: Global, numbers: &'a Numbers, places: &'a [Place]) -> Walk<'a>
        ensures { seen result ≡ fresh places.now }
    {
        Walk {
            numbers,
            places,
            is_reachable: true,
            unassigned: names::none(alloc),
            is_left: false,
            at_breaks: names::none(alloc),
            at_continues: names::none(alloc),
            findings: Items::new(alloc),
        }
    }

    /// Goes past the update of a `for`, which is judged behind the body, and the parenthesis.
    pub fn pass_update(&mut self, alloc: Global, header: &ForHeader) -> Result<(), AllocError>
        ensures walked { OnOk result (seen self.new ≡ behind_update header.now (seen self.old)) }
        ensures same { self.new.numbers.now ≡ self.old.numbers.now }
    {
        let mut ahead = Walk::fresh(alloc, self.numbers, self.places);
        ahead.simples(header.update.as_slice())?;
        self.places = ahead.places;
        self.pass(1);
        Ok(())
    }

    /// The update of a `for` begins, whose tokens stand there.
    fn start_update(&mut self, alloc: Global, places: &'a [Place]) -> Result<(), AllocError>
        ensures walked { OnOk result (seen self.new ≡ update_start places.now (seen self.old)) }
        ensures same { self.new.numbers.now ≡ self.old.numbers.now }
    {
        self.places = places;
        names::join(alloc, &mut self.unassigned, &self.at_continues)
    }

    /// A `for` goes on behind its body: with its update, and behind the loop.
    pub fn end_for(
        &mut self,
        alloc: Global,
        test: Test,
        header: &ForHeader,
        update: &'a [Place],
        outside: Outside,
    ) -> Result<(), AllocError>
        ensures walked { OnOk result (seen self.new ≡ for_end test header.now update.now (seen_outside self.old.numbers.now outside) (seen self.old)) }
        ensures same { self.new.numbers.now ≡ self.old.numbers.now }
    {
        let behind = self.places;
        self.start_update(alloc, update)?;
        self.simples(header.update.as_slice())?;
        self.leave_loop(alloc, test, outside)?;
        self.places = behind;
        Ok(())
    }

    pub fn break_here(&mut self, alloc: Global) -> Result<(), AllocError>
        ensures walked { OnOk result (seen self.new ≡ break_here (seen self.old)) }
        ensures same { self.new.numbers.now ≡ self.old.numbers.now }
    {
        names::join(alloc, &mut self.at_breaks, &self.unassigned)?;
        self.is_left = self.is_left || self.is_reachable;
        self.stop(alloc);
        Ok(())
    }

    pub fn continue_here(&mut self, alloc: Global) -> Result<(), AllocError>
        ensures walked { OnOk result (seen self.new ≡ continue_here (seen self.old)) }
        ensures same { self.new.numbers.now ≡ self.old.numbers.now }
    {
        names::join(alloc, &mut self.at_continues, &self.unassigned)?;
        self.stop(alloc);
        Ok(())
    }

    pub fn returned(&mut self, value: &Option<Boxed<Value>>) -> Result<(), AllocError>
        ensures walked { OnOk result (seen self.new ≡ returned value.now (seen self.old)) }
        ensures same { self.new.numbers.now ≡ self.old.numbers.now }
    {
        match value {
            None => Ok(()),
            Some(value) => self.value(value.get(), false),
        }
    }

    /// The scope of a local ends.
    fn end_scope(&mut self, name: &Name)
        ensures walked { seen self.new ≡ scope_end (name.now ∷ []) (seen self.old) }
        ensures same { self.new.numbers.now ≡ self.old.numbers.now }
    {
        names::assign(self.numbers, &mut self.unassigned, name);
        names::assign(self.numbers, &mut self.at_breaks, name);
        names::assign(self.numbers, &mut self.at_continues, name);
    }

    pub fn end_init(&mut self, init: &ForInit)
        ensures walked { seen self.new ≡ scope_end (init_names init.now) (seen self.old) }
        ensures same { self.new.numbers.now ≡ self.old.numbers.now }
    {
        if let ForInit::Local(local) = init {
            self.end_scope(&local.name);
        }
    }

    fn end_item(&mut self, item: &BlockItem)
        ensures walked { seen self.new ≡ scope_end (item_of item.now).names (seen self.old) }
        ensures same { self.new.numbers.now ≡ self.old.numbers.now }
    {
        if let BlockItem::Local(local) = item {
            self.end_scope(&local.get().name);
        }
    }

    /// The scope of the locals that these declare ends.
    pub fn end_items(&mut self, items: &[BlockItem])
        ensures walked { seen self.new ≡ scope_end (flat_map (λ i. i.names) (map item_of items.now)) (seen self.old) }
        ensures same { self.new.numbers.now ≡ self.old.numbers.now }
    {
        for item in items {
            self.end_item(item);
        }
    }
}
