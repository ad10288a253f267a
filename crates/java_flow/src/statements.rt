//! Which statements can be reached and complete normally, and what is assigned behind each (JLS 14.22, 16.2).

ghost use Rattle.std.specs.Prelude.{◌≡◌, OnOk, map};
ghost use Rattle.java_flow.specs.Points.{seen};
ghost use Rattle.java_flow.specs.Statements.{for_walk, while_walk, item_of, block_walk, statement_walk};

use crate::branches::Test;
use crate::walk::Walk;
use java_tree::{BlockItem, ForHeader, Stmt};
use std::alloc::{AllocError, Global};

impl<'a> Walk<'a> {
    /// Goes past a block, up to its closing brace.
    #[cycle(statements)]
    pub fn block(&mut self, alloc: Global, items: &[BlockItem]) -> Result<(), AllocError>
        ensures walked { OnOk result (seen self.new ≡ block_walk (map item_of items.now) (seen self.old)) }
        ensures same { self.new.numbers.now ≡ self.old.numbers.now }
    {
        self.pass(1);
        for item in items {
            self.item(alloc, item)?;
        }
        self.end_items(items);
        Ok(())
    }

    #[cycle(statements)]
    fn item(&mut self, alloc: Global, item: &BlockItem) -> Result<(), AllocError>
        ensures walked { OnOk result (seen self.new ≡ (item_of item.now).walk (seen self.old)) }
        ensures same { self.new.numbers.now ≡ self.old.numbers.now }
    {
        match item {
            BlockItem::Local(local) => {
                self.begin()?;
                self.local(alloc, local.get())?;
                self.pass(1);
                Ok(())
            }
            BlockItem::Stmt(statement) => self.statement(alloc, statement),
        }
    }

    /// Goes past a loop from behind its condition on.
    #[cycle(statements)]
    fn while_loop(&mut self, alloc: Global, body: &Stmt, test: Test) -> Result<(), AllocError>
        ensures walked { OnOk result (seen self.new ≡ while_walk test (statement_walk body.now) (seen self.old)) }
        ensures same { self.new.numbers.now ≡ self.old.numbers.now }
    {
        let outside = self.enter_loop(alloc, test)?;
        self.statement(alloc, body)?;
        self.leave_loop(alloc, test, outside)
    }

    #[cycle(statements)]
    fn for_loop(
        &mut self,
        alloc: Global,
        body: &Stmt,
        test: Test,
        header: &ForHeader,
    ) -> Result<(), AllocError>
        ensures walked { OnOk result (seen self.new ≡ for_walk test header.now (statement_walk body.now) (seen self.old)) }
        ensures same { self.new.numbers.now ≡ self.old.numbers.now }
    {
        let update = self.places;
        self.pass_update(alloc, header)?;
        let outside = self.enter_loop(alloc, test)?;
        self.statement(alloc, body)?;
        self.end_for(alloc, test, header, update, outside)
    }

    /// Goes past a statement.
    #[cycle(statements)]
    fn statement(&mut self, alloc: Global, statement: &Stmt) -> Result<(), AllocError>
        ensures walked { OnOk result (seen self.new ≡ statement_walk statement.now (seen self.old)) }
        ensures same { self.new.numbers.now ≡ self.old.numbers.now }
    {
        self.begin()?;
        match statement {
            Stmt::Block(items) => {
                self.block(alloc, items.as_slice())?;
                self.pass(1);
                Ok(())
            }
            Stmt::Empty => {
                self.pass(1);
                Ok(())
            }
            Stmt::Simple(simple) => {
                self.simple(simple.get())?;
                self.pass(1);
                Ok(())
            }
            Stmt::If(test, first, second) => {
                self.pass(2);
                let test = self.condition(test.get())?;
                self.pass(1);
                let other = self.enter_branch(alloc, test)?;
                self.statement(alloc, first.get())?;
                match second {
                    None => self.meet(alloc, other),
                    Some(second) => {
                        let end = self.switch(other);
                        self.pass(1);
                        self.statement(alloc, second.get())?;
                        self.meet(alloc, end)
                    }
                }
            }
            Stmt::While(test, body) => {
                self.pass(2);
                let test = self.condition(test.get())?;
                self.pass(1);
                self.while_loop(alloc, body.get(), test)
            }
            Stmt::For(header, body) => {
                let header = header.get();
                self.pass(1);
                self.init(alloc, &header.init)?;
                self.pass(1);
                let test = self.header_test(&header.test)?;
                self.for_loop(alloc, body.get(), test, header)?;
                self.end_init(&header.init);
                Ok(())
            }
            Stmt::Break => {
                self.break_here(alloc)?;
                self.pass(2);
                Ok(())
            }
            Stmt::Continue => {
                self.continue_here(alloc)?;
                self.pass(2);
                Ok(())
            }
            Stmt::Return(value) => {
                self.pass(1);
                self.returned(value)?;
                self.stop(alloc);
                self.pass(1);
                Ok(())
            }
        }
    }
}
