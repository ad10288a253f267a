//! The numbers of the locals of a class.

use crate::numbers::Numbers;
use java_tree::{BlockItem, Class, ForInit, Member, Stmt};
use std::alloc::{AllocError, Global};

impl Numbers {
    fn init(&mut self, init: &ForInit) -> Result<(), AllocError> {
        match init {
            ForInit::Local(local) => self.add(&local.name),
            _ => Ok(()),
        }
    }

    #[cycle(statements)]
    fn items(&mut self, items: &[BlockItem]) -> Result<(), AllocError> {
        for item in items {
            self.item(item)?;
        }
        Ok(())
    }

    #[cycle(statements)]
    fn item(&mut self, item: &BlockItem) -> Result<(), AllocError> {
        match item {
            BlockItem::Local(local) => self.add(&local.get().name),
            BlockItem::Stmt(statement) => self.statement(statement),
        }
    }

    #[cycle(statements)]
    fn statement(&mut self, statement: &Stmt) -> Result<(), AllocError> {
        match statement {
            Stmt::Block(items) => self.items(items.as_slice()),
            Stmt::If(_, first, second) => {
                self.statement(first.get())?;
                match second {
                    None => Ok(()),
                    Some(second) => self.statement(second.get()),
                }
            }
            Stmt::While(_, body) => self.statement(body.get()),
            Stmt::For(header, body) => {
                self.init(&header.get().init)?;
                self.statement(body.get())
            }
            Stmt::Empty | Stmt::Simple(_) | Stmt::Break | Stmt::Continue | Stmt::Return(_) => {
                Ok(())
            }
        }
    }
}

/// A number for each local that the methods of a class declare.
pub(crate) fn numbers_of(alloc: Global, class: &Class) -> Result<Numbers, AllocError> {
    let mut numbers = Numbers::new(alloc);
    for member in class.members.as_slice() {
        if let Member::Method(method) = member {
            numbers.items(method.body.as_slice())?;
        }
    }
    Ok(numbers)
}
