//! The rules for statements and blocks. Those whose parts are statements take the reader of these as
//! a parameter, so that each is proved by itself.

ghost use Rattle.std.specs.Prelude.{◌≡◌};
ghost use Rattle.java_parser.specs.Words.{ReturnsReading, kinds};
ghost use Rattle.java_parser.specs.Statements as spec;
ghost use Rattle.java_parser.specs.Inner.{ReadsStatements};

use crate::error::Refusal;
use crate::forms::{StatementForm, statement_form};
use crate::headers::for_header;
use crate::lists::fitted;
use crate::rows::{expr, value};
use crate::simples::{local, local_ahead, simple_in};
use crate::words::{Wanted, after, begins, is};
use java_tree::{Block, BlockItem, Expr, Reserved, Stmt, Symbol, Token, Value};
use sqlite_items::{Boxed, Items};
use std::alloc::Global;

/// The branches of an `if`.
type Branches = (Boxed<Stmt>, Option<Boxed<Stmt>>);

/// A condition in parentheses.
#[tactic(auto, unfolding(crate::specs::Statements::test_at))]
fn test(alloc: Global, levels: usize, tokens: &[Token]) -> Result<(Boxed<Expr>, &[Token]), Refusal>
    ensures { ReturnsReading (λ x. (x.0, kinds x.1.now)) result (spec.test_at levels (kinds tokens.now)) }
{
    let rest = after(tokens, &[Wanted::Symbol(Symbol::OpenParen)])?;
    let (test, rest) = expr(alloc, levels, rest)?;
    let test = Boxed::new(alloc, test)?;
    let rest = after(rest, &[Wanted::Symbol(Symbol::CloseParen)])?;
    Ok((test, rest))
}

/// What follows this word and a semicolon.
#[tactic(auto, unfolding(crate::specs::Statements::after_jump))]
fn after_jump(tokens: &[Token], word: Reserved) -> Result<&[Token], Refusal>
    ensures { ReturnsReading (λ rest. kinds rest.now) result (spec.after_jump word (kinds tokens.now)) }
{
    after(
        tokens,
        &[Wanted::Reserved(word), Wanted::Symbol(Symbol::Semicolon)],
    )
}

#[tactic(auto, unfolding(crate::specs::Statements::returned_at))]
fn returned(
    alloc: Global,
    levels: usize,
    tokens: &[Token],
) -> Result<(Option<Boxed<Value>>, &[Token]), Refusal>
    ensures { ReturnsReading (λ x. (x.0, kinds x.1.now)) result (spec.returned_at levels (kinds tokens.now)) }
{
    if begins(tokens, Wanted::Symbol(Symbol::Semicolon)) {
        return Ok((None, tokens));
    }
    let (value, rest) = value(alloc, levels, tokens)?;
    Ok((Some(Boxed::new(alloc, value)?), rest))
}

#[tactic(auto, unfolding(crate::specs::Statements::return_at))]
fn return_statement(
    alloc: Global,
    levels: usize,
    tokens: &[Token],
) -> Result<(Stmt, &[Token]), Refusal>
    ensures { ReturnsReading (λ x. (x.0, kinds x.1.now)) result (spec.return_at levels (kinds tokens.now)) }
{
    let rest = after(tokens, &[Wanted::Reserved(Reserved::Return)])?;
    let (value, rest) = returned(alloc, levels, rest)?;
    let rest = after(rest, &[Wanted::Symbol(Symbol::Semicolon)])?;
    Ok((Stmt::Return(value), rest))
}

#[tactic(auto, unfolding(crate::specs::Statements::simple_statement_at))]
fn simple_statement(
    alloc: Global,
    levels: usize,
    tokens: &[Token],
) -> Result<(Stmt, &[Token]), Refusal>
    ensures { ReturnsReading (λ x. (x.0, kinds x.1.now)) result (spec.simple_statement_at levels (kinds tokens.now)) }
{
    let (simple, rest) = simple_in(alloc, levels, tokens)?;
    let rest = after(rest, &[Wanted::Symbol(Symbol::Semicolon)])?;
    Ok((Stmt::Simple(Boxed::new(alloc, simple)?), rest))
}

/// Whether a block or a class goes on.
#[tactic(auto, unfolding(crate::specs::Statements::has_more))]
pub(crate) fn has_more(tokens: &[Token]) -> bool
    ensures { result ≡ spec.has_more (kinds tokens.now) }
{
    match tokens {
        [] => false,
        [first, ..] => !is(&first.kind, Wanted::Symbol(Symbol::CloseBrace)),
    }
}

/// The rules of statements inside which this many levels are left.
#[derive(Clone, Copy)]
pub(crate) struct Statements<F> {
    alloc: Global,
    levels: usize,
    statement: F,
}

impl<F: Fn(Global, usize, &[Token]) -> Result<(Stmt, &[Token]), Refusal>> Statements<F> {
    /// A statement inside.
    fn inner<'t>(&self, tokens: &'t [Token]) -> Result<(Stmt, &'t [Token]), Refusal>
        requires { ReadsStatements self.now.levels (F.pre self.now.statement) (F.post self.now.statement) }
        ensures { ReturnsReading (λ x. (x.0, kinds x.1.now)) result (spec.statement_at self.now.levels (kinds tokens.now)) }
    {
        (self.statement)(self.alloc, self.levels, tokens)
    }

    /// A statement inside, in a box.
    fn boxed<'t>(&self, tokens: &'t [Token]) -> Result<(Boxed<Stmt>, &'t [Token]), Refusal>
        requires { ReadsStatements self.now.levels (F.pre self.now.statement) (F.post self.now.statement) }
        ensures { ReturnsReading (λ x. (x.0, kinds x.1.now)) result (spec.statement_at self.now.levels (kinds tokens.now)) }
    {
        let (body, rest) = self.inner(tokens)?;
        Ok((Boxed::new(self.alloc, body)?, rest))
    }

    #[tactic(auto, unfolding(crate::specs::Statements::item_at))]
    fn item<'t>(&self, tokens: &'t [Token]) -> Result<(BlockItem, &'t [Token]), Refusal>
        requires { ReadsStatements self.now.levels (F.pre self.now.statement) (F.post self.now.statement) }
        ensures { ReturnsReading (λ x. (x.0, kinds x.1.now)) result (spec.item_at self.now.levels (spec.statement_at self.now.levels) (kinds tokens.now)) }
    {
        if local_ahead(tokens) {
            let (local, rest) = local(self.alloc, self.levels, tokens)?;
            let rest = after(rest, &[Wanted::Symbol(Symbol::Semicolon)])?;
            return Ok((BlockItem::Local(Boxed::new(self.alloc, local)?), rest));
        }
        let (body, rest) = self.inner(tokens)?;
        Ok((BlockItem::Stmt(body), rest))
    }

    /// What stands in a block, up to the brace that closes it. Each takes a token, so there are no
    /// more turns than tokens.
    fn items<'t>(&self, tokens: &'t [Token]) -> Result<(Block, &'t [Token]), Refusal>
        requires { ReadsStatements self.now.levels (F.pre self.now.statement) (F.post self.now.statement) }
        ensures { ReturnsReading (λ x. (x.0, kinds x.1.now)) result (spec.items_at self.now.levels (spec.statement_at self.now.levels) (kinds tokens.now)) }
    {
        let mut items = Items::new(self.alloc);
        let mut rest = tokens;
        for _ in 0..tokens.len() {
            if !has_more(rest) {
                return Ok((items, rest));
            }
            let (item, behind) = self.item(rest)?;
            items.push(item)?;
            rest = behind;
        }
        Err(Refusal::NoClass { left: rest.len() })
    }

    #[tactic(auto, unfolding(crate::specs::Statements::block_at))]
    fn block<'t>(&self, tokens: &'t [Token]) -> Result<(Block, &'t [Token]), Refusal>
        requires { ReadsStatements self.now.levels (F.pre self.now.statement) (F.post self.now.statement) }
        ensures { ReturnsReading (λ x. (x.0, kinds x.1.now)) result (spec.block_at self.now.levels (spec.statement_at self.now.levels) (kinds tokens.now)) }
    {
        let rest = after(tokens, &[Wanted::Symbol(Symbol::OpenBrace)])?;
        let (items, rest) = self.items(rest)?;
        let items = fitted(self.alloc, items)?;
        let rest = after(rest, &[Wanted::Symbol(Symbol::CloseBrace)])?;
        Ok((items, rest))
    }

    /// The branch behind an `else`, if there is one.
    #[tactic(auto, unfolding(crate::specs::Statements::otherwise_at))]
    fn otherwise<'t>(
        &self,
        tokens: &'t [Token],
    ) -> Result<(Option<Boxed<Stmt>>, &'t [Token]), Refusal>
        requires { ReadsStatements self.now.levels (F.pre self.now.statement) (F.post self.now.statement) }
        ensures { ReturnsReading (λ x. (x.0, kinds x.1.now)) result (spec.otherwise_at (spec.statement_at self.now.levels) (kinds tokens.now)) }
    {
        if !begins(tokens, Wanted::Reserved(Reserved::Else)) {
            return Ok((None, tokens));
        }
        let rest = after(tokens, &[Wanted::Reserved(Reserved::Else)])?;
        let (body, rest) = self.boxed(rest)?;
        Ok((Some(body), rest))
    }

    /// What stands behind the condition of an `if`.
    #[tactic(auto, unfolding(crate::specs::Statements::branches_at))]
    fn branches<'t>(&self, tokens: &'t [Token]) -> Result<(Branches, &'t [Token]), Refusal>
        requires { ReadsStatements self.now.levels (F.pre self.now.statement) (F.post self.now.statement) }
        ensures { ReturnsReading (λ x. (x.0, kinds x.1.now)) result (spec.branches_at (spec.statement_at self.now.levels) (kinds tokens.now)) }
    {
        let (first, rest) = self.boxed(tokens)?;
        let (second, rest) = self.otherwise(rest)?;
        Ok(((first, second), rest))
    }

    #[tactic(auto, unfolding(crate::specs::Statements::if_at))]
    fn branch<'t>(&self, tokens: &'t [Token]) -> Result<(Stmt, &'t [Token]), Refusal>
        requires { ReadsStatements self.now.levels (F.pre self.now.statement) (F.post self.now.statement) }
        ensures { ReturnsReading (λ x. (x.0, kinds x.1.now)) result (spec.if_at self.now.levels (spec.statement_at self.now.levels) (kinds tokens.now)) }
    {
        let rest = after(tokens, &[Wanted::Reserved(Reserved::If)])?;
        let (test, rest) = test(self.alloc, self.levels, rest)?;
        let ((first, second), rest) = self.branches(rest)?;
        Ok((Stmt::If(test, first, second), rest))
    }

    #[tactic(auto, unfolding(crate::specs::Statements::while_at))]
    fn while_loop<'t>(&self, tokens: &'t [Token]) -> Result<(Stmt, &'t [Token]), Refusal>
        requires { ReadsStatements self.now.levels (F.pre self.now.statement) (F.post self.now.statement) }
        ensures { ReturnsReading (λ x. (x.0, kinds x.1.now)) result (spec.while_at self.now.levels (spec.statement_at self.now.levels) (kinds tokens.now)) }
    {
        let rest = after(tokens, &[Wanted::Reserved(Reserved::While)])?;
        let (test, rest) = test(self.alloc, self.levels, rest)?;
        let (body, rest) = self.boxed(rest)?;
        Ok((Stmt::While(test, body), rest))
    }

    #[tactic(auto, unfolding(crate::specs::Statements::for_at))]
    fn for_loop<'t>(&self, tokens: &'t [Token]) -> Result<(Stmt, &'t [Token]), Refusal>
        requires { ReadsStatements self.now.levels (F.pre self.now.statement) (F.post self.now.statement) }
        ensures { ReturnsReading (λ x. (x.0, kinds x.1.now)) result (spec.for_at self.now.levels (spec.statement_at self.now.levels) (kinds tokens.now)) }
    {
        let (header, rest) = for_header(self.alloc, self.levels, tokens)?;
        let (body, rest) = self.boxed(rest)?;
        Ok((Stmt::For(Boxed::new(self.alloc, header)?, body), rest))
    }

    /// A statement of this form.
    #[tactic(auto, unfolding(crate::specs::Statements::statement_of))]
    fn of_form<'t>(
        &self,
        form: StatementForm,
        tokens: &'t [Token],
    ) -> Result<(Stmt, &'t [Token]), Refusal>
        requires { ReadsStatements self.now.levels (F.pre self.now.statement) (F.post self.now.statement) }
        ensures { ReturnsReading (λ x. (x.0, kinds x.1.now)) result (spec.statement_of form self.now.levels (spec.statement_at self.now.levels) (kinds tokens.now)) }
    {
        match form {
            StatementForm::Block => {
                let (items, rest) = self.block(tokens)?;
                Ok((Stmt::Block(items), rest))
            }
            StatementForm::Empty => {
                let rest = after(tokens, &[Wanted::Symbol(Symbol::Semicolon)])?;
                Ok((Stmt::Empty, rest))
            }
            StatementForm::If => self.branch(tokens),
            StatementForm::While => self.while_loop(tokens),
            StatementForm::For => self.for_loop(tokens),
            StatementForm::Break => {
                let rest = after_jump(tokens, Reserved::Break)?;
                Ok((Stmt::Break, rest))
            }
            StatementForm::Continue => {
                let rest = after_jump(tokens, Reserved::Continue)?;
                Ok((Stmt::Continue, rest))
            }
            StatementForm::Return => return_statement(self.alloc, self.levels, tokens),
            StatementForm::Simple => simple_statement(self.alloc, self.levels, tokens),
        }
    }
}

/// A statement, of at most this many levels.
fn statement(alloc: Global, levels: usize, tokens: &[Token]) -> Result<(Stmt, &[Token]), Refusal>
    ensures { ReturnsReading (λ x. (x.0, kinds x.1.now)) result (spec.statement_at levels (kinds tokens.now)) }
{
    if levels == 0 {
        return Err(Refusal::TooDeep { left: tokens.len() });
    }
    Statements {
        alloc,
        levels: levels - 1,
        statement,
    }
    .of_form(statement_form(tokens), tokens)
}

/// A block, inside which this many levels are left.
pub(crate) fn block(
    alloc: Global,
    levels: usize,
    tokens: &[Token],
) -> Result<(Block, &[Token]), Refusal>
    ensures { ReturnsReading (λ x. (x.0, kinds x.1.now)) result (spec.block_at levels (spec.statement_at levels) (kinds tokens.now)) }
{
    Statements {
        alloc,
        levels,
        statement,
    }
    .block(tokens)
}
