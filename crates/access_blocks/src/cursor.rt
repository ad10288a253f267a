//! Reading a class from its first member to its last: what is left of the declarations of its names, of the types of its
//! expressions and of the sites of its accesses.

ghost use Rattle.std.specs.Prelude.{◌≡◌, [], IfOk, OnOk, drop, length, slice_get};
ghost use Rattle.access_blocks.specs.Cursors as spec;

use annotations::Site;
use java_tree::{Declaration, ExprType, ValueType};
use sqlite_items::Items;
use std::alloc::{AllocError, Global};
use std::marker::Model;

/// Where the reading is, and which variables the method has so far.
#[derive(Drop)]
pub struct Cursor<'a> {
    names: &'a [Declaration],
    types: &'a [ExprType],
    sites: &'a [Site],
    variables: Items<ValueType>,
    locals: Items<usize>,
}

impl<'a> Model for Cursor<'a> {
    ghost use Rattle.access_blocks.specs.Cursors as spec;

    ghost Value = { spec.Cursor };

    ghost view = { λ c. record { names = c.names.now; types = c.types.now; sites = c.sites.now; variables = c.variables; locals = c.locals } };
}

fn first<T: Copy>(items: &[T]) -> Option<T>
    ensures { result ≡ slice_get items.now 0 }
{
    items.first().copied()
}

fn rest<T>(items: &[T]) -> &[T]
    ensures { result.now ≡ drop 1 items.now }
{
    if items.is_empty() { items } else { &items[1..] }
}

impl<'a> Cursor<'a> {
    /// Before the first member.
    pub fn new(
        alloc: Global,
        names: &'a [Declaration],
        types: &'a [ExprType],
        sites: &'a [Site],
    ) -> Cursor<'a>
        ensures { result ≡ spec.begin names.now types.now sites.now }
    {
        Cursor {
            names,
            types,
            sites,
            variables: Items::new(alloc),
            locals: Items::new(alloc),
        }
    }

    /// The type of the expression that comes next.
    pub fn next_type(&mut self) -> ExprType
        ensures found { result ≡ spec.type_here self.old }
        ensures cursor { self.new ≡ spec.behind_type self.old }
    {
        let found = first(self.types).unwrap_or(ExprType::Unknown);
        self.types = rest(self.types);
        found
    }

    /// What the name that comes next stands for.
    pub fn next_name(&mut self) -> Option<Declaration>
        ensures found { result ≡ spec.name_here self.old }
        ensures cursor { self.new ≡ spec.behind_name self.old }
    {
        let found = first(self.names);
        self.names = rest(self.names);
        found
    }

    /// Where the access that comes next goes.
    pub fn next_site(&mut self) -> Option<Site>
        ensures found { result ≡ spec.site_here self.old }
        ensures cursor { self.new ≡ spec.behind_site self.old }
    {
        let found = first(self.sites);
        self.sites = rest(self.sites);
        found
    }

    /// A number that no variable has yet.
    pub fn no_variable(&self) -> usize
        ensures { result ≡ spec.no_variable self.now }
    {
        self.variables.len()
    }

    fn local(&self, number: usize) -> usize
        ensures { result ≡ spec.variable_of self.now (Some (Declaration.Local number)) }
    {
        match first_at(self.locals.as_slice(), number) {
            Some(variable) => variable,
            None => self.no_variable(),
        }
    }

    /// The number of a variable.
    pub fn variable_of(&self, declaration: Option<Declaration>) -> usize
        ensures { result ≡ spec.variable_of self.now declaration }
    {
        match declaration {
            Some(Declaration::Parameter(number)) => number,
            Some(Declaration::Local(number)) => self.local(number),
            _ => self.no_variable(),
        }
    }

    /// The type of a variable.
    pub fn type_of(&self, variable: usize) -> ExprType
        ensures { result ≡ spec.type_of self.now variable }
    {
        match first_at(self.variables.as_slice(), variable) {
            Some(found) => ExprType::Value(found),
            None => ExprType::Unknown,
        }
    }

    /// A local is declared. One that is `@Partial` has no variable.
    pub fn declare(&mut self, is_partial: bool, found: ValueType) -> Result<(), AllocError>
        ensures { OnOk result (self.new ≡ spec.declared is_partial found self.old) }
    {
        self.locals.push(self.variables.len())?;
        if !is_partial {
            self.variables.push(found)?;
        }
        Ok(())
    }

    /// A method begins with these parameters.
    pub fn enter(&mut self, alloc: Global, parameters: Items<ValueType>)
        ensures { self.new ≡ spec.entered parameters self.old }
    {
        self.variables = parameters;
        self.locals = Items::new(alloc);
    }

    /// The types of the variables of the method, by number.
    pub fn variables(&self, alloc: Global) -> Result<Items<ValueType>, AllocError>
        ensures { IfOk result (λ all. all ≡ self.now.variables) }
    {
        Items::from_slice(alloc, self.variables.as_slice())
    }
}

fn first_at<T: Copy>(items: &[T], at: usize) -> Option<T>
    ensures { result ≡ slice_get items.now at }
{
    items.get(at).copied()
}
