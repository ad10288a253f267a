//! What is known while a class is read, from its first token to its last.

ghost use Rattle.std.specs.Prelude.{◌≡◌, OnOk};
ghost use Rattle.annotations.specs.Walks as spec;

use crate::position::Position;
use crate::site::{FieldKind, Kinds, Reach, Site, Sites};
use java_tree::{Declaration, MethodKind};
use sdg_base::ClassName;
use sqlite_items::Items;
use std::alloc::AllocError;

/// What holds in the whole class.
#[derive(Drop)]
pub struct Env {
    /// How many tokens have a place.
    pub limit: usize,
    pub kinds: Kinds,
    /// The class of each field.
    pub classes: Items<Option<ClassName>>,
    pub methods: Items<MethodKind>,
    /// What each name of a field, method, parameter or local stands for that is used, in text order.
    pub names: Items<Declaration>,
}

/// A rule that is broken, and the number of the token where.
#[derive(Clone, Copy)]
pub struct Finding {
    pub token: usize,
    pub rule: u8,
}

/// A `@Partial` local, and the number of the first token of its declaration.
#[derive(Clone, Copy)]
pub struct Awaited {
    pub local: usize,
    pub token: usize,
}

/// The number of the next token and of the next name, what is known there, and what has come of the tokens before it.
#[derive(Drop)]
pub struct Walk {
    pub at: usize,
    pub used: usize,
    /// Whether the method is an entry method.
    pub in_entry: bool,
    pub in_header: bool,
    /// Of each parameter of the method, whether it is a collection.
    pub collections: Items<bool>,
    /// Of each local of the method so far, where it is declared if it is `@Partial`.
    pub locals: Items<Option<usize>>,
    /// The `@Partial` local that the statement before declares, if it is not merged yet.
    pub awaited: Option<Awaited>,
    /// The first token of the first partial field so far.
    pub partial: Option<usize>,
    pub sites: Sites,
    pub findings: Items<Finding>,
}

impl Walk {
    /// Goes behind the next tokens, as far as there are places.
    #[tactic(auto, unfolding(crate::specs::Walks::past))]
    pub fn pass(&mut self, env: &Env, tokens: usize)
        ensures { self.new ≡ spec.past env.now tokens self.old }
    {
        self.at = self.at.saturating_add(tokens).min(env.limit);
    }

    pub fn pass_if(&mut self, env: &Env, test: bool, tokens: usize)
        ensures { self.new ≡ spec.past_if env.now test tokens self.old }
    {
        if test {
            self.pass(env, tokens);
        }
    }

    /// Notes a broken rule.
    #[tactic(auto, unfolding(crate::specs::Walks::noted))]
    pub fn note(&mut self, broken: bool, token: usize, rule: u8) -> Result<(), AllocError>
        ensures { OnOk result (self.new ≡ spec.noted broken token rule self.old) }
    {
        if broken {
            return self.findings.push(Finding { token, rule });
        }
        Ok(())
    }

    /// Notes that a rule is broken at this token, if it is.
    pub fn note_at(&mut self, token: Option<usize>, rule: u8) -> Result<(), AllocError>
        ensures { OnOk result (self.new ≡ spec.noted_at token rule self.old) }
    {
        match token {
            Some(token) => self.note(true, token, rule),
            None => Ok(()),
        }
    }

    /// What the next name stands for.
    pub fn coming(&self, env: &Env) -> Option<Declaration>
        ensures { result ≡ spec.coming env.now self.now }
    {
        env.names.as_slice().get(self.used).copied()
    }

    /// Goes behind a name.
    #[tactic(auto, unfolding(crate::specs::Walks::taken))]
    pub fn take(&mut self, env: &Env)
        ensures { self.new ≡ spec.taken env.now self.old }
    {
        self.used = self.used.saturating_add(1).min(env.names.len());
        self.pass(env, 1);
    }

    /// Where the local that a name stands for is declared, if it is a `@Partial` one.
    fn partial_at(&self, declaration: Option<Declaration>) -> Option<usize>
        ensures { result ≡ spec.partial_at self.now declaration }
    {
        match declaration {
            Some(Declaration::Local(n)) => self.locals.as_slice().get(n).copied().unwrap_or(None),
            _ => None,
        }
    }

    /// Whether a name stands for a collection.
    pub fn is_collection(&self, declaration: Option<Declaration>) -> bool
        ensures { result ≡ spec.is_collection self.now declaration }
    {
        match declaration {
            Some(Declaration::Parameter(n)) => {
                self.collections.as_slice().get(n).copied().unwrap_or(false)
            }
            _ => false,
        }
    }

    /// Goes behind the name of a variable, which no `@Partial` local has.
    #[tactic(auto, unfolding(crate::specs::Walks::named))]
    pub fn named(&mut self, env: &Env) -> Result<(), AllocError>
        ensures { OnOk result (self.new ≡ spec.named env.now self.old) }
    {
        let declared = self.partial_at(self.coming(env));
        self.note_at(declared, 9)?;
        self.take(env);
        Ok(())
    }

    /// Ends a statement, where the one before may have declared a `@Partial` local that it did not merge.
    #[tactic(auto, unfolding(crate::specs::Walks::unmerged))]
    pub fn end_wait(&mut self) -> Result<(), AllocError>
        ensures { OnOk result (self.new ≡ spec.unmerged self.old) }
    {
        if let Some(awaited) = self.awaited {
            self.note(true, awaited.token, 9)?;
            self.awaited = None;
        }
        Ok(())
    }

    /// What is no name of a variable stands among the arguments of a merge method.
    pub fn unfit(&mut self, position: Position) -> Result<(), AllocError>
        ensures { OnOk result (self.new ≡ spec.unfit position self.old) }
    {
        match position {
            Position::Merged { call, .. } => self.note(true, call, 12),
            _ => Ok(()),
        }
    }

    /// What is neither a name of a variable nor an access to state stands here, and may stand behind `@Global`.
    pub fn unexpected(
        &mut self,
        position: Position,
        global: Option<usize>,
    ) -> Result<(), AllocError>
        ensures { OnOk result (self.new ≡ spec.unexpected position global self.old) }
    {
        self.unfit(position)?;
        self.note_at(global, 10)
    }

    /// Adds a site.
    #[tactic(auto, unfolding(crate::specs::Walks::sited))]
    pub fn add_site(&mut self, field: usize, reach: Reach) -> Result<(), AllocError>
        ensures { OnOk result (self.new ≡ spec.sited field reach self.old) }
    {
        self.sites.push(Site { field, reach })
    }
}

/// The token, where the test holds.
pub fn token_if(test: bool, token: usize) -> Option<usize>
    ensures { result ≡ spec.token_if test token }
{
    if test { Some(token) } else { None }
}

/// The kind of the field of this number.
pub fn kind_at(env: &Env, field: usize) -> FieldKind
    ensures { result ≡ spec.kind_at env.now field }
{
    env.kinds
        .as_slice()
        .get(field)
        .copied()
        .unwrap_or(FieldKind::Partial)
}

/// Whether a name stands for a merge method.
pub fn is_merge_method(env: &Env, declaration: Option<Declaration>) -> bool
    ensures { result ≡ spec.is_merge_method env.now declaration }
{
    match declaration {
        Some(Declaration::Method(n)) => is_merge(env.methods.as_slice().get(n).copied()),
        _ => false,
    }
}

fn is_merge(kind: Option<MethodKind>) -> bool
    ensures { result ≡ spec.is_merge kind }
{
    matches!(kind, Some(MethodKind::Merge))
}
