//! The calls among the methods of a class.

ghost use Rattle.std.specs.Prelude.{◌≡◌, [], ◌∷◌, ◌++◌, ◌<◌, ℕ, Bool, nat_eq, length, IfOk, OnOk, MatchOption};
ghost use Rattle.java_types.specs.Calls.{reaches, with_call, Holds, IsTransitive};

use sqlite_items::Items;
use std::alloc::{AllocError, Global};
use std::marker::Model;

/// How many methods a class may have.
pub const METHODS_MAX: usize = 256;

const PAIRS: usize = METHODS_MAX * METHODS_MAX;

/// A call, by the numbers of its two methods.
#[derive(Clone, Copy)]
pub struct Call {
    pub caller: usize,
    pub callee: usize,
}

/// Calls in the order in which they came, with which method reaches which by them.
#[derive(Drop)]
pub struct Calls {
    alloc: Global,
    made: Items<Call>,
    reached: Vec<bool>,
}

impl Model for Calls {
    ghost use Rattle.std.specs.Prelude.{List};
    ghost use Rattle.java_types.specs.declared.calls.Call.{Call};
    ghost use Rattle.java_types.specs.Calls.{reaches, Holds};

    ghost Value = { List Call };

    ghost view = { λ c. c.made };

    ghost invariant = { λ c. Holds (reaches c.made) c.reached.items };
}

/// The relation before any call: each method reaches itself.
fn no_calls(alloc: Global) -> Result<Vec<bool>, AllocError>
    ensures { IfOk result (λ v. Holds nat_eq v.items) }
{
    let mut reached = Vec::new(alloc);
    for at in 0..PAIRS {
        reached.push(at / METHODS_MAX == at % METHODS_MAX)?;
    }
    Ok(reached)
}

/// The table with one more call.
fn table_with(alloc: Global, reached: &[bool], call: Call) -> Result<Vec<bool>, AllocError>
    requires whole { length reached.now ≡ PAIRS }
    requires caller { call.caller < METHODS_MAX }
    requires callee { call.callee < METHODS_MAX }
    ensures { (r : ℕ → ℕ → Bool) → Holds r reached.now → IfOk result (λ v. Holds (with_call r call) v.items) }
{
    let mut more = Vec::new(alloc);
    for at in 0..PAIRS {
        let from = at / METHODS_MAX * METHODS_MAX;
        let to = at % METHODS_MAX;
        let by_way = reached[from + call.caller] && reached[call.callee * METHODS_MAX + to];
        more.push(reached[at] || by_way)?;
    }
    Ok(more)
}

/// The same, or nothing where the table stays as it is.
fn changed_by(alloc: Global, reached: &[bool], call: Call) -> Result<Option<Vec<bool>>, AllocError>
    requires whole { length reached.now ≡ PAIRS }
    requires caller { call.caller < METHODS_MAX }
    requires callee { call.callee < METHODS_MAX }
    ensures { (r : ℕ → ℕ → Bool) → IsTransitive r → Holds r reached.now → IfOk result (λ o. MatchOption o (Holds (with_call r call) reached.now) (λ v. Holds (with_call r call) v.items)) }
{
    if reached[call.caller * METHODS_MAX + call.callee] {
        return Ok(None);
    }
    Ok(Some(table_with(alloc, reached, call)?))
}

impl Calls {
    pub fn new(alloc: Global) -> Result<Calls, AllocError>
        ensures { IfOk result (λ c. c ≡ []) }
    {
        Ok(Calls {
            alloc,
            made: Items::new(alloc),
            reached: no_calls(alloc)?,
        })
    }

    /// Whether a method reaches another by the calls so far.
    pub fn reaches(&self, from: usize, to: usize) -> bool
        requires from { from < METHODS_MAX }
        requires to { to < METHODS_MAX }
        ensures { result ≡ reaches self.now from to }
    {
        self.reached[from * METHODS_MAX + to]
    }

    /// One more call.
    pub fn add(&mut self, call: Call) -> Result<(), AllocError>
        requires caller { call.caller < METHODS_MAX }
        requires callee { call.callee < METHODS_MAX }
        ensures { OnOk result (self.new ≡ self.old ++ call ∷ []) }
    {
        let changed = changed_by(self.alloc, self.reached.as_slice(), call)?;
        self.made.push(call)?;
        match changed {
            Some(reached) => {
                self.reached = reached;
                Ok(())
            }
            None => Ok(()),
        }
    }
}
