//! `Counter`, one `long`.

ghost use Rattle.std.specs.Prelude.{◌≡◌, ◌∷◌, [], pos, IsSome, OnOk, OnErr};
ghost use Rattle.std.specs.Ordering.{nat_cmp};
ghost use Rattle.state_classes.specs.Entries.{value_at, with_entry};
ghost use Rattle.state_classes.specs.Plans.{planned_on_counter};
ghost use Rattle.state_classes.specs.States.{set_to};

use crate::access::Access;
use crate::arguments::{nothing, one_long};
use crate::held::Held;
use crate::method::Method;
use crate::plan::{Plan, gives, sets, sum_of};
use crate::state_class::StateClass;
use sdg_base::{Outcome, Val, Vals};
use std::alloc::{AllocError, Global};
use std::marker::Model;

/// One `long`, which is seen as this number.
#[derive(Drop)]
pub struct Counter {
    value: i64,
}

impl Model for Counter {
    ghost use Rattle.std.specs.Prelude.{ℤ};

    ghost Value = { ℤ };

    ghost view = { λ c. c.value };
}

impl Counter {
    /// A counter that stands at 0. It takes no memory.
    pub fn new(_alloc: Global) -> Counter
        ensures { result ≡ pos 0 }
    {
        Counter { value: 0 }
    }
}

/// A counter always has its one entry, under the key 0.
impl Held for Counter {
    ghost use Rattle.std.specs.Prelude.{[], ◌∷◌};

    type Key = u8;

    type Value = i64;

    ghost entries = { λ c. (0, c) ∷ [] };

    fn read(&self, key: &u8) -> Option<i64> {
        if *key == 0 { Some(self.value) } else { None }
    }

    fn after(&self, key: Option<&u8>) -> Option<u8> {
        match key {
            None => Some(0),
            Some(_) => None,
        }
    }

    fn size(&self) -> usize {
        1
    }
}

impl StateClass for Counter {
    ghost use Rattle.sdg_base.specs.declared.store.ClassName.TheVariants as class_name;
    ghost use Rattle.state_classes.specs.Methods.{is_keyed};
    ghost use Rattle.state_classes.specs.Kept.{counter_keeps, counter_is_taken};
    ghost use Rattle.state_classes.specs.Plans.{planned_on_held_counter};

    ghost planned = { planned_on_held_counter };

    ghost takes = { λ key value. (key ≡ 0) × IsSome value };

    ghost keyed = { is_keyed class_name.Counter };

    ghost is_in_part = { λ _ _. ⊥ };

    fn plan<H: Held<Key = u8, Value = i64>>(
        _alloc: Global,
        held: &H,
        method: Method,
        args: &Vals,
    ) -> Result<Plan<u8, i64>, AllocError> {
        Ok(plan_on(value_of(held), method, args.as_slice()))
    }

    fn change(&mut self, _alloc: Global, key: u8, value: Option<i64>) -> Result<(), AllocError>
        requires { (key ≡ 0) × IsSome value }

        ensures ok { OnOk result ((0, self.new) ∷ [] ≡ with_entry nat_cmp key value ((0, self.old) ∷ [])) }
        ensures err { OnErr result (self.new ≡ self.old) }
    {
        if let Some(value) = value {
            self.value = value;
        }
        Ok(())
    }

    fn call(&mut self, _alloc: Global, method: Method, args: &Vals) -> Result<Outcome, AllocError> {
        let plan = plan_on(self.value, method, args.as_slice());
        self.value = value_after(self.value, plan.change);
        Ok(plan.outcome)
    }

    ghost keeps = { counter_keeps };

    ghost taken = { counter_is_taken };
}

impl Access for Counter {
    ghost use Rattle.state_classes.specs.States.{OfCounter};

    ghost held = { OfCounter };

    #[tactic(auto, unfolding(crate::specs::States::called))]
    fn call(&mut self, _alloc: Global, method: Method, args: &Vals) -> Result<Outcome, AllocError> {
        let plan = plan_on(self.value, method, args.as_slice());
        self.value = value_after(self.value, plan.change);
        Ok(plan.outcome)
    }
}

/// The number of whatever holds a counter's entry. An absent entry reads as 0.
fn value_of<H: Held<Key = u8, Value = i64>>(held: &H) -> i64
    ensures { result ≡ value_at nat_cmp 0 (H.entries held.now) }
{
    held.read(&0).unwrap_or(0)
}

fn value_after(value: i64, change: Option<(u8, Option<i64>)>) -> i64
    ensures { result ≡ set_to change value }
{
    match change {
        Some((_, Some(next))) => next,
        _ => value,
    }
}

fn plan_on(value: i64, method: Method, args: &[Val]) -> Plan<u8, i64>
    ensures { result ≡ planned_on_counter method args.now value }
{
    match method {
        Method::Get => get(value, args),
        Method::Add => add(value, args),
        Method::Set => set(args),
        _ => gives(Val::Unit),
    }
}

/// `long get()`
fn get(value: i64, args: &[Val]) -> Plan<u8, i64>
    ensures { result ≡ planned_on_counter Method.Get args.now value }
{
    match nothing(args) {
        Some(()) => gives(Val::Long(value)),
        None => gives(Val::Unit),
    }
}

/// `void add(long n)`
fn add(value: i64, args: &[Val]) -> Plan<u8, i64>
    ensures { result ≡ planned_on_counter Method.Add args.now value }
{
    match one_long(args) {
        Some(n) => sets(0, sum_of(value, n)),
        None => gives(Val::Unit),
    }
}

/// `void set(long n)`
fn set(args: &[Val]) -> Plan<u8, i64>
    ensures { result ≡ planned_on_counter Method.Set args.now (pos 0) }
{
    match one_long(args) {
        Some(n) => sets(0, n),
        None => gives(Val::Unit),
    }
}
