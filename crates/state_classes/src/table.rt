//! `Table`, a finite map from `long` to `long`.

ghost use Rattle.std.specs.Prelude.{◌≡◌, [], OnOk, OnErr};
ghost use Rattle.std.specs.Ordering.{int_cmp};
ghost use Rattle.state_classes.specs.Entries.{has_entry, value_at, with_entry};
ghost use Rattle.state_classes.specs.Plans.{planned_on_table};

use crate::access::Access;
use crate::arguments::{nothing, one_long, two_longs};
use crate::entries::{key_after, make_change, set_entry};
use crate::held::Held;
use crate::method::Method;
use crate::plan::{Plan, gives, removes, sets, sum_of};
use crate::state_class::StateClass;
use sdg_base::{Outcome, Val, Vals};
use std::alloc::{AllocError, Global};
use std::collections::BTreeMap;
use std::marker::Model;

/// A finite map from `long` to `long`, seen as the list of its entries in rising key order.
#[derive(Drop)]
pub struct Table {
    entries: BTreeMap<i64, i64>,
}

impl Model for Table {
    ghost use Rattle.std.specs.Prelude.{ℤ};
    ghost use Rattle.state_classes.specs.Entries.{Entries};

    ghost Value = { Entries ℤ };

    ghost view = { λ t. t.entries.entries };
}

impl Table {
    /// A table without entries. It takes no memory.
    pub fn new(alloc: Global) -> Table
        ensures { result ≡ [] }
    {
        Table {
            entries: BTreeMap::new(alloc),
        }
    }
}

impl Held for Table {
    type Key = i64;

    type Value = i64;

    ghost entries = { λ t. t };

    fn read(&self, key: &i64) -> Option<i64> {
        self.entries.get(key).copied()
    }

    fn after(&self, key: Option<&i64>) -> Option<i64> {
        key_after(&self.entries, key)
    }

    fn size(&self) -> usize {
        self.entries.len()
    }
}

impl StateClass for Table {
    ghost use Rattle.sdg_base.specs.declared.store.ClassName.TheVariants as class_name;
    ghost use Rattle.state_classes.specs.Laws.{IsKey};
    ghost use Rattle.state_classes.specs.Methods.{is_keyed};
    ghost use Rattle.state_classes.specs.Kept.{table_keeps, any_is_taken};
    ghost use Rattle.state_classes.specs.Plans.{planned_on_table};

    ghost planned = { planned_on_table };

    ghost takes = { λ _ _. Unit {0} };

    ghost keyed = { is_keyed class_name.Table };

    ghost is_in_part = { IsKey };

    fn plan<H: Held<Key = i64, Value = i64>>(
        _alloc: Global,
        held: &H,
        method: Method,
        args: &Vals,
    ) -> Result<Plan<i64, i64>, AllocError> {
        Ok(plan_on(held, method, args.as_slice()))
    }

    fn change(&mut self, _alloc: Global, key: i64, value: Option<i64>) -> Result<(), AllocError>
        ensures ok { OnOk result (self.new ≡ with_entry int_cmp key value self.old) }
        ensures err { OnErr result (self.new ≡ self.old) }
    {
        set_entry(&mut self.entries, key, value)
    }

    fn call(&mut self, _alloc: Global, method: Method, args: &Vals) -> Result<Outcome, AllocError> {
        let plan = plan_on(self, method, args.as_slice());
        make_change(&mut self.entries, plan.change)?;
        Ok(plan.outcome)
    }

    ghost keeps = { table_keeps };

    ghost taken = { λ m args held. any_is_taken (planned_on_table m args held) };
}

impl Access for Table {
    ghost use Rattle.state_classes.specs.States.{OfTable};

    ghost held = { OfTable };

    #[tactic(auto, unfolding(crate::specs::States::called))]
    fn call(&mut self, alloc: Global, method: Method, args: &Vals) -> Result<Outcome, AllocError> {
        StateClass::call(self, alloc, method, args)
    }
}

fn plan_on<H: Held<Key = i64, Value = i64>>(
    held: &H,
    method: Method,
    args: &[Val],
) -> Plan<i64, i64>
    ensures { result ≡ planned_on_table method args.now (H.entries held.now) }
{
    match method {
        Method::Get => get(held, args),
        Method::Has => has(held, args),
        Method::Put => put(args),
        Method::Add => add(held, args),
        Method::Remove => remove(args),
        Method::Size => size(held, args),
        _ => gives(Val::Unit),
    }
}

/// `long get(long k)`. An absent entry reads as 0.
fn get<H: Held<Key = i64, Value = i64>>(held: &H, args: &[Val]) -> Plan<i64, i64>
    ensures { result ≡ planned_on_table Method.Get args.now (H.entries held.now) }
{
    match one_long(args) {
        Some(key) => gives(Val::Long(value_at(held, key))),
        None => gives(Val::Unit),
    }
}

/// `boolean has(long k)`
fn has<H: Held<Key = i64, Value = i64>>(held: &H, args: &[Val]) -> Plan<i64, i64>
    ensures { result ≡ planned_on_table Method.Has args.now (H.entries held.now) }
{
    match one_long(args) {
        Some(key) => gives(Val::Bool(is_entry(held, key))),
        None => gives(Val::Unit),
    }
}

/// `void put(long k, long v)`
fn put(args: &[Val]) -> Plan<i64, i64>
    ensures { result ≡ planned_on_table Method.Put args.now [] }
{
    match two_longs(args) {
        Some((key, value)) => sets(key, value),
        None => gives(Val::Unit),
    }
}

/// `void add(long k, long v)`
fn add<H: Held<Key = i64, Value = i64>>(held: &H, args: &[Val]) -> Plan<i64, i64>
    ensures { result ≡ planned_on_table Method.Add args.now (H.entries held.now) }
{
    match two_longs(args) {
        Some((key, value)) => sets(key, sum_of(value_at(held, key), value)),
        None => gives(Val::Unit),
    }
}

/// `void remove(long k)`
fn remove(args: &[Val]) -> Plan<i64, i64>
    ensures { result ≡ planned_on_table Method.Remove args.now [] }
{
    match one_long(args) {
        Some(key) => removes(key),
        None => gives(Val::Unit),
    }
}

/// `long size()`
fn size<H: Held<Key = i64, Value = i64>>(held: &H, args: &[Val]) -> Plan<i64, i64>
    ensures { result ≡ planned_on_table Method.Size args.now (H.entries held.now) }
{
    match nothing(args) {
        Some(()) => gives(Val::Long(held.size() as i64)),
        None => gives(Val::Unit),
    }
}

fn value_at<H: Held<Key = i64, Value = i64>>(held: &H, key: i64) -> i64
    ensures { result ≡ value_at int_cmp key (H.entries held.now) }
{
    held.read(&key).unwrap_or(0)
}

fn is_entry<H: Held<Key = i64, Value = i64>>(held: &H, key: i64) -> bool
    ensures { result ≡ has_entry int_cmp key (H.entries held.now) }
{
    held.read(&key).is_some()
}
