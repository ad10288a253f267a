//! `Matrix`, a finite map from pairs of `long`s, row and column, to `long`.

ghost use Rattle.std.specs.Prelude.{◌≡◌, ◌≤◌, ◌<◌, ◌^◌, length, [], ℤ, pos, Some, IfOk, OnOk, OnErr};
ghost use Rattle.sdg_base.specs.declared.val.Num.TheVariants as num;
ghost use Rattle.sdg_base.specs.Arithmetic.{wrap};
ghost use Rattle.state_classes.specs.Entries.{by_row_and_column, with_entry};
ghost use Rattle.state_classes.specs.Walks.{IsNextInRow, column_below};
ghost use Rattle.state_classes.specs.Plans.{planned_on_matrix, element, is_column, row_of, row_plan, weighted, product};

use crate::access::Access;
use crate::arguments::{long_and_int, nothing, one_vector, three_longs, two_longs};
use crate::entries::{key_after, make_change, set_entry};
use crate::held::Held;
use crate::method::Method;
use crate::plan::{Plan, ends, gives, plus_product, sets, sum_of};
use crate::state_class::StateClass;
use sdg_base::{Exn, Longs, Outcome, Val, Vals};
use std::alloc::{AllocError, Global};
use std::collections::BTreeMap;
use std::marker::Model;

/// The row and the column of an element.
type Key = (i64, i64);

/// A finite map from pairs of `long`s, row and column, to `long`, seen as the list of its entries in
/// rising key order, rows first.
#[derive(Drop)]
pub struct Matrix {
    entries: BTreeMap<(i64, i64), i64>,
}

impl Model for Matrix {
    ghost use Rattle.state_classes.specs.Entries.{Entries, MatrixKey};

    ghost Value = { Entries MatrixKey };

    ghost view = { λ m. m.entries.entries };
}

impl Matrix {
    /// A matrix without entries. It takes no memory.
    pub fn new(alloc: Global) -> Matrix
        ensures { result ≡ [] }
    {
        Matrix {
            entries: BTreeMap::new(alloc),
        }
    }
}

impl Held for Matrix {
    type Key = (i64, i64);

    type Value = i64;

    ghost entries = { λ m. m };

    fn read(&self, key: &(i64, i64)) -> Option<i64> {
        self.entries.get(key).copied()
    }

    fn after(&self, key: Option<&(i64, i64)>) -> Option<(i64, i64)> {
        key_after(&self.entries, key)
    }

    fn size(&self) -> usize {
        self.entries.len()
    }
}

impl StateClass for Matrix {
    ghost use Rattle.sdg_base.specs.declared.store.ClassName.TheVariants as class_name;
    ghost use Rattle.state_classes.specs.Laws.{IsInRow};
    ghost use Rattle.state_classes.specs.Methods.{is_keyed};
    ghost use Rattle.state_classes.specs.Kept.{matrix_keeps, any_is_taken};
    ghost use Rattle.state_classes.specs.Walks.{IsNextInRow, column_below};
    ghost use Rattle.state_classes.specs.Plans.{planned_on_matrix};

    ghost planned = { planned_on_matrix };

    ghost takes = { λ _ _. Unit {0} };

    ghost keyed = { is_keyed class_name.Matrix };

    ghost is_in_part = { IsInRow };

    fn plan<H: Held<Key = (i64, i64), Value = i64>>(
        alloc: Global,
        held: &H,
        method: Method,
        args: &Vals,
    ) -> Result<Plan<(i64, i64), i64>, AllocError> {
        plan_on(alloc, held, method, args.as_slice())
    }

    fn change(
        &mut self,
        _alloc: Global,
        key: (i64, i64),
        value: Option<i64>,
    ) -> Result<(), AllocError>
        ensures ok { OnOk result (self.new ≡ with_entry by_row_and_column key value self.old) }
        ensures err { OnErr result (self.new ≡ self.old) }
    {
        set_entry(&mut self.entries, key, value)
    }

    fn call(&mut self, alloc: Global, method: Method, args: &Vals) -> Result<Outcome, AllocError> {
        let plan = plan_on(alloc, self, method, args.as_slice())?;
        make_change(&mut self.entries, plan.change)?;
        Ok(plan.outcome)
    }

    ghost keeps = { matrix_keeps };

    ghost taken = { λ m args held. any_is_taken (planned_on_matrix m args held) };
}

impl Access for Matrix {
    ghost use Rattle.state_classes.specs.States.{OfMatrix};

    ghost held = { OfMatrix };

    #[tactic(auto, unfolding(crate::specs::States::called))]
    fn call(&mut self, alloc: Global, method: Method, args: &Vals) -> Result<Outcome, AllocError> {
        StateClass::call(self, alloc, method, args)
    }
}

fn plan_on<H: Held<Key = (i64, i64), Value = i64>>(
    alloc: Global,
    held: &H,
    method: Method,
    args: &[Val],
) -> Result<Plan<Key, i64>, AllocError>
    ensures { IfOk result (λ plan. plan ≡ planned_on_matrix method args.now (H.entries held.now)) }
{
    match method {
        Method::GetElement => Ok(get_element(held, args)),
        Method::SetElement => Ok(set_element(args)),
        Method::AddElement => Ok(add_element(held, args)),
        Method::GetRow => get_row(alloc, held, args),
        Method::Multiply => multiply(alloc, held, args),
        Method::Size => Ok(size(held, args)),
        _ => Ok(gives(Val::Unit)),
    }
}

/// `long getElement(long r, long c)`. An absent entry reads as 0.
fn get_element<H: Held<Key = (i64, i64), Value = i64>>(held: &H, args: &[Val]) -> Plan<Key, i64>
    ensures { result ≡ planned_on_matrix Method.GetElement args.now (H.entries held.now) }
{
    match two_longs(args) {
        Some((row, column)) => {
            if is_column(column) {
                gives(Val::Long(element(held, row, column)))
            } else {
                ends(Outcome::Throws(Exn::Index))
            }
        }
        None => gives(Val::Unit),
    }
}

/// `void setElement(long r, long c, long v)`
fn set_element(args: &[Val]) -> Plan<Key, i64>
    ensures { result ≡ planned_on_matrix Method.SetElement args.now [] }
{
    match three_longs(args) {
        Some((row, column, value)) => {
            if is_column(column) {
                sets((row, column), value)
            } else {
                ends(Outcome::Throws(Exn::Index))
            }
        }
        None => gives(Val::Unit),
    }
}

/// `void addElement(long r, long c, long v)`
fn add_element<H: Held<Key = (i64, i64), Value = i64>>(held: &H, args: &[Val]) -> Plan<Key, i64>
    ensures { result ≡ planned_on_matrix Method.AddElement args.now (H.entries held.now) }
{
    match three_longs(args) {
        Some((row, column, value)) => {
            if is_column(column) {
                sets((row, column), sum_of(element(held, row, column), value))
            } else {
                ends(Outcome::Throws(Exn::Index))
            }
        }
        None => gives(Val::Unit),
    }
}

/// `Vector getRow(long r, int n)`
fn get_row<H: Held<Key = (i64, i64), Value = i64>>(
    alloc: Global,
    held: &H,
    args: &[Val],
) -> Result<Plan<Key, i64>, AllocError>
    ensures { IfOk result (λ plan. plan ≡ planned_on_matrix Method.GetRow args.now (H.entries held.now)) }
{
    match long_and_int(args) {
        Some((row, n)) => row_plan(alloc, held, row, n),
        None => Ok(gives(Val::Unit)),
    }
}

/// `Vector multiply(Vector v)`
fn multiply<H: Held<Key = (i64, i64), Value = i64>>(
    alloc: Global,
    held: &H,
    args: &[Val],
) -> Result<Plan<Key, i64>, AllocError>
    ensures { IfOk result (λ plan. plan ≡ planned_on_matrix Method.Multiply args.now (H.entries held.now)) }
{
    match one_vector(args) {
        Some(v) => Ok(gives(Val::Vector(product(alloc, held, v)?))),
        None => Ok(gives(Val::Unit)),
    }
}

/// `long size()`
fn size<H: Held<Key = (i64, i64), Value = i64>>(held: &H, args: &[Val]) -> Plan<Key, i64>
    ensures { result ≡ planned_on_matrix Method.Size args.now (H.entries held.now) }
{
    match nothing(args) {
        Some(()) => gives(Val::Long(held.size() as i64)),
        None => gives(Val::Unit),
    }
}

fn is_column(column: i64) -> bool
    ensures { result ≡ is_column column }
{
    0 <= column && column < 4096
}

fn element<H: Held<Key = (i64, i64), Value = i64>>(held: &H, row: i64, column: i64) -> i64
    ensures { result ≡ element row column (H.entries held.now) }
{
    held.read(&(row, column)).unwrap_or(0)
}

fn row_plan<H: Held<Key = (i64, i64), Value = i64>>(
    alloc: Global,
    held: &H,
    row: i64,
    n: i32,
) -> Result<Plan<Key, i64>, AllocError>
    ensures { IfOk result (λ plan. plan ≡ row_plan row n (H.entries held.now)) }
{
    if n < 0 {
        return Ok(ends(Outcome::Throws(Exn::NegativeSize)));
    }
    if 4096 < n {
        return Ok(ends(Outcome::Limit));
    }
    let count = n.unsigned_abs() as usize;
    Ok(gives(Val::Vector(row_of(alloc, held, row, count)?)))
}

/// The elements of a row at the first columns.
fn row_of<H: Held<Key = (i64, i64), Value = i64>>(
    alloc: Global,
    held: &H,
    row: i64,
    count: usize,
) -> Result<Longs, AllocError>
    requires { count ≤ 4096 }
    ensures { IfOk result (λ elements. elements ≡ row_of row count (H.entries held.now)) }
{
    let mut elements = Longs::new(alloc);
    for column in 0..count {
        elements.push(element(held, row, column as i64))?;
    }
    Ok(elements)
}

/// The first rows times a vector, as many as it has elements.
fn product<H: Held<Key = (i64, i64), Value = i64>>(
    alloc: Global,
    held: &H,
    v: &[i64],
) -> Result<Longs, AllocError>
    ensures { IfOk result (λ products. products ≡ product v.now (H.entries held.now)) }
{
    let mut products = Longs::new(alloc);
    let count = length_of(v);
    for row in 0..count {
        products.push(row_sum(held, row as i64, v))?;
    }
    Ok(products)
}

/// The sum over the columns of a row's element there times the vector's. It passes over the entries of
/// the row alone.
fn row_sum<H: Held<Key = (i64, i64), Value = i64>>(held: &H, row: i64, v: &[i64]) -> i64
    ensures { result ≡ wrap num.Long (weighted row 0 v.now (H.entries held.now)) }
{
    let count = length_of(v);
    let mut sum = 0;
    let mut column = 0;
    'columns: loop {
        match next_in_row(held, row, column, count) {
            Some(next) => {
                let element = element(held, row, next as i64);
                sum = plus_product(&sum, &element, &v[next]);
                column = next + 1;
            }
            None => return sum,
        }
    }
}

/// A column from one on and below an end, before which a row's elements are 0.
fn next_in_row<H: Held<Key = (i64, i64), Value = i64>>(
    held: &H,
    row: i64,
    from: usize,
    end: usize,
) -> Option<usize>
    requires from { from ≤ end }
    requires end { end < 2 ^ 63 }
    ensures { IsNextInRow row from end (H.entries held.now) result }
{
    let found = held.after(Some(&(row, from as i64 - 1)))?;
    column_below(&found, &row, end)
}

/// The column of a key, where it is in a row and below an end.
fn column_below(key: &(i64, i64), row: &i64, end: usize) -> Option<usize>
    requires { end < 2 ^ 63 }
    ensures { result ≡ column_below key.now row.now end }
{
    if key.0 == *row && 0 <= key.1 && key.1 < end as i64 {
        Some(key.1 as usize)
    } else {
        None
    }
}

/// The number of elements, which is below 2^63, since each takes memory.
fn length_of(v: &[i64]) -> usize
    ensures count { result ≡ length v.now }
    ensures small { result < 2 ^ 63 }
{
    v.len()
}
