//! What plain Java answers, and which calls a class can be given.

use crate::texts::class_of;
use early_forms::StraightClass;
use early_plain::{calls_fit, plain};
use sdg_base::{Call, Calls, Outcome, Val};
use sqlite_items::Items;
use std::alloc::{AllocError, Global};
use std::test::*;

const CLASS: &str = "class Kv {
  @Partitioned Table t = new Table();
  @Partitioned Table u = new Table();
  void put(long k, long v) { t.put(k, v); }
  long more(long k) { long x = t.get(k); return x + 1; }
  long ints() { return 2147483647 + 1; }
  long widened(long k) { long x = t.get(k); return 2147483647 + x; }
  long left(long k) { long x = t.get(k); return 2147483647 + 1 + x; }
  long right(long k) { long x = t.get(k); return x + 2147483647 + 1; }
  long copy(long k) { long x = t.get(k); long y = x + 1; u.put(k, y + x); t.put(y, k); return u.get(k); }
}";

/// A call of a method by its place, with these arguments, and the long that it answers, if any.
type Row<'a> = (u16, &'a [i64], Option<i64>);

fn call(alloc: Global, method: u16, numbers: &[i64]) -> Result<Call, AllocError> {
    let mut args = Items::new(alloc);
    for number in numbers {
        args.push(Val::Long(*number))?;
    }
    Ok(Call { method, args })
}

fn calls(alloc: Global, rows: &[Row]) -> Result<Calls, AllocError> {
    let mut calls = Items::new(alloc);
    for (method, args, _) in rows {
        calls.push(call(alloc, *method, args)?)?;
    }
    Ok(calls)
}

fn long_of(outcome: &Outcome) -> Option<i64> {
    match outcome {
        Outcome::Value(Val::Long(value)) => Some(*value),
        _ => None,
    }
}

/// Whether each call answers as its row says.
fn answers(alloc: Global, rows: &[Row]) -> Result<bool, AllocError> {
    let calls = calls(alloc, rows)?;
    let Some(class) = class_of(alloc, CLASS) else {
        return Ok(false);
    };
    if !calls_fit(&class, &calls) {
        return Ok(false);
    }
    let outcomes = plain(alloc, &class, &calls)?;
    let are_answers = outcomes
        .as_slice()
        .iter()
        .zip(rows)
        .all(|(outcome, row)| long_of(outcome) == row.2);
    Ok(outcomes.len() == rows.len() && are_answers)
}

const ROWS: [Row<'static>; 15] = [
    (0, &[7, 40], None),
    (1, &[7], Some(41)),
    (1, &[0], Some(1)),
    (2, &[], Some(-2147483648)),
    (0, &[1, 1], None),
    (3, &[1], Some(2147483648)),
    (4, &[1], Some(-2147483647)),
    (5, &[1], Some(2147483649)),
    (0, &[7, i64::MAX], None),
    (1, &[7], Some(i64::MIN)),
    (0, &[7, 3], None),
    (6, &[7], Some(7)),
    (1, &[4], Some(8)),
    (6, &[4], Some(15)),
    (6, &[7], Some(7)),
];

#[test]
fn calls_answer_as_java_does(rt: HostRuntime) -> Result<(), Fail> {
    assert!(rt; answers(rt.alloc(), &ROWS)?);
    Ok(())
}

/// A method by its place, how many arguments it is given, whether they are longs, and whether that
/// fits.
const FITTING: [(u16, u32, bool, bool); 5] = [
    (1, 1, true, true),
    (7, 1, true, false),
    (1, 0, true, false),
    (2, 1, true, false),
    (1, 1, false, false),
];

/// Whether the class can be given one call with so many arguments.
fn fits(
    alloc: Global,
    class: &StraightClass,
    method: u16,
    count: u32,
    are_longs: bool,
) -> Result<bool, AllocError> {
    let mut args = Items::new(alloc);
    for _ in 0..count {
        args.push(if are_longs { Val::Long(1) } else { Val::Int(1) })?;
    }
    let mut calls = Items::new(alloc);
    calls.push(Call { method, args })?;
    Ok(calls_fit(class, &calls))
}

/// Whether each row of calls fits the class, or not, as it says.
fn fit_as_they_say(alloc: Global, class: &StraightClass) -> Result<bool, AllocError> {
    for (method, count, are_longs, is_fitting) in FITTING {
        if fits(alloc, class, method, count, are_longs)? != is_fitting {
            return Ok(false);
        }
    }
    Ok(true)
}

#[test]
fn calls_fit_by_their_arguments(rt: HostRuntime) -> Result<(), Fail> {
    let class = class_of(rt.alloc(), CLASS);
    assert!(rt; class.is_some());
    if let Some(class) = &class {
        assert!(rt; fit_as_they_say(rt.alloc(), class)?);
    }
    Ok(())
}
