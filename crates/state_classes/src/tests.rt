use super::*;
use sdg_base::{ClassName, Exn, Longs, Outcome, Val, Vals};
use std::alloc::{AllocError, Global};
use std::test::*;

/// How many arguments a method takes; nothing where it is none.
fn taken(method: Option<Signature>) -> Option<usize> {
    Some(method?.arguments.len())
}

#[test]
fn methods_are_found_by_their_whole_names(rt: HostRuntime) {
    for (class, name, arguments) in [
        (ClassName::Table, "add", Some(2)),
        (ClassName::Counter, "add", Some(1)),
        (ClassName::Counter, "size", None),
        (ClassName::Matrix, "getRow", Some(2)),
        (ClassName::Matrix, "getrow", None),
        (ClassName::Table, "gets", None),
        (ClassName::Table, "", None),
    ] {
        assert_eq!(rt;
            taken(state_method(class, name.as_bytes())),
            arguments,
            "{name}"
        );
    }
    assert_eq!(rt; taken(vector_method(b"set")), Some(2));
    assert_eq!(rt; taken(vector_method(b"add")), None);
}

/// An outcome that can be compared: of a vector its length and its last element.
#[derive(Clone, Copy, Debug, PartialEq, Eq)]
enum Seen {
    Long(i64),
    Bool(bool),
    Vector(usize, Option<i64>),
    Nothing,
    Throws(Exn),
    Limit,
}

fn seen_of(outcome: &Outcome) -> Seen {
    match outcome {
        Outcome::Value(Val::Long(n)) => Seen::Long(*n),
        Outcome::Value(Val::Bool(b)) => Seen::Bool(*b),
        Outcome::Value(Val::Vector(v)) => Seen::Vector(v.len(), v.as_slice().last().copied()),
        Outcome::Value(_) => Seen::Nothing,
        Outcome::Throws(exception) => Seen::Throws(*exception),
        Outcome::Limit => Seen::Limit,
    }
}

/// Calls a method with `long`s, and with an `int` behind them where there is one.
fn call<A: Access>(
    state: &mut A,
    alloc: Global,
    method: Method,
    longs: &[i64],
    int: Option<i32>,
) -> Result<Seen, AllocError> {
    let mut args = Vals::new(alloc);
    for n in longs {
        args.push(Val::Long(*n))?;
    }
    if let Some(n) = int {
        args.push(Val::Int(n))?;
    }
    Ok(seen_of(&state.call(alloc, method, &args)?))
}

#[test]
fn a_table_is_a_map(rt: HostRuntime) -> Result<(), Fail> {
    let mut table = AnyState::new(rt.alloc(), ClassName::Table);
    for (method, longs, outcome) in [
        (Method::Get, [7].as_slice(), Seen::Long(0)),
        (Method::Has, [7].as_slice(), Seen::Bool(false)),
        (Method::Put, [7, 0].as_slice(), Seen::Nothing),
        (Method::Has, [7].as_slice(), Seen::Bool(true)),
        (Method::Add, [7, i64::MAX].as_slice(), Seen::Nothing),
        (Method::Add, [7, 1].as_slice(), Seen::Nothing),
        (Method::Get, [7].as_slice(), Seen::Long(i64::MIN)),
        (Method::Add, [-7, 3].as_slice(), Seen::Nothing),
        (Method::Size, [].as_slice(), Seen::Long(2)),
        (Method::Remove, [7].as_slice(), Seen::Nothing),
        (Method::Remove, [8].as_slice(), Seen::Nothing),
        (Method::Get, [7].as_slice(), Seen::Long(0)),
        (Method::Get, [-7].as_slice(), Seen::Long(3)),
        (Method::Size, [].as_slice(), Seen::Long(1)),
        (Method::Set, [5].as_slice(), Seen::Nothing),
        (Method::Get, [].as_slice(), Seen::Nothing),
    ] {
        let answer = call(&mut table, rt.alloc(), method, longs, None)?;
        assert_eq!(rt; answer, outcome, "{method:?} {longs:?}");
    }
    Ok(())
}

#[test]
fn a_matrix_has_4096_columns(rt: HostRuntime) -> Result<(), Fail> {
    let mut matrix = AnyState::new(rt.alloc(), ClassName::Matrix);
    let outside = Seen::Throws(Exn::Index);
    for (method, longs, int, outcome) in [
        (Method::GetElement, [-5, -1].as_slice(), None, outside),
        (Method::SetElement, [-5, -1, 1].as_slice(), None, outside),
        (Method::AddElement, [-5, 4096, 1].as_slice(), None, outside),
        (Method::GetElement, [-5, 4096].as_slice(), None, outside),
        (Method::Size, [].as_slice(), None, Seen::Long(0)),
        (
            Method::SetElement,
            [-5, 0, 4].as_slice(),
            None,
            Seen::Nothing,
        ),
        (
            Method::SetElement,
            [-5, 4095, 9].as_slice(),
            None,
            Seen::Nothing,
        ),
        (
            Method::AddElement,
            [-5, 4095, i64::MAX].as_slice(),
            None,
            Seen::Nothing,
        ),
        (
            Method::GetElement,
            [-5, 4095].as_slice(),
            None,
            Seen::Long(i64::MIN + 8),
        ),
        (
            Method::GetElement,
            [5, 4095].as_slice(),
            None,
            Seen::Long(0),
        ),
        (Method::Size, [].as_slice(), None, Seen::Long(2)),
        (
            Method::GetRow,
            [-5].as_slice(),
            Some(-1),
            Seen::Throws(Exn::NegativeSize),
        ),
        (
            Method::GetRow,
            [-5].as_slice(),
            Some(0),
            Seen::Vector(0, None),
        ),
        (
            Method::GetRow,
            [-5].as_slice(),
            Some(1),
            Seen::Vector(1, Some(4)),
        ),
        (
            Method::GetRow,
            [-5].as_slice(),
            Some(4096),
            Seen::Vector(4096, Some(i64::MIN + 8)),
        ),
        (Method::GetRow, [-5].as_slice(), Some(4097), Seen::Limit),
    ] {
        let answer = call(&mut matrix, rt.alloc(), method, longs, int)?;
        assert_eq!(rt; answer, outcome, "{method:?} {longs:?} {int:?}");
    }
    Ok(())
}

#[test]
fn a_matrix_is_multiplied_by_rows(rt: HostRuntime) -> Result<(), Fail> {
    let alloc = rt.alloc();
    let mut matrix = AnyState::new(alloc, ClassName::Matrix);
    for longs in [
        [0, 0, 2],
        [0, 2, 3],
        [0, 3, 100],
        [1, 1, i64::MAX],
        [3, 0, 100],
        [-1, 0, 100],
    ] {
        call(&mut matrix, alloc, Method::SetElement, &longs, None)?;
    }
    for (factors, products) in [
        ([10, 20, 30].as_slice(), [110, -20, 0].as_slice()),
        ([1].as_slice(), [2].as_slice()),
        ([].as_slice(), [].as_slice()),
    ] {
        let mut args = Vals::new(alloc);
        args.push(Val::Vector(Longs::from_slice(alloc, factors)?))?;
        match matrix.call(alloc, Method::Multiply, &args)? {
            Outcome::Value(Val::Vector(v)) => assert_eq!(rt; v.as_slice(), products),
            other => assert_eq!(rt; seen_of(&other), Seen::Vector(0, None)),
        }
    }
    Ok(())
}

#[test]
fn a_counter_counts(rt: HostRuntime) -> Result<(), Fail> {
    let mut counter = AnyState::new(rt.alloc(), ClassName::Counter);
    for (method, longs, outcome) in [
        (Method::Get, [].as_slice(), Seen::Long(0)),
        (Method::Set, [i64::MAX].as_slice(), Seen::Nothing),
        (Method::Add, [2].as_slice(), Seen::Nothing),
        (Method::Get, [].as_slice(), Seen::Long(i64::MIN + 1)),
        (Method::Set, [-4].as_slice(), Seen::Nothing),
        (Method::Get, [].as_slice(), Seen::Long(-4)),
        (Method::Get, [1].as_slice(), Seen::Nothing),
    ] {
        let answer = call(&mut counter, rt.alloc(), method, longs, None)?;
        assert_eq!(rt; answer, outcome, "{method:?} {longs:?}");
    }
    Ok(())
}

/// Where a class's keys stand, as what walks over its entries sees them.
fn keys_of<S: StateClass<Key = i64>>(state: &S) -> (usize, Option<i64>, Option<i64>, Option<i64>) {
    (
        state.size(),
        state.after(None),
        state.after(Some(&3)),
        state.after(Some(&9)),
    )
}

#[test]
fn entries_are_held_in_key_order(rt: HostRuntime) -> Result<(), Fail> {
    let alloc = rt.alloc();
    let mut table = Table::new(alloc);
    for (key, value) in [
        (9, Some(1)),
        (3, Some(2)),
        (-2, Some(3)),
        (4, Some(4)),
        (4, None),
    ] {
        StateClass::change(&mut table, alloc, key, value)?;
    }
    assert_eq!(rt; keys_of(&table), (3, Some(-2), Some(9), None));
    assert_eq!(rt; table.read(&3), Some(2));
    assert_eq!(rt; table.read(&4), None);
    keyed_calls_keep_to_their_part();
    Ok(())
}

#[test]
fn methods_have_names(rt: HostRuntime) {
    for (class, name, method, keyed) in [
        (ClassName::Table, "get", Some(Method::Get), true),
        (ClassName::Counter, "get", Some(Method::Get), false),
        (ClassName::Matrix, "get", None, false),
        (ClassName::Matrix, "getRow", Some(Method::GetRow), true),
        (ClassName::Matrix, "multiply", Some(Method::Multiply), false),
        (ClassName::Table, "size", Some(Method::Size), false),
    ] {
        assert_eq!(rt; method_named(class, name.as_bytes()), method, "{name}");
        if let Some(method) = method {
            assert_eq!(rt; method.text(), name);
            assert_eq!(rt; is_keyed(class, method), keyed, "{name}");
        }
    }
}
