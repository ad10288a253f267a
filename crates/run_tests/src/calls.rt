ghost use Rattle.std.specs.Prelude.{◌^◌, ◌<◌, length};

use run_text::{Entrance, TextError, ValueType, read_calls};
use sdg_base::Val;
use sqlite_items::Items;
use std::alloc::{AllocError, Global};
use std::test::*;

/// The entry methods of the tests: `get(long)`, `put(long, int)`, `set(Vector, boolean)` and `size()`.
fn entrances(alloc: Global) -> Result<[Entrance; 4], AllocError> {
    Ok([
        entrance(alloc, 1, b"get", &[ValueType::Long])?,
        entrance(alloc, 3, b"put", &[ValueType::Long, ValueType::Int])?,
        entrance(alloc, 4, b"set", &[ValueType::Vector, ValueType::Boolean])?,
        entrance(alloc, 6, b"size", &[])?,
    ])
}

fn entrance(
    alloc: Global,
    number: u16,
    name: &[u8],
    parameters: &[ValueType],
) -> Result<Entrance, AllocError> {
    Ok(Entrance {
        number,
        name: Items::from_slice(alloc, name)?,
        parameters: Items::from_slice(alloc, parameters)?,
    })
}

#[test]
fn values_are_those_of_the_words(rt: HostRuntime) -> Result<(), Fail> {
    let alloc = rt.alloc();
    let entrances = entrances(alloc)?;
    let calls = read_calls(alloc, &entrances, b"put 5 -6\n\nset [1,-2] true\nget 7")?;
    assert_eq!(rt; calls.len(), 3);
    let [put, set, get] = calls.as_slice() else {
        return Ok(());
    };
    assert_eq!(rt; (put.method, set.method, get.method), (3, 4, 1));
    assert!(rt; matches!(put.args.as_slice(), [Val::Long(5), Val::Int(-6)]));
    assert!(rt; matches!(get.args.as_slice(), [Val::Long(7)]));
    assert!(rt; matches!(set.args.as_slice(), [Val::Vector(_), Val::Bool(true)]));
    if let [Val::Vector(longs), _] = set.args.as_slice() {
        assert_eq!(rt; longs.as_slice(), [1, -2].as_slice());
    }
    Ok(())
}

#[test]
fn the_first_method_of_a_name_counts(rt: HostRuntime) -> Result<(), Fail> {
    let alloc = rt.alloc();
    let entrances = [
        entrance(alloc, 0, b"b", &[])?,
        entrance(alloc, 2, b"a", &[ValueType::Int])?,
        entrance(alloc, 3, b"b", &[ValueType::Int])?,
        entrance(alloc, 4, b"a", &[])?,
        entrance(alloc, 7, b"ab", &[])?,
    ];
    let calls = read_calls(alloc, &entrances, b"a 1\nb\nab")?;
    let [first, second, third] = calls.as_slice() else {
        assert!(rt; false, "three calls");
        return Ok(());
    };
    assert_eq!(rt; (first.method, second.method, third.method), (2, 0, 7));
    assert_eq!(rt;
        read_calls(alloc, &entrances, b"a").err(),
        Some(TextError::Bad { line: 1, rule: 3 })
    );
    Ok(())
}
