use super::*;
use std::test::*;

/// Whether a value is a `long`, and its number; 1 for true and 0 for what has no number.
fn told(value: &Val) -> (bool, i64) {
    match value {
        Val::Int(n) => (false, i64::from(*n)),
        Val::Long(n) => (true, *n),
        Val::Bool(b) => (false, i64::from(*b)),
        _ => (false, 0),
    }
}

/// What an operator gives; nothing where it throws or does not take the operands.
fn answer(op: BinOp, a: &Val, b: &Val) -> Option<(bool, i64)> {
    binary_type(op, type_of(a), type_of(b))?;
    match bin(op, a, b) {
        Ok(value) => Some(told(&value)),
        Err(_) => None,
    }
}

/// What a unary operator gives, or a cast to `int` or `long` in its place.
fn answers(a: &Val) -> [i64; 5] {
    let mut numbers = [0; 5];
    if unary_type(UnOp::Minus, type_of(a)).is_some() {
        numbers[0] = told(&un(UnOp::Plus, a)).1;
        numbers[1] = told(&un(UnOp::Minus, a)).1;
        numbers[2] = told(&un(UnOp::Complement, a)).1;
        numbers[3] = told(&cast(Num::Int, a)).1;
        numbers[4] = told(&cast(Num::Long, a)).1;
    }
    numbers
}

// A Java 17 virtual machine gave the numbers of these tables.

#[test]
fn operators_on_ints(rt: HostRuntime) {
    let pairs = [
        (i32::MIN, -1),
        (-7, 2),
        (7, -2),
        (i32::MAX, i32::MAX),
        (-1, 32),
        (-8, 33),
        (i32::MIN, 63),
        (1, -1),
        (12, 12),
        (-6, 10),
    ];
    for (op, numbers) in [
        (
            BinOp::Mul,
            [
                -2_147_483_648,
                -14,
                -14,
                1,
                -32,
                -264,
                -2_147_483_648,
                -1,
                144,
                -60,
            ],
        ),
        (
            BinOp::Div,
            [-2_147_483_648, -3, -3, 1, 0, 0, -34_087_042, -1, 1, 0],
        ),
        (BinOp::Rem, [0, -1, 1, 0, -1, -8, -2, 0, 0, -6]),
        (
            BinOp::Add,
            [2_147_483_647, -5, 5, -2, 31, 25, -2_147_483_585, 0, 24, 4],
        ),
        (
            BinOp::Sub,
            [-2_147_483_647, -9, 9, 0, -33, -41, 2_147_483_585, 2, 0, -16],
        ),
        (
            BinOp::Shl,
            [
                0,
                -28,
                -1_073_741_824,
                -2_147_483_648,
                -1,
                -16,
                0,
                -2_147_483_648,
                49_152,
                -6_144,
            ],
        ),
        (BinOp::Shr, [-1, -2, 0, 0, -1, -4, -1, 0, 0, -1]),
        (
            BinOp::UShr,
            [
                1,
                1_073_741_822,
                0,
                0,
                -1,
                2_147_483_644,
                1,
                0,
                0,
                4_194_303,
            ],
        ),
        (BinOp::Lt, [1, 1, 0, 0, 1, 1, 1, 0, 0, 1]),
        (BinOp::Le, [1, 1, 0, 1, 1, 1, 1, 0, 1, 1]),
        (BinOp::Gt, [0, 0, 1, 0, 0, 0, 0, 1, 0, 0]),
        (BinOp::Ge, [0, 0, 1, 1, 0, 0, 0, 1, 1, 0]),
        (BinOp::Eq, [0, 0, 0, 1, 0, 0, 0, 0, 1, 0]),
        (BinOp::Ne, [1, 1, 1, 0, 1, 1, 1, 1, 0, 1]),
        (
            BinOp::And,
            [-2_147_483_648, 0, 6, 2_147_483_647, 32, 32, 0, 1, 12, 10],
        ),
        (
            BinOp::Xor,
            [
                2_147_483_647,
                -5,
                -7,
                0,
                -33,
                -39,
                -2_147_483_585,
                -2,
                0,
                -16,
            ],
        ),
        (
            BinOp::Or,
            [
                -1,
                -5,
                -1,
                2_147_483_647,
                -1,
                -7,
                -2_147_483_585,
                -1,
                12,
                -6,
            ],
        ),
    ] {
        for ((a, b), number) in pairs.iter().zip(&numbers) {
            let is = answer(op, &Val::Int(*a), &Val::Int(*b));
            assert_eq!(rt; is, Some((false, *number)), "{op:?} at {a} and {b}");
        }
    }
}

#[test]
fn operators_on_longs(rt: HostRuntime) {
    let pairs = [
        (i64::MIN, -1),
        (-7, 2),
        (7, -2),
        (i64::MAX, i64::MAX),
        (12, 12),
        (-6, 10),
        (4_294_967_296, 4_294_967_296),
    ];
    for (op, long, numbers) in [
        (BinOp::Mul, true, [i64::MIN, -14, -14, 1, 144, -60, 0]),
        (BinOp::Div, true, [i64::MIN, -3, -3, 1, 1, 0, 1]),
        (BinOp::Rem, true, [0, -1, 1, 0, 0, -6, 0]),
        (
            BinOp::Add,
            true,
            [i64::MAX, -5, 5, -2, 24, 4, 8_589_934_592],
        ),
        (
            BinOp::Sub,
            true,
            [-9_223_372_036_854_775_807, -9, 9, 0, 0, -16, 0],
        ),
        (BinOp::Lt, false, [1, 1, 0, 0, 0, 1, 0]),
        (BinOp::Le, false, [1, 1, 0, 1, 1, 1, 1]),
        (BinOp::Gt, false, [0, 0, 1, 0, 0, 0, 0]),
        (BinOp::Ge, false, [0, 0, 1, 1, 1, 0, 1]),
        (BinOp::Eq, false, [0, 0, 0, 1, 1, 0, 1]),
        (BinOp::Ne, false, [1, 1, 1, 0, 0, 1, 0]),
        (
            BinOp::And,
            true,
            [i64::MIN, 0, 6, i64::MAX, 12, 10, 4_294_967_296],
        ),
        (BinOp::Xor, true, [i64::MAX, -5, -7, 0, 0, -16, 0]),
        (
            BinOp::Or,
            true,
            [-1, -5, -1, i64::MAX, 12, -6, 4_294_967_296],
        ),
    ] {
        for ((a, b), number) in pairs.iter().zip(&numbers) {
            let is = answer(op, &Val::Long(*a), &Val::Long(*b));
            assert_eq!(rt; is, Some((long, *number)), "{op:?} at {a} and {b}");
        }
    }
}

#[test]
fn shifts_of_longs(rt: HostRuntime) {
    let pairs = [
        (-1, 32),
        (-8, 33),
        (i64::MIN, 63),
        (1, 64),
        (-2, 65),
        (1, -1),
    ];
    for (op, numbers) in [
        (
            BinOp::Shl,
            [-4_294_967_296, -68_719_476_736, 0, 1, -4, i64::MIN],
        ),
        (BinOp::Shr, [-1, -1, -1, 1, -1, 0]),
        (
            BinOp::UShr,
            [4_294_967_295, 2_147_483_647, 1, 1, i64::MAX, 0],
        ),
    ] {
        for ((a, b), number) in pairs.iter().zip(&numbers) {
            let is = answer(op, &Val::Long(*a), &Val::Int(*b));
            assert_eq!(rt; is, Some((true, *number)), "{op:?} at {a} and {b}");
        }
    }
}

#[test]
fn operators_on_booleans_and_on_one_operand(rt: HostRuntime) {
    let pairs = [(false, false), (false, true), (true, false), (true, true)];
    for (op, numbers) in [
        (BinOp::Eq, [1, 0, 0, 1]),
        (BinOp::Ne, [0, 1, 1, 0]),
        (BinOp::And, [0, 0, 0, 1]),
        (BinOp::Xor, [0, 1, 1, 0]),
        (BinOp::Or, [0, 1, 1, 1]),
        (BinOp::AndAlso, [0, 0, 0, 1]),
        (BinOp::OrElse, [0, 1, 1, 1]),
    ] {
        for ((a, b), number) in pairs.iter().zip(&numbers) {
            let is = answer(op, &Val::Bool(*a), &Val::Bool(*b));
            assert_eq!(rt; is, Some((false, *number)), "{op:?} at {a} and {b}");
        }
    }
    for (a, numbers) in [
        (
            Val::Int(i32::MIN),
            [
                -2_147_483_648,
                -2_147_483_648,
                2_147_483_647,
                -2_147_483_648,
                -2_147_483_648,
            ],
        ),
        (Val::Int(-1), [-1, 1, 0, -1, -1]),
        (Val::Int(7), [7, -7, -8, 7, 7]),
        (
            Val::Long(i64::MIN),
            [i64::MIN, i64::MIN, i64::MAX, 0, i64::MIN],
        ),
        (
            Val::Long(i64::MAX),
            [i64::MAX, -9_223_372_036_854_775_807, i64::MIN, -1, i64::MAX],
        ),
        (
            Val::Long(2_147_483_648),
            [
                2_147_483_648,
                -2_147_483_648,
                -2_147_483_649,
                -2_147_483_648,
                2_147_483_648,
            ],
        ),
        (
            Val::Long(-2_147_483_649),
            [
                -2_147_483_649,
                2_147_483_649,
                2_147_483_648,
                2_147_483_647,
                -2_147_483_649,
            ],
        ),
        (
            Val::Long(4_294_967_296),
            [
                4_294_967_296,
                -4_294_967_296,
                -4_294_967_297,
                0,
                4_294_967_296,
            ],
        ),
    ] {
        assert_eq!(rt; answers(&a), numbers);
    }
    for (op, a, b) in [
        (BinOp::Div, Val::Int(5), Val::Int(0)),
        (BinOp::Rem, Val::Long(5), Val::Long(0)),
        (BinOp::Shl, Val::Long(1), Val::Long(1)),
        (BinOp::Add, Val::Int(1), Val::Long(1)),
        (BinOp::AndAlso, Val::Int(1), Val::Int(1)),
    ] {
        assert!(rt; answer(op, &a, &b).is_none(), "{op:?}");
    }
}

#[test]
fn sums_are_promoted(rt: HostRuntime) {
    for (a, b, sum) in [
        (Val::Int(i32::MAX), Val::Int(1), (false, -2_147_483_648)),
        (Val::Int(i32::MAX), Val::Long(1), (true, 2_147_483_648)),
        (Val::Long(i64::MAX), Val::Int(1), (true, i64::MIN)),
        (Val::Long(i64::MIN), Val::Long(-1), (true, i64::MAX)),
    ] {
        assert_eq!(rt; told(&add(&a, &b)), sum);
    }
}

#[test]
fn a_value_is_copied(rt: HostRuntime) -> Result<(), Fail> {
    let longs = Longs::from_slice(rt.alloc(), &[1, -2])?;
    let copy = copy_of(rt.alloc(), &Val::Vector(longs))?;
    if let Val::Vector(again) = &copy {
        assert_eq!(rt; again.as_slice(), [1, -2].as_slice());
    } else {
        assert!(rt; false, "a vector is copied as a vector");
    }
    assert_eq!(rt; told(&copy_of(rt.alloc(), &Val::Int(7))?), (false, 7));
    Ok(())
}

/// How a call ended, in numbers.
fn ended(outcome: &Outcome) -> (u32, i64) {
    match outcome {
        Outcome::Value(value) => (0, told(value).1),
        Outcome::Throws(Exn::Arithmetic) => (1, 0),
        Outcome::Throws(Exn::Index) => (2, 0),
        Outcome::Throws(Exn::NegativeSize) => (3, 0),
        Outcome::Limit => (4, 0),
    }
}

#[test]
fn an_outcome_is_copied(rt: HostRuntime) -> Result<(), Fail> {
    for (outcome, numbers) in [
        (Outcome::Value(Val::Long(-5)), (0, -5)),
        (Outcome::Throws(Exn::Arithmetic), (1, 0)),
        (Outcome::Throws(Exn::Index), (2, 0)),
        (Outcome::Throws(Exn::NegativeSize), (3, 0)),
        (Outcome::Limit, (4, 0)),
    ] {
        assert_eq!(rt; ended(&copy_outcome(rt.alloc(), &outcome)?), numbers);
    }
    Ok(())
}

#[test]
fn an_item_is_copied(rt: HostRuntime) -> Result<(), Fail> {
    let mut vars = Vals::new(rt.alloc());
    vars.push(Val::Long(8))?;
    vars.push(Val::Int(9))?;
    let item = Item::Part {
        call: 1,
        task: 2,
        width: 3,
        instance: 4,
        turns: 5,
        vars,
        value: Outcome::Value(Val::Int(6)),
    };
    if let Item::Part {
        call,
        task,
        width,
        instance,
        turns,
        vars,
        value,
    } = &copy_item(rt.alloc(), &item)?
    {
        assert_eq!(rt; (*call, *task, *width), (1, 2, 3));
        assert_eq!(rt; (*instance, *turns), (4, 5));
        assert_eq!(rt; vars.as_slice().len(), 2);
        assert_eq!(rt; told(&vars.as_slice()[0]), (true, 8));
        assert_eq!(rt; told(&vars.as_slice()[1]), (false, 9));
        assert_eq!(rt; ended(value), (0, 6));
    } else {
        assert!(rt; false, "a part is copied as a part");
    }
    Ok(())
}
