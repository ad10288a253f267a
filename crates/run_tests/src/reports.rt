use placement::{Header, Word};
use sdg_base::{Bytes, Exn, Longs, Name, Outcome, Step, Val};
use sdg_top::print_report;
use std::alloc::{AllocError, Global};
use std::test::*;

const SINGLE: Header = Header {
    nodes: 1,
    slots: 1,
    stores: 1,
    width: 1,
};

fn begin(call: u32) -> Step {
    Step::Begin { call }
}

fn block(call: u32) -> Step {
    Step::Block {
        call,
        instance: None,
    }
}

/// The report of results alone.
fn results_alone(alloc: Global, results: &[(u32, Outcome)]) -> Result<Bytes, AllocError> {
    print_report(alloc, SINGLE, &[], &[], &[], results, &[], &[], 0)
}

#[test]
fn nothing_happened(rt: HostRuntime) -> Result<(), Fail> {
    let header = Header {
        nodes: 32,
        slots: 64,
        stores: 8,
        width: 63,
    };
    let text = print_report(rt.alloc(), header, &[], &[], &[], &[], &[], &[], 0)?;
    assert_eq!(rt;
        text.as_slice(),
        b"sdg nodes 32 slots 64 stores 8 width 63\n\
        end 0 results, 0 steps, 0 kept\n"
            .as_slice()
    );
    Ok(())
}

#[test]
fn one_table(rt: HostRuntime) -> Result<(), Fail> {
    let results = [
        (1, Outcome::Value(Val::Unit)),
        (2, Outcome::Value(Val::Long(40))),
    ];
    let history = [begin(1), block(1), begin(2), block(2)];
    let text = print_report(
        rt.alloc(),
        SINGLE,
        &[],
        &[],
        &[],
        &results,
        &history,
        &[],
        4,
    )?;
    assert_eq!(rt;
        text.as_slice(),
        b"sdg nodes 1 slots 1 stores 1 width 1\n\
        result 1 void\n\
        result 2 40\n\
        step begin 1\n\
        step block 1\n\
        step begin 2\n\
        step block 2\n\
        end 2 results, 4 steps, 4 kept\n"
            .as_slice()
    );
    Ok(())
}

#[test]
fn lost_update(rt: HostRuntime) -> Result<(), Fail> {
    let header = Header {
        nodes: 3,
        slots: 1,
        stores: 1,
        width: 1,
    };
    let results = [
        (1, Outcome::Value(Val::Unit)),
        (2, Outcome::Value(Val::Unit)),
        (3, Outcome::Value(Val::Long(1))),
    ];
    let history = [
        begin(1),
        begin(2),
        block(1),
        block(2),
        block(1),
        block(2),
        begin(3),
        block(3),
    ];
    let words = [Word::Done; 4];
    let text = print_report(
        rt.alloc(),
        header,
        &[],
        &words,
        &[],
        &results,
        &history,
        &[],
        8,
    )?;
    assert_eq!(rt;
        text.as_slice(),
        b"sdg nodes 3 slots 1 stores 1 width 1\n\
        event 1 done\n\
        event 2 done\n\
        event 3 done\n\
        event 4 done\n\
        result 1 void\n\
        result 2 void\n\
        result 3 1\n\
        step begin 1\n\
        step begin 2\n\
        step block 1\n\
        step block 2\n\
        step block 1\n\
        step block 2\n\
        step begin 3\n\
        step block 3\n\
        end 3 results, 8 steps, 8 kept\n"
            .as_slice()
    );
    Ok(())
}

const STATED: [u8; 32] = [
    0x00, 0x01, 0x23, 0x45, 0x67, 0x89, 0xab, 0xcd, 0xef, 9, 9, 9, 9, 9, 9, 9, 9, 9, 9, 9, 9, 9, 9,
    9, 9, 9, 9, 9, 9, 9, 9, 0xf0,
];

const DAMAGED: Word = Word::Damaged {
    stated: STATED,
    found: [0x1a; 32],
};

#[test]
fn every_word(rt: HostRuntime) -> Result<(), Fail> {
    let words = [
        Word::Done,
        Word::Replayed,
        Word::Absent,
        Word::Down,
        Word::Held,
        Word::Empty,
        Word::Fault,
        Word::Repeat,
        Word::Open,
        Word::Full,
        Word::Closed,
        Word::Up,
        DAMAGED,
        Word::Malformed,
    ];
    let text = print_report(rt.alloc(), SINGLE, &[], &words, &[], &[], &[], &[], 0)?;
    assert_eq!(rt;
        text.as_slice(),
        b"sdg nodes 1 slots 1 stores 1 width 1\n\
        event 1 done\n\
        event 2 replayed\n\
        event 3 absent\n\
        event 4 down\n\
        event 5 held\n\
        event 6 empty\n\
        event 7 fault\n\
        event 8 repeat\n\
        event 9 open\n\
        event 10 full\n\
        event 11 closed\n\
        event 12 up\n\
        event 13 damaged 000123456789abcdef09090909090909090909090909090909090909090909f0 \
        1a1a1a1a1a1a1a1a1a1a1a1a1a1a1a1a1a1a1a1a1a1a1a1a1a1a1a1a1a1a1a1a\n\
        event 14 malformed\n\
        end 0 results, 0 steps, 0 kept\n"
            .as_slice()
    );
    Ok(())
}

#[test]
fn nodes_stay_down(rt: HostRuntime) -> Result<(), Fail> {
    let drained = [(2, Word::Fault), (30, DAMAGED)];
    let unfinished = [9, 4_294_967_295];
    let text = print_report(
        rt.alloc(),
        SINGLE,
        &[],
        &[],
        &drained,
        &[],
        &[],
        &unfinished,
        7,
    )?;
    assert_eq!(rt;
        text.as_slice(),
        b"sdg nodes 1 slots 1 stores 1 width 1\n\
        drain 2 fault\n\
        drain 30 damaged 000123456789abcdef09090909090909090909090909090909090909090909f0 \
        1a1a1a1a1a1a1a1a1a1a1a1a1a1a1a1a1a1a1a1a1a1a1a1a1a1a1a1a1a1a1a1a\n\
        unfinished 9\n\
        unfinished 4294967295\n\
        end 0 results, 0 steps, 7 kept\n"
            .as_slice()
    );
    Ok(())
}

#[test]
fn every_value(rt: HostRuntime) -> Result<(), Fail> {
    let alloc = rt.alloc();
    let results = [
        (10, Outcome::Value(Val::Int(i32::MIN))),
        (9, Outcome::Value(Val::Int(0))),
        (8, Outcome::Value(Val::Long(i64::MIN))),
        (7, Outcome::Value(Val::Long(i64::MAX))),
        (6, Outcome::Value(Val::Bool(true))),
        (5, Outcome::Value(Val::Bool(false))),
        (
            4,
            Outcome::Value(Val::Vector(Longs::from_slice(alloc, &[8, 0, -12])?)),
        ),
        (
            3,
            Outcome::Value(Val::Vector(Longs::from_slice(alloc, &[-1])?)),
        ),
        (2, Outcome::Value(Val::Vector(Longs::new(alloc)))),
        (1, Outcome::Value(Val::Unit)),
        (11, Outcome::Throws(Exn::Arithmetic)),
        (12, Outcome::Throws(Exn::Index)),
        (13, Outcome::Throws(Exn::NegativeSize)),
        (14, Outcome::Limit),
    ];
    let text = results_alone(alloc, &results)?;
    assert_eq!(rt;
        text.as_slice(),
        b"sdg nodes 1 slots 1 stores 1 width 1\n\
        result 10 -2147483648\n\
        result 9 0\n\
        result 8 -9223372036854775808\n\
        result 7 9223372036854775807\n\
        result 6 true\n\
        result 5 false\n\
        result 4 [8,0,-12]\n\
        result 3 [-1]\n\
        result 2 []\n\
        result 1 void\n\
        result 11 throws ArithmeticException\n\
        result 12 throws ArrayIndexOutOfBoundsException\n\
        result 13 throws NegativeArraySizeException\n\
        result 14 limit\n\
        end 14 results, 0 steps, 0 kept\n"
            .as_slice()
    );
    Ok(())
}

#[test]
fn every_step(rt: HostRuntime) -> Result<(), Fail> {
    let alloc = rt.alloc();
    let fields = [
        Name::from_slice(alloc, b"coOcc")?,
        Name::from_slice(alloc, b"userItem")?,
    ];
    let history = [
        begin(1),
        block(1),
        Step::Block {
            call: 1,
            instance: Some(0),
        },
        Step::Visit {
            call: 2,
            instance: 63,
        },
        Step::Grow { field: 0 },
        Step::Grow { field: 1 },
        Step::Grow { field: 2 },
        Step::Join { call: 65_536 },
    ];
    let kept = u64::MAX;
    let text = print_report(alloc, SINGLE, &fields, &[], &[], &[], &history, &[], kept)?;
    assert_eq!(rt;
        text.as_slice(),
        b"sdg nodes 1 slots 1 stores 1 width 1\n\
        step begin 1\n\
        step block 1\n\
        step block 1 0\n\
        step visit 2 63\n\
        step grow coOcc\n\
        step grow userItem\n\
        step grow \n\
        step join 65536\n\
        end 0 results, 8 steps, 18446744073709551615 kept\n"
            .as_slice()
    );
    Ok(())
}
