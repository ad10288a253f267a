use sdg_base::{Bytes, Name};
use sdg_keep::{Fails, FileList, MemoryFiles, MemorySink, SureFiles, SureSink};
use sdg_top::{Status, java2sdg};
use std::alloc::{AllocError, Global};
use std::process::Abort;
use std::test::*;

const CLASS: &[u8] =
    b"class Kv1 {\n  @Partitioned Table t = new Table();\n  void put(long k, long v) { t.put(k, v); }\n  long get(long k) { return t.get(k); }\n  long more(long k) { long x = t.get(k); return x + 1; }\n}\n";

const CALLS: &[u8] = b"put 7 40\nget 7\n";

const REPORT: &[u8] =
    b"sdg nodes 1 slots 1 stores 1 width 1\nresult 1 void\nresult 2 40\nstep begin 1\nstep block 1\nstep begin 2\nstep block 2\nend 2 results, 4 steps, 4 kept\n";

fn list_of(alloc: Global, class: &[u8], calls: &[u8]) -> Result<FileList, AllocError> {
    let mut list = FileList::new(alloc);
    for (name, bytes) in [
        (b"Kv1.java".as_slice(), class),
        (b"calls".as_slice(), calls),
    ] {
        list.push((
            Name::from_slice(alloc, name)?,
            Bytes::from_slice(alloc, bytes)?,
        ))?;
    }
    Ok(list)
}

/// The words of a line.
fn words_of(alloc: Global, line: &str) -> Result<Vec<String>, AllocError> {
    let mut words = Vec::new(alloc);
    for word in line.split_whitespace() {
        words.push(String::from_str(alloc, word)?)?;
    }
    Ok(words)
}

/// No call fails.
fn sound(alloc: Global) -> Fails {
    Fails::new(alloc)
}

fn one_fail(alloc: Global, number: u64, effect: bool) -> Result<Fails, AllocError> {
    let mut fails = Fails::new(alloc);
    fails.push((number, effect))?;
    Ok(fails)
}

const RUN: &str = "run Kv1.java calls";

#[test]
fn each_read_fails_in_turn(rt: HostRuntime) -> Result<(), Fail> {
    let alloc = rt.alloc();
    let words = words_of(alloc, RUN)?;
    for (number, text) in [
        (1, b"cannot read: Kv1.java\n".as_slice()),
        (2, b"cannot read: Kv1.java\n".as_slice()),
        (3, b"cannot read: calls\n".as_slice()),
        (4, b"cannot read: calls\n".as_slice()),
    ] {
        for effect in [false, true] {
            let fails = one_fail(alloc, number, effect)?;
            let mut files = MemoryFiles::new(alloc, list_of(alloc, CLASS, CALLS)?, fails);
            let mut out = MemorySink::new(alloc, sound(alloc));
            let status = java2sdg(alloc, &words, &mut files, &mut out);
            assert_eq!(rt; status, Status::Read, "read {number}");
            assert_eq!(rt; out.written.as_slice(), text, "read {number}");
            assert_eq!(rt; files.calls.len() as u64, number);
        }
    }
    // The class is read first, so of two files that aren't there it is named.
    let neither = words_of(alloc, "run Gone.java gone")?;
    let mut files = MemoryFiles::new(alloc, list_of(alloc, CLASS, CALLS)?, sound(alloc));
    let mut out = MemorySink::new(alloc, sound(alloc));
    assert_eq!(rt;
        java2sdg(alloc, &neither, &mut files, &mut out),
        Status::Read
    );
    assert_eq!(rt;
        out.written.as_slice(),
        b"cannot read: Gone.java\n".as_slice()
    );
    assert_eq!(rt; files.calls.len(), 1);
    // A file that isn't there.
    let gone = words_of(alloc, "run Gone.java calls")?;
    let mut files = MemoryFiles::new(alloc, list_of(alloc, CLASS, CALLS)?, sound(alloc));
    let mut out = MemorySink::new(alloc, sound(alloc));
    assert_eq!(rt; java2sdg(alloc, &gone, &mut files, &mut out), Status::Read);
    assert_eq!(rt;
        out.written.as_slice(),
        b"cannot read: Gone.java\n".as_slice()
    );
    Ok(())
}

#[test]
fn each_write_fails_in_turn(rt: HostRuntime) -> Result<(), Fail> {
    let alloc = rt.alloc();
    let words = words_of(alloc, RUN)?;
    for number in 1..REPORT.len() + 1 {
        for effect in [false, true] {
            let mut files = MemoryFiles::new(alloc, list_of(alloc, CLASS, CALLS)?, sound(alloc));
            let mut out = MemorySink::new(alloc, one_fail(alloc, number as u64, effect)?);
            out.most = 1;
            let status = java2sdg(alloc, &words, &mut files, &mut out);
            assert_eq!(rt; status, Status::Write, "write {number}");
            let written = out.written.as_slice();
            assert!(rt; REPORT.starts_with(written), "write {number}");
            if !effect {
                assert_eq!(rt; written.len() + 1, number);
            }
        }
    }
    Ok(())
}

#[test]
fn one_byte_at_a_time(rt: HostRuntime) -> Result<(), Fail> {
    let alloc = rt.alloc();
    let words = words_of(alloc, RUN)?;
    let mut files = MemoryFiles::new(alloc, list_of(alloc, CLASS, CALLS)?, sound(alloc));
    files.most = 1;
    let mut out = MemorySink::new(alloc, sound(alloc));
    out.most = 1;
    assert_eq!(rt; java2sdg(alloc, &words, &mut files, &mut out), Status::Done);
    assert_eq!(rt; out.written.as_slice(), REPORT);
    assert_eq!(rt; files.calls.len(), CLASS.len() + CALLS.len() + 2);
    // The forms that never fail, and a missing file as an empty one.
    let mut sure = SureFiles::new(list_of(alloc, CLASS, CALLS)?);
    assert_eq!(rt;
        java2sdg(alloc, &words, &mut sure, &mut SureSink),
        Status::Done
    );
    let gone = words_of(alloc, "run Kv1.java gone")?;
    assert_eq!(rt;
        java2sdg(alloc, &gone, &mut sure, &mut SureSink),
        Status::Done
    );
    Ok(())
}
