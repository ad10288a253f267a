ghost use Rattle.std.specs.Prelude.{◌≤◌, IfOk};

use sdg_base::{Bytes, KeepError, Line, Name, Note, Port};
use sdg_keep::*;
use std::alloc::{AllocError, Global};
use std::process::Abort;
use std::test::*;

/// A file `a` with these bytes, then one of the same name with another, then `b` with one.
fn files_with(alloc: Global, bytes: &[u8]) -> Result<FileList, AllocError> {
    let mut files = FileList::new(alloc);
    for (name, bytes) in [(b"a", bytes), (b"a", &[9]), (b"b", &[8])] {
        files.push((
            Name::from_slice(alloc, name)?,
            Bytes::from_slice(alloc, bytes)?,
        ))?;
    }
    Ok(files)
}

/// One call fails, and a further mark of its number does not count.
fn fails_at(alloc: Global, number: u64, effect: bool) -> Result<Fails, AllocError> {
    let mut fails = Fails::new(alloc);
    fails.push((number, effect))?;
    fails.push((number, !effect))?;
    Ok(fails)
}

/// `count` bytes, no two neighbours alike.
fn bytes_of(alloc: Global, count: usize) -> Result<Vec<u8>, AllocError> {
    let mut bytes = Vec::new(alloc);
    for i in 0..count {
        bytes.push((i % 251) as u8)?;
    }
    Ok(bytes)
}

/// The answer of a whole read: how many bytes, and whether they are these.
fn told(answer: &Result<Bytes, ReadError>, bytes: &[u8]) -> Result<(usize, bool), ReadError> {
    match answer {
        Ok(read) => Ok((read.len(), read.as_slice() == bytes)),
        Err(fault) => Err(*fault),
    }
}

/// The record of the reads so far: they are of this name, and these are their places, rooms and answers.
fn notes(rt: &impl Abort, files: &MemoryFiles, name: &[u8], calls: &[(u64, usize, Option<usize>)]) {
    assert_eq!(rt; files.calls.len(), calls.len());
    for (call, want) in files.calls.as_slice().iter().zip(calls) {
        assert_eq!(rt; call.name.as_slice(), name);
        assert_eq!(rt; (call.from, call.room, call.gave), *want);
    }
}

#[test]
fn reads_whole_up_to_the_limit(rt: HostRuntime) -> Result<(), Fail> {
    let alloc = rt.alloc();
    let name = String::from_str(alloc, "a")?;
    for (count, limit, most, want) in [
        (0, 0, usize::MAX, Ok((0, true))),
        (1, 0, usize::MAX, Err(ReadError::TooLong)),
        (9, 10, usize::MAX, Ok((9, true))),
        (10, 10, usize::MAX, Ok((10, true))),
        (11, 10, usize::MAX, Err(ReadError::TooLong)),
        (9, 10, 1, Ok((9, true))),
        (10, 10, 1, Ok((10, true))),
        (11, 10, 0, Err(ReadError::TooLong)),
        (200_000, 16_777_216, usize::MAX, Ok((200_000, true))),
    ] {
        let bytes = bytes_of(alloc, count)?;
        let list = files_with(alloc, bytes.as_slice())?;
        let mut files = MemoryFiles::new(alloc, list, Fails::new(alloc));
        files.most = most;
        let answer = read_whole(alloc, &mut files, &name, limit);
        assert_eq!(rt; told(&answer, bytes.as_slice()), want, "{count} of {limit}");
        assert_eq!(rt; files.faults, 0);
        for call in files.calls.as_slice() {
            // Never more than one byte above the limit is asked for.
            assert!(rt; call.from <= limit && call.room as u64 <= limit - call.from + 1);
        }
        let mut sure = SureFiles::new(files_with(alloc, bytes.as_slice())?);
        let answer = read_whole(alloc, &mut sure, &name, limit);
        assert_eq!(rt; told(&answer, bytes.as_slice()), want, "{count} of {limit}");
    }
    Ok(())
}

#[test]
fn each_read_fails_in_turn(rt: HostRuntime) -> Result<(), Fail> {
    let alloc = rt.alloc();
    let name = String::from_str(alloc, "a")?;
    let bytes = bytes_of(alloc, 5)?;
    for number in 1..7 {
        for effect in [false, true] {
            let list = files_with(alloc, bytes.as_slice())?;
            let mut files = MemoryFiles::new(alloc, list, fails_at(alloc, number, effect)?);
            files.most = 1;
            let answer = read_whole(alloc, &mut files, &name, 5);
            assert_eq!(rt; told(&answer, &[]), Err(ReadError::Failed), "call {number}");
            assert_eq!(rt; (files.faults, files.calls.len() as u64), (1, number));
            let again = read_whole(alloc, &mut files, &name, 5);
            assert_eq!(rt; told(&again, bytes.as_slice()), Ok((5, true)));
            assert_eq!(rt; files.faults, 1);
        }
    }
    Ok(())
}

#[test]
fn a_failed_read_may_put_bytes(rt: HostRuntime) -> Result<(), Fail> {
    let alloc = rt.alloc();
    let name = String::from_str(alloc, "a")?;
    for (effect, want) in [(false, [0; 3]), (true, [2, 3, 0])] {
        let fails = fails_at(alloc, 1, effect)?;
        let mut files = MemoryFiles::new(alloc, files_with(alloc, &[1, 2, 3])?, fails);
        let mut buffer = [0; 3];
        assert_eq!(rt; files.read(&name, 1, &mut buffer), Err(KeepError::Failed));
        assert_eq!(rt; buffer, want);
        assert_eq!(rt; files.read(&name, 3, &mut buffer), Ok(0));
        assert_eq!(rt; files.read(&name, 1, &mut buffer), Ok(2));
        notes(
            &rt,
            &files,
            b"a",
            &[(1, 3, None), (3, 3, Some(0)), (1, 3, Some(2))],
        );
    }
    Ok(())
}

#[test]
fn a_missing_file_fails_or_is_empty(rt: HostRuntime) -> Result<(), Fail> {
    let alloc = rt.alloc();
    let name = String::from_str(alloc, "c")?;
    let mut files = MemoryFiles::new(alloc, files_with(alloc, &[1])?, Fails::new(alloc));
    for faults in 1..3 {
        let answer = read_whole(alloc, &mut files, &name, 5);
        assert_eq!(rt; told(&answer, &[]), Err(ReadError::Failed));
        assert_eq!(rt; files.faults, faults);
    }
    notes(&rt, &files, b"c", &[(0, 6, None), (0, 6, None)]);
    let mut sure = SureFiles::new(files_with(alloc, &[1])?);
    let answer = read_whole(alloc, &mut sure, &name, 5);
    assert_eq!(rt; told(&answer, &[]), Ok((0, true)));
    Ok(())
}

#[test]
fn writes_whole(rt: HostRuntime) -> Result<(), Fail> {
    let alloc = rt.alloc();
    let bytes = bytes_of(alloc, 7)?;
    for (most, calls) in [(usize::MAX, 1), (3, 3), (1, 7), (0, 7)] {
        let mut sink = MemorySink::new(alloc, Fails::new(alloc));
        sink.most = most;
        assert_eq!(rt; write_whole(&mut sink, bytes.as_slice()), Ok(()));
        assert_eq!(rt; sink.written.as_slice(), bytes.as_slice());
        assert_eq!(rt; sink.calls.len(), calls);
        assert_eq!(rt; write_whole(&mut sink, &[]), Ok(()));
        assert_eq!(rt; (sink.faults, sink.calls.len()), (0, calls));
    }
    let mut sure = SureSink::new();
    assert_eq!(rt; write_whole(&mut sure, bytes.as_slice()), Ok(()));
    Ok(())
}

#[test]
fn each_write_fails_in_turn(rt: HostRuntime) -> Result<(), Fail> {
    let alloc = rt.alloc();
    let bytes = bytes_of(alloc, 5)?;
    for number in 1..6 {
        for effect in [false, true] {
            let mut sink = MemorySink::new(alloc, fails_at(alloc, number, effect)?);
            sink.most = 1;
            let answer = write_whole(&mut sink, bytes.as_slice());
            assert_eq!(rt; answer, Err(KeepError::Failed), "call {number}");
            assert_eq!(rt; (sink.faults, sink.calls.len() as u64), (1, number));
            let taken = if effect { 5 } else { number as usize - 1 };
            assert_eq!(rt;
                Some(sink.written.as_slice()),
                bytes.as_slice().get(..taken)
            );
            assert_eq!(rt; write_whole(&mut sink, &[7]), Ok(()));
            assert_eq!(rt; sink.written.len(), taken + 1);
        }
    }
    Ok(())
}

/// A file that is asked for.
fn asked(alloc: Global, name: &str, limit: u8) -> Result<Asked, AllocError>
    ensures { IfOk result (λ asked. asked.limit ≤ 16777216) }
{
    Ok(Asked {
        name: String::from_str(alloc, name)?,
        limit: u64::from(limit),
    })
}

#[test]
fn files_are_read_in_turn(rt: HostRuntime) -> Result<(), Fail> {
    let alloc = rt.alloc();
    for (first, second, want) in [
        (("a", 3), ("b", 1), "3 and 1"),
        (("b", 1), ("a", 3), "1 and 3"),
        (("c", 3), ("d", 1), "cannot read: c"),
        (("a", 3), ("c", 1), "cannot read: c"),
        (("a", 2), ("c", 1), "too long: a"),
        (("b", 1), ("a", 2), "too long: a"),
    ] {
        let list = files_with(alloc, &[1, 2, 3])?;
        let mut files = MemoryFiles::new(alloc, list, Fails::new(alloc));
        let names = [
            asked(alloc, first.0, first.1)?,
            asked(alloc, second.0, second.1)?,
        ];
        let told = match read_files(alloc, &mut files, &names) {
            Ok(texts) => match texts.as_slice() {
                [one, other] => format!(in alloc; "{} and {}", one.len(), other.len())?,
                _ => String::new(alloc),
            },
            Err(error) => format!(in alloc; "{error}")?,
        };
        assert_eq!(rt; told.as_str(), want);
    }
    Ok(())
}

/// Whether a call failed. Want of memory is no answer of a test.
fn failed<T: Drop>(answer: Result<T, KeepError>) -> Result<bool, KeepError> {
    match answer {
        Ok(_) => Ok(false),
        Err(KeepError::Failed) => Ok(true),
        Err(KeepError::Memory) => Err(KeepError::Memory),
    }
}

/// Three texts of one byte.
fn pieces(alloc: Global) -> Result<[Bytes; 3], AllocError> {
    Ok([
        Bytes::from_slice(alloc, &[9])?,
        Bytes::from_slice(alloc, &[1])?,
        Bytes::from_slice(alloc, &[2])?,
    ])
}

/// Which of eight calls in turn failed: a name on store 2 is put and cleared, another on store 1 is
/// put, synced and put again, a line gets a note, and name and line are read.
fn eight_calls<K: Keep>(
    alloc: Global,
    keep: &mut K,
    first: &Name,
    other: &Name,
    piece: &[Bytes; 3],
) -> Result<[bool; 8], KeepError> {
    let note = Note::Commit {
        from: Port::Front,
        seq: 1,
    };
    Ok([
        failed(keep.put(alloc, 2, other, &piece[0]))?,
        failed(keep.clear(alloc, 2))?,
        failed(keep.put(alloc, 1, first, &piece[1]))?,
        failed(keep.sync(1))?,
        failed(keep.put(alloc, 1, first, &piece[2]))?,
        failed(keep.append(alloc, Line::Commit, note))?,
        failed(keep.get(alloc, 1, first))?,
        failed(keep.notes(alloc, Line::Commit, 0))?,
    ])
}

/// The one byte of a name, `None` where there is no such name.
fn byte_of<K: Keep>(
    alloc: Global,
    keep: &mut K,
    store: u8,
    name: &Name,
) -> Result<Option<u8>, KeepError> {
    match keep.get(alloc, store, name)? {
        Some(bytes) => Ok(bytes.as_slice().first().copied()),
        None => Ok(None),
    }
}

/// Whether a call was noted, and done.
fn done(call: Option<&KeepCall>) -> bool {
    match call {
        None => false,
        Some(KeepCall::Clear { done, .. }) => *done,
        Some(KeepCall::Put { done, .. }) => *done,
        Some(KeepCall::Sync { done, .. }) => *done,
        Some(KeepCall::Append { done, .. }) => *done,
        Some(KeepCall::Get { gave, .. }) => gave.is_some(),
        Some(KeepCall::Notes { gave, .. }) => gave.is_some(),
    }
}

#[test]
fn each_keep_call_fails_in_turn(rt: HostRuntime) -> Result<(), Fail> {
    let alloc = rt.alloc();
    let (first, other) = (
        Name::from_slice(alloc, b"a")?,
        Name::from_slice(alloc, b"b")?,
    );
    let piece = pieces(alloc)?;
    // The number of the call that fails, with effect or not; the byte of `b` on store 2, that of `a`
    // on store 1, how many notes the line has, and how many changes were made.
    for (number, effect, b, a, notes, changes) in [
        (0, false, None, Some(2), 1, 6),
        (1, false, None, Some(2), 1, 6),
        (1, true, None, Some(2), 1, 6),
        (2, false, Some(9), Some(2), 1, 5),
        (2, true, None, Some(2), 1, 6),
        (3, false, None, Some(2), 1, 6),
        (3, true, None, Some(2), 1, 6),
        (4, false, None, Some(2), 1, 5),
        (4, true, None, Some(2), 1, 6),
        (5, false, None, Some(1), 1, 6),
        (5, true, None, Some(2), 1, 6),
        (6, false, None, Some(2), 0, 5),
        (6, true, None, Some(2), 1, 6),
        (7, false, None, Some(2), 1, 6),
        (7, true, None, Some(2), 1, 6),
        (8, false, None, Some(2), 1, 6),
        (8, true, None, Some(2), 1, 6),
    ] {
        let mut keep = MemoryKeep::new(alloc, fails_at(alloc, number, effect)?);
        let answers = eight_calls(alloc, &mut keep, &first, &other, &piece)?;
        assert_eq!(rt; keep.faults, if number == 0 { 0 } else { 1 });
        assert_eq!(rt; keep.changes.len(), changes, "call {number}");
        assert_eq!(rt; keep.calls.len(), 8);
        for at in 0..8 {
            let fails = at as u64 + 1 == number;
            assert_eq!(rt; answers[at], fails, "call {at}, {number} fails");
            assert_eq!(rt;
                done(keep.calls.get(at)),
                !fails,
                "call {at}, {number} fails"
            );
        }
        assert_eq!(rt; byte_of(alloc, &mut keep, 2, &other)?, b, "call {number}");
        assert_eq!(rt; byte_of(alloc, &mut keep, 1, &first)?, a, "call {number}");
        assert_eq!(rt;
            keep.notes(alloc, Line::Commit, 0)?.len(),
            notes,
            "call {number}"
        );
        assert_eq!(rt; keep.notes(alloc, Line::Commit, 1)?.len(), 0);
        assert_eq!(rt; keep.notes(alloc, Line::Grow, 0)?.len(), 0);
    }
    Ok(())
}

#[test]
fn no_call_of_a_sure_keep_fails(rt: HostRuntime) -> Result<(), Fail> {
    let alloc = rt.alloc();
    let (first, other) = (
        Name::from_slice(alloc, b"a")?,
        Name::from_slice(alloc, b"b")?,
    );
    let piece = pieces(alloc)?;
    let mut sure = SureKeep::new(alloc);
    let answers = eight_calls(alloc, &mut sure, &first, &other, &piece)?;
    for answer in answers {
        assert!(rt; !answer);
    }
    assert_eq!(rt; byte_of(alloc, &mut sure, 2, &other)?, None);
    assert_eq!(rt; byte_of(alloc, &mut sure, 1, &first)?, Some(2));
    assert_eq!(rt; sure.notes(alloc, Line::Commit, 0)?.len(), 1);
    Ok(())
}
