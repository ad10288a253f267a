use run_text::TextError;
use sdg_base::KeepError;
use sdg_keep::{FilesError, ReadError};
use std::test::*;

#[test]
fn errors_are_printed(rt: HostRuntime) -> Result<(), Fail> {
    let alloc = rt.alloc();
    for (error, want) in [
        (TextError::Bad { line: 7, rule: 3 }, "line 7 breaks rule 3"),
        (TextError::Memory, "out of memory"),
    ] {
        assert_eq!(rt; format!(in alloc; "{error}")?.as_str(), want);
    }
    for (error, want) in [
        (KeepError::Failed, "the call failed"),
        (KeepError::Memory, "out of memory"),
    ] {
        assert_eq!(rt; format!(in alloc; "{error}")?.as_str(), want);
    }
    for (error, want) in [
        (ReadError::Failed, "a read of the file failed"),
        (ReadError::TooLong, "the file is too long"),
        (ReadError::Memory, "out of memory"),
    ] {
        assert_eq!(rt; format!(in alloc; "{error}")?.as_str(), want);
    }
    let failed = FilesError::Failed(String::from_str(alloc, "calls")?);
    assert_eq!(rt;
        format!(in alloc; "{failed}")?.as_str(),
        "cannot read: calls"
    );
    let too_long = FilesError::TooLong(String::from_str(alloc, "calls")?);
    assert_eq!(rt;
        format!(in alloc; "{too_long}")?.as_str(),
        "too long: calls"
    );
    let memory = FilesError::Memory;
    assert_eq!(rt; format!(in alloc; "{memory}")?.as_str(), "out of memory");
    Ok(())
}
