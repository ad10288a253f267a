use super::*;
use std::test::*;

#[test]
fn a_table_is_a_map(rt: HostRuntime) -> Result<(), Fail> {
    let mut table = Table::new(rt.alloc());
    for (key, value) in [(7, 40), (-1, 3), (i64::MIN, 1), (7, 41), (0, 0)] {
        table.put(key, value)?;
    }
    for (key, value) in [(7, 41), (-1, 3), (i64::MIN, 1), (0, 0), (8, 0)] {
        assert_eq!(rt; table.get(key), value, "under {key}");
    }
    Ok(())
}
