//! Three rows, one of them empty.
use crate::ByteRows;
use std::test::Fail;

#[test]
fn each_row_is_told_from_the_others(rt: HostRuntime) -> Result<(), Fail> {
    let mut rows = ByteRows::new(rt.alloc());
    rows.push("ab".as_bytes())?;
    rows.push("".as_bytes())?;
    rows.push("abc".as_bytes())?;
    assert_eq!(rt; rows.len(), 3);
    assert!(rt; rows.is_equal(0, "ab".as_bytes()));
    assert!(rt; rows.is_equal(1, "".as_bytes()));
    assert!(rt; !rows.is_equal(2, "ab".as_bytes()));
    Ok(())
}
