//! Both memos answer alike.
use super::*;
use std::process::Abort;
use std::test::Fail;

/// Keys 1 and 2 in a memo of capacity 1.
fn keeps_one_finished_key<M: Memo<u32>>(rt: &impl Abort, memo: &mut M) -> Result<(), Fail> {
    memo.make_room()?;
    assert_eq!(rt; memo.look(&1), Known::New);
    memo.enter(1);
    assert_eq!(rt; memo.look(&1), Known::Live);
    memo.leave()?;
    assert_eq!(rt; memo.look(&1), Known::Finished);
    memo.make_room()?;
    assert_eq!(rt; memo.look(&2), Known::New);
    memo.enter(2);
    memo.leave()?;
    assert_eq!(rt; memo.look(&1), Known::New);
    assert_eq!(rt; memo.look(&2), Known::Finished);
    Ok(())
}

/// A path of so many keys that the memo grows often. The half that was left last is kept.
fn holds_a_long_path<M: Memo<u32>>(rt: &impl Abort, memo: &mut M) -> Result<(), Fail> {
    for key in 0..10_000 {
        memo.make_room()?;
        assert_eq!(rt; memo.look(&key), Known::New);
        memo.enter(key);
    }
    for key in 0..10_000 {
        assert_eq!(rt; memo.look(&key), Known::Live);
    }
    for left in 0..10_000 {
        let key = 9_999 - left;
        assert_eq!(rt; memo.look(&key), Known::Live);
        memo.leave()?;
        assert_eq!(rt; memo.look(&key), Known::Finished);
    }
    assert_eq!(rt; memo.look(&4_999), Known::Finished);
    assert_eq!(rt; memo.look(&5_000), Known::New);
    Ok(())
}

#[test]
fn one_finished_key_is_kept(rt: HostRuntime) -> Result<(), Fail> {
    keeps_one_finished_key(&rt, &mut LinkedMemo::new(rt.alloc(), 1)?)?;
    keeps_one_finished_key(&rt, &mut LruMemo::new(rt.alloc(), 1)?)
}

#[test]
fn a_long_path_is_entered_and_left(rt: HostRuntime) -> Result<(), Fail> {
    holds_a_long_path(&rt, &mut LinkedMemo::new(rt.alloc(), 5_000)?)?;
    holds_a_long_path(&rt, &mut LruMemo::new(rt.alloc(), 5_000)?)
}
