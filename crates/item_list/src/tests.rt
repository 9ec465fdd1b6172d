//! Each call once, with ample memory.

use super::*;

#[test]
fn lists_grow_change_and_shrink(rt: HostRuntime) {
    let mut list = Items::new(rt.alloc());
    assert!(rt; list.is_empty());
    for item in [3u8, 5, 7] {
        list.push(item).expect(&rt, "memory");
    }
    assert_eq!(rt; list.len(), 3);
    if list.len() > 1 {
        list.set(1, 6);
    }
    assert!(rt; list.items() == [3, 6, 7].as_slice());
    assert!(rt; list.pop() == Some(7));
    list.truncate(1);
    assert!(rt; list.items() == [3].as_slice());
    assert!(rt; list.pop() == Some(3) && list.pop().is_none());
}

#[test]
fn lists_are_made_from_others(rt: HostRuntime) {
    let list = Items::from_slice(rt.alloc(), &[2u8, 4]).expect(&rt, "memory");
    let list = Items::from_vec(list.into_vec());
    assert!(rt; list.items() == [2, 4].as_slice());
}
