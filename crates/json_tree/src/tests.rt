//! Trees of files, and looking into them.

use crate::{FileFault, MAX_FILE_LENGTH, field, has_only_keys, read_object};
use serde_json::Value;

#[test]
fn an_object_is_read(rt: HostRuntime) {
    let top = read_object(rt.alloc(), br#"{"cells":{"count":4}}"#)
        .ok()
        .expect(&rt, "an object");
    let cells = field(Some(&top), "cells");
    let count = field(cells, "count").and_then(Value::as_u64);
    assert!(rt; count == Some(4));
    assert!(rt; field(field(Some(&top), "stock"), "size").is_none());
    assert!(rt; has_only_keys(&top, &["cells", "stock"]));
    assert!(rt; !has_only_keys(&top, &["stock"]));
}

#[test]
fn each_fault_comes_in_its_order(rt: HostRuntime) {
    for (text, fault) in [
        ("", FileFault::NotJson),
        ("[", FileFault::NotJson),
        ("{} {}", FileFault::NotJson),
        ("\u{feff}{}", FileFault::NotJson),
        ("[]", FileFault::NotObject),
        ("null", FileFault::NotObject),
    ] {
        assert!(rt;
            read_object(rt.alloc(), text.as_bytes()).err() == Some(fault),
            "at {text}"
        );
    }
    let blanks = vec![in rt.alloc(); b' '; MAX_FILE_LENGTH]
        .ok()
        .expect(&rt, "memory");
    assert!(rt; read_object(rt.alloc(), &blanks).err() == Some(FileFault::NotJson));
    let more = vec![in rt.alloc(); b' '; MAX_FILE_LENGTH + 1]
        .ok()
        .expect(&rt, "memory");
    assert!(rt; read_object(rt.alloc(), &more).err() == Some(FileFault::TooLong));
}
