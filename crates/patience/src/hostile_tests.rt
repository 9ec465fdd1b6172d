//! Bytes that are no file of rules and no deal: each gets one line that says why, and nothing else is written.
use crate::status::Status;
use crate::tests::{DEAL, RULES, filled, print, shelf_of};
use std::alloc::Global;
use std::test::Fail;

/// Whether the files are refused by this status and this text.
fn refuses(
    alloc: Global,
    rules: &[u8],
    deal: &[u8],
    status: Status,
    text: &str,
) -> Result<bool, Fail> {
    let mut shelf = shelf_of(alloc, rules, deal)?;
    let printed = print(alloc, &mut shelf, "solve rules deal")?;
    Ok(printed.status == status && printed.text.as_slice() == text.as_bytes())
}

/// Whether a rules file of these bytes is refused by this fault, and a deal file too.
fn both_refuse(alloc: Global, bytes: &[u8], fault: &str) -> Result<bool, Fail> {
    let of_rules = format!(in alloc; "refused rules {fault}\n")?;
    let of_deal = format!(in alloc; "refused deal {fault}\n")?;
    let (rules, deal) = (RULES.as_bytes(), DEAL.as_bytes());
    let first = refuses(alloc, bytes, deal, Status::RulesRefused, of_rules.as_str())?;
    let second = refuses(alloc, rules, bytes, Status::DealRefused, of_deal.as_str())?;
    Ok(first && second)
}

#[test]
fn each_proper_prefix_of_a_deal_is_no_json(rt: HostRuntime) -> Result<(), Fail> {
    let (rules, deal) = (RULES.as_bytes(), DEAL.as_bytes());
    for length in 0..deal.len() {
        let text = "refused deal not-json\n";
        let cut = refuses(
            rt.alloc(),
            rules,
            &deal[..length],
            Status::DealRefused,
            text,
        )?;
        assert!(rt; cut, "at {length}");
    }
    Ok(())
}

#[test]
fn other_bytes_are_refused_in_both_files(rt: HostRuntime) -> Result<(), Fail> {
    let alloc = rt.alloc();
    for text in ["", "{} {}", "{}x", "{'a':1}", "{\"a\":01}"] {
        assert!(rt; both_refuse(alloc, text.as_bytes(), "not-json")?, "{text}");
    }
    for text in ["[]", "null", "\"winnable\"", " \t\r\n7\n"] {
        assert!(rt;
            both_refuse(alloc, text.as_bytes(), "not-object")?,
            "{text}"
        );
    }
    assert!(rt; both_refuse(alloc, b"\xff", "not-json")?);
    assert!(rt; both_refuse(alloc, b"\xef\xbb\xbf{}", "not-json")?);
    assert!(rt; both_refuse(alloc, b"{\"\xff\":1}", "not-json")?);
    assert!(rt; both_refuse(alloc, &filled(alloc, b' ', 65_536)?, "not-json")?);
    assert!(rt; both_refuse(alloc, &filled(alloc, b' ', 65_537)?, "too-long")?);
    assert!(rt; both_refuse(alloc, &filled(alloc, b'[', 1000)?, "not-json")?);
    Ok(())
}
