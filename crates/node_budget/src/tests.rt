//! A budget that is spent to its end.

use super::*;

#[test]
fn spends_up_to_the_limit(rt: HostRuntime) {
    let mut budget = Budget::new(2);
    assert_eq!(rt; budget.spend(), Ok(()));
    assert_eq!(rt; budget.spend(), Ok(()));
    assert_eq!(rt; budget.spend(), Err(SpentAll));
    assert_eq!(rt; budget.spent(), 2);
    assert_eq!(rt; budget.limit(), 2);
}
