//! What the rules say, asked once each.

use super::*;
use card_piles::Suit;

#[test]
fn goals_say_what_they_were_given(rt: HostRuntime) {
    let foundations = Goal::Foundations {
        base: 5,
        started: true,
        take_back: true,
        complete_runs: false,
    };
    assert_eq!(rt; foundations.base(), 5);
    assert!(rt; foundations.is_started() && foundations.takes_back());
    assert!(rt; !foundations.takes_complete_runs() && !foundations.hole_wraps());
    let hole = Goal::Hole {
        wrap: true,
        start: HoleStart::Dealt,
    };
    assert!(rt; hole.hole_wraps() && !hole.takes_back());
    assert_eq!(rt; hole.base(), 1);
    assert!(rt; !Goal::Sequences.is_started());
}

#[test]
fn redeals_and_suits_are_counted(rt: HostRuntime) {
    assert_eq!(rt; Redeals::Times(3).most_left(), 3);
    assert_eq!(rt; Redeals::Unlimited.most_left(), 0);
    assert!(rt; Redeals::Unlimited.is_unlimited() && !Redeals::Times(99).is_unlimited());
    assert!(rt; suit_at(0) == Suit::Clubs && suit_at(3) == Suit::Spades);
}
