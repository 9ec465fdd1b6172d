//! Which moves are legal.
ghost use Rattle.std.specs.Prelude.{◌≡◌, ◌<◌, length, not, IsSome, IsTrue, IfSome, ◌↔◌, true};
ghost use Rattle.std.specs.List.{list_all};
ghost use Rattle.game_rules.specs.Board.{pile_at, has_place};
ghost use Rattle.game_rules.specs.Taking.{can_take, pile_gives};
ghost use Rattle.game_rules.specs.Play.{is_empty, is_legal_carry, is_legal_deal, is_legal_redeal, is_legal_move};
ghost use Rattle.game_rules.specs.Belonging.{Belongs};
ghost use Rattle.legal_moves.specs.Offers.{IsGiven, first_given, first_taken};

use crate::offers::Offer;
use crate::put::can_go;
use crate::take::{has_place, most_given, next_down, single_at};
use card_piles::Card;
use card_sets::CardBit;
use game_model::{Redeals, Rules, Table, Target};
use game_rules::{Move, Place};

/// The first of the last `count` cards of a pile, if it gives them.
fn first_given<T: Table>(rules: &Rules, table: &T, i: u8, count: u8) -> Option<Card>
    requires { i < length (T.board table.now).piles }
    ensures { result ≡ first_given rules.now (pile_at (T.board table.now) i) count }
{
    if count == 0 || most_given(rules, table, i) < usize::from(count) {
        return None;
    }
    let pile = table.pile(i);
    let mut card = match table.top(pile) {
        None => return None,
        Some(top) => top,
    };
    let mut left = table.under(pile);
    for given in 1..count {
        match next_down(rules, table, left, card) {
            None => return None,
            Some(lower) => {
                card = lower;
                left = table.under(left);
            }
        }
    }
    Some(card)
}

/// The first of `count` cards of a place, if it gives them.
fn first_taken<T: Table>(rules: &Rules, table: &T, from: Place, count: u8) -> Option<Card>
    requires { IsTrue (has_place rules.now (T.board table.now) from) }
    ensures { result ≡ first_taken rules.now (T.board table.now) from count }
{
    match from {
        Place::Tableau(i) => first_given(rules, table, i, count),
        _ => {
            if count == 1 {
                single_at(rules, table, from)
            } else {
                None
            }
        }
    }
}

/// Whether a carry is legal.
fn is_legal_carry<T: Table>(rules: &Rules, table: &T, from: Place, to: Place, count: u8) -> bool
    requires { Belongs rules.now (T.board table.now) }
    ensures { result ≡ is_legal_carry rules.now (T.board table.now) from to count }
{
    if !has_place(rules, table, from) {
        return false;
    }
    if !has_place(rules, table, to) {
        return false;
    }
    match first_taken(rules, table, from, count) {
        None => false,
        Some(card) => {
            let bit = CardBit::of(card);
            can_go(rules, table, Offer { from, count, bit }, to)
        }
    }
}

/// Whether each pile holds a card.
fn has_no_empty_pile<T: Table>(rules: &Rules, table: &T) -> bool
    requires { length (T.board table.now).piles ≡ rules.now.piles }
    ensures { result ≡ list_all (λ pile. not (is_empty pile.cards)) (T.board table.now).piles }
{
    for i in 0..rules.piles() {
        if table.size(i) == 0 {
            return false;
        }
    }
    true
}

/// Whether a deal is legal.
fn is_legal_deal<T: Table>(rules: &Rules, table: &T) -> bool
    requires { Belongs rules.now (T.board table.now) }
    ensures { result ≡ is_legal_deal rules.now (T.board table.now) }
{
    table.stock_size() != 0
        && (!matches!(rules.target(), Target::ToTableau) || has_no_empty_pile(rules, table))
}

/// Whether a redeal is legal.
fn is_legal_redeal<T: Table>(rules: &Rules, table: &T) -> bool
    ensures { result ≡ is_legal_redeal rules.now (T.board table.now) }
{
    matches!(rules.target(), Target::ToWaste)
        && table.stock_size() == 0
        && table.waste_top().is_some()
        && (matches!(rules.redeals(), Redeals::Unlimited) || 0 < table.redeals_left())
}

/// Whether the move is legal. Any move may be asked for, also one whose places the board does
/// not have, which is not legal.
pub fn is_legal<T: Table>(rules: &Rules, table: &T, m: Move) -> bool
    requires { Belongs rules.now (T.board table.now) }
    ensures { result ≡ is_legal_move rules.now (T.board table.now) m }
{
    match m {
        Move::Carry { from, to, count } => is_legal_carry(rules, table, from, to, count),
        Move::Deal => is_legal_deal(rules, table),
        Move::Redeal => is_legal_redeal(rules, table),
    }
}
