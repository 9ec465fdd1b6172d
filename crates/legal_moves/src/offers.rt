//! What the places of a table offer: each number of cards that a place gives, with the first of them.
ghost use Rattle.std.specs.Prelude.{◌≡◌, ℕ, ◌≤◌, ◌<◌, ◌+◌, [], ◌++◌, false, map, length, IsTrue, if◌then◌else◌};
ghost use Rattle.std.specs.List.{All, range_with_len};
ghost use Rattle.arrayvec.specs.ArrayVec.{array_vec_len};
ghost use Rattle.game_rules.specs.declared.Place.TheVariants.{Tableau};
ghost use Rattle.game_rules.specs.Board.{pile_at, has_place};
ghost use Rattle.game_rules.specs.Belonging.{Belongs};
ghost use Rattle.game_rules.specs.Order.{sources};
ghost use Rattle.game_rules.specs.ByPlace.{legal_between, legal_to};
ghost use Rattle.legal_moves.specs.Fits.{takes_groups};
ghost use Rattle.legal_moves.specs.Kinds.{place_in};
ghost use Rattle.legal_moves.specs.Offers.{IsGiven, legal_of};

use crate::places::{Kind, place_in};
use crate::take::{most_given, next_down, single_at};
use arrayvec::ArrayVec;
use card_sets::CardBit;
use game_model::{Rules, Table};
use game_rules::Place;

/// A number of cards that a place gives, with the bit of the first of them.
#[derive(Clone, Copy, Debug)]
pub(crate) struct Offer {
    pub(crate) from: Place,
    pub(crate) count: u8,
    pub(crate) bit: CardBit,
}

impl Default for Offer {
    // All its bytes are zero, so that a list of them is made fast.
    fn default() -> Offer {
        Offer {
            from: Place::Tableau(0),
            count: 0,
            bit: CardBit::default(),
        }
    }
}

/// All that a table offers.
pub(crate) type Offers = ArrayVec<Offer, 285>;

/// Appends what a place other than a pile offers.
fn push_single<T: Table>(rules: &Rules, table: &T, from: Place, offers: &mut Offers)
    requires here { IsTrue (has_place rules.now (T.board table.now) from) }
    requires no_pile { takes_groups from ≡ false }
    requires given { All (IsGiven rules.now (T.board table.now)) offers.old.items }
    requires room { array_vec_len offers.old < 285 }
    ensures legal { (to : Place) → legal_of rules.now (T.board table.now) offers.new.items to
        ≡ legal_of rules.now (T.board table.now) offers.old.items to
        ++ legal_between rules.now (T.board table.now) to from }
    ensures given { All (IsGiven rules.now (T.board table.now)) offers.new.items }
    ensures len { array_vec_len offers.new ≤ array_vec_len offers.old + 1 }
{
    match single_at(rules, table, from) {
        None => {}
        Some(card) => {
            let bit = CardBit::of(card);
            offers.push(Offer {
                from,
                count: 1,
                bit,
            });
        }
    }
}

/// Appends what the places of a kind offer, other than piles.
fn push_singles<T: Table>(rules: &Rules, table: &T, kind: Kind, n: u8, offers: &mut Offers)
    requires here { (i : ℕ) → i < n
        → IsTrue (has_place rules.now (T.board table.now) (place_in kind i)) }
    requires no_pile { (i : ℕ) → takes_groups (place_in kind i) ≡ false }
    requires given { All (IsGiven rules.now (T.board table.now)) offers.old.items }
    requires room { array_vec_len offers.old + n ≤ 285 }
    ensures legal { (to : Place) → legal_of rules.now (T.board table.now) offers.new.items to
        ≡ legal_of rules.now (T.board table.now) offers.old.items to
        ++ legal_to rules.now (T.board table.now) (map (place_in kind) (range_with_len 0 n)) to }
    ensures given { All (IsGiven rules.now (T.board table.now)) offers.new.items }
    ensures len { array_vec_len offers.new ≤ array_vec_len offers.old + n }
{
    for i in 0..n {
        push_single(rules, table, place_in(kind, i), offers);
    }
}

/// Appends what a pile offers.
fn push_pile<T: Table>(rules: &Rules, table: &T, i: u8, offers: &mut Offers)
    requires here { i < length (T.board table.now).piles }
    requires few { length (pile_at (T.board table.now) i).cards ≤ 104 }
    requires given { All (IsGiven rules.now (T.board table.now)) offers.old.items }
    requires room { array_vec_len offers.old + length (pile_at (T.board table.now) i).cards ≤ 285 }
    ensures legal { (to : Place) → legal_of rules.now (T.board table.now) offers.new.items to
        ≡ legal_of rules.now (T.board table.now) offers.old.items to
        ++ legal_between rules.now (T.board table.now) to (Tableau i) }
    ensures given { All (IsGiven rules.now (T.board table.now)) offers.new.items }
    ensures len { array_vec_len offers.new ≤ array_vec_len offers.old
        + length (pile_at (T.board table.now) i).cards }
{
    let most = most_given(rules, table, i);
    if most == 0 {
        return;
    }
    let pile = table.pile(i);
    let mut card = match table.top(pile) {
        None => return,
        Some(top) => top,
    };
    offers.push(Offer {
        from: Place::Tableau(i),
        count: 1,
        bit: CardBit::of(card),
    });
    let mut left = table.under(pile);
    for count in 1..most {
        match next_down(rules, table, left, card) {
            None => return,
            Some(lower) => {
                card = lower;
                left = table.under(left);
                offers.push(Offer {
                    from: Place::Tableau(i),
                    count: count as u8 + 1,
                    bit: CardBit::of(card),
                });
            }
        }
    }
}

/// Appends what the piles offer.
fn push_piles<T: Table>(rules: &Rules, table: &T, offers: &mut Offers)
    requires belongs { Belongs rules.now (T.board table.now) }
    requires empty { offers.old.items ≡ [] }
    ensures legal { (to : Place) → legal_of rules.now (T.board table.now) offers.new.items to
        ≡ legal_to rules.now (T.board table.now)
        (map Tableau (range_with_len 0 rules.now.piles)) to }
    ensures given { All (IsGiven rules.now (T.board table.now)) offers.new.items }
    ensures len { array_vec_len offers.new ≤ 104 }
{
    let _ = rules.max_rank();
    for i in 0..rules.piles() {
        push_pile(rules, table, i, offers);
    }
}

/// The number of places of the reserve.
fn entry_count(rules: &Rules) -> u8
    ensures { result ≡ (if rules.now.stacked then 1 else rules.now.reserve) }
{
    if rules.stacked() { 1 } else { rules.reserve() }
}

/// All that the table offers, place by place in their order.
pub(crate) fn offers<T: Table>(rules: &Rules, table: &T, offers: &mut Offers)
    requires belongs { Belongs rules.now (T.board table.now) }
    requires empty { offers.old.items ≡ [] }
    ensures legal { (to : Place) → legal_of rules.now (T.board table.now) offers.new.items to
        ≡ legal_to rules.now (T.board table.now) (sources rules.now (T.board table.now)) to }
    ensures given { All (IsGiven rules.now (T.board table.now)) offers.new.items }
{
    let _ = rules.max_rank();
    push_piles(rules, table, offers);
    push_singles(rules, table, Kind::Cells, rules.cells(), offers);
    push_singles(rules, table, Kind::Entries, entry_count(rules), offers);
    push_single(rules, table, Place::Waste, offers);
    push_singles(
        rules,
        table,
        Kind::Foundations,
        rules.foundation_count(),
        offers,
    );
    push_singles(rules, table, Kind::Slots, rules.slot_count(), offers);
}
