//! The list of the legal moves of a table, in their order.
ghost use Rattle.std.specs.Prelude.{◌≡◌, ℕ, ◌≤◌, ◌<◌, ◌+◌, ◌∷◌, [], ◌++◌, map, true, false, Option, ◌||◌, ◌&&◌, ◌==◌};
ghost use Rattle.std.specs.Prelude.{not, length, IsTrue, IfSome, OnOk, OnErr};
ghost use Rattle.std.specs.List.{All, filter, flat_map, range_with_len};
ghost use Rattle.card_piles.specs.declared.Card.{Card};
ghost use Rattle.card_sets.specs.Sets.{has_bit};
ghost use Rattle.game_rules.specs.declared.Place.TheVariants.{Tableau};
ghost use Rattle.game_rules.specs.Board.{has_place};
ghost use Rattle.game_rules.specs.Putting.{goes_on_pile};
ghost use Rattle.game_rules.specs.Play.{is_legal_move, same_place};
ghost use Rattle.game_rules.specs.Order.{hole_place, targets, legal_moves};
ghost use Rattle.game_rules.specs.Belonging.{Belongs};
ghost use Rattle.legal_moves.specs.Fits.{Fits, takes_groups, is_asked_card_by_card};
ghost use Rattle.legal_moves.specs.Kinds.{place_in};
ghost use Rattle.legal_moves.specs.Offers.{IsGiven, carry_of, legal_of, StartsWith};

use crate::fit::fit_of;
use crate::legal::is_legal;
use crate::offers::{Offer, Offers, offers};
use crate::places::{Kind, are_apart, place_in};
use crate::put::{can_go, is_asked_card_by_card, takes_groups};
use card_piles::{Build, NoMemory};
use card_sets::CardSet;
use game_model::{Board, Rules, Spaces, Table};
use game_rules::{Move, Place};
use std::alloc::{AllocError, Global};

/// The first cards of what is offered.
fn free(offers: &[Offer]) -> CardSet
    requires { All (λ offer. offer.bit.place < 64) offers.now }
    ensures { All (λ offer. has_bit result offer.bit ≡ true) offers.now }
{
    let mut set = CardSet::none();
    for offer in offers {
        set = set.with_bit(offer.bit);
    }
    set
}

/// Whether what is offered goes on a place that accepts a set of cards: it does not lie there already.
fn is_fitted(to: Place, set: CardSet, offer: Offer) -> bool
    requires { offer.bit.place < 64 }
    ensures { result ≡ (((takes_groups to || (offer.count == 1)) && has_bit set offer.bit)
        && not (same_place offer.from to)) }
{
    (takes_groups(to) || offer.count == 1) && set.has_bit(offer.bit) && are_apart(offer.from, to)
}

/// Whether what is offered may go to a place. The set has the cards that the place accepts; without
/// one the place is asked.
fn may_go<T: Table>(rules: &Rules, table: &T, to: Place, set: Option<CardSet>, offer: Offer) -> bool
    requires here { IsTrue (has_place rules.now (T.board table.now) to) }
    requires fits { IfSome set (λ accepted. Fits rules.now (T.board table.now) to accepted) }
    requires given { IsGiven rules.now (T.board table.now) offer }
    ensures { result ≡ is_legal_move rules.now (T.board table.now) (carry_of to offer) }
{
    match set {
        Some(set) => is_fitted(to, set, offer),
        None => can_go(rules, table, offer, to),
    }
}

/// Appends the legal carries of what is offered to a place, given the cards that it accepts.
fn list_offers<T: Table>(
    rules: &Rules,
    table: &T,
    to: Place,
    set: Option<CardSet>,
    offers: &[Offer],
    out: &mut Vec<Move>,
) -> Result<(), AllocError>
    requires here { IsTrue (has_place rules.now (T.board table.now) to) }
    requires fits { IfSome set (λ accepted. Fits rules.now (T.board table.now) to accepted) }
    requires given { All (IsGiven rules.now (T.board table.now)) offers.now }
    ensures ok { OnOk result
        (out.new.items ≡ out.old.items ++ legal_of rules.now (T.board table.now) offers.now to) }
    ensures err { OnErr result (StartsWith out.new.items out.old.items) }
{
    for offer in offers {
        if may_go(rules, table, to, set, *offer) {
            out.push(Move::Carry {
                from: offer.from,
                to,
                count: offer.count,
            })?;
        }
    }
    Ok(())
}

/// Appends the legal carries of what is offered to a place. A place that accepts no free card is passed by.
fn list_to<T: Table>(
    rules: &Rules,
    table: &T,
    to: Place,
    offers: &[Offer],
    free: CardSet,
    out: &mut Vec<Move>,
) -> Result<(), AllocError>
    requires here { IsTrue (has_place rules.now (T.board table.now) to) }
    requires given { All (IsGiven rules.now (T.board table.now)) offers.now }
    requires free { All (λ offer. has_bit free offer.bit ≡ true) offers.now }
    ensures ok { OnOk result
        (out.new.items ≡ out.old.items ++ legal_of rules.now (T.board table.now) offers.now to) }
    ensures err { OnErr result (StartsWith out.new.items out.old.items) }
{
    if !is_asked_card_by_card(rules, to) {
        return list_offers(rules, table, to, None, offers, out);
    }
    let set = fit_of(rules, table, to);
    if !free.meets(set) {
        return Ok(());
    }
    list_offers(rules, table, to, Some(set), offers, out)
}

/// Appends the legal carries to the places of a kind.
fn list_onto<T: Table>(
    rules: &Rules,
    table: &T,
    kind: Kind,
    n: u8,
    offers: &[Offer],
    free: CardSet,
    out: &mut Vec<Move>,
) -> Result<(), AllocError>
    requires here { (i : ℕ) → i < n
        → IsTrue (has_place rules.now (T.board table.now) (place_in kind i)) }
    requires given { All (IsGiven rules.now (T.board table.now)) offers.now }
    requires free { All (λ offer. has_bit free offer.bit ≡ true) offers.now }
    ensures ok { OnOk result (out.new.items ≡ out.old.items
        ++ flat_map (legal_of rules.now (T.board table.now) offers.now)
        (map (place_in kind) (range_with_len 0 n))) }
    ensures err { OnErr result (StartsWith out.new.items out.old.items) }
{
    for i in 0..n {
        list_to(rules, table, place_in(kind, i), offers, free, out)?;
    }
    Ok(())
}

/// Whether no pile takes a card, be it empty or not.
fn are_piles_closed(rules: &Rules) -> bool
    ensures { result ≡ true → (top : Option Card) (card : Card)
        → goes_on_pile rules.now top card ≡ false }
{
    matches!(rules.build(), Build::NoBuild) && matches!(rules.spaces(), Spaces::NoFill)
}

/// Appends the legal carries to the piles. Piles that take no card are passed by, all at once.
fn list_onto_piles<T: Table>(
    rules: &Rules,
    table: &T,
    offers: &[Offer],
    free: CardSet,
    out: &mut Vec<Move>,
) -> Result<(), AllocError>
    requires belongs { Belongs rules.now (T.board table.now) }
    requires given { All (IsGiven rules.now (T.board table.now)) offers.now }
    requires free { All (λ offer. has_bit free offer.bit ≡ true) offers.now }
    ensures ok { OnOk result (out.new.items ≡ out.old.items
        ++ flat_map (legal_of rules.now (T.board table.now) offers.now)
        (map Tableau (range_with_len 0 rules.now.piles))) }
    ensures err { OnErr result (StartsWith out.new.items out.old.items) }
{
    if are_piles_closed(rules) {
        return Ok(());
    }
    list_onto(rules, table, Kind::Piles, rules.piles(), offers, free, out)
}

/// Appends the legal carries to the hole, if the game has one.
fn list_to_hole<T: Table>(
    rules: &Rules,
    table: &T,
    offers: &[Offer],
    free: CardSet,
    out: &mut Vec<Move>,
) -> Result<(), AllocError>
    requires given { All (IsGiven rules.now (T.board table.now)) offers.now }
    requires free { All (λ offer. has_bit free offer.bit ≡ true) offers.now }
    ensures ok { OnOk result (out.new.items ≡ out.old.items
        ++ flat_map (legal_of rules.now (T.board table.now) offers.now) (hole_place rules.now)) }
    ensures err { OnErr result (StartsWith out.new.items out.old.items) }
{
    if rules.has_hole() {
        list_to(rules, table, Place::Hole, offers, free, out)?;
    }
    Ok(())
}

/// Appends the legal carries.
fn list_carries<T: Table>(
    rules: &Rules,
    table: &T,
    offers: &[Offer],
    out: &mut Vec<Move>,
) -> Result<(), AllocError>
    requires belongs { Belongs rules.now (T.board table.now) }
    requires given { All (IsGiven rules.now (T.board table.now)) offers.now }
    ensures ok { OnOk result (out.new.items ≡ out.old.items
        ++ flat_map (legal_of rules.now (T.board table.now) offers.now)
        (targets rules.now (T.board table.now))) }
    ensures err { OnErr result (StartsWith out.new.items out.old.items) }
{
    let free = free(offers);
    list_onto(
        rules,
        table,
        Kind::Foundations,
        rules.foundation_count(),
        offers,
        free,
        out,
    )?;
    list_to_hole(rules, table, offers, free, out)?;
    list_onto(
        rules,
        table,
        Kind::Slots,
        rules.slot_count(),
        offers,
        free,
        out,
    )?;
    list_onto_piles(rules, table, offers, free, out)?;
    list_onto(rules, table, Kind::Cells, rules.cells(), offers, free, out)?;
    Ok(())
}

/// Appends the move, if it is legal.
fn push_legal<T: Table>(
    rules: &Rules,
    table: &T,
    m: Move,
    out: &mut Vec<Move>,
) -> Result<(), AllocError>
    requires { Belongs rules.now (T.board table.now) }
    ensures ok { OnOk result (out.new.items ≡ out.old.items
        ++ filter (is_legal_move rules.now (T.board table.now)) (m ∷ [])) }
    ensures err { OnErr result (StartsWith out.new.items out.old.items) }
{
    if is_legal(rules, table, m) {
        out.push(m)?;
    }
    Ok(())
}

/// Appends the legal moves.
fn list_all<T: Table>(rules: &Rules, table: &T, out: &mut Vec<Move>) -> Result<(), AllocError>
    requires { Belongs rules.now (T.board table.now) }
    ensures ok { OnOk result
        (out.new.items ≡ out.old.items ++ legal_moves rules.now (T.board table.now)) }
    ensures err { OnErr result (StartsWith out.new.items out.old.items) }
{
    let mut offered = Offers::new();
    offers(rules, table, &mut offered);
    list_carries(rules, table, offered.as_slice(), out)?;
    push_legal(rules, table, Move::Deal, out)?;
    push_legal(rules, table, Move::Redeal, out)?;
    Ok(())
}

/// Appends each legal move of a table once, in the order of moves, and nothing else. It takes no
/// memory but where `out` grows; after a refusal `out` is as before.
pub fn list_moves_of<T: Table>(
    rules: &Rules,
    table: &T,
    out: &mut Vec<Move>,
) -> Result<(), NoMemory>
    requires { Belongs rules.now (T.board table.now) }
    ensures ok { OnOk result
        (out.new.items ≡ out.old.items ++ legal_moves rules.now (T.board table.now)) }
    ensures err { OnErr result (out.new.items ≡ out.old.items) }
{
    let size = out.len();
    match list_all(rules, table, out) {
        Ok(()) => Ok(()),
        Err(refused) => {
            out.truncate(size);
            Err(NoMemory::from(refused))
        }
    }
}

/// Appends each legal move of a board once, as `list_moves_of` does of every table.
pub fn list_moves(
    _alloc: Global,
    rules: &Rules,
    board: &Board,
    out: &mut Vec<Move>,
) -> Result<(), NoMemory>
    requires { Belongs rules.now board.now }
    ensures ok { OnOk result (out.new.items ≡ out.old.items ++ legal_moves rules.now board.now) }
    ensures err { OnErr result (out.new.items ≡ out.old.items) }
{
    list_moves_of(rules, board, out)
}
