//! A shuffled deck laid out, in the first five steps here and the last two in `piles`.
ghost use Rattle.std.specs.Prelude.{◌≡◌, ◌≤◌, ◌<◌, ◌+◌, ◌++◌, Some, None, map, length, take, drop, replicate, false};
ghost use Rattle.std.specs.Prelude.{IfOk, OnOk, IfSome, IfNone};
ghost use Rattle.std.specs.List.{range_with_len};
ghost use Rattle.game_rules.specs.Position.{filled, parts_of, row_count};
ghost use Rattle.game_rules.specs.Rules.{is_sequence_goal};
ghost use Rattle.game_rules.specs.Winning.{row_at};
ghost use Rattle.seed_deal.specs.Layout.{after_foundations, beside_hole, board_of_deck, dealt_heights, dealt_hole};
ghost use Rattle.seed_deal.specs.Layout.{laid_in_rows, laid_out, slot_for, without_first};

use crate::piles::{face_down_of, piles_laid};
use card_piles::Card;
use game_model::{BoardParts, Goal, HoleStart, RuleParts, Rules};
use item_list::Items;
use std::alloc::{AllocError, Global};

/// The first n items and the others, or all items and none where there are no more.
fn split<T: Copy>(items: &[T], n: usize) -> (&[T], &[T])
    ensures front { result.0.now ≡ take n items.now }
    ensures rest { result.1.now ≡ drop n items.now }
{
    items.split_at(n.min(items.len()))
}

/// Step 1: the cards that stay in the deck.
fn after_foundations(alloc: Global, rules: &Rules, deck: &[Card]) -> Result<Vec<Card>, AllocError>
    ensures { IfOk result (λ cards. cards.items ≡ after_foundations rules.now deck.now) }
{
    if !rules.goal().is_started() {
        return Vec::from_slice(alloc, deck);
    }
    let base = rules.goal().base();
    let mut cards = Vec::new(alloc);
    for card in deck {
        if card.rank() != base {
            cards.push(*card)?;
        }
    }
    Ok(cards)
}

/// Step 1: the height of each foundation.
fn dealt_heights(alloc: Global, rules: &Rules) -> Result<Items<u8>, AllocError>
    ensures { IfOk result (λ heights. heights ≡ dealt_heights rules.now) }
{
    let height = u8::from(rules.goal().is_started());
    let heights = vec![in alloc; height; usize::from(rules.foundation_count())]?;
    Ok(Items::from_vec(heights))
}

/// The place of the first card that is this one.
fn first_place(cards: &[Card], card: Card) -> Option<usize>
    ensures found { IfSome result (λ at. (at < length cards.now)
        × (without_first card cards.now ≡ take at cards.now ++ drop (at + 1) cards.now)) }
    ensures none { IfNone result (without_first card cards.now ≡ cards.now) }
{
    for (at, next) in cards.iter().enumerate() {
        if *next == card {
            return Some(at);
        }
    }
    None
}

/// Takes the first card that is this one out of the list.
fn take_out(cards: &mut Vec<Card>, card: Card)
    ensures { cards.new.items ≡ without_first card cards.old.items }
{
    if let Some(at) = first_place(cards.as_slice(), card) {
        let _ = cards.remove(at);
    }
}

/// Step 2: takes the card of the hole out of the list, and gives the hole.
fn take_hole(
    alloc: Global,
    rules: &RuleParts,
    cards: &mut Vec<Card>,
) -> Result<Items<Card>, AllocError>
    ensures hole { IfOk result (λ hole. hole ≡ dealt_hole rules.now.goal cards.old.items) }
    ensures beside { OnOk result (cards.new.items ≡ beside_hole rules.now.goal cards.old.items) }
{
    let mut hole = Items::new(alloc);
    match rules.goal {
        Goal::Hole {
            start: HoleStart::Dealt,
            ..
        } => {
            if !cards.is_empty() {
                hole.push(cards.remove(0))?;
            }
        }
        Goal::Hole {
            start: HoleStart::Named(card),
            ..
        } => {
            take_out(cards, card);
            hole.push(card)?;
        }
        Goal::Foundations { .. } | Goal::Sequences => {}
    }
    Ok(hole)
}

/// An entry for each card.
fn entries(alloc: Global, cards: &[Card]) -> Result<Vec<Option<Card>>, AllocError>
    ensures { IfOk result (λ entries. entries.items ≡ map (λ card. Some card) cards.now) }
{
    cards.iter().map(|card| Some(*card)).collect(alloc)
}

/// Step 3: the cells, of which these cards fill the first.
fn cells_with(alloc: Global, cells: u8, cards: &[Card]) -> Result<Items<Option<Card>>, AllocError>
    requires { length cards.now ≤ cells }
    ensures { IfOk result
        (λ entries. entries ≡ filled cells None (map (λ card. Some card) cards.now)) }
{
    let mut entries = entries(alloc, cards)?;
    entries.resize(usize::from(cells), None)?;
    Ok(Items::from_vec(entries))
}

/// The parts of the board on which the deck is laid out.
fn laid_out(alloc: Global, rules: &Rules, deck: &[Card]) -> Result<BoardParts, AllocError>
    requires few { length deck.now ≤ 104 }
    requires no_rows { is_sequence_goal rules.now.goal ≡ false }
    ensures { IfOk result (λ parts. parts ≡ parts_of rules.now (laid_out rules.now deck.now)) }
{
    let mut deck = after_foundations(alloc, rules, deck)?;
    let hole = take_hole(alloc, &rules.parts(), &mut deck)?;
    let (in_cells, rest) = split(deck.as_slice(), usize::from(rules.cells_filled()));
    let (in_reserve, rest) = split(rest, usize::from(rules.reserve()));
    let (in_stock, rest) = split(rest, usize::from(rules.stock()));
    let tableau = piles_laid(alloc, rules.layout(), rules.piles(), rest)?;
    let face_down = face_down_of(alloc, rules.face(), tableau.items())?;
    let cells = cells_with(alloc, rules.cells(), in_cells)?;
    let reserve = entries(alloc, in_reserve)?;
    let stock = Items::from_slice(alloc, in_stock)?;
    let foundations = dealt_heights(alloc, rules)?;
    Ok(BoardParts {
        tableau,
        face_down,
        cells,
        reserve: Items::from_vec(reserve),
        stock,
        waste: Items::new(alloc),
        redeals_left: rules.redeals().most_left(),
        foundations,
        hole,
        rows: Items::new(alloc),
    })
}

/// The slot of a card: each ace becomes a gap.
fn slot_for(card: Card) -> Option<Card>
    ensures { result ≡ slot_for card }
{
    if card.rank() == 1 { None } else { Some(card) }
}

/// The slots, which the deck fills in order.
fn slots_for(alloc: Global, deck: &[Card]) -> Result<Vec<Option<Card>>, AllocError>
    ensures { IfOk result (λ slots. slots.items ≡ map slot_for deck.now) }
{
    deck.iter().map(|card| slot_for(*card)).collect(alloc)
}

/// The rows, whose slots the deck fills in order.
fn rows_of(
    alloc: Global,
    rules: &Rules,
    deck: &[Card],
) -> Result<Items<Items<Option<Card>>>, AllocError>
    ensures { IfOk result (λ rows. rows ≡ map (row_at rules.now (laid_in_rows rules.now deck.now))
        (range_with_len 0 (row_count rules.now))) }
{
    let slots = slots_for(alloc, deck)?;
    let mut rows = Items::new(alloc);
    let mut rest = slots.as_slice();
    for _ in 0..rules.row_count() {
        let (row, others) = split(rest, usize::from(rules.max_rank()));
        rows.push(Items::from_slice(alloc, row)?)?;
        rest = others;
    }
    Ok(rows)
}

/// The parts of the board that the deck fills with rows.
fn laid_in_rows(alloc: Global, rules: &Rules, deck: &[Card]) -> Result<BoardParts, AllocError>
    ensures { IfOk result (λ parts. parts ≡ parts_of rules.now (laid_in_rows rules.now deck.now)) }
{
    Ok(BoardParts {
        tableau: Items::new(alloc),
        face_down: Items::new(alloc),
        cells: Items::new(alloc),
        reserve: Items::new(alloc),
        stock: Items::new(alloc),
        waste: Items::new(alloc),
        redeals_left: rules.redeals().most_left(),
        foundations: Items::new(alloc),
        hole: Items::new(alloc),
        rows: rows_of(alloc, rules, deck)?,
    })
}

/// The parts of the board of a deck.
pub fn parts_of_deck(alloc: Global, rules: &Rules, deck: &[Card]) -> Result<BoardParts, AllocError>
    requires { length deck.now ≤ 104 }
    ensures { IfOk result (λ parts. parts ≡ parts_of rules.now (board_of_deck rules.now deck.now)) }
{
    if matches!(rules.goal(), Goal::Sequences) {
        laid_in_rows(alloc, rules, deck)
    } else {
        laid_out(alloc, rules, deck)
    }
}
