//! The last two steps of a layout: the cards that go to the piles.
ghost use Rattle.std.specs.Prelude.{◌≡◌, ◌≤◌, ◌<◌, ◌-◌, ◌∷◌, ◌++◌, List, map, length, drop, replicate, [], IfOk, OnOk};
ghost use Rattle.std.specs.Prelude.{slice_set, slice_index_or};
ghost use Rattle.std.specs.List.{sum_by};
ghost use Rattle.seed_deal.specs.Layout.{all_laid, laid_on, piles_laid, round_order, triangle_order, turned};

use card_piles::Card;
use game_model::{Face, Layout};
use item_list::Items;
use std::alloc::{AllocError, Global};

fn no_cards(alloc: Global, piles: u8) -> Result<Vec<Items<Card>>, AllocError>
    ensures { IfOk result (λ tableau. tableau.items ≡ replicate piles []) }
{
    let mut tableau = Vec::new(alloc);
    for _ in 0..piles {
        tableau.push(Items::new(alloc))?;
    }
    Ok(tableau)
}

/// Lays a card on a pile.
fn lay_on(tableau: &mut Vec<Items<Card>>, pile: usize, card: Card) -> Result<(), AllocError>
    requires { pile < length tableau.old.items }
    ensures laid { OnOk result (tableau.new.items ≡ slice_set tableau.old.items pile
        (slice_index_or tableau.old.items pile [] ++ card ∷ [])) }
{
    tableau[pile].push(card)?;
    Ok(())
}

/// Lays the rows of a triangle, and gives the cards that remain.
fn lay_rows<'a>(
    tableau: &mut Vec<Items<Card>>,
    piles: u8,
    cards: &'a [Card],
) -> Result<&'a [Card], AllocError>
    requires { length tableau.old.items ≡ piles }
    ensures laid { OnOk result (tableau.new.items ≡ laid_on
        (triangle_order Layout.Triangle piles) cards.now tableau.old.items) }
    ensures all { OnOk result (length tableau.new.items ≡ piles) }
    ensures rest { IfOk result
        (λ rest. rest.now ≡ drop (length (triangle_order Layout.Triangle piles)) cards.now) }
{
    let mut rest = cards;
    for row in 0..piles {
        for pile in row..piles {
            let Some((card, others)) = rest.split_first() else {
                return Ok(rest);
            };
            lay_on(tableau, usize::from(pile), *card)?;
            rest = others;
        }
    }
    Ok(rest)
}

/// Lays the cards on the piles in turn, over and over.
fn lay_in_turn(tableau: &mut Vec<Items<Card>>, piles: u8, cards: &[Card]) -> Result<(), AllocError>
    requires some { 0 < piles }
    requires all { length tableau.old.items ≡ piles }
    ensures { OnOk result (tableau.new.items ≡ laid_on
        (round_order piles (length cards.now)) cards.now tableau.old.items) }
{
    for (k, card) in cards.iter().enumerate() {
        lay_on(tableau, k % usize::from(piles), *card)?;
    }
    Ok(())
}

/// Lays the cards on the piles: in a triangle first row by row, and then in turn.
fn lay_all(
    tableau: &mut Vec<Items<Card>>,
    layout: Layout,
    piles: u8,
    cards: &[Card],
) -> Result<(), AllocError>
    requires some { 0 < piles }
    requires all { length tableau.old.items ≡ piles }
    ensures { OnOk result (tableau.new.items ≡ all_laid layout piles cards.now tableau.old.items) }
{
    let rest = match layout {
        Layout::Even => cards,
        Layout::Triangle => lay_rows(tableau, piles, cards)?,
    };
    lay_in_turn(tableau, piles, rest)
}

/// The cards of each pile, where all of these are laid on the piles. With no pile no card is laid.
pub fn piles_laid(
    alloc: Global,
    layout: Layout,
    piles: u8,
    cards: &[Card],
) -> Result<Items<Items<Card>>, AllocError>
    ensures { IfOk result (λ tableau. tableau ≡ piles_laid layout piles cards.now) }
{
    let mut tableau = no_cards(alloc, piles)?;
    if piles > 0 {
        lay_all(&mut tableau, layout, piles, cards)?;
    }
    Ok(Items::from_vec(tableau))
}

/// How many of these cards of a pile lie face down.
fn face_down(face: Face, cards: &[Card]) -> u8
    requires { length cards.now ≤ 255 }
    ensures { result ≡ (turned face cards.now).face_down }
{
    match face {
        Face::AllUp => 0,
        Face::TopUp => cards.len().saturating_sub(1) as u8,
    }
}

/// How many cards of each pile lie face down: none, or all but the top.
pub fn face_down_of(
    alloc: Global,
    face: Face,
    tableau: &[Items<Card>],
) -> Result<Items<u8>, AllocError>
    requires { sum_by (λ cards. length cards) tableau.now ≤ 255 }
    ensures { IfOk result
        (λ numbers. numbers ≡ map (λ cards. (turned face cards).face_down) tableau.now) }
{
    let mut numbers = Items::new(alloc);
    for cards in tableau {
        numbers.push(face_down(face, cards.items()))?;
    }
    Ok(numbers)
}
