//! From a seed to a board.
ghost use Rattle.std.specs.Prelude.{IsPermutation, ◌≡◌, ◌⊎◌, ◌≤◌, length, Some, None, IfOk, IfErr};
ghost use Rattle.game_rules.specs.Belonging.{Belongs};
ghost use Rattle.seed_deal.specs.Seeds.{seed_board, seed_fault};
ghost use Rattle.seed_deal.specs.Shuffle.{deck_in_order, shuffled_deck};
ghost use Rattle.seed_deal.specs.Starts.{HasStart};

use crate::deck::deck_in_order;
use crate::fault::{SeedFault, seed_fault};
use crate::layout::parts_of_deck;
use crate::shuffle::shuffle;
use card_piles::Card;
use game_model::{Board, BoardFault, Goal, HoleStart, RuleParts, Rules};
use rand_pcg::Lcg64Xsh32;
use std::alloc::{AllocError, Global};

/// The stream of the generator.
const STREAM: u64 = 54;

/// The deck that the seed shuffles.
fn shuffled_deck(alloc: Global, rules: &Rules, seed: u64) -> Result<Vec<Card>, AllocError>
    ensures deck { IfOk result (λ deck. deck.items ≡ shuffled_deck rules.now seed) }
    ensures cards { IfOk result (λ deck. IsPermutation (deck_in_order rules.now) deck.items) }
    ensures few { IfOk result (λ deck. length deck.items ≤ 104) }
{
    let _ = rules.max_rank();
    let mut deck = deck_in_order(alloc, rules)?;
    let mut words = Lcg64Xsh32::new(seed, STREAM);
    shuffle(&mut words, deck.as_mut_slice());
    Ok(deck)
}

/// Reads the card that the hole begins with, which has one of the thirteen ranks.
fn read_start(rules: &RuleParts)
    ensures { HasStart rules.now.goal }
{
    match rules.goal {
        Goal::Hole {
            start: HoleStart::Named(card),
            ..
        } => {
            let _ = card.rank();
        }
        Goal::Hole {
            start: HoleStart::Dealt,
            ..
        } => {}
        Goal::Foundations { .. } => {}
        Goal::Sequences => {}
    }
}

/// The board that a seed deals under the rules: the decks in order, shuffled by the words of PCG's
/// generator XSH RR 64/32 at this seed and the stream 54, and laid out in seven steps.
///
/// The same rules and seed give the same board for ever. It answers `TooFewCards` where the layout
/// needs more cards than the decks have, `TooManyCards` where a card is left and there is no pile to
/// lay it on, whatever the seed, and `Memory` where memory is refused.
pub fn deal_from_seed(alloc: Global, rules: &Rules, seed: u64) -> Result<Board, SeedFault>
    ensures board { IfOk result (λ board. board ≡ seed_board rules.now seed) }
    ensures right { IfOk result (λ board. seed_fault rules.now ≡ None) }
    ensures belongs { IfOk result (λ board. Belongs rules.now board) }
    ensures fault { IfErr result
        (λ fault. (fault ≡ SeedFault.Memory) ⊎ (seed_fault rules.now ≡ Some fault)) }
{
    read_start(&rules.parts());
    if let Some(fault) = seed_fault(rules) {
        return Err(fault);
    }
    let deck = shuffled_deck(alloc, rules, seed)?;
    let parts = parts_of_deck(alloc, rules, deck.as_slice())?;
    match Board::new(alloc, rules, parts) {
        Ok(board) => Ok(board),
        Err(fault) => match fault {
            BoardFault::Memory => Err(SeedFault::Memory),
            _ => unreachable!(),
        },
    }
}
