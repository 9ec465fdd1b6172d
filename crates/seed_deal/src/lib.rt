//! A deal from a seed: the deck in order, shuffled by a generator's words, and laid out on a board.
//!
//! Means: a seed and rules stand for one board, the same for ever. The words are those of PCG's
//! generator that begins at the seed, and the layout has seven steps.
//! Above: the program relies on `deal_from_seed`, whose board is the definition of the seed and
//! belongs to the rules.
//! Refuses: rules whose layout needs more cards than the decks have, and rules with a card left and
//! no pile to lay it on, each known from the rules alone; for want of memory at any time.
//! Not promised: how well a deck is shuffled, and that a dealt game can be won.
#![tactic(auto)]

mod deal;
mod deck;
mod fault;
mod layout;
mod piles;
mod shuffle;
#[cfg(test)]
mod tests;

pub use deal::deal_from_seed;
pub use fault::SeedFault;
