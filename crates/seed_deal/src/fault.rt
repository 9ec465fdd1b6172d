//! Why a seed deals no board.
ghost use Rattle.std.specs.Prelude.{◌≡◌, Some};
ghost use Rattle.seed_deal.specs.FaultText.{seed_fault_text};
ghost use Rattle.seed_deal.specs.Seeds.{cards_needed, cards_of_triangle, cards_in_decks, seed_fault};
ghost use Rattle.seed_deal.specs.declared.fault.SeedFault.TheVariants.{Memory};

use game_model::{Goal, Layout, Rules};
use std::alloc::AllocError;
use std::fmt;

/// Why a seed deals no board. All but `Memory` are known from the rules alone.
#[derive(Clone, Copy, Debug, PartialEq, Eq)]
pub enum SeedFault {
    /// Foundations, hole, cells, reserve, stock and triangle need more cards than the decks have.
    TooFewCards,
    /// A card remains, and there is no pile to lay it on.
    TooManyCards,
    /// Memory ran out.
    Memory,
}

impl From<AllocError> for SeedFault {
    ghost from_gives = { λ _ fault. fault ≡ Memory };

    fn from(_: AllocError) -> SeedFault {
        SeedFault::Memory
    }
}

impl fmt::Display for SeedFault {
    ghost output = { λ fault. Some (seed_fault_text fault) };

    fn fmt<W: fmt::Write>(&self, f: &mut fmt::Formatter<W>) -> fmt::Result {
        match self {
            SeedFault::TooFewCards => f.write_str("too-few-cards"),
            SeedFault::TooManyCards => f.write_str("too-many-cards"),
            SeedFault::Memory => f.write_str("memory"),
        }
    }
}

fn cards_in_decks(rules: &Rules) -> u16
    ensures { result ≡ cards_in_decks rules.now }
{
    4 * u16::from(rules.max_rank()) * u16::from(rules.decks())
}

fn cards_of_triangle(layout: Layout, piles: u8) -> u16
    ensures { result ≡ cards_of_triangle layout piles }
{
    match layout {
        Layout::Even => 0,
        Layout::Triangle => u16::from(piles) * (u16::from(piles) + 1) / 2,
    }
}

/// How many cards the steps before the last need.
fn cards_needed(rules: &Rules) -> u16
    ensures { result ≡ cards_needed rules.now }
{
    let _ = rules.max_rank();
    let on_foundations = if rules.goal().is_started() {
        4 * u16::from(rules.decks())
    } else {
        0
    };
    let in_hole = if matches!(rules.goal(), Goal::Hole { .. }) {
        1
    } else {
        0
    };
    on_foundations
        + in_hole
        + u16::from(rules.cells_filled())
        + u16::from(rules.reserve())
        + u16::from(rules.stock())
        + cards_of_triangle(rules.layout(), rules.piles())
}

/// Why no seed deals a board under these rules.
pub fn seed_fault(rules: &Rules) -> Option<SeedFault>
    ensures { result ≡ seed_fault rules.now }
{
    let (needed, there) = (cards_needed(rules), cards_in_decks(rules));
    if matches!(rules.goal(), Goal::Sequences) {
        None
    } else if there < needed {
        Some(SeedFault::TooFewCards)
    } else if rules.piles() == 0 && needed < there {
        Some(SeedFault::TooManyCards)
    } else {
        None
    }
}
