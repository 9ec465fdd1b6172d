//! What a deal file gives of a position.
use card_piles::Card;
use item_list::Items;

/// The parts of a position as a file gives them, with its numbers of any size.
#[derive(Debug, Drop)]
pub struct DealParts {
    pub tableau: Items<Items<Card>>,
    /// None where the file does not say which cards lie face down.
    pub face_down: Option<Items<u64>>,
    pub cells: Items<Option<Card>>,
    pub reserve: Items<Option<Card>>,
    pub stock: Items<Card>,
    pub waste: Items<Card>,
    pub redeals_left: u64,
    pub foundations: Items<u64>,
    pub hole: Items<Card>,
    pub rows: Items<Items<Option<Card>>>,
}
