//! What the slots of a place are, each the contract of a function that does nothing.
ghost use Rattle.std.specs.Prelude.{◌≡◌, ℕ, ◌<◌, ◌≤◌, Some, None};
ghost use Rattle.card_links.specs.Chains.{size_at, slot_at};
ghost use Rattle.game_rules.specs.declared.RuleParts.{RuleParts};
ghost use Rattle.game_rules.specs.Belonging.{Belongs};
ghost use Rattle.packed_state.specs.declared.Spot.{Spot};
ghost use Rattle.packed_state.specs.Packed.{Linked, IsLinked, cards_at, card_of, board_of, is_stacked};
ghost use Rattle.packed_state.specs.Slots.{HasEntries, IsFollowed};
ghost use Rattle.packed_state.specs.Spots.{under_top};

/// Following the links from the top of a place gives as many slots as its size, and no slot is given
/// twice, by this place or another.
pub fn slots_are_apart()
    ensures { (l : Linked) (p q j k : ℕ) → IsLinked l → p < 315 → q < 315
        → j < size_at l.links p → k < size_at l.links q → slot_at l.links p j ≡ slot_at l.links q k
        → (p ≡ q) × (j ≡ k) }
{}

/// Their cards are those of the place, from its top down.
pub fn slots_have_the_cards()
    ensures some { (l : Linked) (p k : ℕ) → k < size_at l.links p
        → under_top (cards_at l p) k ≡ Some (card_of l.cards (slot_at l.links p k)) }
    ensures none { (l : Linked) (p k : ℕ) → size_at l.links p ≤ k → under_top (cards_at l p) k ≡ None }
{}

/// Following `under` from the `top` of a part gives as many slots as its `size`, all different, and
/// their cards are those of `at` at the depths 0, 1 and so on.
pub fn slots_follow_a_part()
    ensures { (l : Linked) (spot : Spot) → IsLinked l → HasEntries l → IsFollowed l spot }
{}

/// A packed board that belongs to rules that stack the reserve as it does has a card in each entry.
pub fn stacked_entries_have_cards()
    ensures { (rules : RuleParts) (l : Linked) → IsLinked l → Belongs rules (board_of l)
        → is_stacked l ≡ rules.stacked → HasEntries l }
{}
