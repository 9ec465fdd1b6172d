//! Laws over boards that are the same and over keys, each the contract of a function that does nothing.
ghost use Rattle.std.specs.Prelude.{◌≡◌, ℕ, ◌+◌, ◌<◌, ◌≤◌, ◌↔◌, length, if◌then◌else◌};
ghost use Rattle.std.specs.List.{All};
ghost use Rattle.card_piles.specs.declared.Suit.{Suit};
ghost use Rattle.card_piles.specs.Cards.{is_red};
ghost use Rattle.game_rules.specs.declared.RuleParts.{RuleParts};
ghost use Rattle.game_rules.specs.declared.Move.{Move};
ghost use Rattle.game_rules.specs.Playable.{IsPlayable};
ghost use Rattle.game_rules.specs.Board.{Board};
ghost use Rattle.game_rules.specs.Play.{Legal, after};
ghost use Rattle.game_rules.specs.Winning.{Wins};
ghost use Rattle.game_rules.specs.Belonging.{Belongs};
ghost use Rattle.same_boards.specs.Same.{Same};
ghost use Rattle.same_boards.specs.Keys.{key_bytes, card_byte};
ghost use Rattle.same_boards.specs.Colours.{SameColours, coloured};
ghost use Rattle.same_boards.specs.ColourKeys.{colour_key_bytes};

/// Being the same is an equivalence.
pub fn being_the_same_is_an_equivalence()
    ensures itself { (rules : RuleParts) (a : Board) → Same rules a a }
    ensures back { (rules : RuleParts) (a b : Board) → Same rules a b → Same rules b a }
    ensures onward { (rules : RuleParts) (a b c : Board) → Same rules a b → Same rules b c
        → Same rules a c }
{}

/// Boards that are the same win within the same numbers of moves.
pub fn same_boards_win_alike()
    ensures within { (rules : RuleParts) (a b : Board) (n : ℕ) → IsPlayable rules
        → Belongs rules a → Belongs rules b → Same rules a b → Wins rules n a ↔ Wins rules n b }
{}

/// Of two boards that are the same, each legal move of one has a legal move of the other, and the boards after them
/// are the same.
pub fn same_boards_move_alike()
    ensures moves { (rules : RuleParts) (a b : Board) (move : Move) → IsPlayable rules
        → Belongs rules a → Belongs rules b → Same rules a b → Legal rules a move
        → (other : Move) × Legal rules b other × Same rules (after rules a move)
        (after rules b other) }
{}

/// Two boards of the same rules have one key exactly if they are the same.
pub fn keys_tell_boards_apart()
    ensures key { (rules : RuleParts) (a b : Board) → IsPlayable rules
        → Belongs rules a → Belongs rules b
        → (key_bytes rules a ≡ key_bytes rules b) ↔ Same rules a b }
{}

/// A key has at most 157 numbers, and each is a byte.
pub fn keys_are_short()
    ensures few { (rules : RuleParts) (board : Board) → IsPlayable rules → Belongs rules board
        → length (key_bytes rules board) ≤ 157 }
    ensures bytes { (rules : RuleParts) (board : Board) → IsPlayable rules → Belongs rules board
        → All (λ byte. byte < 256) (key_bytes rules board) }
{}

/// Being the same up to the suits of a colour is an equivalence.
pub fn same_colours_are_an_equivalence()
    ensures itself { (rules : RuleParts) (a : Board) → SameColours rules a a }
    ensures back { (rules : RuleParts) (a b : Board) → SameColours rules a b → SameColours rules b a }
    ensures onward { (rules : RuleParts) (a b c : Board)
        → SameColours rules a b → SameColours rules b c → SameColours rules a c }
{}

/// A card's byte in a colour key is its rank, and 13 more if the card is red.
pub fn a_colour_byte_tells_colour_and_rank()
    ensures byte { (suit : Suit) (rank : ℕ) → 1 ≤ rank
        → card_byte (coloured (record { suit = suit; rank = rank }))
        ≡ (if is_red suit then rank + 13 else rank) }
{}

/// Two boards of the same rules have one colour key exactly if they are the same up to the suits of a colour.
pub fn colour_keys_tell_boards_apart()
    ensures key { (rules : RuleParts) (a b : Board) → IsPlayable rules
        → Belongs rules a → Belongs rules b
        → (colour_key_bytes rules a ≡ colour_key_bytes rules b) ↔ SameColours rules a b }
{}

/// A colour key has at most 157 numbers, and each is a byte.
pub fn colour_keys_are_short()
    ensures few { (rules : RuleParts) (board : Board) → IsPlayable rules → Belongs rules board
        → length (colour_key_bytes rules board) ≤ 157 }
    ensures bytes { (rules : RuleParts) (board : Board) → IsPlayable rules → Belongs rules board
        → All (λ byte. byte < 256) (colour_key_bytes rules board) }
{}
