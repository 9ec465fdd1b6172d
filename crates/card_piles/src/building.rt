//! Which card builds on which.

ghost use Rattle.std.specs.Prelude.{◌≡◌};
ghost use Rattle.card_piles.specs.Builds.{builds_on, suits_fit};

use crate::{Build, Card, Suit};

/// Whether the suits fit `build`, where a card of the one is put on a card of the other.
pub fn suits_fit(build: Build, upper: Suit, lower: Suit) -> bool
    ensures { result ≡ suits_fit build upper lower }
{
    match build {
        Build::NoBuild => false,
        Build::AnySuit => true,
        Build::RedBlack => upper.is_red() != lower.is_red(),
        Build::SameSuit => upper.place() == lower.place(),
    }
}

/// Whether `upper` builds on `lower`, in a game with the ranks 1 to `max_rank`.
///
/// Its rank is one below that of `lower`, or `wrap` is on and the greatest rank goes on an ace; and
/// the suits fit `build`.
pub fn builds(build: Build, wrap: bool, max_rank: u8, upper: Card, lower: Card) -> bool
    ensures { result ≡ builds_on build wrap max_rank upper lower }
{
    let next = upper.rank() + 1 == lower.rank();
    let wrapped = wrap && upper.rank() == max_rank && lower.rank() == 1;
    (next || wrapped) && suits_fit(build, upper.suit(), lower.suit())
}
