//! Kinds of places.
ghost use Rattle.std.specs.Prelude.{◌≡◌, not};
ghost use Rattle.game_rules.specs.Play.{same_place};
ghost use Rattle.legal_moves.specs.Kinds.{place_in};

use game_rules::Place;

/// A kind of places that are numbered.
#[derive(Clone, Copy)]
pub(crate) enum Kind {
    Piles,
    Cells,
    Entries,
    Foundations,
    Slots,
}

pub(crate) fn place_in(kind: Kind, i: u8) -> Place
    ensures { result ≡ place_in kind i }
{
    match kind {
        Kind::Piles => Place::Tableau(i),
        Kind::Cells => Place::Cell(i),
        Kind::Entries => Place::Reserve(i),
        Kind::Foundations => Place::Foundation(i),
        Kind::Slots => Place::Slot(i),
    }
}

pub(crate) fn are_apart(a: Place, b: Place) -> bool
    ensures { result ≡ not (same_place a b) }
{
    a != b
}
