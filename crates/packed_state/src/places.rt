//! The numbers of the places in the table of links.
ghost use Rattle.std.specs.Prelude.{◌≡◌, ◌<◌, ◌≤◌};
ghost use Rattle.packed_state.specs.Packed.{index_of, source_of, shape_after, shape_before};

use crate::Shape;
use game_rules::Place;

/// The first number of each kind.
pub(crate) const CELLS: usize = 20;

pub(crate) const ENTRIES: usize = 36;

pub(crate) const WASTE: usize = 88;

pub(crate) const STOCK: usize = 89;

pub(crate) const FOUNDATIONS: usize = 90;

pub(crate) const HOLE: usize = 106;

pub(crate) const SLOTS: usize = 107;

/// The number of a place.
pub(crate) fn index_of(place: Place) -> usize
    ensures { result ≡ index_of place }
{
    match place {
        Place::Tableau(i) => usize::from(i),
        Place::Cell(i) => CELLS + usize::from(i),
        Place::Reserve(i) => ENTRIES + usize::from(i),
        Place::Waste => WASTE,
        Place::Foundation(f) => FOUNDATIONS + usize::from(f),
        Place::Hole => HOLE,
        Place::Slot(i) => SLOTS + usize::from(i),
    }
}

/// The number of the place that a card is taken from: a stacked reserve gives that of its last entry.
pub(crate) fn source_of(stacked: bool, shape: &Shape, place: Place) -> usize
    ensures { result ≡ source_of stacked shape.now place }
{
    match place {
        Place::Reserve(_) if stacked => ENTRIES + usize::from(shape.entries.saturating_sub(1)),
        _ => index_of(place),
    }
}

/// The shape after a card was taken from a place: a stacked reserve loses its last entry.
pub(crate) fn shape_after(stacked: bool, shape: &Shape, place: Place) -> Shape
    ensures { result ≡ shape_after stacked shape.now place }
{
    match place {
        Place::Reserve(_) if stacked => Shape {
            entries: shape.entries.saturating_sub(1),
            ..*shape
        },
        _ => *shape,
    }
}

/// The shape before it.
pub(crate) fn shape_before(stacked: bool, shape: &Shape, place: Place) -> Shape
    requires { shape.now.entries < 255 }
    ensures { result ≡ shape_before stacked shape.now place }
{
    match place {
        Place::Reserve(_) if stacked => Shape {
            entries: shape.entries + 1,
            ..*shape
        },
        _ => *shape,
    }
}
