//! The names of cards and parts as text.
ghost use Rattle.std.specs.Prelude.{◌≡◌};
ghost use Rattle.card_piles.specs.CardText.{text_of_card};
ghost use Rattle.deal_reader.specs.FaultText.{part_text};

use card_piles::Card;
use game_rules::Part;

/// The bytes of a card's text as text.
pub fn card_name(card: Card, bytes: &[u8]) -> &str
    requires { bytes.now ≡ text_of_card card }
    ensures { result.now ≡ text_of_card card }
{
    // The call says that the rank is one of a card, so that its text is one.
    let _ = card.rank();
    match str::from_utf8(bytes) {
        Ok(name) => name,
        Err(_) => "",
    }
}

/// The name of a part in a fault's text.
pub fn part_name(part: Part) -> &'static str
    ensures { result.now ≡ part_text part }
{
    match part {
        Part::Tableau => "tableau",
        Part::FaceDown => "face-down",
        Part::Cells => "cells",
        Part::Reserve => "reserve",
        Part::Stock => "stock",
        Part::Waste => "waste",
        Part::RedealsLeft => "redeals-left",
        Part::Foundations => "foundations",
        Part::Hole => "hole",
        Part::Rows => "rows",
    }
}
