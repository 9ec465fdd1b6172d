//! Whether a table is won.
ghost use Rattle.std.specs.Prelude.{◌≡◌, ◌<◌, ◌+◌, ◌*◌, ◌-◌, ◌&&◌, ◌==◌, take, length, is_none, None, if◌then◌else◌};
ghost use Rattle.game_rules.specs.Board.{entry_at};
ghost use Rattle.std.specs.List.{list_all, range_with_len};
ghost use Rattle.game_rules.specs.Play.{is_empty};
ghost use Rattle.game_rules.specs.Belonging.{Belongs};
ghost use Rattle.game_rules.specs.Winning.{row_at, rows_of, is_in_sequence, is_won};
ghost use Rattle.game_model.specs.Rows.{goes_next};

use crate::rules::Rules;
use crate::table::Table;
use card_piles::Card;
use game_rules::Goal;

/// Whether the card goes right of the one to its left in a row, or first where there is none.
fn goes_next(left: Option<Card>, card: Option<Card>) -> bool
    ensures { result ≡ goes_next left card }
{
    match card {
        None => false,
        Some(card) => match left {
            None => card.rank() == 2,
            Some(left) => {
                left.suit().place() == card.suit().place() && left.rank() + 1 == card.rank()
            }
        },
    }
}

/// Whether a column of a row holds the card that goes right of the one before it.
fn is_column_in_order<T: Table>(table: &T, start: u8, column: u8) -> bool
    requires here { start + column < length (T.board table.now).slots }
    requires fits { start + column < 256 }
    ensures { result ≡ goes_next (if column == 0 then None else entry_at (T.board table.now).slots
        (start + column - 1)) (entry_at (T.board table.now).slots (start + column)) }
{
    let card = table.slot(start + column);
    if column == 0 {
        goes_next(None, card)
    } else {
        goes_next(table.slot(start + column - 1), card)
    }
}

/// Whether a row holds its cards in order, in all columns but the last.
fn is_row_in_order<T: Table>(rules: &Rules, table: &T, row: u8) -> bool
    requires slots { length (T.board table.now).slots ≡ 4 * rules.now.decks * rules.now.max_rank }
    requires row { row < 4 * rules.now.decks }
    ensures { result ≡ is_in_sequence
        (take (rules.now.max_rank - 1) (row_at rules.now (T.board table.now) row)) }
{
    let columns = rules.max_rank();
    let start = row * columns;
    for column in 0..columns - 1 {
        if !is_column_in_order(table, start, column) {
            return false;
        }
    }
    true
}

fn are_rows_in_order<T: Table>(rules: &Rules, table: &T) -> bool
    requires { length (T.board table.now).slots ≡ 4 * rules.now.decks * rules.now.max_rank }
    ensures { result ≡ list_all (λ row. is_in_sequence (take (rules.now.max_rank - 1) row))
        (rows_of rules.now (T.board table.now)) }
{
    let _ = rules.max_rank();
    for row in 0..4 * rules.decks() {
        if !is_row_in_order(rules, table, row) {
            return false;
        }
    }
    true
}

fn are_piles_empty<T: Table>(rules: &Rules, table: &T) -> bool
    requires { length (T.board table.now).piles ≡ rules.now.piles }
    ensures { result ≡ list_all (λ pile. is_empty pile.cards) (T.board table.now).piles }
{
    for i in 0..rules.piles() {
        if table.size(i) != 0 {
            return false;
        }
    }
    true
}

fn are_cells_empty<T: Table>(rules: &Rules, table: &T) -> bool
    requires { length (T.board table.now).cells ≡ rules.now.cells }
    ensures { result ≡ list_all (λ e. is_none e) (T.board table.now).cells }
{
    for i in 0..rules.cells() {
        if table.cell(i).is_some() {
            return false;
        }
    }
    true
}

fn are_entries_empty<T: Table>(table: &T) -> bool
    requires { length (T.board table.now).reserve < 256 }
    ensures { result ≡ list_all (λ e. is_none e) (T.board table.now).reserve }
{
    for i in 0..table.entry_count() as u8 {
        if table.entry(i).is_some() {
            return false;
        }
    }
    true
}

/// Whether the table is won: in a game of sequences each row holds the cards of one suit in
/// order from the two, in all columns but the last; in every other game no card lies in
/// tableau, cells, reserve, stock or waste.
pub fn is_won<T: Table>(rules: &Rules, table: &T) -> bool
    requires { Belongs rules.now (T.board table.now) }
    ensures { result ≡ is_won rules.now (T.board table.now) }
{
    let _ = rules.max_rank();
    match rules.goal() {
        Goal::Sequences => are_rows_in_order(rules, table),
        Goal::Foundations { .. } | Goal::Hole { .. } => {
            are_piles_empty(rules, table)
                && are_cells_empty(rules, table)
                && are_entries_empty(table)
                && table.stock_size() == 0
                && table.waste_top().is_none()
        }
    }
}
