//! Orders of a session, and lists of them.
ghost use Rattle.std.specs.Prelude.{◌≡◌};

use legal_moves::Move;
use std::marker::Model;

/// What a session is told to do.
#[derive(Clone, Copy, Debug, PartialEq, Eq)]
pub enum Order {
    /// Make the move.
    Make(Move),
    /// Take the last standing move back.
    Undo,
    /// Make the last move that was taken back again.
    Redo,
    /// Show the board.
    Show,
    /// Say whether the board is won.
    Solved,
}

/// Orders, one after the other.
#[derive(Debug, Drop)]
pub struct Script {
    orders: Vec<Order>,
}

impl Model for Script {
    ghost use Rattle.std.specs.Prelude.{List};
    ghost use Rattle.play_session.specs.declared.order.Order.{Order};

    ghost Value = { List Order };

    ghost view = { λ script. script.orders.items };
}

impl Script {
    /// The script of these orders, in their order. It takes no memory.
    pub fn from_vec(items: Vec<Order>) -> Script
        ensures { result ≡ items.items }
    {
        Script { orders: items }
    }

    /// The orders, in their order.
    pub fn items(&self) -> &[Order]
        ensures { result.now ≡ self.now }
    {
        self.orders.as_slice()
    }
}
