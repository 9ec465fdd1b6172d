//! What a search answers.

ghost use Rattle.std.specs.Prelude.{◌≡◌};

use std::marker::Model;

/// A list of steps, each made on the state that the one before it led to.
#[derive(Debug, Drop)]
pub struct Trail<T> {
    steps: Vec<T>,
}

impl<T> Model for Trail<T> {
    ghost use Rattle.std.specs.Prelude.{List};
    ghost use Rattle.std.specs.Coded.{coded_list};

    ghost Value = { List T };

    ghost coded = { coded_list T.code };

    ghost view = { λ t. t.steps.items };
}

impl<T> Trail<T> {
    /// The trail of these steps.
    pub fn from_vec(steps: Vec<T>) -> Trail<T>
        ensures { result ≡ steps.items }
    {
        Trail { steps }
    }

    /// The steps in their order.
    pub fn items(&self) -> &[T]
        ensures { result.now ≡ self.now }
    {
        &self.steps
    }

    /// The steps in their order, with no copy of them.
    pub fn into_vec(self) -> Vec<T>
        ensures { result.items ≡ self }
    {
        let Trail { steps } = self;
        steps
    }
}

/// What a search found.
#[derive(Debug, Drop)]
pub enum Found<T> {
    /// The steps lead from the start to a won state.
    Won(Trail<T>),
    /// Every step of every state that was expanded was tried, and none led to a won state.
    Exhausted,
    /// No node was left where a further state was met that is not won and that the memo did not know.
    SpentAll,
}
