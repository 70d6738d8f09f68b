// Answers to scenarios.
ghost use Rattle.std.specs.Prelude.{◌≡◌, length, slice_get, option_copied};

use int_model::Point;
use std::marker::Model;

/// The answer to a scenario. Values are in the minimised form.
#[derive(Drop)]
pub enum Answer {
    /// No point is feasible.
    Infeasible,
    /// A feasible point, and its value; no feasible point has a smaller one.
    Optimal {
        point: Point,
        value: i64,
    },
    /// The best point that was found, with its value, and a bound below it that no feasible point's value is below.
    Limit {
        best: Option<(Point, i64)>,
        bound: i64,
    },
}

/// An answer for each scenario.
#[derive(Drop)]
pub struct Answers {
    items: Vec<Answer>,
}

impl Model for Answers {
    ghost use Rattle.std.specs.Prelude.{List};
    ghost use Rattle.scenario_changes.specs.declared.answer.Answer.{Answer};

    ghost Value = { List Answer };

    ghost view = { λ a. a.items.items };
}

impl Answers {
    pub fn from_vec(items: Vec<Answer>) -> Answers
        ensures { result ≡ items.items }
    {
        Answers { items }
    }

    pub fn len(&self) -> usize
        ensures { result ≡ length self.now }
    {
        self.items.len()
    }

    pub fn get(&self, k: usize) -> Option<&Answer>
        ensures { option_copied result ≡ slice_get self.now k }
    {
        self.items.get(k)
    }

    pub fn as_slice(&self) -> &[Answer]
        ensures { result.now ≡ self.now }
    {
        &self.items
    }
}
