// Certificates.
ghost use Rattle.std.specs.Prelude.{◌≡◌, ◌≤◌, true, length, All};
ghost use Rattle.std.specs.List.{list_all};
ghost use Rattle.tighten.specs.Steps.{IsStep};
ghost use Rattle.scenario_changes.specs.Problems as problems;
ghost use Rattle.certs.specs.Trees.{cert_fits, step_within, vector_within};
ghost use Rattle.certs.specs.Verdicts.{AllRowsBelow};

use crate::{Steps, Vectors};
use dual_bounds::Vector;
use scenario_changes::Problem;
use tighten::Step;

const MAX_STEPS: usize = 128;

/// A certificate: steps of bound tightening, and vectors of multipliers that verdicts name.
#[derive(Drop)]
pub struct Cert {
    pub steps: Steps,
    pub vectors: Vectors,
}

impl Cert {
    /// Whether there are at most 128 steps, and the rows and columns of the steps and vectors are the
    /// problem's. It is what [`judge`](crate::judge) asks of a certificate, and what a node may record.
    pub fn fits(&self, problem: &Problem) -> bool
        ensures value { result ≡ cert_fits (problems.problem problem.now) self.now }
        ensures steps { result ≡ true → All (IsStep problem.now.model) self.now.steps }
        ensures vectors { result ≡ true → AllRowsBelow (length problem.now.model.rows) self.now.vectors }
    {
        let model = problem.model();
        let rows = model.rows();
        let columns = model.columns();
        let few = self.steps.len() <= MAX_STEPS;
        few && steps_fit(self.steps.as_slice(), rows, columns) && vectors_fit(&self.vectors, rows)
    }
}

fn steps_fit(steps: &[Step], rows: u32, columns: u32) -> bool
    ensures { result ≡ list_all (step_within rows columns) steps.now }
{
    steps
        .iter()
        .all(|step| step.row < rows && step.column < columns)
}

fn entries_fit(vector: &Vector, rows: u32) -> bool
    ensures { result ≡ vector_within rows vector.now }
{
    vector.entries().iter().all(|entry| entry.0 < rows)
}

fn vectors_fit(vectors: &Vectors, rows: u32) -> bool
    ensures value { result ≡ list_all (vector_within rows) vectors.now }
    ensures limit { length vectors.now ≤ 2 }
{
    for k in 0..vectors.len() {
        if let Some(vector) = vectors.get(k)
            && !entries_fit(vector, rows)
        {
            return false;
        }
    }
    true
}
