// Whether a point is feasible, and its value.
ghost use Rattle.std.specs.Prelude.{◌≡◌, ◌↔◌, ◌≤◌, ◌^◌, ◌*ℤ◌, ℤ, IsTrue, length, map, All, unsigned_abs, slice_index_or};
ghost use Rattle.int_model.specs.Limits.{IsBound, IsEntry};
ghost use Rattle.int_model.specs.Integers.{dot};
ghost use Rattle.int_model.specs.Boxes.{box_of, InBox};
ghost use Rattle.int_model.specs.Programs.{AreTerms, CostsWithin, IsBetween, MeetsRows};
ghost use Rattle.int_model.specs.Programs as spec;
ghost use Rattle.int_model.specs.declared.model.Row.{Row};

use int_model::{Ends, Model};

// Whether each number lies between its low and its high.
pub(crate) fn lies_within(lows: &[i32], highs: &[i32], x: &[i32]) -> bool
    requires { length lows.now ≡ length highs.now }
    ensures { IsTrue result ↔ InBox (box_of lows.now highs.now) x.now }
{
    if x.len() != lows.len() {
        return false;
    }
    are_between(lows, highs, x)
}

// The same of as many numbers as there are sides.
fn are_between(lows: &[i32], highs: &[i32], x: &[i32]) -> bool
    requires sides { length lows.now ≡ length highs.now }
    requires point { length lows.now ≡ length x.now }
    ensures { IsTrue result ↔ InBox (box_of lows.now highs.now) x.now }
{
    for j in 0..x.len() {
        if x[j] < lows[j] {
            return false;
        }
        if highs[j] < x[j] {
            return false;
        }
    }
    true
}

// A coefficient or a cost times a number of a point.
fn product(coefficient: i64, number: i32) -> i64
    requires coefficient { IsEntry coefficient }
    requires number { IsBound number }
    ensures value { result ≡ coefficient *ℤ number }
    ensures limit { unsigned_abs result ≤ 10 ^ 15 }
{
    coefficient * i64::from(number)
}

// A row's sum at a point.
fn row_sum(terms: &[(u32, i64)], x: &[i32]) -> i64
    requires few { length x.now ≤ 1000 }
    requires terms { AreTerms 0 (length x.now) terms.now }
    requires point { All IsBound x.now }
    ensures value { result ≡ spec.row_sum terms.now x.now }
    ensures limit { unsigned_abs result ≤ 10 ^ 18 }
{
    let mut sum = 0;
    for &(column, coefficient) in terms {
        sum += product(coefficient, x[column as usize]);
    }
    sum
}

// Whether a number lies between ends.
fn is_between(ends: Ends, number: i64) -> bool
    ensures { IsTrue result ↔ IsBetween ends number }
{
    if let Some(lower) = ends.lower {
        if number < lower {
            return false;
        }
    }
    if let Some(upper) = ends.upper {
        if upper < number {
            return false;
        }
    }
    true
}

// Whether each row's sum lies between the row's ends.
pub(crate) fn meets_rows(model: &Model, ends: &[Ends], x: &[i32]) -> bool
    requires ends { length ends.now ≡ length model.now.rows }
    requires columns { length x.now ≡ length model.now.columns }
    requires point { All IsBound x.now }
    ensures { IsTrue result ↔ MeetsRows (map (λ (i : Row). i.terms) model.now.rows) ends.now x.now }
{
    for i in 0..model.rows() {
        let sum = row_sum(model.row(i).terms.as_slice(), x);
        if !is_between(ends[i as usize], sum) {
            return false;
        }
    }
    true
}

// The sum of the costs times the numbers of a point.
pub(crate) fn cost_sum(costs: &[i64], x: &[i32]) -> i64
    requires few { length costs.now ≤ 1000 }
    requires same_length { length costs.now ≡ length x.now }
    requires costs { CostsWithin (10 ^ 9) costs.now }
    requires point { All IsBound x.now }
    ensures value { result ≡ dot costs.now x.now }
    ensures limit { unsigned_abs result ≤ 10 ^ 18 }
{
    let mut sum = 0;
    for j in 0..costs.len() {
        sum += product(costs[j], x[j]);
    }
    sum
}
