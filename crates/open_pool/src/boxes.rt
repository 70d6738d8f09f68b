// Tests on boxes.
ghost use Rattle.std.specs.Prelude.{◌≡◌, ◌<◌, true, false, length, Some};
ghost use Rattle.int_model.specs.Boxes.{below_cut, above_cut};
ghost use Rattle.certs.specs.Trees.{splits_inside};

use int_model::PointBox;

fn are_same(a: &[i32], b: &[i32]) -> bool
    ensures yes { result ≡ true → a.now ≡ b.now }
    ensures no { a.now ≡ b.now → result ≡ true }
{
    a == b
}

/// Whether both are the same box.
pub fn is_same_box(a: &PointBox, b: &PointBox) -> bool
    ensures yes { result ≡ true → a.now ≡ b.now }
    ensures no { result ≡ false → a.now ≡ b.now → ⊥ }
{
    are_same(a.lows(), b.lows()) && are_same(a.highs(), b.highs())
}

/// Whether both parts of a cut of the box at this column and value have numbers in the column.
pub(crate) fn is_inside(hull: &PointBox, column: u32, value: i32) -> bool
    requires { column < length hull.now }
    ensures { result ≡ splits_inside (Some hull.now) column value }
{
    let j = column as usize;
    hull.lows()[j] <= value && value < hull.highs()[j]
}

/// Whether two boxes are the parts of a box at this column and value. The box is lost.
pub(crate) fn are_cut(
    hull: &mut PointBox,
    column: u32,
    value: i32,
    left: &PointBox,
    right: &PointBox,
) -> bool
    requires column { column < length hull.old }
    requires inside { splits_inside (Some hull.old) column value ≡ true }
    ensures count { length hull.new ≡ length hull.old }
    ensures yes { result ≡ true → (left.now ≡ below_cut hull.old column value) × (right.now ≡ above_cut hull.old column value) }
    ensures no { result ≡ false → left.now ≡ below_cut hull.old column value → right.now ≡ above_cut hull.old column value → ⊥ }
{
    let j = column as usize;
    let low = hull.lows()[j];
    let high = hull.highs()[j];
    hull.set(column, low, value);
    let is_left = is_same_box(hull, left);
    hull.set(column, value + 1, high);
    let is_right = is_same_box(hull, right);
    is_left && is_right
}
