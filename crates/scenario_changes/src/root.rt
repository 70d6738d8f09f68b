// The least and the greatest of sides, place by place.
ghost use Rattle.std.specs.Prelude.{◌≡◌, length, IfOk};
ghost use Rattle.scenario_changes.specs.Problems as spec;

use std::alloc::{AllocError, Global};

/// The lesser number at each place.
pub(crate) fn lesser(alloc: Global, items: &[i32], others: &[i32]) -> Result<Vec<i32>, AllocError>
    requires { length items.now ≡ length others.now }
    ensures { IfOk result (λ numbers. numbers.items ≡ spec.lesser items.now others.now) }
{
    let mut numbers = Vec::new(alloc);
    for k in 0..items.len() {
        numbers.push(items[k].min(others[k]))?;
    }
    Ok(numbers)
}

/// The greater number at each place.
pub(crate) fn greater(alloc: Global, items: &[i32], others: &[i32]) -> Result<Vec<i32>, AllocError>
    requires { length items.now ≡ length others.now }
    ensures { IfOk result (λ numbers. numbers.items ≡ spec.greater items.now others.now) }
{
    let mut numbers = Vec::new(alloc);
    for k in 0..items.len() {
        numbers.push(items[k].max(others[k]))?;
    }
    Ok(numbers)
}
