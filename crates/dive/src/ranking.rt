// Orders of columns.
ghost use Rattle.std.specs.Prelude.{◌≤◌, ◌<◌, ℕ, All, IfOk, length};

use std::alloc::{AllocError, Global};

// A column with the key by which it is ordered.
#[derive(Clone, Copy, Debug, PartialEq, Eq, PartialOrd, Ord)]
struct Keyed {
    key: i64,
    column: u32,
}

/// The columns by rising key, and those of one key by number.
pub(crate) fn ranked(alloc: Global, keys: &[i64]) -> Result<Vec<u32>, AllocError>
    requires { length keys.now ≤ 1000 }
    ensures { IfOk result (λ order. All (λ (j : ℕ). j < length keys.now) order.items) }
{
    let mut keyed = Vec::with_capacity(alloc, keys.len())?;
    for (column, key) in keys.iter().enumerate() {
        keyed.push(Keyed {
            key: *key,
            column: column as u32,
        })?;
    }
    keyed.sort_unstable();
    let mut order = Vec::with_capacity(alloc, keys.len())?;
    for item in &keyed {
        order.push(item.column)?;
    }
    Ok(order)
}
