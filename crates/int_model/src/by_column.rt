// The terms of the rows, put under their columns.
ghost use Rattle.std.specs.Prelude.{◌≡◌, ◌++◌, ◌<◌, ◌≤◌, ℕ, ℤ, All, Vec, IfOk, OnOk, length, map, slice_index_or, vec_len};
ghost use Rattle.std.specs.declared.alloc.Global.{Global as Heap};
ghost use Rattle.int_model.specs.Models.{IsRow};
ghost use Rattle.int_model.specs.declared.model.Row.{Row as RowValue};
ghost use Rattle.int_model.specs.ByColumn.{column_part, IsByColumn};

use crate::Row;
use std::alloc::{AllocError, Global};

// So many columns without terms.
fn empty_columns(alloc: Global, columns: usize) -> Result<Vec<Vec<(u32, i64)>>, AllocError>
    ensures length { IfOk result (λ v. vec_len v ≡ columns) }
    ensures empty { IfOk result (λ v. All (λ c. vec_len c ≡ 0) v.items) }
{
    let mut table = Vec::new(alloc);
    'filling: while table.len() < columns {
        table.push(Vec::new(alloc))?;
    }
    Ok(table)
}

// Puts the terms of row i behind those of the rows before it.
fn add_row(table: &mut Vec<Vec<(u32, i64)>>, i: u32, terms: &[(u32, i64)]) -> Result<(), AllocError>
    requires { All (λ t. t.0 < vec_len table.old) terms.now }
    ensures length { OnOk result (vec_len table.new ≡ vec_len table.old) }
    ensures terms { OnOk result ((j : ℕ) (d : Vec (ℕ × ℤ) Heap) → j < vec_len table.old → (slice_index_or table.new.items j d).items ≡ (slice_index_or table.old.items j d).items ++ column_part j i terms.now) }
{
    for &(column, entry) in terms {
        table[column as usize].push((i, entry))?;
    }
    Ok(())
}

// The terms of each column, beside the numbers of their rows.
pub(crate) fn terms_by_column(
    alloc: Global,
    columns: usize,
    rows: &[Row],
) -> Result<Vec<Vec<(u32, i64)>>, AllocError>
    requires few { length rows.now ≤ 1000 }
    requires rows { All (IsRow columns) rows.now }
    ensures { IfOk result (λ v. IsByColumn columns (map (λ (i : RowValue). i.terms) rows.now) v.items) }
{
    let mut table = empty_columns(alloc, columns)?;
    for (i, row) in rows.iter().enumerate() {
        add_row(&mut table, i as u32, row.terms.as_slice())?;
    }
    Ok(table)
}
